// What holds of caches, directory and messages in every run, for every memory, and however lines come and interrupts are raised: each is the contract of a function.
ghost use Rattle.cached.specs.Parts.{AllParts, Always, Fetched, Inside, Owners, Places, PutsOutLittle, RoomForProbes, Rows, Turn, Values};
ghost use Rattle.cached.specs.Range.{StaysInRange};

// All of them, proved in one place.
fn all_hold()
    ensures { AllParts }
{}

// A line is in one cache to write and in no other, or in some to read only; and the directory, with the grants on their way, knows which.
pub fn one_owner_or_readers()
    ensures { Always Owners }
{
    all_hold();
}

// What a cache has is the line of the machines' memory, and memory outside has it where no copy is dirty.
pub fn copies_are_true()
    ensures { Always Values }
{
    all_hold();
}

// A line that comes has a place, which is empty and kept for it.
pub fn lines_have_places()
    ensures { Always Places }
{
    all_hold();
}

// A line on its way from memory is in no cache, and the lines that wait outside are just those.
pub fn fetched_lines_are_nowhere()
    ensures { Always Fetched }
{
    all_hold();
}

// Messages have room in their rows, and are taken once, in the order in which they were sent.
pub fn messages_in_order()
    ensures { (Always Rows) × (RoomForProbes) }
{
    all_hold();
}

// The turn passes from core to core, and only after an instruction of the core whose turn it is, or once that has stopped; till then nobody takes a line from it.
pub fn turn_passes_after_an_instruction()
    ensures { Always Turn }
{
    all_hold();
}

// The lines that wait, that are asked for and that are written are memory's, and there is room in the row for what is asked for.
pub fn lines_are_of_memory()
    ensures { Always Inside }
{
    all_hold();
}

// A cycle asks for one line at most, writes four at most, and does four events at most, whatever the state.
pub fn puts_out_little()
    ensures { PutsOutLittle }
{
    all_hold();
}

// Each number of the state stays one that a word holds, and nothing is ever at a core or a place that is not there.
pub fn state_stays_in_range()
    ensures { StaysInRange }
{
    all_hold();
}
