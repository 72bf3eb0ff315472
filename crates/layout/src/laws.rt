// What parts of numbers and alignments come to.
ghost use Rattle.layout.specs.Laws.{AlignedFirst, Distances, HighLow};

// The parts of a number, or of a distance, make it up again; an alignment goes on to the next multiple.
pub fn operand_laws()
    ensures { (HighLow) × ((Distances) × (AlignedFirst)) }
{}
