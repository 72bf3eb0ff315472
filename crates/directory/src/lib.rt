// The directory: which cache has which line, and what each core has asked for, in lent words.
#![tactic(auto)]

ghost use Rattle.directory.specs.Laws.{EntryRead, EntryWritten, RequestRead, RequestWritten};

pub mod entry;
pub mod request;

// What is read of a place of the entries, or of the requests, is what is known of it, or what that core has asked for; and so is what is written there.
pub fn tables_of_the_directory()
    ensures entries { (EntryRead) × (EntryWritten) }
    ensures requests { (RequestRead) × (RequestWritten) }
{}
