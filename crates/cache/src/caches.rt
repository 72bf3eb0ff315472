// The caches of all cores in 2,560 lent words: slots by place, which is 64 times the core and the slot; and each core's own.
ghost use Rattle.cache.specs.Own.{OwnChooses, OwnFinds, OwnStored, OwnWords, OwnWordsWritten, OwnWritten, PlaceRead, PlaceWritten};

// A core finds and chooses in all caches what it does in its own, and what it writes in its own is written in all; a place is read and written as
// its ten words are.
pub fn caches_of_cores()
    ensures own { (OwnWords) × ((OwnFinds) × ((OwnChooses) × ((OwnWritten) × (OwnStored)))) }
    ensures own_words { OwnWordsWritten }
    ensures places { (PlaceRead) × (PlaceWritten) }
{}
