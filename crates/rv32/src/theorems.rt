// Theorems about one instruction, each as the contract of a function.
ghost use Rattle.rv32.specs.Laws.{InterruptKeepsWords, KeepsWords, NeedsWithin, NoData, NotLetInside, StartsWithWords};
ghost use Rattle.rv32.specs.Laws.{StoresNeeded, SuppliedDoes, TwoWords};

// An instruction depends on memory only at pc and at its data word, which lies inside memory; it stores to the word that it said it needs.
pub fn looks_at_two_words()
    ensures { (TwoWords) × ((NoData) × ((SuppliedDoes) × ((NeedsWithin) × (StoresNeeded)))) }
{}

// Registers stay words below 2^32, and x0 stays 0.
pub fn keeps_words()
    ensures { (KeepsWords) × ((InterruptKeepsWords) × ((StartsWithWords) × (NotLetInside))) }
{}
