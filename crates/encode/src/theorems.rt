// Theorems about encoding, as the contract of a function.
ghost use Rattle.encode.specs.Laws.{OnlyMisfitsRefused, RoundTrip, WordsFit};

// An instruction that fits is what its word decodes to, and one that does not fit is no word's.
pub fn undoes_decoding()
    ensures { (RoundTrip) × ((WordsFit) × (OnlyMisfitsRefused)) }
{}
