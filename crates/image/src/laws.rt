// Laws of the formats, each proved for all bytes. The functions do nothing: their contracts are the laws.
ghost use Rattle.image.specs.ChoiceLaws.{AllWrittenChoicesAreTaken, OnlyWrittenChoicesAreTaken, OthersAreDown, FaultIsFirst};
ghost use Rattle.image.specs.MemoryLaws.{AllImagesAreTaken, OnlyImagesAreTaken, LowestFaultRefuses, WrittenIsRead, WordsByPlace};

// A memory is taken if and only if it has the format; else the lowest fault refuses it. One that is written out is read as it was.
pub fn memory_laws()
    ensures all { AllImagesAreTaken }
    ensures only { OnlyImagesAreTaken }
    ensures lowest { LowestFaultRefuses }
    ensures again { WrittenIsRead }
    ensures words { WordsByPlace }
{}

// Choices are taken if and only if they have the format; else the first byte in fault refuses them.
pub fn choice_laws()
    ensures all { AllWrittenChoicesAreTaken }
    ensures only { OnlyWrittenChoicesAreTaken }
    ensures others { OthersAreDown }
    ensures first { FaultIsFirst }
{}
