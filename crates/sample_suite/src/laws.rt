//! A law of samples. The function does nothing: its contract is the law.
ghost use Rattle.sample_suite.specs.Laws.{SamplesAreAccepted};

/// The index of a sample suite has no fault, for every seed and every count from 1 to 200,000.
pub fn samples_are_accepted()
    ensures { SamplesAreAccepted }
{}
