//! The law of what the check of a state's certificate may pass at.
ghost use Rattle.nf_certify.specs.Laws.{ChecksArise};

/// Each operation that passes 128 bits in the check of a state's certificate arises from the state. So where `verify`
/// passes at a verdict, the cause is in the state of that verdict.
pub fn checks_arise()
    ensures law { ChecksArise }
{}
