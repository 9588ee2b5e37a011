//! Where an operation of a run may overflow.
ghost use Rattle.nf_no_range.specs.Law.{RangeIsOfStageTwo, RangeNeverInStageOne};

/// If the data are amounts and not too many, an operation that overflows in a run arises from a state of stage two: never
/// at the start, in stage one, in the check of a certificate of stage one, or as stage two starts.
pub fn range_never_in_stage_one()
    ensures law { RangeIsOfStageTwo }
    ensures one_stage { RangeNeverInStageOne }
{}
