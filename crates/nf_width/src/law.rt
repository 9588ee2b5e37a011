//! The range law of stage one.
ghost use Rattle.nf_width.specs.Fits.{StageOneFits, StageOneLoadsFit};

/// No operation that arises from a basis of stage one overflows 128 bits, if the data of the problem are amounts and not
/// too many; nor does one that arises in a load of such a basis. So a network without constraints and with such data is
/// never refused for its numbers.
pub fn stage_one_fits()
    ensures law { StageOneFits }
    ensures loads { StageOneLoadsFit }
{}
