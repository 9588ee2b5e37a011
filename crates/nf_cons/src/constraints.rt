//! The constraints that are read of CONDATA.
use crate::taken::SideRow;
use crate::terms::Terms;
use crate::variables::Variables;
use nf_cells::Names;

/// The variables, the names of all rows, the constraints that are rows of the problem, and the values that rows give
/// variables.
pub struct Constraints {
    pub variables: Variables,
    pub names: Names,
    pub sides: Vec<SideRow>,
    pub terms: Terms,
}

// A function of its own, so that the proofs of callers do not go through its parts.
impl Drop for Constraints {
    fn drop(self) {
        let Constraints {
            variables: _,
            names: _,
            sides: _,
            terms: _,
        } = self;
    }
}
