//! Linear programs and certificates: definitions, and the laws that a valid certificate proves what it claims.
#![tactic(auto)]

ghost use Rattle.nf_model.specs.Certificate.{ValidBestIsBest};
ghost use Rattle.nf_model.specs.Farkas.{ValidFarkasMeansNone};
ghost use Rattle.nf_model.specs.Ray.{ValidRayMeansNoLeast};

/// How a row's sum stands to its right side: equal, at most, or at least.
#[derive(Clone, Copy, Debug, PartialEq, Eq)]
pub enum RowKind {
    Eq,
    Le,
    Ge,
}

/// The law of duality: values and duals that are a valid certificate are feasible values of least cost.
///
/// Weak duality with complementary slackness (G. B. Dantzig, Linear Programming and Extensions, 1963, chapter 6).
/// It computes nothing: a caller's proof cites its clause.
pub fn valid_best_is_best()
    ensures law { ValidBestIsBest }
{}

/// The law of infeasibility: where there are duals that are a valid certificate, no values are feasible.
///
/// J. Farkas, Theorie der einfachen Ungleichungen, 1902, with bounds. It computes nothing: a caller's proof cites its
/// clause.
pub fn valid_farkas_means_none()
    ensures law { ValidFarkasMeansNone }
{}

/// The law of unbounded costs: from feasible values, a direction that is a valid certificate leads to feasible values
/// of a cost below any number.
///
/// G. B. Dantzig, Linear Programming and Extensions, 1963, chapter 6. It computes nothing: a caller's proof cites its
/// clause.
pub fn valid_ray_means_no_least()
    ensures law { ValidRayMeansNoLeast }
{}
