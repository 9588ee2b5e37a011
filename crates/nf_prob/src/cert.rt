// Certificates and the answers of their check.
use crate::fracs::Fracs;
use nf_frac::Frac;

/// What is claimed of a problem, with the numbers that prove it. Values and a ray have one number for each column,
/// and duals one for each row.
#[derive(Drop)]
pub enum Cert {
    /// The values are feasible and none cost less, by the duals.
    Best { values: Fracs, duals: Fracs },
    /// Nothing is feasible: the rows' combination by the duals asks for more than the bounds allow.
    ///
    /// J. Farkas, Theorie der einfachen Ungleichungen, 1902.
    Farkas { duals: Fracs },
    /// Feasible costs have no least: from the feasible values, the ray can be followed without end.
    Ray { values: Fracs, ray: Fracs },
}

/// The first thing that fails. Each kind is looked for by number before the next kind: at `Best` in the order `Bound`,
/// `Row`, `ReducedCost`, `Dual`; at `Farkas` in the order `Dual`, `Column`, `Gap`; at `Ray` in the order `Bound`, `Row`,
/// `RayColumn`, `RayRow`, `Rate`. Numbers of columns and rows count from 1.
#[derive(Clone, Copy, Debug, PartialEq, Eq)]
pub enum Why {
    /// The value of this column is not within its bounds.
    Bound(u32),
    /// The sum of this row does not stand in the row's relation to its right side.
    Row(u32),
    /// The reduced cost of this column is positive and its value not at its lower bound, or negative and its value
    /// not at its upper bound.
    ReducedCost(u32),
    /// The dual of this LE or GE row has the wrong sign, or, at `Best`, is not 0 where the row's sum is not its right
    /// side.
    Dual(u32),
    /// The combined rows have no greatest value within the bounds, since they grow with this column without end.
    Column(u32),
    /// The combined right sides are greater by this much than the greatest value, which is not more than 0.
    Gap(Frac),
    /// A bound of this column stops the ray.
    RayColumn(u32),
    /// The ray's sum in this row does not stand in the row's relation to 0.
    RayRow(u32),
    /// The cost of the ray, which is not negative.
    Rate(Frac),
}

/// The answer of a check.
#[derive(Clone, Copy, Debug, PartialEq, Eq)]
pub enum Checked {
    /// The certificate is valid: with the cost of its values at `Best`, its gap at `Farkas`, its rate at `Ray`.
    Yes(Frac),
    /// The certificate is not valid, for this cause.
    No(Why),
}
