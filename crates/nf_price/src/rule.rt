//! The rules of pricing.

/// How the entering column is picked of those that are eligible.
#[derive(Clone, Copy, Debug, PartialEq, Eq)]
pub enum Rule {
    /// The least number greater than the cursor, or else the least.
    First,
    /// The greatest magnitude of the reduced cost, and of equal ones the least number.
    Best,
    /// The least number (R. G. Bland, New finite pivoting rules for the simplex method, 1977).
    Bland,
    /// The front of the candidate queue, which is filled with so many columns when none of its members is eligible. The
    /// size is from 1 to 999.
    Queue { size: u32 },
}
