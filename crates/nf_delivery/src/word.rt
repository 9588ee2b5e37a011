//! The options of a program that name data sets to be stored.
ghost use Rattle.std.specs.Prelude.{Some};
ghost use Rattle.nf_delivery.specs.Lines.{word_text};

use std::fmt;

/// An option that names a data set to be stored. It prints as its word.
#[derive(Clone, Copy, Debug, PartialEq, Eq)]
pub enum OutWord {
    /// The arcs of a state of stage one.
    Arcout,
    /// The nodes of a state of stage one.
    Nodeout,
    /// The arcs and nonarc variables.
    Conout,
    /// The rows.
    Dualout,
    /// What a session needs besides to be resumed.
    Sessionout,
    /// The certificate of the last verdict.
    Certout,
}

impl fmt::Display for OutWord {
    ghost output = { λ w. Some (word_text w) };

    fn fmt<W: fmt::Write>(&self, f: &mut fmt::Formatter<W>) -> fmt::Result {
        match self {
            OutWord::Arcout => write!(f, "ARCOUT"),
            OutWord::Nodeout => write!(f, "NODEOUT"),
            OutWord::Conout => write!(f, "CONOUT"),
            OutWord::Dualout => write!(f, "DUALOUT"),
            OutWord::Sessionout => write!(f, "SESSIONOUT"),
            OutWord::Certout => write!(f, "CERTOUT"),
        }
    }
}
