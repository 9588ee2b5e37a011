//! The words by which refusals tell data sets and roles.
ghost use Rattle.std.specs.Prelude.{◌≡◌};
ghost use Rattle.nf_top.specs.Lines.{role_word, set_word};

use nf_program::{Role, SetName};

/// The word of PROC by which a data set is told, or PROC itself.
pub(crate) fn set_word(set: SetName) -> &'static str
    ensures { result.now ≡ set_word set }
{
    match set {
        SetName::Arcdata => "ARCDATA",
        SetName::Nodedata => "NODEDATA",
        SetName::Condata => "CONDATA",
        SetName::Certdata => "CERTDATA",
        SetName::Conin => "CONIN",
        SetName::Dualin => "DUALIN",
        SetName::Sessiondata => "SESSIONDATA",
        SetName::Proc => "PROC",
    }
}

/// The word of a role's statement, in its first spelling.
pub(crate) fn role_word(role: Role) -> &'static str
    ensures { result.now ≡ role_word role }
{
    match role {
        Role::TailNode => "TAILNODE",
        Role::HeadNode => "HEADNODE",
        Role::Cost => "COST",
        Role::Capacity => "CAPACITY",
        Role::Lo => "LO",
        Role::ArcName => "NAME",
        Role::Supply => "SUPPLY",
        Role::Demand => "DEMAND",
        Role::Node => "NODE",
        Role::Supdem => "SUPDEM",
        Role::Var => "VAR",
        Role::ConKind => "TYPE",
        Role::Rhs => "RHS",
        Role::Row => "ROW",
        Role::Column => "COLUMN",
        Role::Coef => "COEF",
        Role::Id => "ID",
    }
}
