//! The reserved names of columns.
ghost use Rattle.std.specs.Prelude.{◌≡◌, ◌||◌};
ghost use Rattle.std.specs.Str.{str_eq_ignore_ascii_case};
ghost use Rattle.nf_roles.specs.Sets.{first_reserved, is_reserved, is_reserved_for};

use nf_program::Role;

/// Whether a cell of a header is a reserved name of a role, without regard to ASCII case.
pub(crate) fn is_reserved_for(role: Role, cell: &[u8]) -> bool
    ensures { result ≡ is_reserved_for role cell.now }
{
    match role {
        Role::TailNode => is_either(b"_FROM_", b"_TAIL_", cell),
        Role::HeadNode => is_either(b"_TO_", b"_HEAD_", cell),
        Role::Cost => b"_COST_".eq_ignore_ascii_case(cell),
        Role::Capacity => b"_CAPAC_".eq_ignore_ascii_case(cell),
        Role::Lo => b"_LO_".eq_ignore_ascii_case(cell),
        Role::ArcName => b"_NAME_".eq_ignore_ascii_case(cell),
        Role::Supply => b"_SUPPLY_".eq_ignore_ascii_case(cell),
        Role::Demand => b"_DEMAND_".eq_ignore_ascii_case(cell),
        Role::Node => b"_NODE_".eq_ignore_ascii_case(cell),
        Role::Supdem => b"_SUPDEM_".eq_ignore_ascii_case(cell),
        Role::ConKind => b"_TYPE_".eq_ignore_ascii_case(cell),
        Role::Rhs => b"_RHS_".eq_ignore_ascii_case(cell),
        Role::Row => b"_ROW_".eq_ignore_ascii_case(cell),
        Role::Column => b"_COLUMN_".eq_ignore_ascii_case(cell),
        Role::Coef => b"_COEF_".eq_ignore_ascii_case(cell),
        Role::Var | Role::Id => false,
    }
}

fn is_either(first: &[u8], second: &[u8], cell: &[u8]) -> bool
    ensures { result ≡ str_eq_ignore_ascii_case first.now cell.now || str_eq_ignore_ascii_case second.now cell.now }
{
    first.eq_ignore_ascii_case(cell) || second.eq_ignore_ascii_case(cell)
}

/// Whether a cell of a header is one of the five reserved names of CONDATA.
pub(crate) fn is_reserved(cell: &[u8]) -> bool
    ensures { result ≡ is_reserved cell.now }
{
    is_reserved_for(Role::Row, cell)
        || is_reserved_for(Role::Column, cell)
        || is_reserved_for(Role::Coef, cell)
        || is_reserved_for(Role::ConKind, cell)
        || is_reserved_for(Role::Rhs, cell)
}

/// The first reserved name of a role; VAR and ID have none.
pub(crate) fn first_reserved(role: Role) -> &'static [u8]
    ensures { result.now ≡ first_reserved role }
{
    match role {
        Role::TailNode => b"_FROM_",
        Role::HeadNode => b"_TO_",
        Role::Cost => b"_COST_",
        Role::Capacity => b"_CAPAC_",
        Role::Lo => b"_LO_",
        Role::ArcName => b"_NAME_",
        Role::Supply => b"_SUPPLY_",
        Role::Demand => b"_DEMAND_",
        Role::Node => b"_NODE_",
        Role::Supdem => b"_SUPDEM_",
        Role::ConKind => b"_TYPE_",
        Role::Rhs => b"_RHS_",
        Role::Row => b"_ROW_",
        Role::Column => b"_COLUMN_",
        Role::Coef => b"_COEF_",
        Role::Var | Role::Id => b"",
    }
}
