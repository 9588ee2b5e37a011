//! The roles of each data set.
ghost use Rattle.std.specs.Prelude.{◌≡◌};
ghost use Rattle.nf_program.specs.Programs.{role_number};
ghost use Rattle.nf_roles.specs.Sets.{has_role, needed, roles_of, same_role};
ghost use Rattle.nf_roles.specs.Assigned.{is_of};

use nf_program::Role;

/// Which data set the roles are for. CONDATA is dense, or sparse with SPARSECONDATA.
#[derive(Clone, Copy, Debug, PartialEq, Eq)]
pub enum SetKind {
    Arcs,
    Nodes,
    Dense,
    Sparse,
}

impl SetKind {
    /// The roles that a column of the set may have, in the order of the set's table.
    pub(crate) fn roles(self) -> &'static [Role]
        ensures { result.now ≡ roles_of self }
    {
        match self {
            SetKind::Arcs => &[
                Role::TailNode,
                Role::HeadNode,
                Role::ArcName,
                Role::Cost,
                Role::Lo,
                Role::Capacity,
                Role::Supply,
                Role::Demand,
            ],
            SetKind::Nodes => &[Role::Node, Role::Supdem],
            SetKind::Dense => &[Role::Row, Role::ConKind, Role::Rhs],
            SetKind::Sparse => &[
                Role::Row,
                Role::Column,
                Role::Coef,
                Role::ConKind,
                Role::Rhs,
            ],
        }
    }

    /// The roles that the set needs, in the same order.
    pub(crate) fn needed(self) -> &'static [Role]
        ensures { result.now ≡ needed self }
    {
        match self {
            SetKind::Arcs => &[Role::TailNode, Role::HeadNode],
            SetKind::Nodes => &[Role::Node, Role::Supdem],
            SetKind::Dense => &[],
            SetKind::Sparse => &[Role::Row, Role::Column, Role::Coef],
        }
    }

    /// Whether a column of the set may have this role.
    pub(crate) fn has(self, role: Role) -> bool
        ensures { result ≡ has_role role (roles_of self) }
    {
        self.roles().iter().any(|r| is_same(role, *r))
    }

    /// Whether the set has statements of this role: of the roles of its columns, of ID where it may have ID columns, and of
    /// VAR in dense CONDATA.
    pub(crate) fn has_statements_of(self, role: Role) -> bool
        ensures { result ≡ is_of self role }
    {
        if self.has(role) {
            return true;
        }
        match self {
            SetKind::Arcs | SetKind::Sparse => is_same(role, Role::Id),
            SetKind::Dense => is_same(role, Role::Var) || is_same(role, Role::Id),
            SetKind::Nodes => false,
        }
    }
}

/// The number of a role in the order of the role statements, from 0.
pub(crate) fn number(role: Role) -> u8
    ensures { result ≡ role_number role }
{
    role as u8
}

/// Whether two roles are the same.
pub(crate) fn is_same(role: Role, other: Role) -> bool
    ensures { result ≡ same_role role other }
{
    number(role) == number(other)
}
