//! The columns that tables can have.

/// A column of a table of arcs and nonarc variables: each row shows a column of the problem.
#[derive(Clone, Copy)]
pub enum ArcField {
    /// `_FROM_`: the name of the tail.
    Tail,
    /// `_TO_`: the name of the head.
    Head,
    /// `_NAME_`.
    Name,
    /// `_COST_`: the cost in the program's own sense.
    Cost,
    /// `_CAPAC_`: the upper bound.
    Capacity,
    /// `_LO_`: the lower bound.
    Lower,
    /// An ID column of ARCDATA, by its number from 0.
    Id(u32),
    /// `_FLOW_`.
    Flow,
    /// `_FCOST_`: what the flow costs.
    FlowCost,
    /// `_RCOST_`.
    ReducedCost,
    /// `_STATUS_`: where the column stands.
    Status,
    /// `_ANUMB_`: the number of the column.
    Number,
    /// `_TNUMB_`: the number of the tail.
    TailNumber,
}

/// A column of a table of nodes and constraints: each row shows a row of the problem.
#[derive(Clone, Copy)]
pub enum RowField {
    /// `_NODE_`: the name of the node.
    Node,
    /// `_SUPDEM_`: the supply of the node.
    Supply,
    /// `_ROW_`: the name of the constraint.
    Constraint,
    /// `_TYPE_`: `EQ`, `LE` or `GE`.
    Kind,
    /// `_RHS_`: the right side.
    Right,
    /// `_VALUE_`: the sum of the row.
    Sum,
    /// `_DUAL_`: the printed dual.
    Dual,
    /// `_STATUS_`: where the slack stands.
    Status,
    /// `_NNUMB_`: the number of the node.
    Number,
    /// `_PRED_`: the predecessor of the node in the tree.
    Predecessor,
    /// `_TRAV_`: the next node in the preorder.
    Next,
    /// `_SCESS_`: the size of the node's subtree.
    Size,
    /// `_ARCID_`: the arc to the predecessor.
    Arc,
}
