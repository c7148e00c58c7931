// Placements of a table of expressions.
use bit_rows::Rows;

/// Where the expressions of a table are evaluated, and which of their uses read a temporary. Both have one row for each
/// node of a graph and one bit for each expression of the table.
#[derive(Drop)]
pub struct Placement {
    /// The expressions that are evaluated into their temporaries just before the node.
    pub insert: Rows,
    /// The expression that the node uses, where it is read from its temporary.
    pub replace: Rows,
}
