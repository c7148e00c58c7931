// How far evaluations can be delayed.
use bit_rows::Rows;

/// How far evaluations can be delayed: each has one row for each node of a graph, and one bit for each expression.
#[derive(Drop)]
pub struct Late {
    /// Where an expression is used.
    pub uses: Rows,
    /// Where it is delayed: on every path to the node stands an earliest node, from which on no node before it uses it.
    pub delayed: Rows,
    /// Where it is latest: delayed, and used or with a successor where it is not delayed.
    pub latest: Rows,
    /// Where it is isolated: no path leaves the node and comes, through nodes where it is not latest, to a use that is
    /// not latest.
    pub isolated: Rows,
}
