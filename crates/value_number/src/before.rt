// The terms that the variables have before one node.
ghost use Rattle.std.specs.Prelude.{◌<◌, length, IfOk};
ghost use Rattle.value_number.specs.NodeTerms.{AreTermsBefore, IsOnlyRoot, StandOneToOne};
ghost use Rattle.value_number.specs.OneValue.{NumbersHold, TermsHold};

use crate::terms::TermKey;
use crate::walk::begin;
use flow_graph::Graph;
use key_table::KeyTable;
use mir_base::Memory;
use std::alloc::Global;

/// The terms that the variables of a graph have before a node, as the walk knows them that `number` goes by.
#[derive(Drop)]
pub struct NodeTerms {
    /// The keys of terms, by their numbers. Some are of terms that no variable has.
    pub table: KeyTable<TermKey>,
    /// The root at which the terms begin.
    pub root: usize,
    /// For each variable the number of its term; where there is none, the term is the variable's leaf of the root.
    pub numbers: Vec<Option<usize>>,
}

impl NodeTerms {
    /// The terms of the variables before node `n`. The walk ends where it comes to the node. It fails only with
    /// `Memory`.
    pub fn before(alloc: Global, graph: &Graph, n: usize) -> Result<NodeTerms, Memory>
        requires { n < length graph.now.nodes }

        // each number is that of the term that the variable has on the way from the root, and each of the table is that
        // of a term
        ensures terms { IfOk result (λ terms.
            AreTermsBefore graph.now n terms.root terms.table terms.numbers.items) }

        // there is no other root, a number stands for at most one term, and a term has at most one number
        ensures root { IfOk result (λ terms. IsOnlyRoot graph.now.nodes n terms.root) }
        ensures numbers { IfOk result (λ terms. StandOneToOne terms.table) }

        // in each run that comes to the node, variables with one number have one value
        ensures holds { IfOk result (λ terms. NumbersHold graph.now n terms.numbers.items) }
    {
        let mut walk = begin(alloc, graph)?;
        let root = walk.walk_to(graph, n)?;
        let _distinct = walk.table.len();
        Ok(NodeTerms {
            table: walk.table,
            root,
            numbers: walk.numbers.into_numbers(),
        })
    }
}

/// Has no effect; carries the theorem that what the terms of a graph say is true of its runs: where a run comes to a
/// node, two variables that have one term before it have one value.
pub fn terms_hold(graph: &Graph)
    ensures { TermsHold graph.now }
{
    let _ = graph;
}
