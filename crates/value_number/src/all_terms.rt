// The terms that the variables have before each node, by one table.
ghost use Rattle.std.specs.Prelude.{◌≡◌, ◌<◌, ◌++◌, [], ◌∷◌, IfOk, OnOk, length, slice_set};
ghost use Rattle.value_number.specs.AllTerms.{AreAllTerms, AreNumbersTrue, AreTermsOfAll};
ghost use Rattle.value_number.specs.Entries.{AreEntries};
ghost use Rattle.value_number.specs.KeptTerms.{AreNoneVisited, KeepsAt};
ghost use Rattle.value_number.specs.TermWalks.{GoesOver};

use crate::terms::TermKey;
use crate::walk::{Step, Walk, begin};
use flow_graph::Graph;
use key_table::KeyTable;
use mir_base::Memory;
use std::alloc::Global;

/// The terms of the variables of a graph before one node.
#[derive(Drop)]
pub struct TermsAt {
    /// The root at which the terms begin.
    pub root: usize,
    /// For each variable the number of its term; where there is none, the term is the variable's leaf of the root.
    pub numbers: Vec<Option<usize>>,
}

/// The terms that the variables of a graph have before each of its nodes, by numbers that are one for all nodes: where
/// two variables have numbers, before one node or two, these are equal exactly where the terms are.
#[derive(Drop)]
pub struct AllTerms {
    /// The keys of terms, by their numbers. Each is that of a term that some variable has behind some node, or of an
    /// operand of a later one.
    pub table: KeyTable<TermKey>,
    /// What the variables have before each node, by the number of the node.
    pub nodes: Vec<TermsAt>,
}

impl AllTerms {
    /// The terms of the variables before each node. The graph is walked once; besides, a number is copied for each node
    /// and variable. It fails only with `Memory`.
    pub fn of(alloc: Global, graph: &Graph) -> Result<AllTerms, Memory>
        // each number is that of the term that the variable has on the way from the root, there is no other root, each
        // term of the table has one number, and each stands behind its operands and is needed
        ensures terms { IfOk result (λ all. AreAllTerms graph.now all.table all.nodes.items) }

        // in each run that comes to a node, variables with one number before it have one value
        ensures holds { IfOk result (λ all. AreNumbersTrue graph.now all.nodes.items) }
    {
        let mut walk = begin(alloc, graph)?;
        let mut nodes = unknown(alloc, graph.len())?;
        walk_over(alloc, graph, &mut walk, &mut nodes)?;
        let _distinct = walk.table.len();
        Ok(AllTerms {
            table: walk.table,
            nodes,
        })
    }
}

/// So many nodes of which nothing is known yet.
fn unknown(alloc: Global, count: usize) -> Result<Vec<TermsAt>, Memory>
    ensures { IfOk result (λ nodes. length nodes.items ≡ count) }
{
    let mut nodes = Vec::with_capacity(alloc, count)?;
    for _ in 0..count {
        nodes.push(TermsAt {
            root: 0,
            numbers: Vec::new(alloc),
        })?;
    }
    Ok(nodes)
}

/// Takes all steps of a walk that has visited no node, and keeps of each node the terms before it.
fn walk_over(
    alloc: Global,
    graph: &Graph,
    walk: &mut Walk,
    nodes: &mut Vec<TermsAt>,
) -> Result<(), Memory>
    requires walks { GoesOver graph.now walk.old walk.old.steps.items }
    requires unvisited { AreNoneVisited walk.old.listed.items walk.old.steps.items }
    requires long { length nodes.old.items ≡ length graph.now.nodes }
    ensures long { OnOk result (length nodes.new.items ≡ length graph.now.nodes) }
    ensures terms { OnOk result (AreTermsOfAll graph.now walk.new.table nodes.new.items) }
    ensures entries { OnOk result (AreEntries graph.now walk.new.table) }
{
    let _nodes = graph.nodes();
    while let Some(step) = walk.steps.pop() {
        keep(alloc, graph, walk, step, nodes)?;
        walk.take(graph, step)?;
    }
    Ok(())
}

/// Keeps the terms before the node that a step visits, which was the last, where it visits one.
fn keep(
    alloc: Global,
    graph: &Graph,
    walk: &Walk,
    step: Step,
    nodes: &mut Vec<TermsAt>,
) -> Result<(), Memory>
    requires walks { GoesOver graph.now walk.now (walk.now.steps.items ++ step ∷ []) }
    requires long { length nodes.old.items ≡ length graph.now.nodes }
    ensures { OnOk result (KeepsAt step walk.now.numbers nodes.old.items nodes.new.items) }
{
    let _ = graph;
    match step {
        Step::Visit(n, root) => {
            let numbers = Vec::from_slice(alloc, walk.numbers.as_slice())?;
            put(nodes, n, TermsAt { root, numbers });
            Ok(())
        }
        Step::Restore(_, _) => Ok(()),
    }
}

/// Puts what is known of a node into the list of all of them.
fn put(nodes: &mut Vec<TermsAt>, n: usize, at: TermsAt)
    requires { n < length nodes.old.items }
    ensures { nodes.new.items ≡ slice_set nodes.old.items n at }
{
    nodes[n] = at;
}
