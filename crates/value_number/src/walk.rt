// The walk over the graph, which finds at each node the variable that has the term of its right side.
ghost use Rattle.std.specs.Prelude.{◌≡◌, ℕ, ◌<◌, ◌≤◌, ◌++◌, [], ◌∷◌, None, Some, IfNone, IfOk, IfSome, OnOk, length, replicate, slice_set};
ghost use Rattle.mir_base.specs.Shapes.{AllBelow};
ghost use Rattle.flow_graph.specs.Edges.{edges_of};
ghost use Rattle.flow_graph.specs.Graphs.{node_vars};
ghost use Rattle.value_number.specs.declared.walk.Step.TheVariants.{Visit};
ghost use Rattle.value_number.specs.NodeTerms.{AreTermsBefore};
ghost use Rattle.value_number.specs.Roots.{is_root};
ghost use Rattle.value_number.specs.Table.{Stay};
ghost use Rattle.value_number.specs.TermWalks.{AreHolders, AreRoots, NewTermWithin, Passes, Renews, RenewsGlobals, RenewsOne, VisitRoots, GoesOver, IsNoVisit, IsUnvisited, LeavesUnvisited, changed_numbers, listed_after, steps_after, undoing, weight_left, where_any, with_root};

use crate::finding::{NewTerm, find};
use crate::numbers::TermNumbers;
use crate::terms::{TermKey, term_number};
use flow_graph::{Edges, Graph, Node};
use key_table::KeyTable;
use mir_base::Memory;
use std::alloc::Global;

/// What is still to be done. The last step is taken first.
#[derive(Clone, Copy, Debug)]
pub(crate) enum Step {
    /// Visit this node, whose terms begin at this root.
    Visit(usize, usize),
    /// Give this variable the number that it had.
    Restore(usize, Option<usize>),
}

/// A walk from each root to the nodes that are reached from it by edges that enter them alone.
#[derive(Drop)]
pub(crate) struct Walk {
    /// The terms so far.
    pub(crate) table: KeyTable<TermKey>,
    /// The number of each variable's term at the node at hand; none where it is the variable's leaf of the root.
    pub(crate) numbers: TermNumbers,
    /// Which nodes have been visited, or are to be.
    pub(crate) listed: Vec<bool>,
    /// What is still to be done.
    pub(crate) steps: Vec<Step>,
    /// For each node the variable that has the term of its right side, where there is one.
    pub(crate) holders: Vec<Option<usize>>,
}

/// For each node the first variable that has the term of its movable right side before it, where there is one. The time
/// is linear in nodes and edges, but for a logarithm where variables that had a term lose it. It fails only with
/// `Memory`.
pub(crate) fn holders(alloc: Global, graph: &Graph) -> Result<Vec<Option<usize>>, Memory>
    ensures { IfOk result (λ holders. AreHolders graph.now holders.items) }
{
    let _nodes = graph.nodes();
    let mut walk = begin(alloc, graph)?;
    while let Some(step) = walk.steps.pop() {
        walk.take(graph, step)?;
    }
    Ok(walk.holders)
}

/// The walk before its first step. It fails only with `Memory`.
pub(crate) fn begin(alloc: Global, graph: &Graph) -> Result<Walk, Memory>
    ensures walks { IfOk result (λ walk. GoesOver graph.now walk walk.steps.items) }
    ensures unvisited { IfOk result (λ walk. (n : ℕ)
        → IsUnvisited n walk.listed.items walk.steps.items) }
{
    let listed = roots(alloc, graph)?;
    let steps = visits(alloc, listed.as_slice())?;
    let walk = unnumbered(alloc, graph, listed, steps)?;
    Ok(walk)
}

/// The walk with these listed nodes and steps, in which no variable has a number.
fn unnumbered(
    alloc: Global,
    graph: &Graph,
    listed: Vec<bool>,
    steps: Vec<Step>,
) -> Result<Walk, Memory>
    ensures numbers { IfOk result (λ walk.
        walk.numbers ≡ replicate (length graph.now.vars) None) }
    ensures holders { IfOk result (λ walk.
        walk.holders.items ≡ replicate (length graph.now.nodes) None) }
    ensures table { IfOk result (λ walk. walk.table ≡ []) }
    ensures listed { IfOk result (λ walk. walk.listed.items ≡ listed.items) }
    ensures steps { IfOk result (λ walk. walk.steps.items ≡ steps.items) }
{
    let numbers = TermNumbers::none(alloc, graph.vars().len())?;
    let holders = vec![in alloc; None; graph.len()]?;
    Ok(Walk {
        table: KeyTable::new(alloc),
        numbers,
        listed,
        steps,
        holders,
    })
}

/// Which nodes are roots.
fn roots(alloc: Global, graph: &Graph) -> Result<Vec<bool>, Memory>
    ensures { IfOk result (λ roots. AreRoots graph.now.nodes roots.items) }
{
    let edges = Edges::of(alloc, graph)?;
    let mut roots = Vec::with_capacity(alloc, graph.len())?;
    for n in 0..graph.len() {
        roots.push(is_root(graph, &edges, n))?;
    }
    Ok(roots)
}

/// Whether a node is a root.
fn is_root(graph: &Graph, edges: &Edges, n: usize) -> bool
    requires edges { edges.now ≡ edges_of graph.now.nodes }
    requires there { n < length graph.now.nodes }
    ensures { result ≡ is_root graph.now.nodes n }
{
    let _ = graph;
    n == 0 || edges.preds(n).len() > 1
}

/// The steps with which the walk begins: a visit of each root. It fails only with `Memory`.
fn visits(alloc: Global, roots: &[bool]) -> Result<Vec<Step>, Memory>
    ensures { IfOk result (λ steps. VisitRoots roots.now steps.items) }
{
    let mut steps = Vec::new(alloc);
    for n in 0..roots.len() {
        visit_root(&mut steps, n, roots[n])?;
    }
    Ok(steps)
}

/// Puts a visit of a node on the list, where it is a root.
fn visit_root(steps: &mut Vec<Step>, n: usize, is_root: bool) -> Result<(), Memory>
    ensures { OnOk result (steps.new.items ≡ with_root steps.old.items n is_root) }
{
    if is_root {
        steps.push(Step::Visit(n, n))?;
    }
    Ok(())
}

impl Walk {
    /// Takes steps until the last is to visit node `n`, which was not visited, and takes it off. The answer is the root
    /// at which the terms before the node begin. It fails only with `Memory`.
    pub(crate) fn walk_to(&mut self, graph: &Graph, n: usize) -> Result<usize, Memory>
        requires there { n < length graph.now.nodes }
        requires walks { GoesOver graph.now self.old self.old.steps.items }
        requires unvisited { IsUnvisited n self.old.listed.items self.old.steps.items }
        ensures { IfOk result (λ root.
            AreTermsBefore graph.now n root self.new.table self.new.numbers) }
    {
        let _nodes = graph.nodes();
        while let Some(step) = self.steps.pop() {
            if let Some(root) = self.stop_at(graph, step, n) {
                return Ok(root);
            }
            self.take(graph, step)?;
        }
        unreachable!()
    }

    /// The root of a step, which was the last, where it is to visit node `n`.
    fn stop_at(&self, graph: &Graph, step: Step, n: usize) -> Option<usize>
        requires { GoesOver graph.now self.now (self.now.steps.items ++ step ∷ []) }
        ensures terms { IfSome result (λ root.
            AreTermsBefore graph.now n root self.now.table self.now.numbers) }
        ensures other { IfNone result (IsNoVisit n step) }
    {
        let _ = graph;
        match step {
            Step::Visit(node, root) => { if node == n { Some(root) } else { None } }
            Step::Restore(_, _) => None,
        }
    }

    /// Takes a step, which was the last.
    pub(crate) fn take(&mut self, graph: &Graph, step: Step) -> Result<(), Memory>
        requires walks { GoesOver graph.now self.old (self.old.steps.items ++ step ∷ []) }
        ensures walks { OnOk result (GoesOver graph.now self.new self.new.steps.items) }
        ensures lighter { OnOk result
            (weight_left graph.now.shared self.new.listed.items self.new.steps.items
            < weight_left graph.now.shared self.old.listed.items
            (self.old.steps.items ++ step ∷ [])) }
        ensures unvisited { OnOk result (LeavesUnvisited step self.old.listed.items
            self.old.steps.items self.new.listed.items self.new.steps.items) }
        ensures stay { OnOk result (Stay self.old.table self.new.table) }
    {
        match step {
            Step::Visit(node, root) => self.visit(graph, node, root),
            Step::Restore(variable, number) => {
                self.numbers.set(variable, number)?;
                Ok(())
            }
        }
    }

    /// Visits a node, whose terms begin at this root.
    fn visit(&mut self, graph: &Graph, n: usize, root: usize) -> Result<(), Memory>
        requires walks { GoesOver graph.now self.old (self.old.steps.items ++ Visit n root ∷ []) }
        ensures walks { OnOk result (GoesOver graph.now self.new self.new.steps.items) }
        ensures lighter { OnOk result
            (weight_left graph.now.shared self.new.listed.items self.new.steps.items
            < weight_left graph.now.shared self.old.listed.items
            (self.old.steps.items ++ Visit n root ∷ [])) }
        ensures unvisited { OnOk result (LeavesUnvisited (Visit n root) self.old.listed.items
            self.old.steps.items self.new.listed.items self.new.steps.items) }
        ensures stay { OnOk result (Stay self.old.table self.new.table) }
    {
        let _nodes = graph.nodes();
        let node = graph.node(n);
        let holder = pass(
            &mut self.table,
            &mut self.numbers,
            &mut self.steps,
            graph.shared(),
            root,
            n,
            node,
        )?;
        put(&mut self.holders, n, holder);
        list(
            &mut self.listed,
            &mut self.steps,
            graph.succs(n).as_slice(),
            root,
        )?;
        Ok(())
    }
}

/// Finds the holder of node `n`, which is this one, and makes the numbers those of the terms after it. It fails only
/// with `Memory`.
fn pass(
    table: &mut KeyTable<TermKey>,
    numbers: &mut TermNumbers,
    steps: &mut Vec<Step>,
    shared: usize,
    root: usize,
    n: usize,
    node: &Node,
) -> Result<Option<usize>, Memory>
    requires below { AllBelow (length numbers.old) (node_vars node.now) }
    requires shared { shared ≤ length numbers.old }
    ensures { IfOk result (Passes shared root n node.now table.old table.new
        numbers.old numbers.new steps.old.items steps.new.items) }
{
    let found = find(table, numbers, root, n, node)?;
    change(numbers, steps, found.change)?;
    renew_globals(table, numbers, steps, shared, n, node)?;
    Ok(found.holder)
}

/// Gives each global a leaf of node `n`, which is this one, where it is a call. It fails only with `Memory`.
fn renew_globals(
    table: &mut KeyTable<TermKey>,
    numbers: &mut TermNumbers,
    steps: &mut Vec<Step>,
    shared: usize,
    n: usize,
    node: &Node,
) -> Result<(), Memory>
    requires { shared ≤ length numbers.old }
    ensures { OnOk result (RenewsGlobals shared n node.now table.old table.new
        numbers.old numbers.new steps.old.items steps.new.items) }
{
    match node {
        Node::Start(_) => Ok(()),
        Node::Skip(_) => Ok(()),
        Node::Assign(_, _, _) => Ok(()),
        Node::Print(_, _) => Ok(()),
        Node::Guard(_, _, _) => Ok(()),
        Node::Call(_, _, _, _) => renew(table, numbers, steps, shared, n),
        Node::Test(_, _, _) => Ok(()),
        Node::Return(_) => Ok(()),
    }
}

/// Gives each of the first so many variables a leaf of node `n`. It fails only with `Memory`.
fn renew(
    table: &mut KeyTable<TermKey>,
    numbers: &mut TermNumbers,
    steps: &mut Vec<Step>,
    count: usize,
    n: usize,
) -> Result<(), Memory>
    requires { count ≤ length numbers.old }
    ensures { OnOk result (Renews n count table.old table.new
        numbers.old numbers.new steps.old.items steps.new.items) }
{
    for x in 0..count {
        renew_one(table, numbers, steps, x, n)?;
    }
    Ok(())
}

/// Gives variable `x` a leaf of node `n`. It fails only with `Memory`.
fn renew_one(
    table: &mut KeyTable<TermKey>,
    numbers: &mut TermNumbers,
    steps: &mut Vec<Step>,
    x: usize,
    n: usize,
) -> Result<(), Memory>
    requires { x < length numbers.old }
    ensures { OnOk result (RenewsOne n x table.old table.new
        numbers.old numbers.new steps.old.items steps.new.items) }
{
    let number = term_number(table, TermKey::Opaque(n, x))?;
    change(
        numbers,
        steps,
        Some(NewTerm {
            variable: x,
            number,
        }),
    )?;
    Ok(())
}

/// Puts a value into a list, at this index.
fn put(list: &mut Vec<Option<usize>>, index: usize, value: Option<usize>)
    requires { index < length list.old.items }
    ensures { list.new.items ≡ slice_set list.old.items index value }
{
    list[index] = value;
}

/// Changes the number of a variable, where there is a change, and lists the step that undoes it, where steps are left.
fn change(
    numbers: &mut TermNumbers,
    steps: &mut Vec<Step>,
    change: Option<NewTerm>,
) -> Result<(), Memory>
    requires { NewTermWithin (length numbers.old) change }
    ensures numbers { OnOk result (numbers.new ≡ changed_numbers numbers.old change) }
    ensures steps { OnOk result
        (steps.new.items ≡ steps.old.items ++ undoing steps.old.items numbers.old change) }
{
    match change {
        None => Ok(()),
        Some(change) => {
            let old = numbers.as_slice()[change.variable];
            list_where_any(steps, Step::Restore(change.variable, old))?;
            numbers.set(change.variable, Some(change.number))?;
            Ok(())
        }
    }
}

/// Puts a step on the list, where others wait there; where none does, nothing is left for which it would undo a change.
fn list_where_any(steps: &mut Vec<Step>, step: Step) -> Result<(), Memory>
    ensures { OnOk result
        (steps.new.items ≡ steps.old.items ++ where_any steps.old.items step) }
{
    if !steps.is_empty() {
        steps.push(step)?;
    }
    Ok(())
}

/// Puts on the list of steps a visit, under this root, of each of these successors that has had none.
fn list(
    listed: &mut Vec<bool>,
    steps: &mut Vec<Step>,
    succs: &[usize],
    root: usize,
) -> Result<(), Memory>
    requires { AllBelow (length listed.old.items) succs.now }
    ensures listed { OnOk result (listed.new.items ≡ listed_after succs.now listed.old.items) }
    ensures steps { OnOk result
        (steps.new.items ≡ steps_after root succs.now listed.old.items steps.old.items) }
{
    for succ in succs {
        list_one(listed, steps, *succ, root)?;
    }
    Ok(())
}

/// Puts on the list of steps a visit of this node under this root, unless it has had one.
fn list_one(
    listed: &mut Vec<bool>,
    steps: &mut Vec<Step>,
    node: usize,
    root: usize,
) -> Result<(), Memory>
    requires { node < length listed.old.items }
    ensures listed { OnOk result (listed.new.items ≡ listed_after (node ∷ []) listed.old.items) }
    ensures steps { OnOk result
        (steps.new.items ≡ steps_after root (node ∷ []) listed.old.items steps.old.items) }
{
    if !listed[node] {
        steps.push(Step::Visit(node, root))?;
        listed[node] = true;
    }
    Ok(())
}
