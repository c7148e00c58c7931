// An assignment that an editor puts before a node.
ghost use Rattle.std.specs.Prelude.{◌≢◌, [], ◌∷◌, ◌++◌, ◌<◌, ◌≤◌, ℕ, length, slice_get, IsTrue, Some};
ghost use Rattle.mir_base.specs.Shapes.{AllDiffer};

use flow_graph::Graph;
use graph_edit::Editor;
use mir_base::{Memory, Name, Op, Operand, Rhs};
use std::alloc::Global;
use std::test::Fail;

/// A graph with a new variable `h1`, which gets the sum of the first two before node 5. There have to be these, and no
/// variable of this name.
pub(crate) fn put_of(alloc: Global, graph: &Graph) -> Result<Graph, Fail> {
    // The proof needs what holds of every graph: that the names of its variables are distinct.
    let _nodes = graph.nodes();
    let vars = graph.vars();
    if graph.len() < 6 {
        return Err("no node 5".into());
    }
    if vars.len() < 2 {
        return Err("no two variables".into());
    }
    let name = Name::numbered(alloc, b"h", 1)?;
    if !is_new(vars, &name) {
        return Err("not a new name".into());
    }
    Ok(sum_put(alloc, graph, name)?)
}

/// Whether none of these is the name.
fn is_new(names: &[Name], name: &Name) -> bool
    ensures { IsTrue result → (i : ℕ) → slice_get names.now i ≢ Some name.now }
{
    for n in 0..names.len() {
        if names[n].bytes() == name.bytes() {
            return false;
        }
    }
    true
}

/// The graph with a variable of this name after its own, which gets the sum of the first two before node 5.
fn sum_put(alloc: Global, graph: &Graph, name: Name) -> Result<Graph, Memory>
    requires node { 5 < length graph.now.nodes }
    requires two { 2 ≤ length graph.now.vars }
    requires new { AllDiffer (graph.now.vars ++ name ∷ []) }
{
    let sum = Rhs::Binary(Op::Add, Operand::Var(0), Operand::Var(1));
    let mut names = Vec::with_capacity(alloc, 1)?;
    names.push(name)?;
    let mut editor = Editor::open(alloc, graph, names, 1)?;
    editor.put_before(5, graph.vars().len(), sum);
    editor.close()
}
