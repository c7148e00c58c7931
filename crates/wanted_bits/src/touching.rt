// Which variables the nodes of each block touch: the numbers of all others pass through it as they are.
ghost use Rattle.std.specs.Prelude.{◌≡◌, ◌∷◌, ◌++◌, flat_map, length, IfOk};
ghost use Rattle.mir_base.specs.Frames.{shared_vars};
ghost use Rattle.mir_base.specs.Shapes.{into_vars, operand_vars, rhs_vars, test_vars};
ghost use Rattle.flow_graph.specs.Blocks.{AreBlocksOf};
ghost use Rattle.wanted_bits.specs.NewsShapes.{AreNoted};
ghost use Rattle.wanted_bits.specs.Touching.{AreTouched, source_vars, touched_in, touched_vars};
ghost use Rattle.wanted_bits.specs.Walking.{AreGraphNodes, back_in};

use crate::news::SomeVariables;
use crate::picking::Shift;
use fix_solve::News;
use flow_graph::{Blocks, Graph, Node};
use mir_base::{Memory, Operand, Rhs, Test};
use std::alloc::Global;

/// For each block the variables that it touches, or all where these are many. Each right side shifts back what `backs`
/// has for its node.
pub(crate) fn touched(
    alloc: Global,
    graph: &Graph,
    blocks: &Blocks,
    backs: &[Option<Shift>],
) -> Result<Vec<SomeVariables>, Memory>
    requires blocks { AreBlocksOf graph.now.nodes blocks.now }
    requires backs { length backs.now ≡ length graph.now.nodes }
    ensures { IfOk result (λ touched.
        AreTouched graph.now (back_in backs.now) blocks.now.lists touched.items) }
{
    let _nodes = graph.nodes();
    let mut noted = SomeVariables::new(alloc, graph.vars().len())?;
    let touched = touched_by(alloc, graph, blocks, backs, &mut noted)?;
    Ok(touched)
}

/// The same, each noted first where there is room.
pub(crate) fn touched_by(
    alloc: Global,
    graph: &Graph,
    blocks: &Blocks,
    backs: &[Option<Shift>],
    noted: &mut SomeVariables,
) -> Result<Vec<SomeVariables>, Memory>
    requires blocks { AreBlocksOf graph.now.nodes blocks.now }
    requires backs { length backs.now ≡ length graph.now.nodes }
    ensures { IfOk result (λ touched.
        AreTouched graph.now (back_in backs.now) blocks.now.lists touched.items) }
{
    let _nodes = graph.nodes();
    let mut touched = Vec::new(alloc);
    for block in 0..blocks.len() {
        noted.settle();
        note_block(noted, graph, blocks.nodes(block), backs);
        let some = noted.copied(alloc)?;
        touched.push(some)?;
    }
    Ok(touched)
}

/// Adds the variables that a list of nodes touches.
fn note_block(noted: &mut SomeVariables, graph: &Graph, list: &[usize], backs: &[Option<Shift>])
    requires nodes { AreGraphNodes graph.now list.now }
    requires backs { length backs.now ≡ length graph.now.nodes }
    ensures { AreNoted (touched_in graph.now (back_in backs.now) list.now) noted.old noted.new }
{
    for i in 0..list.len() {
        let n = list[i];
        note_node(noted, graph.shared(), graph.node(n), backs[n]);
    }
}

/// Adds the variables that a node touches, where it shifts this back.
fn note_node(noted: &mut SomeVariables, shared: usize, node: &Node, back: Option<Shift>)
    ensures { AreNoted (touched_vars shared back node.now) noted.old noted.new }
{
    match node {
        Node::Start(_) => (),
        Node::Skip(_) => (),
        Node::Assign(x, rhs, _) => note_assign(noted, *x, *rhs, back),
        Node::Print(a, _) => note_operand(noted, *a),
        Node::Guard(test, _, _) => note_test(noted, *test),
        Node::Call(into, _, args, _) => {
            note_globals(noted, shared);
            note_call(noted, *into, args.items());
        }
        Node::Test(test, _, _) => note_test(noted, *test),
        Node::Return(a) => {
            note_globals(noted, shared);
            note_operand(noted, *a);
        }
    }
}

/// Adds those of an assignment.
fn note_assign(noted: &mut SomeVariables, x: usize, rhs: Rhs, back: Option<Shift>)
    ensures { AreNoted (x ∷ rhs_vars rhs ++ source_vars back) noted.old noted.new }
{
    noted.note(x);
    note_rhs(noted, rhs);
    note_source(noted, back);
}

/// Adds the source of a shift, where there is one.
fn note_source(noted: &mut SomeVariables, back: Option<Shift>)
    ensures { AreNoted (source_vars back) noted.old noted.new }
{
    match back {
        None => (),
        Some(shift) => noted.note(shift.source),
    }
}

/// Adds the globals.
fn note_globals(noted: &mut SomeVariables, shared: usize)
    ensures { AreNoted (shared_vars shared) noted.old noted.new }
{
    for x in 0..shared {
        noted.note(x);
    }
}

/// Adds what a call assigns and hands over.
fn note_call(noted: &mut SomeVariables, into: Option<usize>, operands: &[Operand])
    ensures { AreNoted (into_vars into ++ flat_map operand_vars operands.now) noted.old noted.new }
{
    note_into(noted, into);
    note_operands(noted, operands);
}

/// Adds a variable, where there is one.
fn note_into(noted: &mut SomeVariables, into: Option<usize>)
    ensures { AreNoted (into_vars into) noted.old noted.new }
{
    match into {
        None => (),
        Some(x) => noted.note(x),
    }
}

/// Adds the variables among these operands.
fn note_operands(noted: &mut SomeVariables, operands: &[Operand])
    ensures { AreNoted (flat_map operand_vars operands.now) noted.old noted.new }
{
    for i in 0..operands.len() {
        note_operand(noted, operands[i]);
    }
}

/// Adds the variables of a right side.
fn note_rhs(noted: &mut SomeVariables, rhs: Rhs)
    ensures { AreNoted (rhs_vars rhs) noted.old noted.new }
{
    match rhs {
        Rhs::Plain(a) => note_operand(noted, a),
        Rhs::Unary(_, a) => note_operand(noted, a),
        Rhs::Binary(_, a, b) => note_both(noted, a, b),
    }
}

/// Adds the variables of a test.
fn note_test(noted: &mut SomeVariables, test: Test)
    ensures { AreNoted (test_vars test) noted.old noted.new }
{
    match test {
        Test::Rel(_, a, b) => note_both(noted, a, b),
        Test::Holds(a) => note_operand(noted, a),
        Test::Fails(a) => note_operand(noted, a),
    }
}

/// Adds the variables among two operands.
fn note_both(noted: &mut SomeVariables, a: Operand, b: Operand)
    ensures { AreNoted (operand_vars a ++ operand_vars b) noted.old noted.new }
{
    note_operand(noted, a);
    note_operand(noted, b);
}

/// Adds an operand, where it is a variable.
fn note_operand(noted: &mut SomeVariables, a: Operand)
    ensures { AreNoted (operand_vars a) noted.old noted.new }
{
    match a {
        Operand::Var(x) => noted.note(x),
        Operand::Const(_) => (),
    }
}
