// What nodes read and assign, as marks in rows with one bit for each variable.
ghost use Rattle.std.specs.Prelude.{◌≡◌, ◌<◌, ◌≤◌, ◌++◌, true, flat_map, length};
ghost use Rattle.mir_base.specs.Frames.{shared_vars};
ghost use Rattle.mir_base.specs.Shapes.{AllBelow, into_vars, operand_vars, rhs_vars, test_vars};
ghost use Rattle.bit_rows.specs.Bits.{row_of};
ghost use Rattle.flow_graph.specs.Graphs.{node_reads, node_vars};
ghost use Rattle.dead_code.specs.LiveRows.{IsMarkedAt};
ghost use Rattle.graph_edit.specs.Accesses.{assigned_vars};

use bit_rows::Rows;
use flow_graph::{Graph, Node};
use mir_base::{Operand, Rhs, Test};

// ---- what nodes read

/// Sets the bits of the variables that a node reads in its row. `shared` is the number of the globals of the graph.
pub(crate) fn mark_read(graph: &Graph, rows: &mut Rows, n: usize, node: &Node, shared: usize)
    requires shared { shared ≡ graph.now.shared }
    requires globals { shared ≤ length (row_of rows.old n) }
    requires row { n < length rows.old }
    requires vars { AllBelow (length (row_of rows.old n)) (node_vars node.now) }
    ensures { IsMarkedAt true n (node_reads graph.now node.now) rows.old rows.new }
{
    match node {
        Node::Start(_) => {}
        Node::Skip(_) => {}
        Node::Assign(_, rhs, _) => mark_rhs(rows, n, rhs),
        Node::Print(a, _) => mark_operand(rows, n, *a),
        Node::Guard(test, _, _) => mark_test(rows, n, test),
        Node::Call(_, _, args, _) => {
            mark_globals(rows, n, shared, true);
            mark_operands(rows, n, args.items());
        }
        Node::Test(test, _, _) => mark_test(rows, n, test),
        Node::Return(a) => {
            mark_globals(rows, n, shared, true);
            mark_operand(rows, n, *a);
        }
    }
}

/// Writes a value into the bits of the globals, which are the first `shared` variables.
fn mark_globals(rows: &mut Rows, n: usize, shared: usize, value: bool)
    requires row { n < length rows.old }
    requires globals { shared ≤ length (row_of rows.old n) }
    ensures { IsMarkedAt value n (shared_vars shared) rows.old rows.new }
{
    for x in 0..shared {
        rows.set(n, x, value);
    }
}

/// Sets the bits of the variables of a right side.
fn mark_rhs(rows: &mut Rows, n: usize, rhs: &Rhs)
    requires row { n < length rows.old }
    requires vars { AllBelow (length (row_of rows.old n)) (rhs_vars rhs.now) }
    ensures { IsMarkedAt true n (rhs_vars rhs.now) rows.old rows.new }
{
    match rhs {
        Rhs::Plain(a) => mark_operand(rows, n, *a),
        Rhs::Unary(_, a) => mark_operand(rows, n, *a),
        Rhs::Binary(_, a, b) => mark_both(rows, n, *a, *b),
    }
}

/// Sets the bits of the variables of a test.
fn mark_test(rows: &mut Rows, n: usize, test: &Test)
    requires row { n < length rows.old }
    requires vars { AllBelow (length (row_of rows.old n)) (test_vars test.now) }
    ensures { IsMarkedAt true n (test_vars test.now) rows.old rows.new }
{
    match test {
        Test::Rel(_, a, b) => mark_both(rows, n, *a, *b),
        Test::Holds(a) => mark_operand(rows, n, *a),
        Test::Fails(a) => mark_operand(rows, n, *a),
    }
}

/// Sets the bits of the variables of two operands.
fn mark_both(rows: &mut Rows, n: usize, a: Operand, b: Operand)
    requires row { n < length rows.old }
    requires vars { AllBelow (length (row_of rows.old n)) (operand_vars a ++ operand_vars b) }
    ensures { IsMarkedAt true n (operand_vars a ++ operand_vars b) rows.old rows.new }
{
    mark_operand(rows, n, a);
    mark_operand(rows, n, b);
}

/// Sets the bits of the variables of operands.
fn mark_operands(rows: &mut Rows, n: usize, operands: &[Operand])
    requires row { n < length rows.old }
    requires vars { AllBelow (length (row_of rows.old n)) (flat_map operand_vars operands.now) }
    ensures { IsMarkedAt true n (flat_map operand_vars operands.now) rows.old rows.new }
{
    for operand in operands {
        mark_operand(rows, n, *operand);
    }
}

/// Sets the bit of an operand, where it is a variable.
fn mark_operand(rows: &mut Rows, n: usize, operand: Operand)
    requires row { n < length rows.old }
    requires vars { AllBelow (length (row_of rows.old n)) (operand_vars operand) }
    ensures { IsMarkedAt true n (operand_vars operand) rows.old rows.new }
{
    match operand {
        Operand::Var(x) => rows.set(n, x, true),
        Operand::Const(_) => {}
    }
}

// ---- what nodes assign

/// Writes a value into the bits of the variables that a node assigns, in one row. `shared` is the number of the globals
/// of the graph.
pub(crate) fn mark_assigned(
    graph: &Graph,
    rows: &mut Rows,
    n: usize,
    node: &Node,
    shared: usize,
    value: bool,
)
    requires shared { shared ≡ graph.now.shared }
    requires globals { shared ≤ length (row_of rows.old n) }
    requires row { n < length rows.old }
    requires vars { AllBelow (length (row_of rows.old n)) (node_vars node.now) }
    ensures { IsMarkedAt value n (assigned_vars graph.now node.now) rows.old rows.new }
{
    match node {
        Node::Start(_) => {}
        Node::Skip(_) => {}
        Node::Assign(x, _, _) => rows.set(n, *x, value),
        Node::Print(_, _) => {}
        Node::Guard(_, _, _) => {}
        Node::Call(into, _, _, _) => {
            mark_globals(rows, n, shared, value);
            mark_into(rows, n, *into, value);
        }
        Node::Test(_, _, _) => {}
        Node::Return(_) => {}
    }
}

/// Writes a value into the bit of the variable to which the result of a call goes, where there is one.
fn mark_into(rows: &mut Rows, n: usize, into: Option<usize>, value: bool)
    requires row { n < length rows.old }
    requires vars { AllBelow (length (row_of rows.old n)) (into_vars into) }
    ensures { IsMarkedAt value n (into_vars into) rows.old rows.new }
{
    match into {
        Some(x) => rows.set(n, x, value),
        None => {}
    }
}
