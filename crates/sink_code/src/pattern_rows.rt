// Where the patterns of a table are blocked: rows by nodes, with one bit for each pattern.
ghost use Rattle.std.specs.Prelude.{◌≡◌, ℕ, ◌<◌, ◌≤◌, ◌∷◌, ◌++◌, [], Some, length, flat_map, IfOk, OnOk};
ghost use Rattle.mir_base.specs.Frames.{shared_vars};
ghost use Rattle.mir_base.specs.Shapes.{AllBelow, into_vars, operand_vars, rhs_vars, test_vars};
ghost use Rattle.bit_rows.specs.Bits.{AreEquallyLong, row_of};
ghost use Rattle.flow_graph.specs.Graphs.{HaveVarsBelow, node_vars};
ghost use Rattle.key_rows.specs.KeyRows.{SetsBitAt};
ghost use Rattle.path_laws.specs.Paths.{AreRows};
ghost use Rattle.graph_edit.specs.Accesses.{blocks_at};
ghost use Rattle.sink_code.specs.PatternRows.{AreBitsByVariable, AreBlockedRows, ArePatternRows, FitsRowsOf, JoinsBlocked, JoinsRows, blocked_row, pattern_vars};
ghost use Rattle.sink_code.specs.PatternTables.{AreSinkableBelow};

use crate::patterns::{Patterns, is_start};
use bit_rows::Rows;
use flow_graph::{Graph, Node};
use key_rows::{mark_operand, mark_var, push_true};
use mir_base::{Memory, Operand, Rhs, Test};
use std::alloc::Global;

/// For each variable the patterns that it has to do with.
#[derive(Drop)]
pub(crate) struct ByVariable {
    /// Those that assign the variable: a node that reads it blocks them.
    assigning: Rows,
    /// Those that assign or read it: a node that assigns it blocks them.
    naming: Rows,
}

/// At which nodes each pattern of the table is blocked. It fails only with `Memory`.
pub(crate) fn blocking_rows(alloc: Global, graph: &Graph, table: &Patterns) -> Result<Rows, Memory>
    requires { AreSinkableBelow (length graph.now.vars) table.now }
    ensures { IfOk result (ArePatternRows graph.now table.now (λ x t. blocks_at x t graph.now)) }
{
    let by_variable = by_variable(alloc, graph.vars().len(), table)?;
    let shared = graph.shared();
    let rows = blocked_rows(alloc, graph.nodes(), &by_variable, table.len(), shared)?;
    Ok(rows)
}

/// For each variable below this number, the patterns that it has to do with.
pub(crate) fn by_variable(
    alloc: Global,
    vars: usize,
    table: &Patterns,
) -> Result<ByVariable, Memory>
    requires { AreSinkableBelow vars table.now }
    ensures assigning_shape { IfOk result (λ made. AreRows vars (length table.now) made.assigning) }
    ensures naming_shape { IfOk result (λ made. AreRows vars (length table.now) made.naming) }
    ensures assigning { IfOk result (λ made.
        AreBitsByVariable vars table.now (λ p. p.var ∷ []) made.assigning) }
    ensures naming { IfOk result (λ made.
        AreBitsByVariable vars table.now pattern_vars made.naming) }
{
    let mut assigning = Rows::new(alloc, vars, table.len())?;
    let mut naming = Rows::new(alloc, vars, table.len())?;
    for number in 0..table.len() {
        let pattern = table.get(number);
        mark_var(&mut assigning, number, pattern.var);
        mark_var(&mut naming, number, pattern.var);
        mark_rhs(&mut naming, number, &pattern.rhs);
    }
    Ok(ByVariable { assigning, naming })
}

/// Sets the bit of this number in the rows of the variables of a right side.
fn mark_rhs(rows: &mut Rows, number: usize, rhs: &Rhs)
    requires { (x : ℕ) → x < length rows.old → number < length (row_of rows.old x) }
    ensures { SetsBitAt number (rhs_vars rhs.now) rows.old rows.new }
{
    match rhs {
        Rhs::Plain(a) => mark_operand(rows, number, *a),
        Rhs::Unary(_, a) => mark_operand(rows, number, *a),
        Rhs::Binary(_, a, b) => {
            mark_operand(rows, number, *a);
            mark_operand(rows, number, *b);
        }
    }
}

/// The rows of what each node blocks, of so many bits. The first `shared` variables are the globals.
fn blocked_rows(
    alloc: Global,
    nodes: &[Node],
    by_variable: &ByVariable,
    bits: usize,
    shared: usize,
) -> Result<Rows, Memory>
    requires shared { shared ≤ length by_variable.now.assigning }
    requires assigning { AreRows (length by_variable.now.assigning) bits by_variable.now.assigning }
    requires naming { AreRows (length by_variable.now.assigning) bits by_variable.now.naming }
    requires below { HaveVarsBelow (length by_variable.now.assigning) nodes.now }
    ensures shape { IfOk result (λ rows. AreRows (length nodes.now) bits rows) }
    ensures blocked { IfOk result
        (AreBlockedRows by_variable.now.assigning by_variable.now.naming bits shared nodes.now) }
{
    let mut rows = Rows::with_room(alloc, nodes.len(), bits)?;
    for node in nodes {
        push_blocked(&mut rows, node, by_variable, bits, shared)?;
    }
    Ok(rows)
}

/// Puts the row of what a node blocks at the end: all bits at Start. A Call and a Return read the globals, and a Call
/// assigns them. It fails only with `Memory`.
fn push_blocked(
    rows: &mut Rows,
    node: &Node,
    by_variable: &ByVariable,
    bits: usize,
    shared: usize,
) -> Result<(), Memory>
    requires shared { shared ≤ length by_variable.now.assigning }
    requires long { AreEquallyLong bits rows.old }
    requires assigning { AreRows (length by_variable.now.assigning) bits by_variable.now.assigning }
    requires naming { AreRows (length by_variable.now.assigning) bits by_variable.now.naming }
    requires below { AllBelow (length by_variable.now.assigning) (node_vars node.now) }
    ensures { OnOk result (rows.new ≡ rows.old ++
        blocked_row by_variable.now.assigning by_variable.now.naming bits shared node.now ∷ []) }
{
    if is_start(node) {
        return push_true(rows, bits);
    }
    let last = rows.len();
    rows.push_false(bits)?;
    join_blocked(rows, last, node, by_variable, shared);
    Ok(())
}

/// Joins to a row that of what a node blocks; Start joins nothing.
pub(crate) fn join_blocked(
    rows: &mut Rows,
    last: usize,
    node: &Node,
    by_variable: &ByVariable,
    shared: usize,
)
    requires assigning { FitsRowsOf by_variable.now.assigning last rows.old }
    requires naming { FitsRowsOf by_variable.now.naming last rows.old }
    requires alike { length by_variable.now.naming ≡ length by_variable.now.assigning }
    requires shared { shared ≤ length by_variable.now.assigning }
    requires below { AllBelow (length by_variable.now.assigning) (node_vars node.now) }
    ensures { JoinsBlocked by_variable.now.assigning by_variable.now.naming shared node.now last
        rows.old rows.new }
{
    match node {
        Node::Start(_) => {}
        Node::Skip(_) => {}
        Node::Assign(x, rhs, _) => {
            join_rhs(rows, last, rhs, &by_variable.assigning);
            join_var(rows, last, *x, &by_variable.naming);
        }
        Node::Print(a, _) => join_operand(rows, last, *a, &by_variable.assigning),
        Node::Guard(test, _, _) => join_test(rows, last, test, &by_variable.assigning),
        Node::Call(into, _, args, _) => {
            join_operands(rows, last, args.items(), &by_variable.assigning);
            join_globals(rows, last, shared, &by_variable.naming);
            join_into(rows, last, *into, &by_variable.naming);
        }
        Node::Test(test, _, _) => join_test(rows, last, test, &by_variable.assigning),
        Node::Return(a) => {
            join_globals(rows, last, shared, &by_variable.assigning);
            join_operand(rows, last, *a, &by_variable.assigning);
        }
    }
}

/// Joins the row of a variable to the last row.
fn join_var(rows: &mut Rows, last: usize, x: usize, from: &Rows)
    requires fits { FitsRowsOf from.now last rows.old }
    requires x { x < length from.now }
    ensures { JoinsRows from.now (x ∷ []) last rows.old rows.new }
{
    rows.or_into(last, from, x);
}

/// Joins the rows of the globals, which are the first `shared` variables, to the last row.
fn join_globals(rows: &mut Rows, last: usize, shared: usize, from: &Rows)
    requires fits { FitsRowsOf from.now last rows.old }
    requires shared { shared ≤ length from.now }
    ensures { JoinsRows from.now (shared_vars shared) last rows.old rows.new }
{
    for x in 0..shared {
        join_var(rows, last, x, from);
    }
}

/// Joins the row of the variable to which the result of a call goes, where there is one.
fn join_into(rows: &mut Rows, last: usize, into: Option<usize>, from: &Rows)
    requires fits { FitsRowsOf from.now last rows.old }
    requires below { AllBelow (length from.now) (into_vars into) }
    ensures { JoinsRows from.now (into_vars into) last rows.old rows.new }
{
    match into {
        Some(x) => join_var(rows, last, x, from),
        None => {}
    }
}

/// Joins the row of an operand to the last row, where it is a variable.
fn join_operand(rows: &mut Rows, last: usize, operand: Operand, from: &Rows)
    requires fits { FitsRowsOf from.now last rows.old }
    requires below { AllBelow (length from.now) (operand_vars operand) }
    ensures { JoinsRows from.now (operand_vars operand) last rows.old rows.new }
{
    match operand {
        Operand::Var(x) => join_var(rows, last, x, from),
        Operand::Const(_) => {}
    }
}

/// Joins the rows of the variables of a right side to the last row.
fn join_rhs(rows: &mut Rows, last: usize, rhs: &Rhs, from: &Rows)
    requires fits { FitsRowsOf from.now last rows.old }
    requires below { AllBelow (length from.now) (rhs_vars rhs.now) }
    ensures { JoinsRows from.now (rhs_vars rhs.now) last rows.old rows.new }
{
    match rhs {
        Rhs::Plain(a) => join_operand(rows, last, *a, from),
        Rhs::Unary(_, a) => join_operand(rows, last, *a, from),
        Rhs::Binary(_, a, b) => {
            join_operand(rows, last, *a, from);
            join_operand(rows, last, *b, from);
        }
    }
}

/// Joins the rows of the variables of a test to the last row.
fn join_test(rows: &mut Rows, last: usize, test: &Test, from: &Rows)
    requires fits { FitsRowsOf from.now last rows.old }
    requires below { AllBelow (length from.now) (test_vars test.now) }
    ensures { JoinsRows from.now (test_vars test.now) last rows.old rows.new }
{
    match test {
        Test::Rel(_, a, b) => {
            join_operand(rows, last, *a, from);
            join_operand(rows, last, *b, from);
        }
        Test::Holds(a) => join_operand(rows, last, *a, from),
        Test::Fails(a) => join_operand(rows, last, *a, from),
    }
}

/// Joins the rows of the operands to the last row.
fn join_operands(rows: &mut Rows, last: usize, operands: &[Operand], from: &Rows)
    requires fits { FitsRowsOf from.now last rows.old }
    requires below { AllBelow (length from.now) (flat_map operand_vars operands.now) }
    ensures { JoinsRows from.now (flat_map operand_vars operands.now) last rows.old rows.new }
{
    for operand in operands {
        join_operand(rows, last, *operand, from);
    }
}
