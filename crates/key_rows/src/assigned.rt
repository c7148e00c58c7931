// Rows by variables, and the rows by nodes that are made of them.
ghost use Rattle.std.specs.Prelude.{◌≡◌, ℕ, ◌<◌, ◌≤◌, [], ◌∷◌, ◌++◌, true, length, replicate, IfOk, OnErr, OnOk, Some};
ghost use Rattle.mir_base.specs.Shapes.{AllBelow, into_vars, operand_vars};
ghost use Rattle.bit_rows.specs.Bits.{AreEquallyLong, row_of};
ghost use Rattle.flow_graph.specs.Graphs.{HaveVarsBelow, node_vars};
ghost use Rattle.key_rows.specs.KeyRows.{AreAssignedRows, SetsBitAt, assigned_row, called_row, joined_rows};
ghost use Rattle.path_laws.specs.Paths.{AreRows};

use bit_rows::{Row, Rows};
use flow_graph::Node;
use mir_base::{Memory, Operand};
use std::alloc::Global;

/// One row of so many bits for each node: those of the variables that it assigns, joined. A call assigns the globals,
/// which are the first `shared` variables. At Start each bit is `at_start`, and at a node that assigns none no bit is
/// set. Each variable has its row. It fails only with `Memory`.
pub fn assigned_rows(
    alloc: Global,
    nodes: &[Node],
    by_var: &Rows,
    bits: usize,
    shared: usize,
    at_start: bool,
) -> Result<Rows, Memory>
    requires shared { shared ≤ length by_var.now }
    requires shape { AreRows (length by_var.now) bits by_var.now }
    requires below { HaveVarsBelow (length by_var.now) nodes.now }
    ensures shape { IfOk result (AreRows (length nodes.now) bits) }
    ensures rows { IfOk result (AreAssignedRows at_start shared by_var.now bits nodes.now) }
{
    let globals = joined_row(alloc, by_var, bits, shared)?;
    let mut rows = Rows::with_room(alloc, nodes.len(), bits)?;
    for node in nodes {
        push_assigned(&mut rows, node, by_var, bits, shared, &globals, at_start)?;
    }
    Ok(rows)
}

/// The rows of the first so many variables, joined. It fails only with `Memory`.
fn joined_row(alloc: Global, by_var: &Rows, bits: usize, count: usize) -> Result<Row, Memory>
    requires shape { AreRows (length by_var.now) bits by_var.now }
    requires count { count ≤ length by_var.now }
    ensures { IfOk result (λ row. row ≡ joined_rows by_var.now bits count) }
{
    let mut joined = Row::new(alloc, bits)?;
    for x in 0..count {
        let _ = joined.or_from(&by_var.row(x));
    }
    Ok(joined)
}

/// Puts the row of a node at the end, where `globals` is that of the globals. It fails only with `Memory`.
fn push_assigned(
    rows: &mut Rows,
    node: &Node,
    by_var: &Rows,
    bits: usize,
    shared: usize,
    globals: &Row,
    at_start: bool,
) -> Result<(), Memory>
    requires shared { shared ≤ length by_var.now }
    requires globals { globals.now ≡ joined_rows by_var.now bits shared }
    requires long { AreEquallyLong bits rows.old }
    requires shape { AreRows (length by_var.now) bits by_var.now }
    requires below { AllBelow (length by_var.now) (node_vars node.now) }
    ensures { OnOk result (rows.new ≡ rows.old ++
        assigned_row at_start shared by_var.now bits (Some node.now) ∷ []) }
{
    match node {
        Node::Start(_) if at_start => push_true(rows, bits),
        Node::Assign(x, _, _) => rows.push(&by_var.row(*x)),
        Node::Call(into, _, _, _) => push_called(rows, *into, by_var, bits, shared, globals),
        _ => rows.push_false(bits),
    }
}

/// Puts the row of a call at the end, whose result goes to this variable, where there is one.
fn push_called(
    rows: &mut Rows,
    into: Option<usize>,
    by_var: &Rows,
    bits: usize,
    shared: usize,
    globals: &Row,
) -> Result<(), Memory>
    requires long { AreEquallyLong bits rows.old }
    requires shape { AreRows (length by_var.now) bits by_var.now }
    requires below { AllBelow (length by_var.now) (into_vars into) }
    requires shared { shared ≤ length by_var.now }
    requires globals { globals.now ≡ joined_rows by_var.now bits shared }
    ensures { OnOk result (rows.new ≡ rows.old ++ called_row by_var.now bits shared into ∷ []) }
{
    let last = rows.len();
    rows.push(&globals.view())?;
    if let Some(x) = into {
        rows.or_into(last, by_var, x);
    }
    Ok(())
}

/// Puts a row of so many bits, all true, at the end. It fails only with `Memory`, and the rows are then as they were.
pub fn push_true(rows: &mut Rows, bits: usize) -> Result<(), Memory>
    requires { AreEquallyLong bits rows.old }
    ensures ok { OnOk result (rows.new ≡ rows.old ++ replicate bits true ∷ []) }
    ensures err { OnErr result (rows.new ≡ rows.old) }
{
    let last = rows.len();
    rows.push_false(bits)?;
    rows.flip(last);
    Ok(())
}

/// Sets the bit of this number in the row of the variable, where it has a row. It does not allocate.
pub fn mark_var(rows: &mut Rows, number: usize, x: usize)
    requires { (row : ℕ) → row < length rows.old → number < length (row_of rows.old row) }
    ensures { SetsBitAt number (x ∷ []) rows.old rows.new }
{
    if x < rows.len() {
        rows.set(x, number, true);
    }
}

/// Sets the bit of this number in the row of the operand, where it is a variable that has a row. It does not allocate.
pub fn mark_operand(rows: &mut Rows, number: usize, operand: Operand)
    requires { (row : ℕ) → row < length rows.old → number < length (row_of rows.old row) }
    ensures { SetsBitAt number (operand_vars operand) rows.old rows.new }
{
    match operand {
        Operand::Var(x) => mark_var(rows, number, x),
        Operand::Const(_) => {}
    }
}
