// Which assignments have a variable, and which a node is or ends.
ghost use Rattle.std.specs.Prelude.{◌≡◌, ℕ, ◌<◌, length, IfOk};
ghost use Rattle.mir_base.specs.Shapes.{rhs_vars};
ghost use Rattle.bit_rows.specs.Bits.{row_of};
ghost use Rattle.key_rows.specs.KeyRows.{AreKeyRows, SetsBitAt};
ghost use Rattle.held_assign.specs.Assignments.{AreHoldable};
ghost use Rattle.held_assign.specs.Rows.{AreTargetRows, is_born, is_ended, is_of, has_target, has_source};

use crate::Picks;
use crate::keys::AsPicked;
use crate::table::Assignment;
use bit_rows::Rows;
use flow_graph::Graph;
use key_rows::{assigned_rows, key_rows, mark_operand, mark_var};
use key_table::KeyTable;
use mir_base::{Memory, Rhs};
use std::alloc::Global;

// ---- by variables

/// For each variable below this number, which assignments of the table assign it.
pub(crate) fn target_rows(
    alloc: Global,
    vars: usize,
    table: &KeyTable<Assignment>,
) -> Result<Rows, Memory>
    ensures { IfOk result (AreKeyRows vars table.now has_target) }
{
    let mut rows = Rows::new(alloc, vars, table.len())?;
    for number in 0..table.len() {
        mark_var(&mut rows, number, table.get(number).target);
    }
    Ok(rows)
}

/// For each variable below this number, which assignments of the table read it.
fn source_rows(alloc: Global, vars: usize, table: &KeyTable<Assignment>) -> Result<Rows, Memory>
    ensures { IfOk result (AreKeyRows vars table.now has_source) }
{
    let mut rows = Rows::new(alloc, vars, table.len())?;
    for number in 0..table.len() {
        mark_rhs(&mut rows, number, table.get(number).rhs);
    }
    Ok(rows)
}

/// Sets the bit of this number in the rows of the variables of a right side.
fn mark_rhs(rows: &mut Rows, number: usize, rhs: Rhs)
    requires { (x : ℕ) → x < length rows.old → number < length (row_of rows.old x) }
    ensures { SetsBitAt number (rhs_vars rhs) rows.old rows.new }
{
    match rhs {
        Rhs::Plain(a) => mark_operand(rows, number, a),
        Rhs::Unary(_, a) => mark_operand(rows, number, a),
        Rhs::Binary(_, a, b) => {
            mark_operand(rows, number, a);
            mark_operand(rows, number, b);
        }
    }
}

/// For each variable, which assignments of the table assign or read it, where `targets` has those that assign it.
fn touched_rows(alloc: Global, table: &KeyTable<Assignment>, targets: &Rows) -> Result<Rows, Memory>
    requires { AreTargetRows (length targets.now) table.now targets.now }
    ensures { IfOk result (AreKeyRows (length targets.now) table.now is_of) }
{
    let mut rows = source_rows(alloc, targets.len(), table)?;
    rows.or_rows(targets);
    Ok(rows)
}

// ---- by nodes

/// Which assignment of the table each node is: one row for each node, one bit for each assignment.
pub(crate) fn born_rows<P: Picks>(
    alloc: Global,
    graph: &Graph,
    table: &KeyTable<Assignment>,
    picks: &P,
) -> Result<Rows, Memory>
    requires { AreHoldable (P.picked picks.now) (length graph.now.vars) table.now }
    ensures { IfOk result (AreKeyRows (length graph.now.nodes) table.now (is_born graph.now)) }
{
    let nodes = graph.nodes();
    let rows = key_rows(alloc, nodes, table, &AsPicked { picks })?;
    Ok(rows)
}

/// Which assignments of the table each node ends, since it assigns one of their variables: one row for each node, one
/// bit for each assignment. Each variable has its row of those that assign it.
pub(crate) fn ended_rows(
    alloc: Global,
    graph: &Graph,
    table: &KeyTable<Assignment>,
    targets: &Rows,
) -> Result<Rows, Memory>
    requires { AreTargetRows (length graph.now.vars) table.now targets.now }
    ensures { IfOk result (AreKeyRows (length graph.now.nodes) table.now (is_ended graph.now)) }
{
    let nodes = graph.nodes();
    let touched = touched_rows(alloc, table, targets)?;
    let rows = assigned_rows(alloc, nodes, &touched, table.len(), graph.shared(), false)?;
    Ok(rows)
}
