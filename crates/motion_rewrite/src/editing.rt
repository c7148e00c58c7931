// The edits by which a graph is rewritten: uses that read temporaries, and evaluations before nodes.
ghost use Rattle.std.specs.Prelude.{◌≡◌, [], ◌+◌, ◌<◌, ◌≤◌, length, IfOk};
ghost use Rattle.mir_base.specs.ExpressionVars.{rhs_of};
ghost use Rattle.graph_edit.specs.Editing.{graph_changed, graph_put_all};
ghost use Rattle.graph_edit.specs.Insertions.{ChangeBelow, InsertionsBelow};
ghost use Rattle.path_laws.specs.Paths.{AreRows};
ghost use Rattle.motion_rewrite.specs.Edits.{CanChange, CanChangeEach, ChangesBelow, PutsBelow, change_by, graph_evaluating, graph_read, puts_by};
ghost use Rattle.motion_rewrite.specs.Flatten.{inserted, inserted_below, set_from};

use crate::ExprTable;
use bit_rows::{RowView, Rows};
use graph_edit::Editor;
use mir_base::{Expr, Memory, Operand, Rhs};
use std::alloc::AllocError;

/// How many insertions there are. It fails only with `Memory`, where there are more than any memory holds.
pub(crate) fn insertions_in(insert: &Rows) -> Result<usize, Memory>
    ensures { IfOk result (λ room. room ≡ inserted_below insert.now (length insert.now)) }
{
    let mut room: usize = 0;
    for node in 0..insert.len() {
        room = room
            .checked_add(set_in(&insert.row(node)))
            .ok_or(AllocError)?;
    }
    Ok(room)
}

/// How many bits are set.
fn set_in(row: &RowView<'_>) -> usize
    ensures { result ≡ length (set_from 0 row.now) }
{
    let mut count = 0;
    let mut from = 0;
    while from < row.len() {
        match row.next_true(from) {
            Some(number) => {
                count += 1;
                from = number + 1;
            }
            None => return count,
        }
    }
    count
}

/// Lets each use whose bit is set read the temporary of its expression.
pub(crate) fn read_temporaries(editor: &mut Editor, temps: &[usize], replace: &Rows)
    requires rows { AreRows (length editor.old.graph.nodes) (length temps.now) replace.now }
    requires uses { CanChangeEach editor.old.graph temps.now replace.now }
    requires vars { ChangesBelow (length editor.old.graph.vars) temps.now replace.now }
    ensures graph { editor.new.graph ≡ graph_read temps.now replace.now editor.old.graph }
    ensures spare { editor.new.spare ≡ editor.old.spare }
{
    for node in 0..replace.len() {
        read_temporary(editor, node, temps, &replace.row(node));
    }
}

/// Lets one use read the temporary of its expression, where a bit of the row is set.
fn read_temporary(editor: &mut Editor, node: usize, temps: &[usize], row: &RowView<'_>)
    requires width { length row.now ≡ length temps.now }
    requires uses { CanChange editor.old.graph node (change_by temps.now row.now) }
    requires vars { ChangeBelow (length editor.old.graph.vars) (change_by temps.now row.now) }
    ensures graph { editor.new.graph ≡
        graph_changed node (change_by temps.now row.now) editor.old.graph }
    ensures spare { editor.new.spare ≡ editor.old.spare }
{
    match row.next_true(0) {
        Some(number) => editor.change(node, Some(Rhs::Plain(Operand::Var(temps[number])))),
        None => {}
    }
}

/// Puts the evaluations before the nodes, in order.
pub(crate) fn put_evaluations(
    editor: &mut Editor,
    table: &ExprTable,
    temps: &[usize],
    insert: &Rows,
)
    requires rows { AreRows (length editor.old.graph.nodes) (length table.now) insert.now }
    requires temps { length temps.now ≡ length table.now }
    requires start { inserted insert.now 0 ≡ [] }
    requires vars { PutsBelow (length editor.old.graph.vars) temps.now table.now insert.now }
    requires room { editor.old.spare ≡ inserted_below insert.now (length insert.now) }
    ensures { editor.new.graph ≡ graph_evaluating temps.now table.now insert.now editor.old.graph }
{
    for node in 0..insert.len() {
        put_before(editor, node, table, temps, &insert.row(node));
    }
}

/// Puts the evaluations of the expressions whose bits are set before a node, in order of the table.
fn put_before(
    editor: &mut Editor,
    node: usize,
    table: &ExprTable,
    temps: &[usize],
    row: &RowView<'_>,
)
    requires width { length row.now ≡ length table.now }
    requires temps { length temps.now ≡ length table.now }
    requires node { node < length editor.old.graph.nodes }
    requires some { 0 < length (set_from 0 row.now) → 1 ≤ node }
    requires vars { InsertionsBelow (length editor.old.graph.vars)
        (puts_by temps.now table.now row.now) }
    requires room { length (set_from 0 row.now) ≤ editor.old.spare }
    ensures graph { editor.new.graph ≡
        graph_put_all node (puts_by temps.now table.now row.now) editor.old.graph }
    ensures spare { editor.new.spare + length (set_from 0 row.now) ≡ editor.old.spare }
{
    let mut from = 0;
    while from < row.len() {
        match row.next_true(from) {
            Some(number) => {
                editor.put_before(node, temps[number], rhs_of(table.get(number)));
                from = number + 1;
            }
            None => return,
        }
    }
}

/// The expression as a right side.
fn rhs_of(expr: &Expr) -> Rhs
    ensures { result ≡ rhs_of expr.now }
{
    match expr {
        Expr::Un(op, a) => Rhs::Unary(*op, *a),
        Expr::Bin(op, a, b) => Rhs::Binary(*op, *a, *b),
    }
}
