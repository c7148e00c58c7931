// Which nodes use and kill which expressions.
ghost use Rattle.std.specs.Prelude.{◌≡◌, ◌↔◌, ℕ, ◌<◌, true, length, IfOk, IfSome, Some};
ghost use Rattle.mir_base.specs.ExpressionVars.{expr_vars};
ghost use Rattle.bit_rows.specs.Bits.{row_of};
ghost use Rattle.key_rows.specs.KeyRows.{SetsBitAt};
ghost use Rattle.path_laws.specs.Paths.{AreRows};
ghost use Rattle.motion_rewrite.specs.Expressions.{kills, uses};
ghost use Rattle.motion_rewrite.specs.ExprTables.{ForEachExpr};
ghost use Rattle.motion_rewrite.specs.Rows.{AreOperandBits, AreRowsOf};

use crate::ExprTable;
use crate::table::Written;
use bit_rows::Rows;
use flow_graph::Graph;
use key_rows::{KeyOf, assigned_rows, key_rows, mark_operand};
use mir_base::{Expr, Memory};
use std::alloc::Global;

/// At which nodes each expression of the table is used: one row for each node, one bit for each expression. It fails
/// only with `Memory`.
pub fn use_rows(alloc: Global, graph: &Graph, table: &ExprTable) -> Result<Rows, Memory>
    ensures { IfOk result (AreRowsOf graph.now table.now (uses graph.now)) }
{
    let nodes = graph.nodes();
    let rows = key_rows(alloc, nodes, table, &Written)?;
    Ok(rows)
}

/// At which nodes each expression of the table is killed: one row for each node, one bit for each expression. It fails
/// only with `Memory`.
pub fn kill_rows(alloc: Global, graph: &Graph, table: &ExprTable) -> Result<Rows, Memory>
    ensures { IfOk result (AreRowsOf graph.now table.now (kills graph.now)) }
{
    let nodes = graph.nodes();
    let operands = operand_rows(alloc, graph.vars().len(), table)?;
    let rows = assigned_rows(alloc, nodes, &operands, table.len(), graph.shared(), true)?;
    Ok(rows)
}

/// The number of the expression of the table that a node uses, and `None` exactly where it uses none of the table. It
/// does not allocate.
pub fn used_at(graph: &Graph, table: &ExprTable, node: usize) -> Option<usize>
    requires { node < length graph.now.nodes }
    ensures within { IfSome result (λ number. number < length table.now) }
    ensures used { ForEachExpr table.now
        (λ i e. (uses graph.now e node ≡ true) ↔ (result ≡ Some i)) }
{
    let nodes = graph.nodes();
    table.find_some(Written.key_of(&nodes[node]))
}

/// For each variable below this number, which expressions of the table have it as an operand.
fn operand_rows(alloc: Global, vars: usize, table: &ExprTable) -> Result<Rows, Memory>
    ensures shape { IfOk result (AreRows vars (length table.now)) }
    ensures operands { IfOk result (AreOperandBits vars table.now) }
{
    let mut rows = Rows::new(alloc, vars, table.len())?;
    for number in 0..table.len() {
        mark_expr(&mut rows, number, table.get(number));
    }
    Ok(rows)
}

/// Sets the bit of this number in the rows of the expression's variables.
fn mark_expr(rows: &mut Rows, number: usize, expr: &Expr)
    requires { (x : ℕ) → x < length rows.old → number < length (row_of rows.old x) }
    ensures { SetsBitAt number (expr_vars expr.now) rows.old rows.new }
{
    match expr {
        Expr::Un(_, a) => mark_operand(rows, number, *a),
        Expr::Bin(_, a, b) => {
            mark_operand(rows, number, *a);
            mark_operand(rows, number, *b);
        }
    }
}
