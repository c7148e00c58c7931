// The rule for expressions that divide.
ghost use Rattle.std.specs.Prelude.{ℕ, ◌<◌, length};
ghost use Rattle.mir_base.specs.declared.instructions.Expr.{Expr};
ghost use Rattle.div_move.specs.MustCome.{MustComeTo, RunsComeTo};
ghost use Rattle.div_move.specs.MustComeLaws.{must_come_laws};

use crate::solving::must_come_rows;
use bit_rows::Rows;
use down_safe::{DownRule, Sites};
use flow_graph::Graph;
use mir_base::Memory;
use motion_rewrite::ExprTable;
use std::alloc::Global;

/// The rule for expressions that divide: a node is down where each path from it comes, within some number of nodes, to
/// one that uses the expression, and no node before that one kills it, can be observed (a print, a guard, a call or a
/// return) or divides by another right side. So a loop alone makes no node down, and where the expression traps at a
/// node that is down, a run from there traps alike, and shows nothing before.
#[derive(Clone, Copy, Debug, PartialEq, Eq)]
pub struct MustReach;

/// Has no effect; carries the theorem that each run of the graph from a node that must come to an expression comes to a
/// node that uses it, after steps that show nothing, with the values of its operands as they were.
pub fn runs_come(graph: &Graph)
    ensures { (e : Expr) (n : ℕ) → n < length graph.now.nodes → MustComeTo graph.now e n
        → RunsComeTo graph.now e n }
{
    let _nodes = graph.nodes();
}

impl DownRule for MustReach {
    ghost is_down = { λ rule graph e n. MustComeTo graph e n };

    fn down(&self, alloc: Global, sites: &Sites<'_>, table: &ExprTable) -> Result<Rows, Memory> {
        let rows = must_come_rows(alloc, sites, table)?;
        Ok(rows)
    }

    ghost laws = { λ rule graph is_graph split e. must_come_laws graph e is_graph };
}
