// Down rules.
ghost use Rattle.std.specs.Prelude.{ℕ, IfOk};
ghost use Rattle.mir_base.specs.declared.instructions.Expr.{Expr};
ghost use Rattle.flow_graph.specs.Graphs.{GraphShape};
ghost use Rattle.motion_rewrite.specs.Rows.{AreRowsWhere};
ghost use Rattle.motion_rewrite.specs.Placements.{IsAnticipatable};
ghost use Rattle.down_safe.specs.Busy.{AreSitesOf};
ghost use Rattle.down_safe.specs.EveryPathLaws.{every_path_laws};
ghost use Rattle.down_safe.specs.Rules.{HasDownLaws};

use crate::Sites;
use bit_rows::Rows;
use mir_base::Memory;
use motion_rewrite::ExprTable;
use path_laws::backward_all_over;
use std::alloc::Global;

/// A down rule: at which nodes an expression may be evaluated since what follows uses it. Its meaning, `is_down`, says
/// of a graph and an expression which nodes are down, and keeps the laws of a down rule on every split graph.
pub trait DownRule {
    ghost is_down: { Self → GraphShape → Expr → ℕ → Type 0 };

    /// At which nodes each expression of the table is down: one row for each node, one bit for each expression. The
    /// graph is split, and `sites` say where each expression is used and killed. It fails only with `Memory`.
    fn down(&self, alloc: Global, sites: &Sites<'_>, table: &ExprTable) -> Result<Rows, Memory>
        requires { AreSitesOf sites.now table.now }
        ensures { IfOk result
            (AreRowsWhere sites.now.graph.now table.now (is_down self.now sites.now.graph.now)) };

    ghost laws: { (rule : Self) → HasDownLaws (is_down rule) };
}

/// The rule of anticipatable expressions: a node is down where every path from it that ends at its first killing node,
/// or at a Return with no killing node before it, has a use on it.
#[derive(Clone, Copy, Debug, PartialEq, Eq)]
pub struct EveryPath;

impl DownRule for EveryPath {
    ghost is_down = { λ rule graph e n. IsAnticipatable graph e n };

    fn down(&self, alloc: Global, sites: &Sites<'_>, _table: &ExprTable) -> Result<Rows, Memory> {
        let blocks = sites.blocks;
        let uses = sites.uses;
        let rows = backward_all_over(alloc, sites.graph, sites.edges, blocks, uses, sites.kills)?;
        Ok(rows)
    }

    ghost laws = { λ rule graph is_graph split e. every_path_laws graph e };
}
