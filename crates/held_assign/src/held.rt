// Before which nodes each assignment holds.
ghost use Rattle.std.specs.Prelude.{◌≡◌, ◌<◌, length, IfNone, IfOk, IfSome};
ghost use Rattle.mir_base.specs.Shapes.{AllDiffer};
ghost use Rattle.key_rows.specs.KeyRows.{AreKeyRows};
ghost use Rattle.held_assign.specs.Assignments.{AreHoldable, AreInOrder, HasAssignments, HasOnlyAssignments};
ghost use Rattle.held_assign.specs.Rows.{AreHeldRows, AreTargetRows, HaveNoneShared, IsFirstShared, IsLookup, TellsHeld, held_at, is_born, is_ended};

use crate::Picks;
use crate::rows::{born_rows, ended_rows, target_rows};
use crate::table::{Assignment, table_of};
use bit_rows::{RowView, Rows};
use flow_graph::{Edges, Graph};
use key_table::KeyTable;
use mir_base::{Memory, Rhs};
use path_laws::forward_all;
use std::alloc::Global;

/// The distinct picked assignments of a graph, and where they hold.
#[derive(Drop)]
pub struct HeldAssigns {
    /// The assignments.
    pub table: KeyTable<Assignment>,
    /// For each variable, which assignments assign it: one row for each variable, one bit for each assignment.
    pub targets: Rows,
    /// Where an assignment holds, before the node: one row for each node, one bit for each assignment.
    pub held: Rows,
}

impl HeldAssigns {
    /// The distinct picked assignments of a graph that never trap and do not read their own variable, in order of the
    /// first node that is each, and where they hold. It fails only with `Memory`.
    pub fn of<P: Picks>(alloc: Global, graph: &Graph, picks: &P) -> Result<HeldAssigns, Memory>
        ensures lookup { IfOk result (IsLookup (length graph.now.vars) (length graph.now.nodes)) }
        ensures held { IfOk result (λ held. AreHeldRows graph.now held.table held.held) }

        // the table has the picked assignments that the nodes are, and no others
        ensures all { IfOk result (λ held.
            HasAssignments (P.picked picks.now) graph.now.nodes held.table) }
        ensures only { IfOk result (λ held.
            HasOnlyAssignments (P.picked picks.now) graph.now.nodes held.table) }

        // each once, in order of the first node that is each
        ensures differ { IfOk result (λ held. AllDiffer held.table) }
        ensures order { IfOk result (λ held.
            AreInOrder (P.picked picks.now) graph.now.nodes held.table) }

        // what `rhs_at` answers is the picked right side that holds, and `None` exactly where there is none
        ensures tells { IfOk result (TellsHeld (P.picked picks.now) graph.now) }
    {
        let table = table_of(alloc, graph, picks)?;
        let targets = target_rows(alloc, graph.vars().len(), &table)?;
        let held = held_rows(alloc, graph, &table, &targets, picks)?;
        Ok(HeldAssigns {
            table,
            targets,
            held,
        })
    }

    /// The picked right side that holds for a variable before a node, where there is one. It does not allocate.
    pub fn rhs_at(&self, node: usize, var: usize) -> Option<Rhs>
        requires lookup { IsLookup (length self.now.targets) (length self.now.held) self.now }
        requires there { node < length self.now.held }
        ensures { result ≡ held_at self.now node var }
    {
        if var >= self.targets.len() {
            return None;
        }
        match first_shared(&self.targets.row(var), &self.held.row(node)) {
            Some(number) => Some(self.table.get(number).rhs),
            None => None,
        }
    }
}

/// Which assignments of the table hold before each node. Each variable has its row of those that assign it. Where there
/// is no assignment, nothing is solved.
fn held_rows<P: Picks>(
    alloc: Global,
    graph: &Graph,
    table: &KeyTable<Assignment>,
    targets: &Rows,
    picks: &P,
) -> Result<Rows, Memory>
    requires holdable { AreHoldable (P.picked picks.now) (length graph.now.vars) table.now }
    requires targets { AreTargetRows (length graph.now.vars) table.now targets.now }
    ensures { IfOk result (AreHeldRows graph.now table.now) }
{
    if table.len() == 0 {
        let rows = Rows::new(alloc, graph.len(), 0)?;
        return Ok(rows);
    }
    let born = born_rows(alloc, graph, table, picks)?;
    let ended = ended_rows(alloc, graph, table, targets)?;
    let rows = held_since(alloc, graph, table, &born, &ended, picks)?;
    Ok(rows)
}

/// Which assignments of the table hold before each node, by the rows of those that each node is and of those that it
/// ends.
fn held_since<P: Picks>(
    alloc: Global,
    graph: &Graph,
    table: &KeyTable<Assignment>,
    born: &Rows,
    ended: &Rows,
    picks: &P,
) -> Result<Rows, Memory>
    requires holdable { AreHoldable (P.picked picks.now) (length graph.now.vars) table.now }
    requires born { AreKeyRows (length graph.now.nodes) table.now (is_born graph.now) born.now }
    requires ended { AreKeyRows (length graph.now.nodes) table.now (is_ended graph.now) ended.now }
    ensures { IfOk result (AreHeldRows graph.now table.now) }
{
    let _ = table;
    let _ = picks;
    let _nodes = graph.nodes();
    let edges = Edges::of(alloc, graph)?;
    let rows = forward_all(alloc, graph, &edges, born, ended)?;
    Ok(rows)
}

/// The first bit that both rows have, which are equally long. The bits of the first are tried in turn.
fn first_shared(row: &RowView<'_>, other: &RowView<'_>) -> Option<usize>
    requires { length row.now ≡ length other.now }
    ensures found { IfSome result (IsFirstShared row.now other.now) }
    ensures none { IfNone result (HaveNoneShared row.now other.now) }
{
    let mut from = 0;
    while from < row.len() {
        let number = row.next_true(from)?;
        if other.get(number) {
            return Some(number);
        }
        from = number + 1;
    }
    None
}
