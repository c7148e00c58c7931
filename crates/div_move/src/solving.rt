// Which nodes must come to which expressions.
ghost use Rattle.std.specs.Prelude.{◌≡◌, ◌<◌, length, IfOk};
ghost use Rattle.motion_rewrite.specs.Rows.{AreRowsWhere};
ghost use Rattle.down_safe.specs.Busy.{AreSitesOf};
ghost use Rattle.div_move.specs.MustCome.{MustComeTo};
ghost use Rattle.div_move.specs.SlotFlow.{AreDownRows, IsSlotFlow, SolvesSlots};

use crate::flow::SlotFlow;
use crate::slots::{RowPair, Slots, row_pair};
use bit_rows::Rows;
use down_safe::Sites;
use fix_solve::{Steps, Work, solve};
use mir_base::Memory;
use motion_rewrite::ExprTable;
use std::alloc::Global;
use std::marker::{Brand, PhantomData};
use std::sync::ledger::{Blank, Ledger};

/// At which nodes a run must come to each expression of the table before anything can be observed: one row for each
/// node, one bit for each expression. It fails only with `Memory`.
pub(crate) fn must_come_rows(
    alloc: Global,
    sites: &Sites<'_>,
    table: &ExprTable,
) -> Result<Rows, Memory>
    requires { AreSitesOf sites.now table.now }
    ensures { IfOk result
        (AreRowsWhere sites.now.graph.now table.now (MustComeTo sites.now.graph.now)) }
{
    let rows = rows_from::<Brand>(alloc, sites, table, Blank::new(1))?;
    Ok(rows)
}

/// The same rows, with the counter that this blank ledger gives.
fn rows_from<L: Ledger>(
    alloc: Global,
    sites: &Sites<'_>,
    table: &ExprTable,
    blank: Blank,
) -> Result<Rows, Memory>
    requires name { blank.name ≡ L.name }
    requires parts { blank.parts ≡ L.parts }
    requires some { 0 < blank.parts }
    requires sites { AreSitesOf sites.now table.now }
    ensures { IfOk result
        (AreRowsWhere sites.now.graph.now table.now (MustComeTo sites.now.graph.now)) }
{
    let _nodes = sites.graph.nodes();
    let flow = SlotFlow {
        graph: sites.graph,
        edges: sites.edges,
        uses: sites.uses,
        kills: sites.kills,
        bits: table.len(),
        ledger: PhantomData,
    };
    let mut steps = Steps::<L>::new(blank);
    let work = least(alloc, &flow, &mut steps)?;
    let rows = down_rows(alloc, &flow, &work)?;
    Ok(rows)
}

/// The least slots that are known.
fn least<L: Ledger>(
    alloc: Global,
    flow: &SlotFlow<'_, L>,
    steps: &mut Steps<L>,
) -> Result<Work<Slots>, Memory>
    requires { IsSlotFlow flow.now }
    ensures { IfOk result (SolvesSlots flow.now) }
{
    let mut work = Work::new(alloc, flow)?;
    solve(&mut work, flow, steps);
    Ok(work)
}

/// Which expressions are known to be down at each node, where these slots are known.
fn down_rows<L: Ledger>(
    alloc: Global,
    flow: &SlotFlow<'_, L>,
    work: &Work<Slots>,
) -> Result<Rows, Memory>
    requires valid { IsSlotFlow flow.now }
    requires solved { SolvesSlots flow.now work.now }
    ensures { IfOk result (AreDownRows flow.now work.now) }
{
    let nodes = flow.graph.len();
    let mut room = row_pair(alloc, flow.bits, false, false)?;
    let mut rows = Rows::with_room(alloc, nodes, flow.bits)?;
    for node in 0..nodes {
        flow.bring(node, work.value(node).known(), &mut room);
        rows.push(&room.first.view())?;
    }
    Ok(rows)
}
