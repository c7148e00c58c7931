// One unit that is served: what is known around units is raised to what it hands over and back.
ghost use Rattle.std.specs.Prelude.{◌≡◌, ◌<◌, true, length, IfOk, OnOk};
ghost use Rattle.cond_flow.specs.States.{is_reached};
ghost use Rattle.program_bounds.specs.Facts.{row_at};
ghost use Rattle.program_bounds.specs.Tables.{AreFresh, CanServe, ServesUnit, facts_of};

use crate::giving::give;
use crate::known::{Tables, around};
use cond_flow::{Solved, solved_within};
use flow_graph::Graph;
use mir_base::Memory;
use std::alloc::Global;
use unit_callers::Callers;

/// Raises what is known around units to what a unit hands over and back, if it is entered and stale, and answers whether
/// a fact was surer. Units that may lack something then are stale.
pub(crate) fn serve_stale(
    alloc: Global,
    graphs: &Vec<Graph>,
    callers: &Vec<Callers>,
    tables: &mut Tables,
    unit: usize,
) -> Result<bool, Memory>
    requires can { CanServe graphs.now.items callers.now.items tables.old }
    requires there { unit < length graphs.now.items }
    ensures serves { IfOk result (ServesUnit graphs.now.items unit tables.old tables.new) }
    ensures fresh { OnOk result (AreFresh graphs.now.items tables.new) }
{
    if !tables.entries[unit].is_reached() {
        return Ok(false);
    }
    if tables.stale[unit] {
        let raised = serve(alloc, graphs, callers, tables, unit)?;
        Ok(raised)
    } else {
        Ok(false)
    }
}

/// The same of a unit that is entered, whether it is stale or not. The graph that is made of it by the same solution is
/// kept.
fn serve(
    alloc: Global,
    graphs: &Vec<Graph>,
    callers: &Vec<Callers>,
    tables: &mut Tables,
    unit: usize,
) -> Result<bool, Memory>
    requires can { CanServe graphs.now.items callers.now.items tables.old }
    requires there { unit < length graphs.now.items }
    requires entered { is_reached (row_at (facts_of tables.old).entries unit) ≡ true }
    ensures serves { IfOk result (ServesUnit graphs.now.items unit tables.old tables.new) }
    ensures fresh { OnOk result (AreFresh graphs.now.items tables.new) }
{
    let graph = &graphs[unit];
    let outside = around(tables, unit);
    let solved = solved_within(alloc, graph, &outside)?;
    let Solved { handed, made } = solved;
    tables.stale[unit] = false;
    tables.made[unit] = Some(made);
    let list = callers[unit].units();
    let raised = give(alloc, graph, unit, list, handed.as_slice(), tables)?;
    Ok(raised)
}
