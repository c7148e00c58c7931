// One unit that is served: what is asked for around units is raised to what it asks for.
ghost use Rattle.std.specs.Prelude.{◌<◌, length, IfOk, OnOk};
ghost use Rattle.program_wanted.specs.Preparing.{FitsUnit};
ghost use Rattle.program_wanted.specs.Serving.{CanServe, IsServing};
ghost use Rattle.program_wanted.specs.Stale.{FreshAreServed};
ghost use Rattle.program_wanted.specs.Sweeps.{IsProgress, Serves};
ghost use Rattle.program_wanted.specs.Tables.{demands_of};

use crate::demands::Tables;
use crate::raising::{UnitAsks, ask_unit, raise_backs};
use flow_graph::Graph;
use mir_base::Memory;
use std::alloc::Global;
use unit_callers::{Callers, mark_if};
use wanted_bits::Prepared;

/// Raises the numbers to what a unit wants by them, if it is stale, and answers whether one was less. Units that may
/// lack something then are stale.
pub(crate) fn serve_stale(
    alloc: Global,
    graphs: &Vec<Graph>,
    prepared: &Vec<Prepared>,
    callers: &Vec<Callers>,
    tables: &mut Tables,
    stale: &mut Vec<bool>,
    asks: &mut Vec<UnitAsks>,
    unit: usize,
) -> Result<bool, Memory>
    requires units { CanServe graphs.now.items prepared.now.items callers.now.items }
    requires serving { IsServing graphs.now.items (demands_of tables.old) stale.old.items
        asks.old.items }
    requires there { unit < length graphs.now.items }
    ensures serves { IfOk result (λ raised.
        Serves graphs.now.items unit (demands_of tables.old) (demands_of tables.new) raised) }
    ensures serving { OnOk result (IsServing graphs.now.items (demands_of tables.new)
        stale.new.items asks.new.items) }
{
    if stale[unit] {
        let unit_asks = &mut asks[unit];
        let raised = serve(
            alloc, graphs, prepared, callers, tables, stale, unit_asks, unit,
        )?;
        Ok(raised)
    } else {
        Ok(false)
    }
}

/// The same, whether it is stale or not.
fn serve(
    alloc: Global,
    graphs: &Vec<Graph>,
    prepared: &Vec<Prepared>,
    callers: &Vec<Callers>,
    tables: &mut Tables,
    stale: &mut Vec<bool>,
    asks: &mut UnitAsks,
    unit: usize,
) -> Result<bool, Memory>
    requires units { CanServe graphs.now.items prepared.now.items callers.now.items }
    requires progress { IsProgress graphs.now.items (demands_of tables.old) }
    requires fresh { FreshAreServed graphs.now.items (demands_of tables.old) stale.old.items }
    requires asks { FitsUnit graphs.now.items unit asks.old }
    requires there { unit < length graphs.now.items }
    ensures serves { IfOk result (λ raised.
        Serves graphs.now.items unit (demands_of tables.old) (demands_of tables.new) raised) }
    ensures fresh { OnOk result
        (FreshAreServed graphs.now.items (demands_of tables.new) stale.new.items) }
    ensures asks { OnOk result (FitsUnit graphs.now.items unit asks.new) }
{
    let graph = &graphs[unit];
    let _nodes = graph.nodes();
    let _shared = graph.shared();
    let ready = &prepared[unit];
    ask_unit(alloc, graph, ready, tables, unit, asks)?;
    stale[unit] = false;
    let entered = tables.globals[unit].raise_all(&asks.globals);
    let given = tables.arguments[unit].raise_all(&asks.arguments);
    mark_if(entered | given, callers[unit].units(), stale);
    let back = raise_backs(graph, asks.calls.as_slice(), &mut tables.backs, stale);
    Ok(entered | given | back)
}
