// The least numbers of bits that the units of a program ask of one another.
ghost use Rattle.std.specs.Prelude.{◌≡◌, ◌<◌, true, length, IfOk, OnOk};
ghost use Rattle.unit_callers.specs.Calling.{AreUnitCallers};
ghost use Rattle.program_wanted.specs.Demands.{AreLeastDemands, IsAround};
ghost use Rattle.program_wanted.specs.Serving.{CanServe, IsServing};
ghost use Rattle.program_wanted.specs.Sweeps.{FitTogether, IsProgress, Sweeps};
ghost use Rattle.program_wanted.specs.Tables.{demands_of};

use crate::hastening::hasten;
use crate::preparing::all_prepared;
use crate::raising::{UnitAsks, nothing_asked};
use crate::serving::serve_stale;
use crate::starting::first_demands;
use flow_graph::Graph;
use mir_base::Memory;
use std::alloc::Global;
use unit_callers::{Callers, callers_of};
use wanted_bits::{Around, Prepared, Widths};

/// What is asked for around each unit of a program. Contracts see it as `demands_of`.
#[derive(Drop)]
pub struct Tables {
    /// For each unit, how many bits are wanted of each global where it is entered.
    pub(crate) globals: Vec<Widths>,
    /// And of each of its arguments.
    pub(crate) arguments: Vec<Widths>,
    /// And of each global that it hands back, and of its result.
    pub(crate) backs: Vec<Widths>,
}

/// What is asked for around a unit, as the passes within a unit take it. It does not allocate.
pub fn around<'a>(tables: &'a Tables, unit: usize) -> Around<'a>
    requires { unit < length (demands_of tables.now).backs }
    ensures { IsAround (demands_of tables.now) unit result }
{
    Around {
        globals: tables.globals.as_slice(),
        arguments: tables.arguments.as_slice(),
        back: &tables.backs[unit],
    }
}

/// The least demands that serve all units. Sweeps serve the units that may lack something, until one raises nothing.
pub(crate) fn least_demands(alloc: Global, graphs: &Vec<Graph>) -> Result<Tables, Memory>
    requires { FitTogether graphs.now.items }
    ensures { IfOk result (λ tables. AreLeastDemands graphs.now.items (demands_of tables)) }
{
    let callers = callers_of(alloc, graphs)?;
    let tables = first_demands(alloc, graphs)?;
    let served = served(alloc, graphs, &callers, tables)?;
    Ok(served)
}

/// These demands, raised until they serve all units: by some sweeps, which most programs want no more of, then by what
/// is kept of the units, and by sweeps until nothing is raised.
fn served(
    alloc: Global,
    graphs: &Vec<Graph>,
    callers: &Vec<Callers>,
    first: Tables,
) -> Result<Tables, Memory>
    requires fit { FitTogether graphs.now.items }
    requires callers { AreUnitCallers graphs.now.items callers.now.items }
    requires progress { IsProgress graphs.now.items (demands_of first) }
    ensures { IfOk result (λ tables. AreLeastDemands graphs.now.items (demands_of tables)) }
{
    let mut tables = first;
    let prepared = all_prepared(alloc, graphs)?;
    let done = sweep_often(alloc, graphs, &prepared, callers, &mut tables, FIRST_SWEEPS)?;
    if done {
        return Ok(tables);
    }
    finish(alloc, graphs, &prepared, callers, &mut tables)?;
    Ok(tables)
}

/// So many sweeps come first.
const FIRST_SWEEPS: usize = 4;

/// At most so many sweeps, and whether the last raised nothing.
fn sweep_often(
    alloc: Global,
    graphs: &Vec<Graph>,
    prepared: &Vec<Prepared>,
    callers: &Vec<Callers>,
    tables: &mut Tables,
    most: usize,
) -> Result<bool, Memory>
    requires units { CanServe graphs.now.items prepared.now.items callers.now.items }
    requires progress { IsProgress graphs.now.items (demands_of tables.old) }
    ensures progress { OnOk result (IsProgress graphs.now.items (demands_of tables.new)) }
    ensures done { IfOk result (λ done. done ≡ true →
        AreLeastDemands graphs.now.items (demands_of tables.new)) }
{
    let mut asks = nothing_asked(alloc, graphs)?;
    let mut stale = vec![in alloc; true; graphs.len()]?;
    for count in 0..most {
        let _ = count;
        let raised = sweep(
            alloc, graphs, prepared, callers, tables, &mut stale, &mut asks,
        )?;
        if !raised {
            return Ok(true);
        }
    }
    Ok(false)
}

/// Hastens, and sweeps until nothing is raised.
fn finish(
    alloc: Global,
    graphs: &Vec<Graph>,
    prepared: &Vec<Prepared>,
    callers: &Vec<Callers>,
    tables: &mut Tables,
) -> Result<(), Memory>
    requires units { CanServe graphs.now.items prepared.now.items callers.now.items }
    requires progress { IsProgress graphs.now.items (demands_of tables.old) }
    ensures { OnOk result (AreLeastDemands graphs.now.items (demands_of tables.new)) }
{
    hasten(alloc, graphs, prepared, callers, tables)?;
    sweep_on(alloc, graphs, prepared, callers, tables)?;
    Ok(())
}

/// Sweeps until nothing is raised.
fn sweep_on(
    alloc: Global,
    graphs: &Vec<Graph>,
    prepared: &Vec<Prepared>,
    callers: &Vec<Callers>,
    tables: &mut Tables,
) -> Result<(), Memory>
    requires units { CanServe graphs.now.items prepared.now.items callers.now.items }
    requires progress { IsProgress graphs.now.items (demands_of tables.old) }
    ensures { OnOk result (AreLeastDemands graphs.now.items (demands_of tables.new)) }
{
    let mut asks = nothing_asked(alloc, graphs)?;
    let mut stale = vec![in alloc; true; graphs.len()]?;
    loop {
        let raised = sweep(
            alloc, graphs, prepared, callers, tables, &mut stale, &mut asks,
        )?;
        if !raised {
            return Ok(());
        }
    }
}

/// Serves the stale units, from the first to the last and back, and answers whether a number was raised.
fn sweep(
    alloc: Global,
    graphs: &Vec<Graph>,
    prepared: &Vec<Prepared>,
    callers: &Vec<Callers>,
    tables: &mut Tables,
    stale: &mut Vec<bool>,
    asks: &mut Vec<UnitAsks>,
) -> Result<bool, Memory>
    requires units { CanServe graphs.now.items prepared.now.items callers.now.items }
    requires serving { IsServing graphs.now.items (demands_of tables.old) stale.old.items
        asks.old.items }
    ensures swept { IfOk result (λ raised.
        Sweeps graphs.now.items (demands_of tables.old) (demands_of tables.new) raised) }
    ensures serving { OnOk result (IsServing graphs.now.items (demands_of tables.new)
        stale.new.items asks.new.items) }
{
    let down = sweep_down(alloc, graphs, prepared, callers, tables, stale, asks)?;
    let up = sweep_up(alloc, graphs, prepared, callers, tables, stale, asks)?;
    Ok(down | up)
}

/// From the first to the last.
fn sweep_down(
    alloc: Global,
    graphs: &Vec<Graph>,
    prepared: &Vec<Prepared>,
    callers: &Vec<Callers>,
    tables: &mut Tables,
    stale: &mut Vec<bool>,
    asks: &mut Vec<UnitAsks>,
) -> Result<bool, Memory>
    requires units { CanServe graphs.now.items prepared.now.items callers.now.items }
    requires serving { IsServing graphs.now.items (demands_of tables.old) stale.old.items
        asks.old.items }
    ensures swept { IfOk result (λ raised.
        Sweeps graphs.now.items (demands_of tables.old) (demands_of tables.new) raised) }
    ensures serving { OnOk result (IsServing graphs.now.items (demands_of tables.new)
        stale.new.items asks.new.items) }
{
    let mut raised = false;
    for unit in 0..graphs.len() {
        raised |= serve_stale(alloc, graphs, prepared, callers, tables, stale, asks, unit)?;
    }
    Ok(raised)
}

/// From the last to the first.
fn sweep_up(
    alloc: Global,
    graphs: &Vec<Graph>,
    prepared: &Vec<Prepared>,
    callers: &Vec<Callers>,
    tables: &mut Tables,
    stale: &mut Vec<bool>,
    asks: &mut Vec<UnitAsks>,
) -> Result<bool, Memory>
    requires units { CanServe graphs.now.items prepared.now.items callers.now.items }
    requires serving { IsServing graphs.now.items (demands_of tables.old) stale.old.items
        asks.old.items }
    ensures swept { IfOk result (λ raised.
        Sweeps graphs.now.items (demands_of tables.old) (demands_of tables.new) raised) }
    ensures serving { OnOk result (IsServing graphs.now.items (demands_of tables.new)
        stale.new.items asks.new.items) }
{
    let mut raised = false;
    for count in 0..graphs.len() {
        let unit = graphs.len() - 1 - count;
        raised |= serve_stale(alloc, graphs, prepared, callers, tables, stale, asks, unit)?;
    }
    Ok(raised)
}
