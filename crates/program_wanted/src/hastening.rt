// What is asked for around units, raised by numbers that are kept below all that solve them. A unit costs what rose, and
// a look at each of its blocks; that the demands serve all units is left to the sweeps that come after.
ghost use Rattle.std.specs.Prelude.{◌≡◌, ◌≤◌, ◌<◌, length, map, IfOk, OnOk};
ghost use Rattle.mir_base.specs.Frames.{shared_vars};
ghost use Rattle.wanted_bits.specs.KeptRows.{FitsKept, StayBelow};
ghost use Rattle.wanted_bits.specs.Preparing.{IsPrepared};
ghost use Rattle.program_wanted.specs.Demands.{asked_at};
ghost use Rattle.program_wanted.specs.Hastening.{AreEntered, AreKept, IsKept, kept_at};
ghost use Rattle.program_wanted.specs.Preparing.{ArePrepared};
ghost use Rattle.program_wanted.specs.Serving.{CanServe};
ghost use Rattle.program_wanted.specs.Sweeps.{IsProgress};
ghost use Rattle.program_wanted.specs.Tables.{demands_of};

use crate::demands::{Tables, around};
use crate::raising::raise_backs;
use flow_graph::Graph;
use mir_base::Memory;
use std::alloc::Global;
use unit_callers::{Callers, mark_if};
use wanted_bits::{Kept, Prepared, Widths, ask_kept};

/// How often the units are gone through at most.
const MOST_ROUNDS: usize = 1 << 20;

/// Raises the demands by what is kept of the units, until nothing rises or often enough.
pub(crate) fn hasten(
    alloc: Global,
    graphs: &Vec<Graph>,
    prepared: &Vec<Prepared>,
    callers: &Vec<Callers>,
    tables: &mut Tables,
) -> Result<(), Memory>
    requires units { CanServe graphs.now.items prepared.now.items callers.now.items }
    requires progress { IsProgress graphs.now.items (demands_of tables.old) }
    ensures { OnOk result (IsProgress graphs.now.items (demands_of tables.new)) }
{
    let mut kept = all_kept(alloc, graphs, prepared)?;
    let mut stale = vec![in alloc; true; graphs.len()]?;
    for round in 0..MOST_ROUNDS {
        let up = round % 2 == 1;
        let raised = hasten_all(
            alloc, graphs, prepared, callers, tables, &mut stale, &mut kept, up,
        )?;
        if !raised {
            return Ok(());
        }
    }
    Ok(())
}

/// For each unit nothing.
fn all_kept(
    alloc: Global,
    graphs: &Vec<Graph>,
    prepared: &Vec<Prepared>,
) -> Result<Vec<Kept>, Memory>
    requires { ArePrepared graphs.now.items prepared.now.items }
    ensures { IfOk result (λ all. AreKept graphs.now.items prepared.now.items all.items) }
{
    let mut all = Vec::with_capacity(alloc, graphs.len())?;
    for unit in 0..graphs.len() {
        let one = Kept::none(alloc, &graphs[unit], &prepared[unit])?;
        all.push(one)?;
    }
    Ok(all)
}

/// Raises them by the stale units, from the first to the last or back, and answers whether a number was less.
fn hasten_all(
    alloc: Global,
    graphs: &Vec<Graph>,
    prepared: &Vec<Prepared>,
    callers: &Vec<Callers>,
    tables: &mut Tables,
    stale: &mut Vec<bool>,
    kept: &mut Vec<Kept>,
    up: bool,
) -> Result<bool, Memory>
    requires units { CanServe graphs.now.items prepared.now.items callers.now.items }
    requires progress { IsProgress graphs.now.items (demands_of tables.old) }
    requires kept { AreKept graphs.now.items prepared.now.items kept.old.items }
    ensures progress { OnOk result (IsProgress graphs.now.items (demands_of tables.new)) }
    ensures kept { OnOk result (AreKept graphs.now.items prepared.now.items kept.new.items) }
{
    let mut raised = false;
    for count in 0..graphs.len() {
        let unit = turned(count, graphs.len(), up);
        let one = &mut kept[unit];
        raised |= hasten_unit(alloc, graphs, prepared, callers, tables, stale, one, unit)?;
    }
    Ok(raised)
}

/// The place of this number, or from the end.
fn turned(count: usize, places: usize, up: bool) -> usize
    requires { count < places }
    ensures { result < places }
{
    if up { places - 1 - count } else { count }
}

/// The same by one of them, if it is stale.
fn hasten_unit(
    alloc: Global,
    graphs: &Vec<Graph>,
    prepared: &Vec<Prepared>,
    callers: &Vec<Callers>,
    tables: &mut Tables,
    stale: &mut Vec<bool>,
    kept: &mut Kept,
    unit: usize,
) -> Result<bool, Memory>
    requires units { CanServe graphs.now.items prepared.now.items callers.now.items }
    requires progress { IsProgress graphs.now.items (demands_of tables.old) }
    requires kept { IsKept graphs.now.items prepared.now.items unit kept.old }
    requires there { unit < length graphs.now.items }
    ensures progress { OnOk result (IsProgress graphs.now.items (demands_of tables.new)) }
    ensures kept { OnOk result (IsKept graphs.now.items prepared.now.items unit kept.new) }
{
    if !take_mark(stale, unit) {
        return Ok(false);
    }
    let graph = &graphs[unit];
    let _nodes = graph.nodes();
    let _shared = graph.shared();
    let entered = keep_unit(alloc, graph, &prepared[unit], tables, unit, kept)?;
    let of_globals = tables.globals[unit].raise_all(&entered.globals);
    let given = tables.arguments[unit].raise_all(&entered.arguments);
    mark_if(of_globals | given, callers[unit].units(), stale);
    let back = raise_backs(graph, kept.asks(), &mut tables.backs, stale);
    Ok(of_globals | given | back)
}

/// Whether a unit is stale; then it is not any more.
fn take_mark(stale: &mut Vec<bool>, unit: usize) -> bool {
    if unit < stale.len() && stale[unit] {
        stale[unit] = false;
        true
    } else {
        false
    }
}

/// What a unit asks for where it is entered, as far as it is known.
#[derive(Drop)]
pub(crate) struct Entered {
    /// Of each global.
    pub(crate) globals: Widths,
    /// Of each of its arguments.
    pub(crate) arguments: Widths,
}

/// Raises what is kept of a unit, where so many bits are asked for around it, and answers what it asks for by that.
fn keep_unit(
    alloc: Global,
    graph: &Graph,
    prepared: &Prepared,
    tables: &Tables,
    unit: usize,
    kept: &mut Kept,
) -> Result<Entered, Memory>
    requires prepared { IsPrepared graph.now prepared.now }
    requires there { unit < length tables.now.backs.items }
    requires fits { FitsKept graph.now prepared.now kept.old }
    ensures fits { OnOk result (FitsKept graph.now prepared.now kept.new) }
    ensures below { OnOk result (StayBelow
        (asked_at (demands_of tables.now) graph.now.shared unit) graph.now prepared.now kept.old
        kept.new) }
    ensures entered { IfOk result (AreEntered graph.now kept.new.asks.items) }
{
    let around = around(tables, unit);
    ask_kept(alloc, graph, &around, prepared, kept)?;
    let globals = kept_globals(alloc, kept.asks(), graph.shared())?;
    let arguments = kept_arguments(alloc, kept.asks(), graph.received())?;
    Ok(Entered { globals, arguments })
}

/// What is asked for of each of so many globals where the unit is entered, as far as it is known.
fn kept_globals(alloc: Global, asks: &[Option<Widths>], shared: usize) -> Result<Widths, Memory>
    ensures { IfOk result (λ widths. widths ≡ map (kept_at asks.now) (shared_vars shared)) }
{
    let mut widths = Widths::zeros(alloc, 0)?;
    for x in 0..shared {
        widths.push(kept_at(asks, x))?;
    }
    Ok(widths)
}

/// What is asked for of each argument.
fn kept_arguments(
    alloc: Global,
    asks: &[Option<Widths>],
    received: &[usize],
) -> Result<Widths, Memory>
    ensures { IfOk result (λ widths. widths ≡ map (kept_at asks.now) received.now) }
{
    let mut widths = Widths::zeros(alloc, 0)?;
    for x in received {
        widths.push(kept_at(asks, *x))?;
    }
    Ok(widths)
}

/// What is asked for of a variable where the unit is entered, and nothing where that is not known.
fn kept_at(asks: &[Option<Widths>], x: usize) -> u8
    ensures value { result ≡ kept_at asks.now x }
    ensures most { result ≤ 64 }
{
    match asks.first() {
        None => 0,
        Some(None) => 0,
        Some(Some(widths)) => widths.bits_at(x).min(64),
    }
}
