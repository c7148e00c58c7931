// What a unit asks for, and rows that are raised to it.
ghost use Rattle.std.specs.Prelude.{◌≡◌, ◌≤◌, ◌<◌, ◌↔◌, false, length, map, slice_set, IfOk, OnOk};
ghost use Rattle.node_list.specs.Lists.{list_at};
ghost use Rattle.wanted_bits.specs.BitsOrder.{joined_bits};
ghost use Rattle.program_wanted.specs.Preparing.{AreAskLists};
ghost use Rattle.program_wanted.specs.Stale.{RaisedMarked};
ghost use Rattle.mir_base.specs.Frames.{shared_vars};
ghost use Rattle.program_wanted.specs.Sweeps.{AreUnitAsks, CallsFitRows, FitsRow, RaisesBacks, entry_at, with_call};
ghost use Rattle.program_wanted.specs.Tables.{demands_of};
ghost use Rattle.program_wanted.specs.Demands.{asked_at};
ghost use Rattle.wanted_bits.specs.Asks.{AreAsks};
ghost use Rattle.wanted_bits.specs.Preparing.{IsPrepared};

use crate::demands::{Tables, around};
use flow_graph::{Graph, Node};
use mir_base::Memory;
use std::alloc::Global;
use unit_callers::mark;
use wanted_bits::{Prepared, Widths, ask_again, no_asks};

/// What a unit asks for.
#[derive(Drop)]
pub(crate) struct UnitAsks {
    /// Of each global where it is entered.
    pub(crate) globals: Widths,
    /// Of each of its arguments.
    pub(crate) arguments: Widths,
    /// At each node that calls, of each global that the called unit hands back, and of its result.
    pub(crate) calls: Vec<Option<Widths>>,
}

/// For each unit nothing, before it was served.
pub(crate) fn nothing_asked(alloc: Global, graphs: &Vec<Graph>) -> Result<Vec<UnitAsks>, Memory>
    ensures { IfOk result (λ asks. AreAskLists graphs.now.items asks.items) }
{
    let mut all = Vec::with_capacity(alloc, graphs.len())?;
    for unit in 0..graphs.len() {
        let one = unit_asks(alloc, &graphs[unit])?;
        all.push(one)?;
    }
    Ok(all)
}

/// Nothing, with a place for what each node asks for.
fn unit_asks(alloc: Global, graph: &Graph) -> Result<UnitAsks, Memory>
    ensures { IfOk result (λ asks. length asks.calls.items ≡ length graph.now.nodes) }
{
    let globals = Widths::zeros(alloc, 0)?;
    let arguments = Widths::zeros(alloc, 0)?;
    let calls = no_asks(alloc, graph)?;
    Ok(UnitAsks {
        globals,
        arguments,
        calls,
    })
}

/// Leaves what a unit asks for, where so many bits are asked for around it, in the place of what it asked for before.
pub(crate) fn ask_unit(
    alloc: Global,
    graph: &Graph,
    prepared: &Prepared,
    tables: &Tables,
    unit: usize,
    asks: &mut UnitAsks,
) -> Result<(), Memory>
    requires prepared { IsPrepared graph.now prepared.now }
    requires there { unit < length tables.now.backs.items }
    requires long { length asks.old.calls.items ≡ length graph.now.nodes }
    ensures { OnOk result
        (AreUnitAsks (asked_at (demands_of tables.now) graph.now.shared unit) graph.now asks.new) }
{
    let around = around(tables, unit);
    ask_again(alloc, graph, &around, prepared, &mut asks.calls)?;
    let globals = entry_globals(alloc, asks.calls.as_slice(), graph.shared())?;
    let arguments = entry_arguments(alloc, asks.calls.as_slice(), graph.received())?;
    asks.globals = globals;
    asks.arguments = arguments;
    Ok(())
}

/// What is asked for of each of so many globals where the unit is entered.
fn entry_globals(alloc: Global, asks: &[Option<Widths>], shared: usize) -> Result<Widths, Memory>
    ensures { IfOk result (λ widths. widths ≡ map (entry_at asks.now) (shared_vars shared)) }
{
    let mut widths = Widths::zeros(alloc, 0)?;
    for x in 0..shared {
        widths.push(entry_at(asks, x))?;
    }
    Ok(widths)
}

/// What is asked for of each argument.
fn entry_arguments(
    alloc: Global,
    asks: &[Option<Widths>],
    received: &[usize],
) -> Result<Widths, Memory>
    ensures { IfOk result (λ widths. widths ≡ map (entry_at asks.now) received.now) }
{
    let mut widths = Widths::zeros(alloc, 0)?;
    for x in received {
        widths.push(entry_at(asks, *x))?;
    }
    Ok(widths)
}

/// What is asked for of a variable where the unit is entered.
fn entry_at(asks: &[Option<Widths>], x: usize) -> u8
    ensures value { result ≡ entry_at asks.now x }
    ensures most { result ≤ 64 }
{
    match asks.first() {
        None => 64,
        Some(None) => 64,
        Some(Some(widths)) => widths.get(x),
    }
}

/// Raises what is asked for of what units hand back to what the calls of a graph ask for, and answers whether a number
/// was less. Each unit of which one was is stale then.
pub(crate) fn raise_backs(
    graph: &Graph,
    asks: &[Option<Widths>],
    backs: &mut Vec<Widths>,
    stale: &mut Vec<bool>,
) -> bool
    requires { CallsFitRows graph.now asks.now backs.old.items }
    ensures raises { RaisesBacks graph.now asks.now backs.old.items backs.new.items result }
    ensures marked { RaisedMarked backs.old.items backs.new.items stale.old.items stale.new.items }
{
    let nodes = graph.nodes();
    let mut raised = false;
    for n in 0..nodes.len() {
        raised |= raise_call(&nodes[n], &asks[n], backs, stale);
    }
    raised
}

/// Raises a row to what this node asks for, where it calls.
fn raise_call(
    node: &Node,
    ask: &Option<Widths>,
    backs: &mut Vec<Widths>,
    stale: &mut Vec<bool>,
) -> bool
    requires { FitsRow node.now ask.now backs.old.items }
    ensures raised { backs.new.items ≡ with_call node.now ask.now backs.old.items }
    ensures unchanged { (result ≡ false) ↔ (backs.new.items ≡ backs.old.items) }
    ensures marked { RaisedMarked backs.old.items backs.new.items stale.old.items stale.new.items }
{
    match ask {
        Some(widths) => match node {
            Node::Call(_, unit, _, _) => raise_row(*unit, widths, backs, stale),
            _ => false,
        },
        None => false,
    }
}

/// Raises each number in the row of a unit to that of `ask` where it is less; where one was, marks the unit as stale
/// and answers true.
fn raise_row(unit: usize, ask: &Widths, backs: &mut Vec<Widths>, stale: &mut Vec<bool>) -> bool
    requires there { unit < length backs.old.items }
    requires long { length ask.now ≡ length (list_at backs.old.items unit) }
    ensures raised { backs.new.items
        ≡ slice_set backs.old.items unit (joined_bits (list_at backs.old.items unit) ask.now) }
    ensures unchanged { (result ≡ false) ↔ (backs.new.items ≡ backs.old.items) }
    ensures marked { RaisedMarked backs.old.items backs.new.items stale.old.items stale.new.items }
{
    let raised = backs[unit].raise_all(ask);
    if raised {
        mark(unit, stale);
    }
    raised
}
