// The least facts over the units of a program.
ghost use Rattle.std.specs.Prelude.{◌≡◌, ◌<◌, length, IfOk, OnOk};
ghost use Rattle.bounds.specs.BoundRules.{bound_rules};
ghost use Rattle.cond_flow.specs.Outsides.{rules_in};
ghost use Rattle.program_bounds.specs.Facts.{AreLeastFacts, ProgramFacts, rules_at};
ghost use Rattle.program_bounds.specs.Sweeps.{FitTogether};
ghost use Rattle.program_bounds.specs.Tables.{AreFresh, CanServe, SweepsUnits, facts_of};

use crate::entries::Entry;
use crate::serving::serve_stale;
use crate::starting::first_tables;
use bounds::Fact;
use cond_flow::{Facts, Outside};
use flow_graph::Graph;
use mir_base::Memory;
use std::alloc::Global;
use unit_callers::{Callers, callers_of};

/// What is known over the units of a program, and what was made of them by it. Contracts see the first as `facts_of`.
#[derive(Drop)]
pub(crate) struct Tables {
    /// For each unit, whether it is entered, and what is then known of each global and of each argument.
    pub(crate) entries: Vec<Entry>,
    /// And of each global that it hands back, and of its result.
    pub(crate) backs: Vec<Facts<Fact>>,
    /// Whether it may lack something, so that it has to be served again.
    pub(crate) stale: Vec<bool>,
    /// And the graph that was made of it when it was served last.
    pub(crate) made: Vec<Option<Graph>>,
}

/// What is known outside of a unit. It does not allocate.
pub(crate) fn around<'a>(tables: &'a Tables, unit: usize) -> Outside<'a, Fact>
    requires { unit < length (facts_of tables.now).entries }
    ensures { rules_in result bound_rules ≡ rules_at (facts_of tables.now) unit }
{
    Outside {
        entry: tables.entries[unit].facts(),
        backs: tables.backs.as_slice(),
    }
}

/// The surest facts that serve all units that are entered. Sweeps raise what is known around units to what the entered
/// units that may lack something hand over and back, until one raises nothing.
pub(crate) fn least_facts(alloc: Global, graphs: &Vec<Graph>) -> Result<Tables, Memory>
    requires { FitTogether graphs.now.items }
    ensures least { IfOk result (λ tables. AreLeastFacts graphs.now.items (facts_of tables)) }
    ensures fresh { IfOk result (AreFresh graphs.now.items) }
{
    let callers = callers_of(alloc, graphs)?;
    let tables = first_tables(alloc, graphs)?;
    let served = served(alloc, graphs, &callers, tables)?;
    Ok(served)
}

/// These facts, raised until they serve all units that are entered.
fn served(
    alloc: Global,
    graphs: &Vec<Graph>,
    callers: &Vec<Callers>,
    first: Tables,
) -> Result<Tables, Memory>
    requires { CanServe graphs.now.items callers.now.items first }
    ensures least { IfOk result (λ tables. AreLeastFacts graphs.now.items (facts_of tables)) }
    ensures fresh { IfOk result (AreFresh graphs.now.items) }
{
    let mut tables = first;
    loop {
        let raised = sweep(alloc, graphs, callers, &mut tables)?;
        if !raised {
            return Ok(tables);
        }
    }
}

/// Serves the stale units, from the first to the last and back, and answers whether a fact was raised.
fn sweep(
    alloc: Global,
    graphs: &Vec<Graph>,
    callers: &Vec<Callers>,
    tables: &mut Tables,
) -> Result<bool, Memory>
    requires { CanServe graphs.now.items callers.now.items tables.old }
    ensures swept { IfOk result (SweepsUnits graphs.now.items tables.old tables.new) }
    ensures fresh { OnOk result (AreFresh graphs.now.items tables.new) }
{
    let down = sweep_down(alloc, graphs, callers, tables)?;
    let up = sweep_up(alloc, graphs, callers, tables)?;
    Ok(down | up)
}

/// From the first to the last.
fn sweep_down(
    alloc: Global,
    graphs: &Vec<Graph>,
    callers: &Vec<Callers>,
    tables: &mut Tables,
) -> Result<bool, Memory>
    requires { CanServe graphs.now.items callers.now.items tables.old }
    ensures swept { IfOk result (SweepsUnits graphs.now.items tables.old tables.new) }
    ensures fresh { OnOk result (AreFresh graphs.now.items tables.new) }
{
    let mut raised = false;
    for unit in 0..graphs.len() {
        raised |= serve_stale(alloc, graphs, callers, tables, unit)?;
    }
    Ok(raised)
}

/// From the last to the first.
fn sweep_up(
    alloc: Global,
    graphs: &Vec<Graph>,
    callers: &Vec<Callers>,
    tables: &mut Tables,
) -> Result<bool, Memory>
    requires { CanServe graphs.now.items callers.now.items tables.old }
    ensures swept { IfOk result (SweepsUnits graphs.now.items tables.old tables.new) }
    ensures fresh { OnOk result (AreFresh graphs.now.items tables.new) }
{
    let mut raised = false;
    for count in 0..graphs.len() {
        let unit = graphs.len() - 1 - count;
        raised |= serve_stale(alloc, graphs, callers, tables, unit)?;
    }
    Ok(raised)
}
