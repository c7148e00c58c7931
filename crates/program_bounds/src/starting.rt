// What is known over the units at first.
ghost use Rattle.std.specs.Prelude.{◌≡◌, ◌<◌, ◌+◌, length, replicate, IfOk};
ghost use Rattle.bounds.specs.declared.facts.Fact.TheVariants.{Never};
ghost use Rattle.program_bounds.specs.Facts.{first_facts};
ghost use Rattle.program_bounds.specs.Sweeps.{AreFirstEntries, AreNeverBacks, AreNeverEntries, FitTogether, IsProgress};
ghost use Rattle.program_bounds.specs.Tables.{AreFresh, facts_of};

use crate::entries::Entry;
use crate::known::Tables;
use bounds::Fact;
use cond_flow::{Facts, Knowledge};
use flow_graph::Graph;
use mir_base::Memory;
use std::alloc::Global;

/// At first the first unit alone is entered, with globals that are 0 and any arguments, and no unit has returned. Nothing
/// is made of any yet, and all are stale.
pub(crate) fn first_tables(alloc: Global, graphs: &Vec<Graph>) -> Result<Tables, Memory>
    requires { FitTogether graphs.now.items }
    ensures progress { IfOk result (λ tables. IsProgress graphs.now.items (facts_of tables)) }
    ensures fresh { IfOk result (AreFresh graphs.now.items) }
{
    let entries = first_entries(alloc, graphs)?;
    let backs = never_backs(alloc, graphs)?;
    let stale = vec![in alloc; true; graphs.len()]?;
    let made = none_made(alloc, graphs)?;
    Ok(Tables {
        entries,
        backs,
        stale,
        made,
    })
}

/// No graph yet of each unit.
fn none_made(alloc: Global, graphs: &Vec<Graph>) -> Result<Vec<Option<Graph>>, Memory>
    ensures { IfOk result (λ made. length made.items ≡ length graphs.now.items) }
{
    let mut made = Vec::new(alloc);
    for _ in 0..graphs.len() {
        made.push(None)?;
    }
    Ok(made)
}

/// Where units are entered.
fn first_entries(alloc: Global, graphs: &Vec<Graph>) -> Result<Vec<Entry>, Memory>
    requires { 0 < length graphs.now.items }
    ensures { IfOk result (λ entries. AreFirstEntries graphs.now.items entries.items) }
{
    let mut entries = never_entries(alloc, graphs)?;
    let facts = first_facts(alloc, graphs[0].shared(), graphs[0].received().len())?;
    let _ = entries[0].raise(&facts);
    Ok(entries)
}

/// Nowhere.
fn never_entries(alloc: Global, graphs: &Vec<Graph>) -> Result<Vec<Entry>, Memory>
    ensures { IfOk result (λ entries. AreNeverEntries graphs.now.items entries.items) }
{
    let mut entries = Vec::new(alloc);
    for unit in 0..graphs.len() {
        let never = never_list(alloc, graphs[unit].shared(), graphs[unit].received().len())?;
        entries.push(Entry::none(alloc, never.as_slice())?)?;
    }
    Ok(entries)
}

/// Of what units hand back.
fn never_backs(alloc: Global, graphs: &Vec<Graph>) -> Result<Vec<Facts<Fact>>, Memory>
    ensures { IfOk result (λ backs. AreNeverBacks graphs.now.items backs.items) }
{
    let mut backs = Vec::new(alloc);
    for unit in 0..graphs.len() {
        let never = never_list(alloc, graphs[unit].shared(), 1)?;
        backs.push(Facts::of_list(alloc, never.as_slice(), Fact::Never)?)?;
    }
    Ok(backs)
}

/// "Never" so many times and so many times more.
fn never_list(alloc: Global, first: usize, more: usize) -> Result<Vec<Fact>, Memory>
    ensures { IfOk result (λ list. list.items ≡ replicate (first + more) Never) }
{
    let mut list = Vec::new(alloc);
    for _ in 0..first {
        list.push(Fact::Never)?;
    }
    for _ in 0..more {
        list.push(Fact::Never)?;
    }
    Ok(list)
}

/// What is known where a program begins.
fn first_facts(alloc: Global, shared: usize, receives: usize) -> Result<Facts<Fact>, Memory>
    ensures { IfOk result (λ facts. facts ≡ first_facts shared receives) }
{
    let mut list = Vec::new(alloc);
    for _ in 0..shared {
        list.push(Fact::zero())?;
    }
    for _ in 0..receives {
        list.push(Fact::top())?;
    }
    let facts = Facts::of_list(alloc, list.as_slice(), Fact::top())?;
    Ok(facts)
}
