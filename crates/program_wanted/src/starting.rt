// What is asked for around units at first.
ghost use Rattle.std.specs.Prelude.{◌≡◌, ◌<◌, suc, length, replicate, IfOk};
ghost use Rattle.program_wanted.specs.Sweeps.{AreFirstBacks, AreZeros, FitTogether, IsProgress};
ghost use Rattle.program_wanted.specs.Tables.{demands_of};

use crate::demands::Tables;
use flow_graph::Graph;
use mir_base::Memory;
use std::alloc::Global;
use wanted_bits::Widths;

/// At first nothing is asked for, but all bits of the result of the first unit.
pub(crate) fn first_demands(alloc: Global, graphs: &Vec<Graph>) -> Result<Tables, Memory>
    requires { FitTogether graphs.now.items }
    ensures { IfOk result (λ tables. IsProgress graphs.now.items (demands_of tables)) }
{
    let globals = no_globals(alloc, graphs)?;
    let arguments = no_arguments(alloc, graphs)?;
    let backs = first_backs(alloc, graphs)?;
    Ok(Tables {
        globals,
        arguments,
        backs,
    })
}

/// No bits of any global.
fn no_globals(alloc: Global, graphs: &Vec<Graph>) -> Result<Vec<Widths>, Memory>
    ensures { IfOk result (λ rows.
        AreZeros graphs.now.items (λ graph. graph.shared) rows.items) }
{
    let mut rows = Vec::new(alloc);
    for unit in 0..graphs.len() {
        rows.push(Widths::zeros(alloc, graphs[unit].shared())?)?;
    }
    Ok(rows)
}

/// No bits of any argument.
fn no_arguments(alloc: Global, graphs: &Vec<Graph>) -> Result<Vec<Widths>, Memory>
    ensures { IfOk result (λ rows.
        AreZeros graphs.now.items (λ graph. length graph.received) rows.items) }
{
    let mut rows = Vec::new(alloc);
    for unit in 0..graphs.len() {
        rows.push(Widths::zeros(alloc, graphs[unit].received().len())?)?;
    }
    Ok(rows)
}

/// Of what units hand back, all bits of the result of the first.
fn first_backs(alloc: Global, graphs: &Vec<Graph>) -> Result<Vec<Widths>, Memory>
    requires { 0 < length graphs.now.items }
    ensures { IfOk result (λ rows. AreFirstBacks graphs.now.items rows.items) }
{
    let mut rows = no_backs(alloc, graphs)?;
    let result = graphs[0].shared();
    let _ = rows[0].raise(result, 64);
    Ok(rows)
}

/// No bits of anything that a unit hands back.
fn no_backs(alloc: Global, graphs: &Vec<Graph>) -> Result<Vec<Widths>, Memory>
    ensures { IfOk result (λ rows.
        AreZeros graphs.now.items (λ graph. suc graph.shared) rows.items) }
{
    let mut rows = Vec::new(alloc);
    for unit in 0..graphs.len() {
        rows.push(no_back(alloc, graphs[unit].shared())?)?;
    }
    Ok(rows)
}

/// No bits of so many globals and a result.
fn no_back(alloc: Global, shared: usize) -> Result<Widths, Memory>
    ensures { IfOk result (λ widths. widths ≡ replicate (suc shared) 0) }
{
    let mut widths = Widths::zeros(alloc, shared)?;
    widths.push(0)?;
    Ok(widths)
}
