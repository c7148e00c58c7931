// What is made of the graph of each unit once, however often the unit is served.
ghost use Rattle.std.specs.Prelude.{IfOk};
ghost use Rattle.program_wanted.specs.Preparing.{ArePrepared};

use flow_graph::Graph;
use mir_base::Memory;
use std::alloc::Global;
use wanted_bits::Prepared;

/// What does not change where units are served again, for each. It fails only with `Memory`.
pub(crate) fn all_prepared(alloc: Global, graphs: &Vec<Graph>) -> Result<Vec<Prepared>, Memory>
    ensures { IfOk result (λ prepared. ArePrepared graphs.now.items prepared.items) }
{
    let mut all = Vec::with_capacity(alloc, graphs.len())?;
    for unit in 0..graphs.len() {
        let one = Prepared::of(alloc, &graphs[unit])?;
        all.push(one)?;
    }
    Ok(all)
}
