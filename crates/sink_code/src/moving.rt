// The insertions of a graph, found block by block.
ghost use Rattle.std.specs.Prelude.{◌≡◌, IfOk, OnOk};
ghost use Rattle.mir_base.specs.Shapes.{AllDiffer};
ghost use Rattle.flow_graph.specs.Blocks.{AreBlocksOf};
ghost use Rattle.flow_graph.specs.Edges.{IsSplit, edges_of};
ghost use Rattle.sink_code.specs.FoundPuts.{AreFoundPuts};
ghost use Rattle.sink_code.specs.Inside.{AreInside};
ghost use Rattle.sink_code.specs.Over.{IsOverBlocks};
ghost use Rattle.sink_code.specs.Moved.{AreInsideOver, AreListedRows, AreWithin};

use crate::between::coming_rows;
use crate::heads::{at_ends, from_heads};
use crate::inserting::PutBefore;
use crate::inside::{Inside, Leaving, found_inside};
use crate::over::OverBlocks;
use bit_rows::Rows;
use flow_graph::{Blocks, Edges, Graph};
use mir_base::Memory;
use std::alloc::Global;

/// The insertions before the nodes of a split graph, in any order. Only patterns that leave a block are looked for in
/// others. It fails only with `Memory`.
pub(crate) fn found_puts(
    alloc: Global,
    graph: &Graph,
    edges: &Edges,
    blocks: &Blocks,
) -> Result<Vec<PutBefore>, Memory>
    requires split { IsSplit graph.now.nodes }
    requires edges { edges.now ≡ edges_of graph.now.nodes }
    requires blocks { AreBlocksOf graph.now.nodes blocks.now }
    ensures { IfOk result (λ puts. AreFoundPuts graph.now puts.items) }
{
    let found = found_inside(alloc, graph, blocks)?;
    let _nodes = graph.nodes();
    if found.table.len() == 0 {
        let Inside { puts, .. } = found;
        Ok(puts)
    } else {
        over_blocks(alloc, graph, edges, blocks, found)
    }
}

/// The same, where patterns leave blocks.
fn over_blocks(
    alloc: Global,
    graph: &Graph,
    edges: &Edges,
    blocks: &Blocks,
    found: Inside,
) -> Result<Vec<PutBefore>, Memory>
    requires split { IsSplit graph.now.nodes }
    requires edges { edges.now ≡ edges_of graph.now.nodes }
    requires blocks { AreBlocksOf graph.now.nodes blocks.now }
    requires found { AreInside graph.now blocks.now.lists found }
    ensures { IfOk result (λ puts. AreFoundPuts graph.now puts.items) }
{
    let Inside {
        puts,
        table,
        leaving,
    } = found;
    let mut puts = puts;
    let over = OverBlocks {
        graph,
        edges,
        blocks,
        table: &table,
    };
    put_over(alloc, &over, leaving.as_slice(), &mut puts)?;
    Ok(puts)
}

/// Adds to the insertions inside blocks those of the patterns that leave blocks, as this list says.
fn put_over(
    alloc: Global,
    over: &OverBlocks<'_>,
    leaving: &[Leaving],
    puts: &mut Vec<PutBefore>,
) -> Result<(), Memory>
    requires over { IsOverBlocks over.now }
    requires split { IsSplit over.now.graph.now.nodes }
    requires inside { AreInsideOver over.now puts.old.items leaving.now }
    ensures { OnOk result (AreFoundPuts over.now.graph.now puts.new.items) }
{
    let _nodes = over.graph.nodes();
    let mut leaves = leaving_rows(alloc, over, leaving)?;
    let coming = coming_rows(alloc, over, &leaves)?;
    from_heads(alloc, over, &coming, &mut leaves, puts)?;
    at_ends(alloc, over, &coming.into, &leaves, puts)
}

/// Which patterns leave which blocks in which they occur, as this list says. The patterns are distinct.
fn leaving_rows(alloc: Global, over: &OverBlocks<'_>, leaving: &[Leaving]) -> Result<Rows, Memory>
    requires over { IsOverBlocks over.now }
    requires within { AreWithin over.now leaving.now }
    ensures rows { IfOk result (AreListedRows over.now leaving.now) }
    ensures differ { AllDiffer over.now.table.now }
{
    let mut rows = Rows::new(alloc, over.blocks.len(), over.table.len())?;
    for left in leaving {
        rows.set(left.block, left.number, true);
    }
    Ok(rows)
}
