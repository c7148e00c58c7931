// What comes to blocks: answers at their first nodes, or after their last, by rows that say what blocks do to bits.
ghost use Rattle.std.specs.Prelude.{◌≡◌, ℕ, ◌<◌, Bool, length, IfOk};
ghost use Rattle.flow_graph.specs.Blocks.{AreBlocksOf};
ghost use Rattle.flow_graph.specs.Edges.{edges_of};
ghost use Rattle.path_laws.specs.AtBlocks.{AreBornAtEnds, AreBornAtHeads, AreBrought, AreJoinedOver, ArePassedAlong, ArePassedBack, ComeOver, LeadWithin};
ghost use Rattle.path_laws.specs.Flow.{IsBlockFlow};
ghost use Rattle.path_laws.specs.Paths.{AreRows};

use crate::between::{BlockEdges, edges_between};
use crate::bits::{Bits, Seeds, out_of_blocks};
use bit_rows::Rows;
use fix_solve::{Steps, Work};
use flow_graph::{Blocks, Edge, Edges, Graph};
use mir_base::Memory;
use std::alloc::Global;
use std::marker::Brand;
use std::sync::ledger::{Blank, Ledger};

/// Bit b of row c is true exactly where at the first node of block c the statement of `forward_all` holds. Rows go by
/// blocks, and have so many bits: `lost` says which bits do not come out of a block, whatever comes to it, and `held`
/// which of the others do; of the block of Start, to which nothing comes, each bit is one or the other. What is born
/// and stopped at which nodes is what any tables say that agree with that. It fails only with `Memory`.
///
/// The complement is solved: what comes to a block lost on some path.
pub fn forward_all_heads(
    alloc: Global,
    graph: &Graph,
    edges: &Edges,
    blocks: &Blocks,
    lost: &Rows,
    held: &Rows,
    bits: usize,
) -> Result<Rows, Memory>
    requires edges { edges.now ≡ edges_of graph.now.nodes }
    requires blocks { AreBlocksOf graph.now.nodes blocks.now }
    requires lost { AreRows (length blocks.now.lists) bits lost.now }
    requires held { AreRows (length blocks.now.lists) bits held.now }
    ensures shape { IfOk result (AreRows (length blocks.now.lists) bits) }
    ensures paths { (born : ℕ → ℕ → Bool) (stop : ℕ → ℕ → Bool) →
        ArePassedAlong graph.now.nodes blocks.now.lists bits born stop lost.now held.now →
        IfOk result (AreBornAtHeads graph.now.nodes blocks.now.lists bits born stop) }
{
    let _nodes = graph.nodes();
    let mut rows = come_over(alloc, graph, edges, blocks, false, lost, held, bits)?;
    rows.flip_rows(1);
    Ok(rows)
}

/// Bit b of row c is true exactly where at some successor of the last node of block c the statement of
/// `backward_some_over` holds. Rows go by blocks, and have so many bits: `born` says which bits are born in a block
/// with no stop before, and `stop` which are stopped in it. It fails only with `Memory`.
pub fn backward_some_ends(
    alloc: Global,
    graph: &Graph,
    edges: &Edges,
    blocks: &Blocks,
    born: &Rows,
    stop: &Rows,
    bits: usize,
) -> Result<Rows, Memory>
    requires edges { edges.now ≡ edges_of graph.now.nodes }
    requires blocks { AreBlocksOf graph.now.nodes blocks.now }
    requires born { AreRows (length blocks.now.lists) bits born.now }
    requires stop { AreRows (length blocks.now.lists) bits stop.now }
    ensures shape { IfOk result (AreRows (length blocks.now.lists) bits) }
    ensures paths { (bears : ℕ → ℕ → Bool) (stops : ℕ → ℕ → Bool) →
        ArePassedBack blocks.now.lists bits bears stops born.now stop.now →
        IfOk result (AreBornAtEnds graph.now.nodes blocks.now.lists bits bears stops) }
{
    let _nodes = graph.nodes();
    let rows = come_over(alloc, graph, edges, blocks, true, born, stop, bits)?;
    Ok(rows)
}

/// Which bits come to each block over the edges of a flow: from the seed of some block, over blocks that do not stop
/// them.
fn come_over(
    alloc: Global,
    graph: &Graph,
    edges: &Edges,
    blocks: &Blocks,
    against: bool,
    seeds: &Rows,
    stops: &Rows,
    bits: usize,
) -> Result<Rows, Memory>
    requires edges { edges.now ≡ edges_of graph.now.nodes }
    requires blocks { AreBlocksOf graph.now.nodes blocks.now }
    requires seeds { AreRows (length blocks.now.lists) bits seeds.now }
    requires stops { AreRows (length blocks.now.lists) bits stops.now }
    ensures { IfOk result
        (ComeOver against graph.now.nodes blocks.now.lists bits seeds.now stops.now) }
{
    let between = edges_between(alloc, graph, edges, blocks, against)?;
    let blank = Blank::new(1);
    let rows = come_along::<Brand>(alloc, blocks.len(), &between, seeds, stops, bits, blank)?;
    Ok(rows)
}

/// The same over these edges, with the counter that this blank ledger gives.
fn come_along<L: Ledger>(
    alloc: Global,
    count: usize,
    between: &BlockEdges,
    seeds: &Rows,
    stops: &Rows,
    bits: usize,
    blank: Blank,
) -> Result<Rows, Memory>
    requires flow { IsBlockFlow between.now seeds.now stops.now bits }
    requires count { count ≡ length seeds.now }
    requires name { blank.name ≡ L.name }
    requires parts { blank.parts ≡ L.parts }
    requires some { 0 < blank.parts }
    ensures { IfOk result (AreJoinedOver between.now.edges.items seeds.now stops.now bits) }
{
    let mut steps = Steps::<L>::new(blank);
    let seeds = Seeds::OfRows(seeds);
    let out = out_of_blocks(alloc, count, between, &seeds, stops, bits, &mut steps)?;
    let rows = joined_over(alloc, count, &between.edges, &out, bits)?;
    Ok(rows)
}

/// What these edges bring to each of so many blocks, from what comes out of each.
fn joined_over(
    alloc: Global,
    count: usize,
    edges: &[Edge],
    out: &Work<Bits>,
    bits: usize,
) -> Result<Rows, Memory>
    requires edges { LeadWithin count edges.now }
    requires out { AreRows count bits out.now }
    ensures { IfOk result (AreBrought count bits edges.now out.now) }
{
    let mut rows = Rows::new(alloc, count, bits)?;
    for edge in edges {
        rows.or_from(edge.target, &out.value(edge.source).row());
    }
    Ok(rows)
}
