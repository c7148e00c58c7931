// How many bits are wanted before each node.
ghost use Rattle.std.specs.Prelude.{◌≡◌, length, replicate, [], IfOk, OnOk};
ghost use Rattle.flow_graph.specs.Blocks.{IsBlock};
ghost use Rattle.wanted_bits.specs.Before.{AreBefore, AreWantedBefore, AreWantedBeforeBy, row_past};
ghost use Rattle.wanted_bits.specs.BitsOrder.{HasFew};
ghost use Rattle.wanted_bits.specs.Chains.{AreCarried, AreCarriedBy};
ghost use Rattle.wanted_bits.specs.Found.{NotesFrom};
ghost use Rattle.wanted_bits.specs.Preparing.{IsPrepared};
ghost use Rattle.wanted_bits.specs.Walking.{AreGraphNodes, back_in};
ghost use Rattle.wanted_bits.specs.WantedFlows.{AreCrossed, AreLeastBehind};
ghost use Rattle.wanted_bits.specs.Asking.{asked_by};

use crate::around::{Around, Widths};
use crate::lists::WantedList;
use crate::picking::Shift;
use crate::preparing::Prepared;
use crate::solving::{Crossed, least};
use crate::walking::pass_back;
use fix_solve::Work;
use flow_graph::Graph;
use mir_base::Memory;
use std::alloc::Global;

/// For each node, how many of the lowest bits of each variable are wanted before it, by the least numbers, as `narrow`
/// has them: a list for each node, by the numbers of the variables. It fails only with `Memory`.
pub fn wanted_before(alloc: Global, graph: &Graph) -> Result<Vec<Widths>, Memory>
    ensures wanted { IfOk result (λ rows. AreWantedBefore graph.now rows.items) }

    // so many are wanted as chains show, which lead back from where bits are needed
    ensures carried { IfOk result (λ rows. AreCarried graph.now rows.items) }
{
    let whole = Widths::zeros(alloc, 0)?;
    let rows = whole_before(alloc, graph, &whole)?;
    Ok(rows)
}

/// The same, where this has no numbers.
fn whole_before(alloc: Global, graph: &Graph, whole: &Widths) -> Result<Vec<Widths>, Memory>
    requires { whole.now ≡ [] }
    ensures wanted { IfOk result (λ rows. AreWantedBefore graph.now rows.items) }
    ensures carried { IfOk result (λ rows. AreCarried graph.now rows.items) }
{
    let around = Around {
        globals: &[],
        arguments: &[],
        back: whole,
    };
    let rows = wanted_before_in(alloc, graph, &around)?;
    Ok(rows)
}

/// The same of a unit, where so many bits are asked for around it, as `narrow_in` has them. It fails only with
/// `Memory`.
pub fn wanted_before_in(
    alloc: Global,
    graph: &Graph,
    around: &Around<'_>,
) -> Result<Vec<Widths>, Memory>
    ensures wanted { IfOk result (λ rows.
        AreWantedBeforeBy (asked_by graph.now.shared around.now) graph.now rows.items) }
    ensures carried { IfOk result (λ rows.
        AreCarriedBy (asked_by graph.now.shared around.now) graph.now rows.items) }
{
    let _nodes = graph.nodes();
    let prepared = Prepared::of(alloc, graph)?;
    let rows = rows_before(alloc, graph, around, &prepared)?;
    Ok(rows)
}

/// The same, where so much is made of the graph already.
fn rows_before(
    alloc: Global,
    graph: &Graph,
    around: &Around<'_>,
    prepared: &Prepared,
) -> Result<Vec<Widths>, Memory>
    requires { IsPrepared graph.now prepared.now }
    ensures { IfOk result (λ rows. AreBefore (asked_by graph.now.shared around.now) graph.now
        prepared.now.backs.items rows.items) }
{
    let crossed = &prepared.crossed;
    let backs = prepared.backs.as_slice();
    let work = least(
        alloc,
        graph,
        around,
        crossed,
        backs,
        prepared.touched.as_slice(),
    )?;
    let rows = all_rows(alloc, graph, around, crossed, backs, &work)?;
    Ok(rows)
}

/// The same by the numbers behind each block.
fn all_rows(
    alloc: Global,
    graph: &Graph,
    around: &Around<'_>,
    crossed: &Crossed,
    backs: &[Option<Shift>],
    work: &Work<WantedList>,
) -> Result<Vec<Widths>, Memory>
    requires crossed { AreCrossed graph.now crossed.now }
    requires backs { length backs.now ≡ length graph.now.nodes }
    requires least { AreLeastBehind graph.now
        (asked_by graph.now.shared around.now) crossed.now (back_in backs.now) work.now }
    ensures { IfOk result (λ rows.
        AreBefore (asked_by graph.now.shared around.now) graph.now backs.now rows.items) }
{
    let _nodes = graph.nodes();
    let mut rows = no_rows(alloc, graph.len())?;
    let mut room = vec![in alloc; 0; graph.vars().len()]?;
    for block in 0..crossed.blocks.len() {
        let list = crossed.blocks.nodes(block);
        room.copy_from_slice(work.value(block).bits());
        row_block(
            alloc,
            rows.as_mut_slice(),
            room.as_mut_slice(),
            graph,
            around,
            backs,
            list,
        )?;
    }
    Ok(rows)
}

/// So many empty lists.
fn no_rows(alloc: Global, count: usize) -> Result<Vec<Widths>, Memory>
    ensures { IfOk result (λ rows. rows.items ≡ replicate count []) }
{
    let mut rows = Vec::with_capacity(alloc, count)?;
    for made in 0..count {
        let _ = made;
        rows.push(Widths::zeros(alloc, 0)?)?;
    }
    Ok(rows)
}

/// Puts in their places the numbers before the nodes of a block, from the last node to the first, by the numbers behind
/// the block.
fn row_block(
    alloc: Global,
    rows: &mut [Widths],
    bits: &mut [u8],
    graph: &Graph,
    around: &Around<'_>,
    backs: &[Option<Shift>],
    list: &[usize],
) -> Result<(), Memory>
    requires few { HasFew bits.old }
    requires long { length rows.old ≡ length graph.now.nodes }
    requires backs { length backs.now ≡ length graph.now.nodes }
    requires block { IsBlock graph.now.nodes list.now }
    requires nodes { AreGraphNodes graph.now list.now }
    ensures noted { OnOk result (NotesFrom
        (row_past graph.now (asked_by graph.now.shared around.now) (back_in backs.now)) []
        graph.now (asked_by graph.now.shared around.now) (back_in backs.now) list.now bits.old
        0 rows.old rows.new) }
    ensures long { OnOk result (length bits.new ≡ length bits.old) }
{
    for count in 0..list.len() {
        let n = list[list.len() - 1 - count];
        let node = graph.node(n);
        pass_back(bits, graph, around, node, backs[n]);
        rows[n] = Widths::of(alloc, bits)?;
    }
    Ok(())
}
