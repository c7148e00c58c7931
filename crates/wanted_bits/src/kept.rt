// Numbers behind the blocks of a unit that are kept while more is asked for around it. They lie below all that solve the
// unit, so that what it asks for by them is never too much, and are raised by what rose alone.
ghost use Rattle.std.specs.Prelude.{◌≡◌, ◌<◌, length, replicate, None, IfOk, OnOk};
ghost use Rattle.wanted_bits.specs.Asking.{asked_by};
ghost use Rattle.node_list.specs.Lists.{list_at};
ghost use Rattle.wanted_bits.specs.BitsOrder.{HasFew};
ghost use Rattle.wanted_bits.specs.KeptRows.{AreLong, AreOut, AreRows, FitsKept, LieLowest, PassedAsks, PassedRows, SpreadFrom, StayBelow};
ghost use Rattle.wanted_bits.specs.Walking.{back_in, before_list};
ghost use Rattle.wanted_bits.specs.Preparing.{IsPrepared};

use crate::around::{Around, Widths};
use crate::asks::ask_block;
use crate::preparing::Prepared;
use crate::risen::Risen;
use crate::walking::walk_back;
use flow_graph::Graph;
use mir_base::Memory;
use std::alloc::Global;

/// What is kept of a unit while more is asked for around it: numbers behind each block, and what is asked for by them.
#[derive(Drop)]
pub struct Kept {
    /// The numbers behind each block.
    pub(crate) rows: Vec<Widths>,
    /// What each node asks for.
    pub(crate) asks: Vec<Option<Widths>>,
    /// What rose since it was passed on.
    pub(crate) risen: Risen,
    /// Room for the numbers of a block.
    pub(crate) room: Vec<u8>,
}

impl Kept {
    /// No wanted bits, before it is known what is asked for. It fails only with `Memory`.
    pub fn none(alloc: Global, graph: &Graph, prepared: &Prepared) -> Result<Kept, Memory>
        requires { IsPrepared graph.now prepared.now }
        ensures fits { IfOk result (FitsKept graph.now prepared.now) }

        // whatever is wanted, they lie below it
        ensures lowest { IfOk result (LieLowest graph.now prepared.now) }
    {
        let rows = no_rows(alloc, prepared.crossed.blocks.len(), graph.vars().len())?;
        let asks = none_asked(alloc, graph.len())?;
        let room = vec![in alloc; 0; graph.vars().len()]?;
        let risen = Risen::all(alloc, graph, prepared)?;
        Ok(Kept {
            rows,
            asks,
            risen,
            room,
        })
    }

    /// What each node asks for by the numbers that are kept: where there is nothing, it may not be known yet. It does
    /// not allocate.
    pub fn asks(&self) -> &[Option<Widths>]
        ensures { result.now ≡ self.now.asks.items }
    {
        self.asks.as_slice()
    }
}

/// For each of so many blocks no wanted bits of so many variables.
fn no_rows(alloc: Global, blocks: usize, vars: usize) -> Result<Vec<Widths>, Memory>
    ensures { IfOk result (λ rows. rows.items ≡ replicate blocks (replicate vars 0)) }
{
    let mut rows = Vec::with_capacity(alloc, blocks)?;
    for made in 0..blocks {
        let _ = made;
        rows.push(Widths::zeros(alloc, vars)?)?;
    }
    Ok(rows)
}

/// For each of so many nodes nothing.
fn none_asked(alloc: Global, nodes: usize) -> Result<Vec<Option<Widths>>, Memory>
    ensures { IfOk result (λ asks. asks.items ≡ replicate nodes None) }
{
    let mut asks = Vec::with_capacity(alloc, nodes)?;
    for made in 0..nodes {
        let _ = made;
        asks.push(None)?;
    }
    Ok(asks)
}

/// Raises what is kept of a unit by what rose around it, where so many bits are asked for there now. It may leave numbers
/// that are fewer than the least by which the unit is solved, but never more. It fails only with `Memory`.
pub fn ask_kept(
    alloc: Global,
    graph: &Graph,
    around: &Around<'_>,
    prepared: &Prepared,
    kept: &mut Kept,
) -> Result<(), Memory>
    requires prepared { IsPrepared graph.now prepared.now }
    requires fits { FitsKept graph.now prepared.now kept.old }
    ensures fits { OnOk result (FitsKept graph.now prepared.now kept.new) }

    // what lies below numbers that solve the unit, where so much is asked for around it, still does
    ensures below { OnOk result (StayBelow (asked_by graph.now.shared around.now)
        graph.now prepared.now kept.old kept.new) }
{
    let _nodes = graph.nodes();
    kept.risen.wake();
    pass_all(
        graph,
        around,
        prepared,
        &mut kept.rows,
        &mut kept.risen,
        &mut kept.room,
    );
    let rows = kept.rows.as_slice();
    let asking = kept.risen.asking();
    ask_rows(
        alloc,
        graph,
        around,
        prepared,
        rows,
        asking,
        &mut kept.room,
        &mut kept.asks,
    )?;
    Ok(())
}

/// How often the blocks are passed for one change around the unit, at most.
const MOST_ROUNDS: usize = 64;

/// Passes on what rose until nothing does, or often enough.
fn pass_all(
    graph: &Graph,
    around: &Around<'_>,
    prepared: &Prepared,
    rows: &mut Vec<Widths>,
    risen: &mut Risen,
    room: &mut Vec<u8>,
)
    requires prepared { IsPrepared graph.now prepared.now }
    requires rows { AreRows graph.now prepared.now.crossed.blocks.lists rows.old.items }
    requires room { length room.old.items ≡ length graph.now.vars }
    ensures passed { PassedRows (asked_by graph.now.shared around.now) graph.now prepared.now
        rows.old.items rows.new.items }
    ensures room { length room.new.items ≡ length graph.now.vars }
{
    for round in 0..MOST_ROUNDS {
        let _ = round;
        if !risen.any() {
            return;
        }
        pass_risen(graph, around, prepared, rows, risen, room);
    }
}

/// Passes on what rose behind each block, from the last block to the first.
fn pass_risen(
    graph: &Graph,
    around: &Around<'_>,
    prepared: &Prepared,
    rows: &mut Vec<Widths>,
    risen: &mut Risen,
    room: &mut Vec<u8>,
)
    requires prepared { IsPrepared graph.now prepared.now }
    requires rows { AreRows graph.now prepared.now.crossed.blocks.lists rows.old.items }
    requires room { length room.old.items ≡ length graph.now.vars }
    ensures passed { PassedRows (asked_by graph.now.shared around.now) graph.now prepared.now
        rows.old.items rows.new.items }
    ensures room { length room.new.items ≡ length graph.now.vars }
{
    risen.begin();
    for count in 0..rows.len() {
        let block = rows.len() - 1 - count;
        for time in 0..MOST_TIMES {
            let _ = time;
            pass_block(graph, around, prepared, rows, risen, room, block);
        }
    }
}

/// How often a block is passed in turn, where it leads to itself.
const MOST_TIMES: usize = 2;

/// Passes on what rose behind a block, where something did, to those before it.
fn pass_block(
    graph: &Graph,
    around: &Around<'_>,
    prepared: &Prepared,
    rows: &mut Vec<Widths>,
    risen: &mut Risen,
    room: &mut Vec<u8>,
    block: usize,
)
    requires prepared { IsPrepared graph.now prepared.now }
    requires rows { AreRows graph.now prepared.now.crossed.blocks.lists rows.old.items }
    requires room { length room.old.items ≡ length graph.now.vars }
    requires there { block < length prepared.now.crossed.blocks.lists }
    ensures passed { PassedRows (asked_by graph.now.shared around.now) graph.now prepared.now
        rows.old.items rows.new.items }
    ensures room { length room.new.items ≡ length graph.now.vars }
{
    if !risen.take(block) {
        return;
    }
    let _nodes = graph.nodes();
    walk_row(graph, around, prepared, &rows[block], room, block);
    spread(prepared, rows, risen, room.as_slice(), block);
}

/// Leaves in the room the numbers before a block, where the row is behind it.
fn walk_row(
    graph: &Graph,
    around: &Around<'_>,
    prepared: &Prepared,
    row: &Widths,
    room: &mut Vec<u8>,
    block: usize,
)
    requires prepared { IsPrepared graph.now prepared.now }
    requires there { block < length prepared.now.crossed.blocks.lists }
    requires row { length row.now ≡ length graph.now.vars }
    requires room { length room.old.items ≡ length graph.now.vars }
    ensures before { room.new.items ≡ before_list graph.now
        (asked_by graph.now.shared around.now) (back_in prepared.now.backs.items)
        (list_at prepared.now.crossed.blocks.lists block) row.now }
    ensures few { HasFew room.new.items }
    ensures room { length room.new.items ≡ length graph.now.vars }
{
    room.copy_from_slice(row.bits());
    let list = prepared.crossed.blocks.nodes(block);
    let backs = prepared.backs.as_slice();
    walk_back(room.as_mut_slice(), graph, around, backs, list);
}

/// Raises the rows at the ends of the edges from a block to the numbers in the room, of what rose and of what it touches.
fn spread(prepared: &Prepared, rows: &mut Vec<Widths>, risen: &mut Risen, room: &[u8], block: usize)
    requires edges { AreOut prepared.now block (length rows.old.items) }
    requires few { HasFew room.now }
    requires long { AreLong (length room.now) rows.old.items }
    ensures { SpreadFrom prepared.now block room.now rows.old.items rows.new.items }
{
    let between = &prepared.crossed.between;
    for number in between.firsts[block]..between.firsts[block + 1] {
        let target = between.edges[number].target;
        risen.raise(&mut rows[target], room, block, target);
    }
}

/// Leaves what these blocks ask for, by the rows.
fn ask_rows(
    alloc: Global,
    graph: &Graph,
    around: &Around<'_>,
    prepared: &Prepared,
    rows: &[Widths],
    asking: &[usize],
    room: &mut Vec<u8>,
    asks: &mut Vec<Option<Widths>>,
) -> Result<(), Memory>
    requires prepared { IsPrepared graph.now prepared.now }
    requires rows { AreRows graph.now prepared.now.crossed.blocks.lists rows.now }
    requires room { length room.old.items ≡ length graph.now.vars }
    requires long { length asks.old.items ≡ length graph.now.nodes }
    ensures asks { OnOk result (PassedAsks (asked_by graph.now.shared around.now) graph.now
        prepared.now rows.now asks.old.items asks.new.items) }
    ensures room { OnOk result (length room.new.items ≡ length graph.now.vars) }
    ensures long { OnOk result (length asks.new.items ≡ length graph.now.nodes) }
{
    for i in 0..asking.len() {
        let block = asking[i];
        ask_row(alloc, graph, around, prepared, rows, block, room, asks)?;
    }
    Ok(())
}

/// Leaves what one block asks for, where there is such a block.
fn ask_row(
    alloc: Global,
    graph: &Graph,
    around: &Around<'_>,
    prepared: &Prepared,
    rows: &[Widths],
    block: usize,
    room: &mut Vec<u8>,
    asks: &mut Vec<Option<Widths>>,
) -> Result<(), Memory>
    requires prepared { IsPrepared graph.now prepared.now }
    requires rows { AreRows graph.now prepared.now.crossed.blocks.lists rows.now }
    requires room { length room.old.items ≡ length graph.now.vars }
    requires long { length asks.old.items ≡ length graph.now.nodes }
    ensures asks { OnOk result (PassedAsks (asked_by graph.now.shared around.now) graph.now
        prepared.now rows.now asks.old.items asks.new.items) }
    ensures room { OnOk result (length room.new.items ≡ length graph.now.vars) }
    ensures long { OnOk result (length asks.new.items ≡ length graph.now.nodes) }
{
    if block >= rows.len() {
        return Ok(());
    }
    let _nodes = graph.nodes();
    let backs = prepared.backs.as_slice();
    let list = prepared.crossed.blocks.nodes(block);
    room.copy_from_slice(rows[block].bits());
    let asks = asks.as_mut_slice();
    ask_block(alloc, asks, room.as_mut_slice(), graph, around, backs, list)?;
    Ok(())
}
