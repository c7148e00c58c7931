// What is inserted in the blocks into which it comes, and at the ends of those that it leaves.
ghost use Rattle.std.specs.Prelude.{◌≡◌, ℕ, ◌<◌, ◌++◌, suc, Bool, List, length, slice_get, Some, OnOk};
ghost use Rattle.sink_code.specs.declared.inserting.PutBefore.{PutBefore};
ghost use Rattle.sink_code.specs.Coming.{ComeInto, HasBlocked};
ghost use Rattle.sink_code.specs.Heads.{AreHeadDone, AreHeadsDone, IsHeadTaken, IsSettled, skip_to};
ghost use Rattle.sink_code.specs.Over.{AreFromHeadsOver, ArePutAtEndsOver, HaveShapeOver, IsOverBlocks, lists_of};
ghost use Rattle.sink_code.specs.BlockPlaces.{AreBlockPlaces, AreTakenIn};
ghost use Rattle.sink_code.specs.Puts.{chosen, puts_at};

use crate::between::Coming;
use crate::inserting::{PutBefore, put_of};
use crate::over::OverBlocks;
use crate::patterns::Patterns;
use crate::places::BlockPlaces;
use bit_rows::{Row, RowView, Rows};
use flow_graph::Node;
use mir_base::Memory;
use std::alloc::Global;

/// Adds the insertions of the patterns that come into blocks. Each goes to the first node of the block that stops it,
/// or leaves the block where there is none, and then its bit is set in `leaves`. It fails only with `Memory`.
pub(crate) fn from_heads(
    alloc: Global,
    over: &OverBlocks<'_>,
    coming: &Coming,
    leaves: &mut Rows,
    puts: &mut Vec<PutBefore>,
) -> Result<(), Memory>
    requires over { IsOverBlocks over.now }
    requires coming { HasBlocked over.now coming.now }
    requires leaves { HaveShapeOver over.now leaves.old }
    ensures { OnOk result (AreFromHeadsOver over.now coming.now.into leaves.old puts.old.items
        (λ b k. Unit {0}) leaves.new puts.new.items) }
{
    let count = over.blocks.len();
    let mut places = BlockPlaces::new(alloc, over.graph, count)?;
    for later in 0..count {
        let block = count - 1 - later;
        from_head(over, block, coming, &mut places, leaves, puts)?;
    }
    Ok(())
}

/// The same of the patterns that come into one block, once those of the later blocks are put. Those that nothing blocks
/// there leave it, all at once; where there are no others, its nodes are not looked at.
fn from_head(
    over: &OverBlocks<'_>,
    block: usize,
    coming: &Coming,
    places: &mut BlockPlaces,
    leaves: &mut Rows,
    puts: &mut Vec<PutBefore>,
) -> Result<(), Memory>
    requires over { IsOverBlocks over.now }
    requires block { block < length (lists_of over.now) }
    requires coming { HasBlocked over.now coming.now }
    requires leaves { HaveShapeOver over.now leaves.old }
    requires places { AreBlockPlaces over.now.graph.now (suc block) places.old }
    ensures places { OnOk result (AreBlockPlaces over.now.graph.now block places.new) }
    ensures done { (rows : List (List Bool)) (begun : List PutBefore) →
        AreHeadsDone over.now coming.now.into rows begun (suc block) leaves.old puts.old.items →
        OnOk result (AreHeadsDone over.now coming.now.into rows begun block leaves.new
        puts.new.items) }
{
    let blocked = coming.blocked.row(block);
    leaves.or_minus_from(block, &coming.into.row(block), &blocked);
    match blocked.next_true(0) {
        Some(_) => {
            take_in_all(over, block, places);
            settle_all(over, block, &blocked, places, leaves, puts)
        }
        None => Ok(()),
    }
}

/// Takes in all nodes of a block.
fn take_in_all(over: &OverBlocks<'_>, block: usize, places: &mut BlockPlaces)
    requires over { IsOverBlocks over.now }
    requires block { block < length (lists_of over.now) }
    requires places { AreBlockPlaces over.now.graph.now (suc block) places.old }
    ensures { (list : List ℕ) → slice_get (lists_of over.now) block ≡ Some list →
        AreTakenIn over.now.graph.now block 0 list places.new }
{
    let list = over.blocks.nodes(block);
    for back in 0..list.len() {
        take_in(over, block, list, list.len() - 1 - back, places);
    }
}

/// Takes in the node of this index of a block. Those after it are.
fn take_in(
    over: &OverBlocks<'_>,
    block: usize,
    list: &[usize],
    index: usize,
    places: &mut BlockPlaces,
)
    requires over { IsOverBlocks over.now }
    requires list { slice_get (lists_of over.now) block ≡ Some list.now }
    requires index { index < length list.now }
    requires places { AreTakenIn over.now.graph.now block (suc index) list.now places.old }
    ensures { AreTakenIn over.now.graph.now block index list.now places.new }
{
    let nodes = over.graph.nodes();
    let _shared = over.graph.shared();
    places.take_in(over.graph, &nodes[list[index]], block, index);
}

/// Settles each pattern of a row, which come into a block and are blocked in it: it is put before the first node that
/// stops it, or else leaves the block. `places` has all nodes of the block; the other patterns that come in were let
/// through before.
fn settle_all(
    over: &OverBlocks<'_>,
    block: usize,
    row: &RowView<'_>,
    places: &BlockPlaces,
    leaves: &mut Rows,
    puts: &mut Vec<PutBefore>,
) -> Result<(), Memory>
    requires over { IsOverBlocks over.now }
    requires block { IsHeadTaken over.now block places.now }
    requires row { length row.now ≡ length over.now.table.now }
    requires leaves { HaveShapeOver over.now leaves.old }
    ensures { (into : List (List Bool)) (rows : List (List Bool)) (begun : List PutBefore) →
        ComeInto into block row.now →
        AreHeadDone over.now into row.now rows begun block 0 leaves.old puts.old.items →
        OnOk result (AreHeadsDone over.now into rows begun block leaves.new puts.new.items) }
{
    let mut from = 0;
    while from < row.len() {
        match row.next_true(from) {
            Some(number) => {
                settle(over, block, number, places, leaves, puts)?;
                from = number + 1;
            }
            None => return Ok(()),
        }
    }
    Ok(())
}

/// Puts one pattern that comes into a block before the first node of it that stops it, or lets it leave the block.
fn settle(
    over: &OverBlocks<'_>,
    block: usize,
    number: usize,
    places: &BlockPlaces,
    leaves: &mut Rows,
    puts: &mut Vec<PutBefore>,
) -> Result<(), Memory>
    requires over { IsOverBlocks over.now }
    requires block { IsHeadTaken over.now block places.now }
    requires number { number < length over.now.table.now }
    requires leaves { HaveShapeOver over.now leaves.old }
    ensures { OnOk result (IsSettled over.now block number leaves.old puts.old.items
        leaves.new puts.new.items) }
{
    let _nodes = over.graph.nodes();
    let list = over.blocks.nodes(block);
    let pattern = over.table.get(number);
    let stop = places.stop_of(pattern, block, list.len());
    if stop < list.len() {
        puts.push(put_of(list[stop], pattern))?;
        Ok(())
    } else {
        leaves.set(block, number, true);
        Ok(())
    }
}

/// Adds the insertions at the ends of blocks. A pattern that leaves a block, and does not come into the next, is put
/// before the last node, a Skip. It fails only with `Memory`.
pub(crate) fn at_ends(
    alloc: Global,
    over: &OverBlocks<'_>,
    into: &Rows,
    leaves: &Rows,
    puts: &mut Vec<PutBefore>,
) -> Result<(), Memory>
    requires over { IsOverBlocks over.now }
    requires into { HaveShapeOver over.now into.now }
    requires leaves { HaveShapeOver over.now leaves.now }
    ensures { OnOk result (ArePutAtEndsOver over.now into.now leaves.now
        (length (lists_of over.now)) puts.old.items puts.new.items) }
{
    for block in 0..over.blocks.len() {
        at_end(alloc, over, block, into, leaves, puts)?;
    }
    Ok(())
}

/// The same at the end of one block.
fn at_end(
    alloc: Global,
    over: &OverBlocks<'_>,
    block: usize,
    into: &Rows,
    leaves: &Rows,
    puts: &mut Vec<PutBefore>,
) -> Result<(), Memory>
    requires over { IsOverBlocks over.now }
    requires block { block < length (lists_of over.now) }
    requires into { HaveShapeOver over.now into.now }
    requires leaves { HaveShapeOver over.now leaves.now }
    ensures { (begun : List PutBefore) →
        ArePutAtEndsOver over.now into.now leaves.now block begun puts.old.items →
        OnOk result (ArePutAtEndsOver over.now into.now leaves.now (suc block) begun
        puts.new.items) }
{
    let nodes = over.graph.nodes();
    let list = over.blocks.nodes(block);
    let last = list[list.len() - 1];
    match skip_to(&nodes[last]) {
        Some(next) => {
            let mut gone = Row::of(alloc, &leaves.row(block))?;
            gone.minus_from(&into.row(over.blocks.block_of(next)));
            push_chosen(puts, last, over.table, &gone.view())
        }
        None => Ok(()),
    }
}

/// The successor of a Skip.
fn skip_to(node: &Node) -> Option<usize>
    ensures { result ≡ skip_to node.now }
{
    match node {
        Node::Start(_) => None,
        Node::Skip(next) => Some(*next),
        Node::Assign(_, _, _) => None,
        Node::Print(_, _) => None,
        Node::Guard(_, _, _) => None,
        Node::Call(_, _, _, _) => None,
        Node::Test(_, _, _) => None,
        Node::Return(_) => None,
    }
}

/// Pushes the insertions of the patterns whose bits are set, before a node.
fn push_chosen(
    puts: &mut Vec<PutBefore>,
    node: usize,
    table: &Patterns,
    row: &RowView<'_>,
) -> Result<(), Memory>
    requires { length row.now ≡ length table.now }
    ensures { OnOk result (puts.new.items ≡
        puts.old.items ++ puts_at node (chosen table.now row.now)) }
{
    let mut from = 0;
    while from < row.len() {
        match row.next_true(from) {
            Some(number) => {
                puts.push(put_of(node, table.get(number)))?;
                from = number + 1;
            }
            None => return Ok(()),
        }
    }
    Ok(())
}
