// What a unit asks for: of what it is handed where it is entered, and of what the units that it calls hand back.
ghost use Rattle.std.specs.Prelude.{◌≡◌, ◌≤◌, ◌<◌, length, None, Some, IfOk, OnOk};
ghost use Rattle.fix_solve.specs.Net.{value_at};
ghost use Rattle.flow_graph.specs.Blocks.{IsBlock};
ghost use Rattle.wanted_bits.specs.Asking.{asked_by};
ghost use Rattle.wanted_bits.specs.Asks.{AreAsks, AreAsksBy, ask_past, back_list, into_bits, kept_bits};
ghost use Rattle.wanted_bits.specs.BitsOrder.{HasFew};
ghost use Rattle.wanted_bits.specs.Found.{NotesFrom};
ghost use Rattle.wanted_bits.specs.Preparing.{IsPrepared};
ghost use Rattle.wanted_bits.specs.Walking.{AreGraphNodes, back_in, bits_at, is_into};
ghost use Rattle.wanted_bits.specs.WantedFlows.{AreCrossed, AreLeastBehind};

use crate::around::{Around, Widths};
use crate::lists::WantedList;
use crate::picking::Shift;
use crate::preparing::Prepared;
use crate::solving::{Crossed, least};
use crate::walking::{number_of, pass_back};
use fix_solve::Work;
use flow_graph::{Graph, Node};
use mir_base::Memory;
use std::alloc::Global;

/// What a unit asks for, by the least numbers of wanted bits, where so many bits are asked for around it. At Start there
/// stand the numbers of all variables: how many bits are wanted of each where the unit is entered. At a call there stand
/// those that are wanted behind it of what the called unit hands back: of each global, and then of the result. A global
/// that the result is assigned to is not wanted itself. At other nodes there is nothing. It fails only with `Memory`.
pub fn asks_around(
    alloc: Global,
    graph: &Graph,
    around: &Around<'_>,
) -> Result<Vec<Option<Widths>>, Memory>
    ensures { IfOk result (λ asks.
        AreAsks (asked_by graph.now.shared around.now) graph.now asks.items) }
{
    let prepared = Prepared::of(alloc, graph)?;
    let asks = asks_prepared(alloc, graph, around, &prepared)?;
    Ok(asks)
}

/// The same, where so much is made of the graph already. It fails only with `Memory`.
pub fn asks_prepared(
    alloc: Global,
    graph: &Graph,
    around: &Around<'_>,
    prepared: &Prepared,
) -> Result<Vec<Option<Widths>>, Memory>
    requires { IsPrepared graph.now prepared.now }
    ensures { IfOk result (λ asks.
        AreAsks (asked_by graph.now.shared around.now) graph.now asks.items) }
{
    let mut asks = no_asks(alloc, graph)?;
    ask_again(alloc, graph, around, prepared, &mut asks)?;
    Ok(asks)
}

/// For each node nothing, for `ask_again` to put asks there. It fails only with `Memory`.
pub fn no_asks(alloc: Global, graph: &Graph) -> Result<Vec<Option<Widths>>, Memory>
    ensures { IfOk result (λ asks. length asks.items ≡ length graph.now.nodes) }
{
    let mut asks = Vec::with_capacity(alloc, graph.len())?;
    for made in 0..graph.len() {
        let _ = made;
        asks.push(None)?;
    }
    Ok(asks)
}

/// Leaves what `asks_prepared` answers in the place of what stands there, so that where more is asked for around the
/// unit than before the list is not made again. It fails only with `Memory`.
pub fn ask_again(
    alloc: Global,
    graph: &Graph,
    around: &Around<'_>,
    prepared: &Prepared,
    asks: &mut Vec<Option<Widths>>,
) -> Result<(), Memory>
    requires prepared { IsPrepared graph.now prepared.now }
    requires long { length asks.old.items ≡ length graph.now.nodes }
    ensures { OnOk result
        (AreAsks (asked_by graph.now.shared around.now) graph.now asks.new.items) }
{
    let crossed = &prepared.crossed;
    let backs = prepared.backs.as_slice();
    let work = least(
        alloc,
        graph,
        around,
        crossed,
        backs,
        prepared.touched.as_slice(),
    )?;
    ask_all(alloc, graph, around, crossed, backs, &work, asks)?;
    Ok(())
}

/// The same by the numbers behind each block.
fn ask_all(
    alloc: Global,
    graph: &Graph,
    around: &Around<'_>,
    crossed: &Crossed,
    backs: &[Option<Shift>],
    work: &Work<WantedList>,
    asks: &mut Vec<Option<Widths>>,
) -> Result<(), Memory>
    requires crossed { AreCrossed graph.now crossed.now }
    requires backs { length backs.now ≡ length graph.now.nodes }
    requires long { length asks.old.items ≡ length graph.now.nodes }
    requires least { AreLeastBehind graph.now
        (asked_by graph.now.shared around.now) crossed.now (back_in backs.now) work.now }
    ensures { OnOk result
        (AreAsksBy (asked_by graph.now.shared around.now) graph.now backs.now asks.new.items) }
{
    let _nodes = graph.nodes();
    let _shared = graph.shared();
    let mut room = vec![in alloc; 0; graph.vars().len()]?;
    for block in 0..crossed.blocks.len() {
        let list = crossed.blocks.nodes(block);
        room.copy_from_slice(work.value(block).bits());
        ask_block(
            alloc,
            asks.as_mut_slice(),
            room.as_mut_slice(),
            graph,
            around,
            backs,
            list,
        )?;
    }
    Ok(())
}

/// Writes into `asks`, at each node of a block, what it asks of other units (`None` but at Start and calls). `bits` has
/// what is wanted behind the block; the walk goes from the last node to the first, and leaves there what is wanted
/// before it.
pub(crate) fn ask_block(
    alloc: Global,
    asks: &mut [Option<Widths>],
    bits: &mut [u8],
    graph: &Graph,
    around: &Around<'_>,
    backs: &[Option<Shift>],
    list: &[usize],
) -> Result<(), Memory>
    requires few { HasFew bits.old }
    requires long { length asks.old ≡ length graph.now.nodes }
    requires backs { length backs.now ≡ length graph.now.nodes }
    requires block { IsBlock graph.now.nodes list.now }
    requires nodes { AreGraphNodes graph.now list.now }
    ensures noted { OnOk result (NotesFrom (λ n. ask_past graph.now.shared) None
        graph.now (asked_by graph.now.shared around.now) (back_in backs.now) list.now bits.old
        0 asks.old asks.new) }
    ensures long { OnOk result (length bits.new ≡ length bits.old) }
{
    let nodes = graph.nodes();
    for count in 0..list.len() {
        let n = list[list.len() - 1 - count];
        let node = &nodes[n];
        asks[n] = ask_of(alloc, node, bits, graph.shared())?;
        pass_back(bits, graph, around, node, backs[n]);
    }
    Ok(())
}

/// What a node asks for, behind which so many bits are wanted, in a graph with so many globals.
fn ask_of(alloc: Global, node: &Node, bits: &[u8], shared: usize) -> Result<Option<Widths>, Memory>
    requires { HasFew bits.now }
    ensures { IfOk result (λ ask. ask ≡ ask_past shared (Some node.now) bits.now) }
{
    match node {
        Node::Start(_) => {
            let widths = Widths::of(alloc, bits)?;
            Ok(Some(widths))
        }
        Node::Call(into, _, _, _) => {
            let widths = handed_back(alloc, *into, bits, shared)?;
            Ok(Some(widths))
        }
        _ => Ok(None),
    }
}

/// What is asked for of what a call hands back, whose result goes to this variable, and behind which so many bits are
/// wanted.
fn handed_back(
    alloc: Global,
    into: Option<usize>,
    bits: &[u8],
    shared: usize,
) -> Result<Widths, Memory>
    requires { HasFew bits.now }
    ensures { IfOk result (λ widths. widths ≡ back_list shared into (bits_at bits.now)) }
{
    let mut widths = Widths::zeros(alloc, 0)?;
    for x in 0..shared {
        widths.push(kept_bits(into, bits, x))?;
    }
    widths.push(into_bits(into, bits))?;
    Ok(widths)
}

/// How many bits of a global are wanted, if the result does not go to it.
fn kept_bits(into: Option<usize>, bits: &[u8], x: usize) -> u8
    requires { HasFew bits.now }
    ensures value { result ≡ kept_bits into (bits_at bits.now) x }
    ensures most { result ≤ 64 }
{
    match into {
        None => number_of(bits, x),
        Some(y) => { if x == y { 0 } else { number_of(bits, x) } }
    }
}

/// How many bits of the result are wanted.
fn into_bits(into: Option<usize>, bits: &[u8]) -> u8
    requires { HasFew bits.now }
    ensures value { result ≡ into_bits into (bits_at bits.now) }
    ensures most { result ≤ 64 }
{
    match into {
        None => 0,
        Some(y) => number_of(bits, y),
    }
}
