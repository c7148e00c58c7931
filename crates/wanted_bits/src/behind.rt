// How many bits are wanted of what each node assigns.
ghost use Rattle.std.specs.Prelude.{◌≡◌, length, IfOk};
ghost use Rattle.flow_graph.specs.Blocks.{IsBlock};
ghost use Rattle.wanted_bits.specs.Asking.{asked_by};
ghost use Rattle.wanted_bits.specs.BitsOrder.{HasFew};
ghost use Rattle.wanted_bits.specs.Found.{AreBehind, NotesBlock};
ghost use Rattle.wanted_bits.specs.Preparing.{IsPrepared};
ghost use Rattle.wanted_bits.specs.Walking.{AreGraphNodes, back_in};
ghost use Rattle.wanted_bits.specs.WantedFlows.{AreCrossed, AreLeastBehind};

use crate::around::Around;
use crate::lists::WantedList;
use crate::picking::Shift;
use crate::preparing::Prepared;
use crate::solving::{Crossed, least};
use crate::walking::{assigned_bits, pass_back};
use fix_solve::Work;
use flow_graph::Graph;
use mir_base::Memory;
use std::alloc::Global;

/// For each node how many bits are wanted, behind it, of the variable to which it assigns a right side, by the least
/// numbers.
pub(crate) fn behind(
    alloc: Global,
    graph: &Graph,
    around: &Around<'_>,
    prepared: &Prepared,
) -> Result<Vec<u8>, Memory>
    requires { IsPrepared graph.now prepared.now }
    ensures { IfOk result (λ behind. AreBehind graph.now
        (asked_by graph.now.shared around.now) prepared.now.backs.items behind.items) }
{
    let crossed = &prepared.crossed;
    let backs = prepared.backs.as_slice();
    let work = least(
        alloc,
        graph,
        around,
        crossed,
        backs,
        prepared.touched.as_slice(),
    )?;
    let behind = note_all(alloc, graph, around, crossed, backs, &work)?;
    Ok(behind)
}

/// The same, where `work` has the least numbers behind each block: each block is walked from its last node to its
/// first.
fn note_all(
    alloc: Global,
    graph: &Graph,
    around: &Around<'_>,
    crossed: &Crossed,
    backs: &[Option<Shift>],
    work: &Work<WantedList>,
) -> Result<Vec<u8>, Memory>
    requires crossed { AreCrossed graph.now crossed.now }
    requires backs { length backs.now ≡ length graph.now.nodes }
    requires least { AreLeastBehind graph.now
        (asked_by graph.now.shared around.now) crossed.now (back_in backs.now) work.now }
    ensures { IfOk result (λ behind. AreBehind graph.now
        (asked_by graph.now.shared around.now) backs.now behind.items) }
{
    let _nodes = graph.nodes();
    let mut behind = vec![in alloc; 0; graph.len()]?;
    let mut room = vec![in alloc; 0; graph.vars().len()]?;
    for block in 0..crossed.blocks.len() {
        let list = crossed.blocks.nodes(block);
        room.copy_from_slice(work.value(block).bits());
        note_block(
            behind.as_mut_slice(),
            room.as_mut_slice(),
            graph,
            around,
            backs,
            list,
        );
    }
    Ok(behind)
}

/// Notes for each node of a block how many bits are wanted of what it assigns, from the last node to the first, by the
/// numbers behind the block. The numbers before it are left in their place.
fn note_block(
    behind: &mut [u8],
    bits: &mut [u8],
    graph: &Graph,
    around: &Around<'_>,
    backs: &[Option<Shift>],
    list: &[usize],
)
    requires few { HasFew bits.old }
    requires noted { HasFew behind.old }
    requires long { length behind.old ≡ length graph.now.nodes }
    requires backs { length backs.now ≡ length graph.now.nodes }
    requires block { IsBlock graph.now.nodes list.now }
    requires nodes { AreGraphNodes graph.now list.now }
    ensures few { HasFew behind.new }
    ensures noted { NotesBlock graph.now (asked_by graph.now.shared around.now)
        (back_in backs.now) list.now bits.old
        behind.old behind.new }
    ensures long { length bits.new ≡ length bits.old }
{
    for count in 0..list.len() {
        let n = list[list.len() - 1 - count];
        let node = graph.node(n);
        behind[n] = assigned_bits(node, bits);
        pass_back(bits, graph, around, node, backs[n]);
    }
}
