// For each variable the nearest nodes of a block, from a place on, that read or assign it.
ghost use Rattle.std.specs.Prelude.{◌≡◌, ◌<◌, ◌≤◌, ◌++◌, ◌∷◌, [], flat_map, length, min, replicate, IfOk};
ghost use Rattle.mir_base.specs.Frames.{shared_vars};
ghost use Rattle.mir_base.specs.Shapes.{AllBelow, into_vars, operand_vars, rhs_vars, test_vars};
ghost use Rattle.flow_graph.specs.Graphs.{node_reads, node_vars};
ghost use Rattle.graph_edit.specs.Accesses.{assigned_vars};
ghost use Rattle.sink_code.specs.BlockPlaces.{AreBlockPlaces, TakesInNode, index_in, nearest, noted, stop_by};

use crate::patterns::Pattern;
use flow_graph::{Graph, Node};
use graph_edit::touches_none;
use mir_base::{Memory, Operand, Rhs, Test};
use std::alloc::Global;

/// A place of a node: its block, and its index there.
#[derive(Clone, Copy, Debug)]
pub(crate) struct BlockPlace {
    pub(crate) block: usize,
    pub(crate) index: usize,
}

/// For each variable the nearest place whose node reads or assigns it, and the nearest whose node assigns it, of those
/// that were taken in. A place of another block than the one at hand counts as none, so that nothing is reset between
/// blocks.
#[derive(Drop)]
pub(crate) struct BlockPlaces {
    pub(crate) access: Vec<BlockPlace>,
    pub(crate) assign: Vec<BlockPlace>,
}

impl BlockPlaces {
    /// No places for the variables of a graph with so many blocks. It fails only with `Memory`.
    pub(crate) fn new(alloc: Global, graph: &Graph, blocks: usize) -> Result<BlockPlaces, Memory>
        ensures { IfOk result (AreBlockPlaces graph.now blocks) }
    {
        let vars = graph.vars().len();
        let none = BlockPlace {
            block: blocks,
            index: 0,
        };
        let access = vec![in alloc; none; vars]?;
        let assign = vec![in alloc; none; vars]?;
        Ok(BlockPlaces { access, assign })
    }

    /// Takes in a node of the graph at this index of this block. A Call and a Return read the globals, and a Call
    /// assigns them.
    pub(crate) fn take_in(&mut self, graph: &Graph, node: &Node, block: usize, index: usize)
        requires shared { graph.now.shared ≤ length self.old.access.items }
        requires long { length self.old.assign.items ≡ length self.old.access.items }
        requires below { AllBelow (length self.old.access.items) (node_vars node.now) }
        ensures { TakesInNode graph.now node.now (record { block = block; index = index })
            self.old self.new }
    {
        if touches_none(node) {
            return;
        }
        let place = BlockPlace { block, index };
        let access = self.access.as_mut_slice();
        note_read(access, graph, node, place);
        note_assigned(access, graph, node, place);
        note_assigned(self.assign.as_mut_slice(), graph, node, place);
    }

    /// The index of the nearest node that blocks a pattern, in this block of so many nodes; where there is none, the
    /// number of its nodes.
    pub(crate) fn stop_of(&self, pattern: &Pattern, block: usize, len: usize) -> usize
        requires var { pattern.now.var < length self.now.access.items }
        requires rhs { AllBelow (length self.now.assign.items) (rhs_vars pattern.now.rhs) }
        ensures { result ≡ stop_by self.now block len pattern.now }
    {
        let own = index_in(self.access.as_slice(), pattern.var, block, len);
        nearest(self.assign.as_slice(), &pattern.rhs, own, block, len)
    }
}

/// The index that is noted for a variable, where it is one of this block, and else the number of the block's nodes.
fn index_in(places: &[BlockPlace], x: usize, block: usize, len: usize) -> usize
    requires { x < length places.now }
    ensures { result ≡ index_in places.now x block len }
{
    let place = places[x];
    if place.block == block {
        place.index
    } else {
        len
    }
}

/// The nearest of an index and of those noted for the variables of a right side.
fn nearest(places: &[BlockPlace], rhs: &Rhs, index: usize, block: usize, len: usize) -> usize
    requires { AllBelow (length places.now) (rhs_vars rhs.now) }
    ensures { result ≡ nearest places.now block len index (rhs_vars rhs.now) }
{
    match rhs {
        Rhs::Plain(a) => nearer(places, *a, index, block, len),
        Rhs::Unary(_, a) => nearer(places, *a, index, block, len),
        Rhs::Binary(_, a, b) => {
            let first = nearer(places, *a, index, block, len);
            nearer(places, *b, first, block, len)
        }
    }
}

/// The nearer of an index and of that noted for an operand, where it is a variable.
fn nearer(places: &[BlockPlace], operand: Operand, index: usize, block: usize, len: usize) -> usize
    requires { AllBelow (length places.now) (operand_vars operand) }
    ensures { result ≡ nearest places.now block len index (operand_vars operand) }
{
    match operand {
        Operand::Var(y) => index_in(places, y, block, len).min(index),
        Operand::Const(_) => index,
    }
}

// ---- what a node reads

/// Notes a place for the variables that a node of the graph reads.
#[tactic(auto, using(crate::proofs::Noted::noted_append, crate::proofs::Noted::noted_length))]
fn note_read(places: &mut [BlockPlace], graph: &Graph, node: &Node, place: BlockPlace)
    requires shared { graph.now.shared ≤ length places.old }
    requires below { AllBelow (length places.old) (node_vars node.now) }
    ensures { places.new ≡ noted place (node_reads graph.now node.now) places.old }
{
    match node {
        Node::Start(_) => {}
        Node::Skip(_) => {}
        Node::Assign(_, rhs, _) => note_rhs(places, rhs, place),
        Node::Print(a, _) => note_operand(places, *a, place),
        Node::Guard(test, _, _) => note_test(places, test, place),
        Node::Call(_, _, args, _) => {
            note_globals(places, graph.shared(), place);
            note_operands(places, args.items(), place);
        }
        Node::Test(test, _, _) => note_test(places, test, place),
        Node::Return(a) => {
            note_globals(places, graph.shared(), place);
            note_operand(places, *a, place);
        }
    }
}

/// Notes a place for the globals, which are the first `shared` variables.
fn note_globals(places: &mut [BlockPlace], shared: usize, place: BlockPlace)
    requires { shared ≤ length places.old }
    ensures { places.new ≡ noted place (shared_vars shared) places.old }
{
    for x in 0..shared {
        places[x] = place;
    }
}

/// Notes a place for an operand, where it is a variable.
fn note_operand(places: &mut [BlockPlace], operand: Operand, place: BlockPlace)
    requires { AllBelow (length places.old) (operand_vars operand) }
    ensures { places.new ≡ noted place (operand_vars operand) places.old }
{
    match operand {
        Operand::Var(x) => places[x] = place,
        Operand::Const(_) => {}
    }
}

/// Notes a place for the variables among two operands.
#[tactic(auto, using(crate::proofs::Noted::noted_append, mir_base::specs::BelowLaws::all_below_left, mir_base::specs::BelowLaws::all_below_right))]
fn note_both(places: &mut [BlockPlace], a: Operand, b: Operand, place: BlockPlace)
    requires { AllBelow (length places.old) (operand_vars a ++ operand_vars b) }
    ensures { places.new ≡ noted place (operand_vars a ++ operand_vars b) places.old }
{
    note_operand(places, a, place);
    note_operand(places, b, place);
}

/// Notes a place for the variables of a right side.
fn note_rhs(places: &mut [BlockPlace], rhs: &Rhs, place: BlockPlace)
    requires { AllBelow (length places.old) (rhs_vars rhs.now) }
    ensures { places.new ≡ noted place (rhs_vars rhs.now) places.old }
{
    match rhs {
        Rhs::Plain(a) => note_operand(places, *a, place),
        Rhs::Unary(_, a) => note_operand(places, *a, place),
        Rhs::Binary(_, a, b) => note_both(places, *a, *b, place),
    }
}

/// Notes a place for the variables of a test.
fn note_test(places: &mut [BlockPlace], test: &Test, place: BlockPlace)
    requires { AllBelow (length places.old) (test_vars test.now) }
    ensures { places.new ≡ noted place (test_vars test.now) places.old }
{
    match test {
        Test::Rel(_, a, b) => note_both(places, *a, *b, place),
        Test::Holds(a) => note_operand(places, *a, place),
        Test::Fails(a) => note_operand(places, *a, place),
    }
}

/// Notes a place for the variables among these operands.
fn note_operands(places: &mut [BlockPlace], operands: &[Operand], place: BlockPlace)
    requires { AllBelow (length places.old) (flat_map operand_vars operands.now) }
    ensures { places.new ≡ noted place (flat_map operand_vars operands.now) places.old }
{
    for operand in operands {
        note_operand(places, *operand, place);
    }
}

// ---- what it assigns

/// Notes a place for the variables that a node of the graph assigns.
#[tactic(auto, using(crate::proofs::Noted::noted_append, crate::proofs::Noted::noted_length))]
fn note_assigned(places: &mut [BlockPlace], graph: &Graph, node: &Node, place: BlockPlace)
    requires shared { graph.now.shared ≤ length places.old }
    requires below { AllBelow (length places.old) (node_vars node.now) }
    ensures { places.new ≡ noted place (assigned_vars graph.now node.now) places.old }
{
    match node {
        Node::Start(_) => {}
        Node::Skip(_) => {}
        Node::Assign(x, _, _) => places[*x] = place,
        Node::Print(_, _) => {}
        Node::Guard(_, _, _) => {}
        Node::Call(into, _, _, _) => {
            note_globals(places, graph.shared(), place);
            note_into(places, *into, place);
        }
        Node::Test(_, _, _) => {}
        Node::Return(_) => {}
    }
}

/// Notes a place for the variable to which the result of a call goes, where there is one.
fn note_into(places: &mut [BlockPlace], into: Option<usize>, place: BlockPlace)
    requires { AllBelow (length places.old) (into_vars into) }
    ensures { places.new ≡ noted place (into_vars into) places.old }
{
    match into {
        Some(x) => places[x] = place,
        None => {}
    }
}
