// The instructions that a plan emits.
ghost use Rattle.std.specs.Prelude.{◌≡◌, ◌+◌, ◌^◌, ◌<◌, ◌≤◌, [], ◌∷◌, ◌++◌, length, reverse, vec_len, IfOk, OnOk, Some};
ghost use Rattle.std.specs.Vec.{vec_capacity};
ghost use Rattle.flow_graph.specs.Graphs.{AllWithin, IsBelow};
ghost use Rattle.flow_graph.specs.Layouts.{emitted_by, item_insts, item_size, plain_body};
ghost use Rattle.flow_graph.specs.Placing.{ArePlaces, ItemsWithin, places_after, taken_of};
ghost use Rattle.flow_graph.specs.NumberTables.{number_at};

use crate::Node;
use crate::plan::Item;
use crate::tables::filled;
use mir_base::{Inst, Memory};
use std::alloc::Global;

/// The place of each node: the number of instructions before it, the receives included.
pub(crate) fn places(
    alloc: Global,
    nodes: &[Node],
    items: &[Item],
    receives: usize,
) -> Result<Vec<usize>, Memory>
    requires items { ItemsWithin (length nodes.now) items.now }
    requires room { receives + length items.now < 2 ^ 64 }
    ensures { IfOk result (λ places.
        ArePlaces nodes.now receives (reverse items.now) places.items) }
{
    let mut places = filled(alloc, 0, nodes.len())?;
    let mut place = receives;
    for item in items {
        set_place(&mut places, *item, place);
        place += item_size(nodes, *item);
    }
    Ok(places)
}

/// Writes the place of a node that is placed into the table.
fn set_place(places: &mut Vec<usize>, item: Item, place: usize)
    requires { ItemsWithin (length places.old.items) (item ∷ []) }
    ensures { places.new.items ≡ places_after places.old.items item place }
{
    if let Item::Placed(node) = item {
        places[node] = place;
    }
}

/// The number of instructions that an item emits.
fn item_size(nodes: &[Node], item: Item) -> usize
    requires { ItemsWithin (length nodes.now) (item ∷ []) }
    ensures size { result ≡ item_size nodes.now item }
    ensures few { result ≤ 1 }
{
    match item {
        Item::Placed(node) => node_size(&nodes[node]),
        Item::Jump(_) => 1,
    }
}

/// The number of instructions that a node emits.
fn node_size(node: &Node) -> usize
    ensures size { result ≡ length (emitted_by (λ n. n) (Some node.now)) }
    ensures few { result ≤ 1 }
{
    match node {
        Node::Start(_) => 0,
        Node::Skip(_) => 0,
        Node::Assign(_, _, _) => 1,
        Node::Print(_, _) => 1,
        Node::Guard(_, _, _) => 1,
        Node::Call(_, _, _, _) => 1,
        Node::Test(_, _, _) => 1,
        Node::Return(_) => 1,
    }
}

/// The body, with the variables of the graph.
pub(crate) fn emit(
    alloc: Global,
    received: &[usize],
    nodes: &[Node],
    items: &[Item],
    places: &[usize],
) -> Result<Vec<Inst>, Memory>
    requires within { AllWithin nodes.now }
    requires items { ItemsWithin (length nodes.now) items.now }
    requires places { ArePlaces nodes.now (length received.now) (reverse items.now) places.now }
    ensures { IfOk result (λ body.
        body.items ≡ plain_body received.now nodes.now (reverse items.now)) }
{
    let mut body = Vec::with_capacity(alloc, received.len() + items.len())?;
    for x in received {
        body.push_reserved(Inst::Receive(*x));
    }
    for item in items {
        emit_item(&mut body, nodes, places, *item)?;
    }
    Ok(body)
}

/// Adds the instruction that an item emits, if there is one. There is room for it.
fn emit_item(
    body: &mut Vec<Inst>,
    nodes: &[Node],
    places: &[usize],
    item: Item,
) -> Result<(), Memory>
    requires within { AllWithin nodes.now }
    requires long { length places.now ≡ length nodes.now }
    requires item { ItemsWithin (length nodes.now) (item ∷ []) }
    requires room { vec_len body.old < vec_capacity body.old }
    ensures body { OnOk result
        (body.new.items ≡ body.old.items ++ item_insts nodes.now (number_at places.now) item) }
    ensures few { vec_len body.new ≤ vec_len body.old + 1 }
    ensures capacity { vec_capacity body.new ≡ vec_capacity body.old }
{
    match item {
        Item::Placed(node) => emit_node(body, places, &nodes[node]),
        Item::Jump(node) => {
            body.push_reserved(Inst::Goto(places[node]));
            Ok(())
        }
    }
}

/// Adds the instruction that a node emits, if there is one. There is room for it.
fn emit_node(body: &mut Vec<Inst>, places: &[usize], node: &Node) -> Result<(), Memory>
    requires taken { IsBelow (length places.now) (taken_of (Some node.now)) }
    requires room { vec_len body.old < vec_capacity body.old }
    ensures body { OnOk result
        (body.new.items ≡ body.old.items ++ emitted_by (number_at places.now) (Some node.now)) }
    ensures few { vec_len body.new ≤ vec_len body.old + 1 }
    ensures capacity { vec_capacity body.new ≡ vec_capacity body.old }
{
    match node {
        Node::Start(_) => {}
        Node::Skip(_) => {}
        Node::Assign(x, rhs, _) => body.push_reserved(Inst::Assign(*x, *rhs)),
        Node::Print(a, _) => body.push_reserved(Inst::Print(*a)),
        Node::Guard(test, number, _) => body.push_reserved(Inst::TrapIf(*test, *number)),
        Node::Call(into, unit, args, _) => {
            let args = args.clone()?;
            body.push_reserved(Inst::Call(*into, *unit, args));
        }
        Node::Test(test, taken, _) => body.push_reserved(Inst::If(*test, places[*taken])),
        Node::Return(a) => body.push_reserved(Inst::Return(*a)),
    }
    Ok(())
}
