// The order in which the nodes of a graph are laid out.
ghost use Rattle.std.specs.Prelude.{◌≡◌, ◌+◌, ◌<◌, [], ◌∷◌, ◌++◌, cond, false, length, reverse, slice_index_or, IfOk, OnOk, Some, None};
ghost use Rattle.flow_graph.specs.Graphs.{AllWithin, IsBelow, following};
ghost use Rattle.flow_graph.specs.Placing.{AreClosed, ArePlaced, ItemsWithin, FirstOpenIsAt, follower_of, open_by, open_by_item, placed_after, taken_of};
ghost use Rattle.flow_graph.specs.declared.plan.Item.TheVariants.{Jump, Placed};
ghost use Rattle.flow_graph.specs.Plans.{IsPlan, new_stretch, next_item};

use crate::Node;
use crate::reach::no_marks;
use mir_base::Memory;
use std::alloc::Global;

/// An item of a plan.
#[derive(Clone, Copy)]
pub enum Item {
    /// The node gets its place here.
    Placed(usize),
    /// Here stands a jump to the place of the node.
    Jump(usize),
}

/// The whole plan of these nodes, which begins with the node `first`. The first item stands first.
pub(crate) fn plan(alloc: Global, nodes: &[Node], first: usize) -> Result<Vec<Item>, Memory>
    requires within { AllWithin nodes.now }
    requires first { first < length nodes.now }
    ensures plan { IfOk result (λ items. IsPlan nodes.now first (reverse items.items)) }
    ensures complete { IfOk result (λ items.
        next_item nodes.now first (reverse items.items) ≡ None) }
    ensures within { IfOk result (λ items. ItemsWithin (length nodes.now) items.items) }
{
    let mut items = Vec::with_capacity(alloc, nodes.len())?;
    let mut placed = no_marks(alloc, nodes.len())?;
    let mut closed = 0;
    while let Some(item) = next(
        nodes,
        first,
        items.as_slice(),
        placed.as_slice(),
        &mut closed,
    ) {
        add(&mut items, &mut placed, item)?;
    }
    Ok(items)
}

/// Adds an item.
fn add(items: &mut Vec<Item>, placed: &mut Vec<bool>, item: Item) -> Result<(), Memory>
    requires { ItemsWithin (length placed.old.items) (item ∷ []) }
    ensures items { OnOk result (items.new.items ≡ items.old.items ++ item ∷ []) }
    ensures placed { OnOk result (placed.new.items ≡ placed_after placed.old.items item) }
{
    if let Item::Placed(node) = item {
        placed[node] = true;
    }
    items.push(item)?;
    Ok(())
}

/// What comes after these items. None of the first `closed` items is a Test with an open `taken`.
fn next(
    nodes: &[Node],
    first: usize,
    items: &[Item],
    placed: &[bool],
    closed: &mut usize,
) -> Option<Item>
    requires within { AllWithin nodes.now }
    requires items { ItemsWithin (length nodes.now) items.now }
    requires placed { ArePlaced nodes.now placed.now (reverse items.now) }
    requires closed { AreClosed nodes.now items.now closed.old }
    ensures item { result ≡ next_item nodes.now first (reverse items.now) }
    ensures closed { AreClosed nodes.now items.now closed.new }
{
    match items.last() {
        None => Some(Item::Placed(first)),
        Some(item) => match follower(nodes, *item) {
            Some(node) => Some(go_on(node, placed)),
            None => {
                *closed = pass_closed(nodes, items, placed, *closed);
                begin_stretch(nodes, items, placed, *closed)
            }
        },
    }
}

/// The node that follows an item in its stretch.
fn follower(nodes: &[Node], item: Item) -> Option<usize>
    requires { ItemsWithin (length nodes.now) (item ∷ []) }
    ensures { result ≡ follower_of nodes.now item }
{
    match item {
        Item::Placed(node) => following(&nodes[node]),
        Item::Jump(_) => None,
    }
}

/// The only successor of a node, or the `other` of a Test.
fn following(node: &Node) -> Option<usize>
    ensures { result ≡ following (Some node.now) }
{
    match node {
        Node::Test(_, _, other) => Some(*other),
        _ => node.first_succ(),
    }
}

/// The stretch goes on with this node, or ends with a jump to it.
fn go_on(node: usize, placed: &[bool]) -> Item
    requires { node < length placed.now }
    ensures { result ≡ cond (slice_index_or placed.now node false) (Jump node) (Placed node) }
{
    if placed[node] {
        Item::Jump(node)
    } else {
        Item::Placed(node)
    }
}

/// The beginning of a new stretch, where there is one.
fn begin_stretch(nodes: &[Node], items: &[Item], placed: &[bool], closed: usize) -> Option<Item>
    requires within { AllWithin nodes.now }
    requires items { ItemsWithin (length nodes.now) items.now }
    requires placed { ArePlaced nodes.now placed.now (reverse items.now) }
    requires open { FirstOpenIsAt nodes.now items.now closed }
    ensures { result ≡ new_stretch nodes.now (reverse items.now) }
{
    match items.get(closed) {
        None => None,
        Some(item) => match open_at(nodes, *item, placed) {
            None => None,
            Some(node) => Some(Item::Placed(node)),
        },
    }
}

/// The number of the first item from number `closed` on that is a Test with an open `taken`; the number of items, where
/// there is none. A node that was placed stays so, and no item is looked at again once it is passed.
fn pass_closed(nodes: &[Node], items: &[Item], placed: &[bool], closed: usize) -> usize
    requires within { AllWithin nodes.now }
    requires items { ItemsWithin (length nodes.now) items.now }
    requires placed { ArePlaced nodes.now placed.now (reverse items.now) }
    requires closed { AreClosed nodes.now items.now closed }
    ensures closed { AreClosed nodes.now items.now result }
    ensures open { FirstOpenIsAt nodes.now items.now result }
{
    for number in closed..items.len() {
        if open_at(nodes, items[number], placed).is_some() {
            return number;
        }
    }
    items.len()
}

/// The `taken` successor of a placed Test, where it is not placed.
fn open_at(nodes: &[Node], item: Item, placed: &[bool]) -> Option<usize>
    requires within { AllWithin nodes.now }
    requires long { length placed.now ≡ length nodes.now }
    requires item { ItemsWithin (length nodes.now) (item ∷ []) }
    ensures { result ≡ open_by_item nodes.now placed.now item }
{
    match item {
        Item::Placed(node) => open_of(&nodes[node], placed),
        Item::Jump(_) => None,
    }
}

/// The `taken` successor of a Test, where it is not placed.
fn open_of(node: &Node, placed: &[bool]) -> Option<usize>
    requires { IsBelow (length placed.now) (taken_of (Some node.now)) }
    ensures { result ≡ open_by placed.now (taken_of (Some node.now)) }
{
    match node {
        Node::Test(_, taken, _) => { if placed[*taken] { None } else { Some(*taken) } }
        _ => None,
    }
}
