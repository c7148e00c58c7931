// What passes along an edge of a node.
ghost use Rattle.std.specs.Prelude.{◌≡◌, ◌&&◌, ◌-◌, false, true, List, length};
ghost use Rattle.std.specs.List.{range_with_len};
ghost use Rattle.mir_base.specs.Frames.{shared_vars};
ghost use Rattle.cond_flow.specs.Outsides.{outside_of, rules_in};
ghost use Rattle.cond_flow.specs.Passing.{after_call, all_set, back_at, known_after, passed_along, passes, start_known};
ghost use Rattle.cond_flow.specs.Rules.{OutsideShape, known_at, within};
ghost use Rattle.cond_flow.specs.States.{state_where};

use crate::{Facts, Knowledge, Outside};
use flow_graph::Node;
use mir_base::Test;

/// Leaves what passes along the edge at this slot of a node, and answers whether anything does, where `reached` says
/// whether the node is reached and `known` what is known before it.
pub(crate) fn step<K: Knowledge>(
    reached: bool,
    known: &mut Facts<K>,
    node: &Node,
    slot: usize,
    shared: usize,
    received: &[usize],
    outside: &Outside<K>,
) -> bool
    ensures { state_where result known.new
        ≡ passed_along (rules_in outside.now K.rules) shared received.now node.now slot
        (state_where reached known.old) }
{
    if reached {
        pass(known, node, slot, shared, received, outside)
    } else {
        false
    }
}

/// Whether `step` says that something passes.
pub(crate) fn steps_on<K: Knowledge>(
    reached: bool,
    known: &Facts<K>,
    node: &Node,
    slot: usize,
) -> bool
    ensures { (outside : OutsideShape K)
        → result ≡ (reached && passes (within outside K.rules) node.now slot known.now) }
{
    if reached {
        passes(node, slot, known)
    } else {
        false
    }
}

/// The same of a node that is reached.
fn pass<K: Knowledge>(
    known: &mut Facts<K>,
    node: &Node,
    slot: usize,
    shared: usize,
    received: &[usize],
    outside: &Outside<K>,
) -> bool
    ensures { state_where result known.new
        ≡ passed_along (rules_in outside.now K.rules) shared received.now node.now slot
        (state_where true known.old) }
{
    if passes(node, slot, known) {
        go_through(known, node, slot, shared, received, outside);
        true
    } else {
        false
    }
}

/// Whether a node may pass its state along the edge at this slot, whatever is known: whether it has that slot.
pub(crate) fn may_pass<K: Knowledge>(node: &Node, slot: usize) -> bool
    ensures { result ≡ false → (outside : OutsideShape K) (known : List K)
        → passes (within outside K.rules) node.now slot known ≡ false }
{
    match node {
        Node::Test(_, _, _) => true,
        Node::Return(_) => false,
        _ => slot == 0,
    }
}

/// Whether a node passes its state along the edge at this slot.
fn passes<K: Knowledge>(node: &Node, slot: usize, known: &Facts<K>) -> bool
    ensures { (outside : OutsideShape K)
        → result ≡ passes (within outside K.rules) node.now slot known.now }
{
    match node {
        Node::Test(test, _, _) => {
            if slot == 0 {
                K::goes(known, *test, true)
            } else if slot == 1 {
                K::goes(known, *test, false)
            } else {
                false
            }
        }
        Node::Return(_) => false,
        _ => slot == 0,
    }
}

/// Leaves what is known after a node along the edge at this slot.
fn go_through<K: Knowledge>(
    known: &mut Facts<K>,
    node: &Node,
    slot: usize,
    shared: usize,
    received: &[usize],
    outside: &Outside<K>,
)
    ensures { known.new
        ≡ known_after (rules_in outside.now K.rules) shared received.now node.now slot known.old }
{
    match node {
        Node::Start(_) => start(known, shared, received, outside),
        Node::Assign(x, rhs, _) => {
            let k = K::of_rhs(known, *rhs);
            known.set(*x, k);
        }
        Node::Call(into, unit, _, _) => called(known, shared, *into, *unit, outside),
        Node::Test(test, _, _) => narrow(known, *test, slot == 0),
        _ => (),
    }
}

/// Leaves what is known where a test has this truth value.
fn narrow<K: Knowledge>(known: &mut Facts<K>, test: Test, holds: bool)
    ensures { known.new ≡ K.rules.along test holds known.old }
{
    K::narrow(known, test, holds);
}

/// Leaves what is known after a call of a unit whose result goes to this variable, where there is one.
fn called<K: Knowledge>(
    known: &mut Facts<K>,
    shared: usize,
    into: Option<usize>,
    unit: usize,
    outside: &Outside<K>,
)
    ensures { known.new ≡ after_call (rules_in outside.now K.rules) shared into unit known.old }
{
    take_back(known, shared, unit, outside);
    if let Some(result) = into {
        known.set(result, outside.handed_back(unit, shared));
    }
}

/// Takes over what is known of the globals that a unit hands back.
fn take_back<K: Knowledge>(known: &mut Facts<K>, shared: usize, unit: usize, outside: &Outside<K>)
    ensures { known.new
        ≡ all_set (known_at K.rules (back_at (rules_in outside.now K.rules) unit)) 0
        (shared_vars shared) known.old }
{
    for x in 0..shared {
        known.set(x, outside.handed_back(unit, x));
    }
}

/// Takes over what is known of the globals where the unit is entered.
pub(crate) fn enter_globals<K: Knowledge>(known: &mut Facts<K>, shared: usize, outside: &Outside<K>)
    ensures { known.new
        ≡ all_set (known_at K.rules (outside_of outside.now).entry) 0 (shared_vars shared)
        known.old }
{
    for x in 0..shared {
        known.set(x, outside.global(x));
    }
}

/// Leaves what is known after Start.
fn start<K: Knowledge>(
    known: &mut Facts<K>,
    shared: usize,
    received: &[usize],
    outside: &Outside<K>,
)
    ensures { known.new
        ≡ start_known (rules_in outside.now K.rules) shared received.now known.old }
{
    clear(known, shared);
    for i in 0..received.len() {
        known.set(received[i], outside.argument(shared, i));
    }
}

/// All variables but so many globals are 0.
fn clear<K: Knowledge>(known: &mut Facts<K>, shared: usize)
    ensures { known.new
        ≡ all_set (λ i. K.rules.zero) shared (range_with_len shared (length known.old - shared))
        known.old }
{
    for x in shared..known.len() {
        known.set(x, K::zero());
    }
}
