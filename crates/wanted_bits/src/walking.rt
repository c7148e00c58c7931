// The numbers of wanted bits through the nodes of a block, from the last to the first. They are changed in place, for the
// variables alone that a node assigns and reads.
ghost use Rattle.std.specs.Prelude.{◌≡◌, ◌<◌, ◌≤◌, ◌+◌, true, length, slice_get, slice_set, flat_map, Some};
ghost use Rattle.mir_base.specs.declared.instructions.Operand.TheVariants.{Var};
ghost use Rattle.mir_base.specs.Frames.{shared_vars};
ghost use Rattle.mir_base.specs.Shapes.{operand_vars, test_vars};
ghost use Rattle.wanted_bits.specs.BitsOrder.{HasFew};
ghost use Rattle.wanted_bits.specs.Asking.{argument_at, asked_by, global_at, width_at};
ghost use Rattle.wanted_bits.specs.Walking.{HaveBacks, all_raised, all_set, among_raised, whole_width, assigned_bits, back_in, before_list, bits_at, bits_through, raised_at, raised_by, raised_own, raised_past, with_none};
ghost use Rattle.wanted_bits.specs.Walking.{AreGraphNodes};
ghost use Rattle.wanted_bits.specs.Wanted.{wanted_left, wanted_right};

use crate::around::Around;
use crate::picking::Shift;
use crate::wanting::{if_any, is_undone, wanted_left, wanted_right, wants_both};
use flow_graph::{Graph, Node};
use mir_base::{Op, Operand, Rhs, Test, UnOp};

/// Leaves the numbers before a list of nodes, each of which leads to the next, in the place of those behind it. Each
/// right side shifts back what `backs` has for its node.
pub(crate) fn walk_back(
    bits: &mut [u8],
    graph: &Graph,
    around: &Around<'_>,
    backs: &[Option<Shift>],
    list: &[usize],
)
    requires few { HasFew bits.old }
    requires backs { length backs.now ≡ length graph.now.nodes }
    requires nodes { AreGraphNodes graph.now list.now }
    ensures { bits.new ≡ before_list graph.now (asked_by graph.now.shared around.now)
        (back_in backs.now) list.now bits.old }
{
    let nodes = graph.nodes();
    for count in 0..list.len() {
        let n = list[list.len() - 1 - count];
        pass_back(bits, graph, around, &nodes[n], backs[n]);
    }
}

/// Leaves the numbers before a node, whose right side shifts this back, in the place of those behind it.
pub(crate) fn pass_back(
    bits: &mut [u8],
    graph: &Graph,
    around: &Around<'_>,
    node: &Node,
    back: Option<Shift>,
)
    requires { HasFew bits.old }
    ensures { bits.new ≡ bits_through graph.now (asked_by graph.now.shared around.now) back
        node.now bits.old }
{
    match node {
        Node::Start(_) => (),
        Node::Skip(_) => (),
        Node::Assign(x, rhs, _) => assign_back(bits, *x, rhs, back),
        Node::Print(a, _) => read(bits, *a),
        Node::Guard(test, _, _) => read_test(bits, *test),
        Node::Call(into, unit, args, _) => {
            forget(bits, *into);
            enter_globals(bits, around, *unit, graph.shared());
            enter_arguments(bits, around, *unit, args.items());
        }
        Node::Test(test, _, _) => read_test(bits, *test),
        Node::Return(a) => {
            leave_globals(bits, around, graph.shared());
            raise_by(bits, *a, around.back.get(graph.shared()));
        }
    }
}

/// The number of the variable to which a node assigns a right side, and 0 of any other node.
pub(crate) fn assigned_bits(node: &Node, bits: &[u8]) -> u8
    requires { HasFew bits.now }
    ensures value { result ≡ assigned_bits node.now bits.now }
    ensures most { result ≤ 64 }
{
    match node {
        Node::Assign(x, _, _) => number_of(bits, *x),
        _ => 0,
    }
}

// ---- assignments

/// Leaves the numbers before an assignment in the place of those behind it.
fn assign_back(bits: &mut [u8], x: usize, rhs: &Rhs, back: Option<Shift>)
    requires { HasFew bits.old }
    ensures { bits.new ≡ raised_past (slice_set bits.old x 0) back rhs.now (bits_at bits.old x) }
{
    let k = number_of(bits, x);
    match back {
        None => {
            if !stays(bits, x, rhs, k) {
                clear(bits, x);
                raise_own(bits, rhs, k);
            }
        }
        Some(shift) => {
            clear(bits, x);
            raise_back(bits, shift, rhs, k);
        }
    }
}

/// Whether a variable of which k bits are wanted is assigned a sum or the like of itself and of what is wanted as much:
/// then all numbers stay.
fn stays(bits: &[u8], x: usize, rhs: &Rhs, k: u8) -> bool
    requires few { HasFew bits.now }
    requires number { k ≡ bits_at bits.now x }
    ensures { result ≡ true → bits.now ≡ raised_own (slice_set bits.now x 0) rhs.now k }
{
    match rhs {
        Rhs::Binary(op, a, b) => {
            if is_variable(*a, x) {
                if wants_both(*op) {
                    has_number(bits, *b, k)
                } else {
                    false
                }
            } else {
                false
            }
        }
        _ => false,
    }
}

/// Whether an operand is this variable.
fn is_variable(a: Operand, x: usize) -> bool
    ensures { result ≡ true → a ≡ Var x }
{
    match a {
        Operand::Var(y) => y == x,
        Operand::Const(_) => false,
    }
}

/// Whether at least k bits of an operand are wanted, where it is a variable.
fn has_number(bits: &[u8], a: Operand, k: u8) -> bool
    requires { HasFew bits.now }
    ensures { result ≡ true → raised_by bits.now a k ≡ bits.now }
{
    match a {
        Operand::Var(x) => k <= number_of(bits, x),
        Operand::Const(_) => true,
    }
}

/// Raises what a right side wants that shifts this back, and of which k bits are wanted.
fn raise_back(bits: &mut [u8], shift: Shift, rhs: &Rhs, k: u8)
    requires { k ≤ 64 }
    ensures { bits.new ≡ raised_past bits.old (Some shift) rhs.now k }
{
    let room = 64u8.saturating_sub(shift.distance);
    raise_to(bits, shift.source, k.min(room));
    if !is_undone(shift, k) {
        raise_own(bits, rhs, k);
    }
}

/// Raises what a right side wants of its operands of which k bits are wanted.
fn raise_own(bits: &mut [u8], rhs: &Rhs, k: u8)
    requires { k ≤ 64 }
    ensures { bits.new ≡ raised_own bits.old rhs.now k }
{
    match rhs {
        Rhs::Plain(a) => raise_by(bits, *a, k),
        Rhs::Unary(UnOp::Neg, a) => raise_by(bits, *a, k),
        Rhs::Unary(UnOp::Not, a) => raise_by(bits, *a, if_any(k, 64)),
        Rhs::Binary(op, a, b) => raise_both(bits, *op, *a, *b, k),
    }
}

/// Raises what an operator wants of its operands of which k bits are wanted. Most want as many of both.
fn raise_both(bits: &mut [u8], op: Op, a: Operand, b: Operand, k: u8)
    requires { k ≤ 64 }
    ensures { bits.new
        ≡ raised_by (raised_by bits.old a (wanted_left op b k)) b (wanted_right op a k) }
{
    if wants_both(op) {
        raise_by(bits, a, k);
        raise_by(bits, b, k);
    } else {
        raise_by(bits, a, wanted_left(op, b, k));
        raise_by(bits, b, wanted_right(op, a, k));
    }
}

/// Raises the number of an operand that is a variable.
fn raise_by(bits: &mut [u8], a: Operand, k: u8)
    ensures { bits.new ≡ raised_by bits.old a k }
{
    match a {
        Operand::Var(x) => raise_to(bits, x, k),
        Operand::Const(_) => (),
    }
}

// ---- what is read

/// Of the globals so many bits are wanted as where this unit is entered, whatever is wanted of them behind the call.
fn enter_globals(bits: &mut [u8], around: &Around<'_>, unit: usize, shared: usize)
    ensures { bits.new ≡ all_set (global_at around.now unit) (shared_vars shared) bits.old }
{
    for x in 0..shared {
        put(bits, x, around.global(unit, x));
    }
}

/// Of the arguments so many bits are wanted as where this unit is entered.
fn enter_arguments(bits: &mut [u8], around: &Around<'_>, unit: usize, operands: &[Operand])
    ensures { bits.new ≡ among_raised (argument_at around.now unit) 0 operands.now bits.old }
{
    for i in 0..operands.len() {
        raise_by(bits, operands[i], around.argument(unit, i));
    }
}

/// Of the globals so many bits are wanted as behind the unit.
fn leave_globals(bits: &mut [u8], around: &Around<'_>, shared: usize)
    ensures { bits.new ≡ all_raised (width_at around.now.back.now) (shared_vars shared) bits.old }
{
    for x in 0..shared {
        raise_to(bits, x, around.back.get(x));
    }
}

/// All bits of what a test reads are wanted.
fn read_test(bits: &mut [u8], test: Test)
    ensures { bits.new ≡ all_raised whole_width (test_vars test) bits.old }
{
    match test {
        Test::Rel(_, a, b) => {
            read(bits, a);
            read(bits, b);
        }
        Test::Holds(a) => read(bits, a),
        Test::Fails(a) => read(bits, a),
    }
}

/// All bits of an operand are wanted.
fn read(bits: &mut [u8], a: Operand)
    ensures { bits.new ≡ all_raised whole_width (operand_vars a) bits.old }
{
    match a {
        Operand::Var(x) => raise_to(bits, x, 64),
        Operand::Const(_) => (),
    }
}

// ---- one number

/// The number of a variable.
pub(crate) fn number_of(bits: &[u8], x: usize) -> u8
    requires { HasFew bits.now }
    ensures value { result ≡ bits_at bits.now x }
    ensures most { result ≤ 64 }
{
    if x < bits.len() { bits[x] } else { 0 }
}

/// Raises the number of a variable to at least this one.
fn raise_to(bits: &mut [u8], x: usize, k: u8)
    ensures { bits.new ≡ raised_at bits.old x k }
{
    if x < bits.len() {
        bits[x] = bits[x].max(k);
    }
}

/// No bit of the variable, where there is one, is wanted.
fn forget(bits: &mut [u8], into: Option<usize>)
    ensures { bits.new ≡ with_none into bits.old }
{
    match into {
        None => (),
        Some(x) => clear(bits, x),
    }
}

/// No bit of the variable is wanted.
fn clear(bits: &mut [u8], x: usize)
    ensures { bits.new ≡ slice_set bits.old x 0 }
{
    put(bits, x, 0);
}

/// So many bits of the variable are wanted.
fn put(bits: &mut [u8], x: usize, k: u8)
    ensures { bits.new ≡ slice_set bits.old x k }
{
    if x < bits.len() {
        bits[x] = k;
    }
}
