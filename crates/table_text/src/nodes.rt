// The line of a node. Each function appends what it names, and fails only with `Memory`.
ghost use Rattle.std.specs.Prelude.{codes, ◌++◌, decimal};
ghost use Rattle.mir_base.specs.Appending.{AppendsOnOk};
ghost use Rattle.table_text.specs.Lines.{field, names_of_units};
ghost use Rattle.table_text.specs.Nodes.{node_line, node_text, guard_text, ways_text};

use crate::fields::put_count;
use crate::operands::{put_assigned, put_operand};
use flow_graph::Node;
use mir_base::{Memory, Name, Test, Unit as MirUnit};
use mir_print::{put_call_among, put_number, put_test_with};

/// The line of a node of this number, over variables of these names, among these units.
pub(crate) fn put_node(
    text: &mut Vec<u8>,
    units: &[MirUnit],
    vars: &[Name],
    number: usize,
    node: &Node,
) -> Result<(), Memory>
    ensures { AppendsOnOk result text.old text.new
        (node_line (names_of_units units.now) vars.now number node.now) }
{
    text.extend_from_slice(b"node")?;
    put_count(text, number)?;
    put_node_text(text, units, vars, node)?;
    text.extend_from_slice(b"\n")
}

/// What a node is, where it leads, and its instruction without label and jump.
fn put_node_text(
    text: &mut Vec<u8>,
    units: &[MirUnit],
    vars: &[Name],
    node: &Node,
) -> Result<(), Memory>
    ensures { AppendsOnOk result text.old text.new
        (node_text (names_of_units units.now) vars.now node.now) }
{
    match node {
        Node::Start(next) => put_kind(text, b" start", *next),
        Node::Skip(next) => put_kind(text, b" skip", *next),
        Node::Assign(x, rhs, next) => {
            put_kind(text, b" assign", *next)?;
            text.extend_from_slice(b" ")?;
            put_assigned(text, vars, *x, rhs)
        }
        Node::Print(a, next) => {
            put_kind(text, b" print", *next)?;
            text.extend_from_slice(b" print ")?;
            put_operand(text, vars, *a)
        }
        Node::Guard(test, number, next) => {
            put_kind(text, b" guard", *next)?;
            put_guard(text, vars, test, *number)
        }
        Node::Call(into, unit, args, next) => {
            put_kind(text, b" call", *next)?;
            text.extend_from_slice(b" ")?;
            put_call_among(text, units, vars, into, *unit, args)
        }
        Node::Test(test, taken, other) => {
            put_ways(text, *taken, *other)?;
            text.extend_from_slice(b" if ")?;
            put_test_with(text, vars, test)
        }
        Node::Return(a) => {
            put_way_out(text)?;
            text.extend_from_slice(b" return ")?;
            put_operand(text, vars, *a)
        }
    }
}

/// The word of a Return, which has no successor.
fn put_way_out(text: &mut Vec<u8>) -> Result<(), Memory>
    ensures { AppendsOnOk result text.old text.new (codes " return -") }
{
    text.extend_from_slice(b" return -")
}

/// The word of a kind of node that has one successor, and the number of this.
fn put_kind(text: &mut Vec<u8>, kind: &[u8], next: usize) -> Result<(), Memory>
    ensures { AppendsOnOk result text.old text.new (kind.now ++ field (decimal next)) }
{
    text.extend_from_slice(kind)?;
    put_count(text, next)
}

/// The word of a Test, and the numbers of its two successors.
fn put_ways(text: &mut Vec<u8>, taken: usize, other: usize) -> Result<(), Memory>
    ensures { AppendsOnOk result text.old text.new (ways_text taken other) }
{
    text.extend_from_slice(b" test")?;
    put_count(text, taken)?;
    text.extend_from_slice(b",")?;
    put_number(text, other)
}

/// The test of a guard, and the number of its trap.
fn put_guard(text: &mut Vec<u8>, vars: &[Name], test: &Test, number: u8) -> Result<(), Memory>
    ensures { AppendsOnOk result text.old text.new (guard_text vars.now test.now number) }
{
    text.extend_from_slice(b" if ")?;
    put_test_with(text, vars, test)?;
    text.extend_from_slice(b" trap")?;
    put_count(text, usize::from(number))
}
