// The tables of joined leaves. Each function fails only with `Memory`.
ghost use Rattle.std.specs.Prelude.{IfOk, length};
ghost use Rattle.mir_base.specs.Appending.{AppendsOnOk};
ghost use Rattle.table_text.specs.Lines.{names_of_units};
ghost use Rattle.unit_join.specs.JoinPrograms.{AreLeavesMade};
ghost use Rattle.unit_join.specs.Joins.{leaf_at};
ghost use Rattle.call_table.specs.Joins.{IsBodyAt, IsJoinedAt, ShowsJoins, became_text, body_line, call_line, first_called_text, calls_below, joined_text, laid_line, join_line, taken_text, why_text};

use flow_graph::Node;
use mir_base::{MOST_INSTS, Memory, Program, Unit as MirUnit};
use std::alloc::Global;
use table_text::{
    Pieces, put_back, put_count, put_field, put_front, put_in_turn, put_pass, put_unit_field,
    unit_count, units_of,
};
use unit_join::{JoinSteps, LeafTest, Leaves, join_steps, leaf_test};

/// The tables of `join`: for each unit of a program whether it is a leaf, and then for each unit what becomes of its
/// calls, and the graphs on the way. It fails only with `Memory`.
pub fn text_of_joins(alloc: Global, program: &Program) -> Result<Vec<u8>, Memory>
    ensures { IfOk result (λ text. ShowsJoins program.now text.items) }
{
    let leaves = Leaves::of(alloc, program)?;
    let text = text_with(alloc, program, &leaves)?;
    Ok(text)
}

/// The same with the leaves of the program.
fn text_with(alloc: Global, program: &Program, leaves: &Leaves) -> Result<Vec<u8>, Memory>
    requires { AreLeavesMade program.now.units leaves.now.units }
    ensures { IfOk result (λ text. ShowsJoins program.now text.items) }
{
    let mut text = Vec::new(alloc);
    text.extend_from_slice(b"tables 1 join\n")?;
    put_in_turn(alloc, &mut text, &Bodies { program })?;
    put_in_turn(alloc, &mut text, &JoinedUnits { program, leaves })?;
    Ok(text)
}

/// For each unit of a program whether it is a leaf.
#[derive(Drop)]
struct Bodies<'a> {
    program: &'a Program,
}

impl Pieces for Bodies<'_> {
    ghost count = { λ s. length s.program.now.units };

    ghost is_piece = { λ s. IsBodyAt s.program.now.units };

    fn len(&self) -> usize {
        unit_count(self.program)
    }

    fn put(&self, _alloc: Global, text: &mut Vec<u8>, number: usize) -> Result<(), Memory> {
        let test = leaf_test(self.program.unit(number));
        put_body(text, units_of(self.program), number, test)?;
        Ok(())
    }
}

/// Appends what decides whether the unit of this number is a leaf.
fn put_body(
    text: &mut Vec<u8>,
    units: &[MirUnit],
    number: usize,
    test: LeafTest,
) -> Result<(), Memory>
    ensures { AppendsOnOk result text.old text.new
        (body_line (names_of_units units.now) number test) }
{
    text.extend_from_slice(b"body")?;
    put_unit_field(text, units, number)?;
    put_count(text, test.insts)?;
    put_why(text, units, test)?;
    text.extend_from_slice(b"\n")
}

/// Appends that a unit is a leaf, or why it is none.
fn put_why(text: &mut Vec<u8>, units: &[MirUnit], test: LeafTest) -> Result<(), Memory>
    ensures { AppendsOnOk result text.old text.new
        (why_text (names_of_units units.now) test.long test.calls) }
{
    if test.long {
        put_field(text, b"long")?;
        put_called(text, units, test.calls, b"")
    } else {
        put_called(text, units, test.calls, b" leaf")
    }
}

/// Appends which unit is called first, and another text where none is.
fn put_called(
    text: &mut Vec<u8>,
    units: &[MirUnit],
    called: Option<usize>,
    none: &[u8],
) -> Result<(), Memory>
    ensures { AppendsOnOk result text.old text.new
        (first_called_text (names_of_units units.now) none.now called) }
{
    match called {
        None => text.extend_from_slice(none),
        Some(unit) => {
            text.extend_from_slice(b" calls")?;
            put_unit_field(text, units, unit)
        }
    }
}

/// The tables of the units of a program, with its leaves.
#[derive(Drop)]
struct JoinedUnits<'a> {
    program: &'a Program,
    leaves: &'a Leaves,
}

impl Pieces for JoinedUnits<'_> {
    ghost count = { λ s. length s.program.now.units };

    ghost is_piece = { λ s. IsJoinedAt s.program.now.units s.leaves.now.units };

    ghost holds = { λ s. AreLeavesMade s.program.now.units s.leaves.now.units };

    fn len(&self) -> usize {
        unit_count(self.program)
    }

    fn put(&self, alloc: Global, text: &mut Vec<u8>, number: usize) -> Result<(), Memory> {
        let made = join_steps(alloc, self.program, self.leaves, number)?;
        put_tables(text, units_of(self.program), self.leaves, &made)?;
        Ok(())
    }
}

/// Appends the graphs of a unit, what becomes of its calls, and how long it becomes.
fn put_tables(
    text: &mut Vec<u8>,
    units: &[MirUnit],
    leaves: &Leaves,
    made: &JoinSteps,
) -> Result<(), Memory>
    ensures { AppendsOnOk result text.old text.new
        (joined_text (names_of_units units.now) leaves.now.units made.now) }
{
    let steps = &made.steps;
    put_front(text, units, &steps.lowered, &steps.cleaned)?;
    put_pass(text, b"join")?;
    put_calls(text, units, leaves, steps.cleaned.nodes())?;
    put_back(text, units, b"join", &steps.passed, &steps.swept)?;
    put_laid(text, made.insts)?;
    Ok(())
}

/// Appends how many instructions a unit has with its leaves, and whether it is taken so, or left for it is too long.
fn put_laid(text: &mut Vec<u8>, insts: usize) -> Result<(), Memory>
    ensures { AppendsOnOk result text.old text.new (laid_line insts) }
{
    text.extend_from_slice(b"laid")?;
    put_count(text, insts)?;
    put_taken(text, insts)?;
    text.extend_from_slice(b"\n")
}

/// Appends whether a unit of so many instructions is taken, or left.
fn put_taken(text: &mut Vec<u8>, insts: usize) -> Result<(), Memory>
    ensures { AppendsOnOk result text.old text.new (taken_text insts) }
{
    if MOST_INSTS < insts {
        put_field(text, b"left")
    } else {
        put_field(text, b"taken")
    }
}

/// Appends a line for each node that is a call.
fn put_calls(
    text: &mut Vec<u8>,
    units: &[MirUnit],
    leaves: &Leaves,
    nodes: &[Node],
) -> Result<(), Memory>
    ensures { AppendsOnOk result text.old text.new
        (calls_below (names_of_units units.now) leaves.now.units nodes.now (length nodes.now)) }
{
    for number in 0..nodes.len() {
        let node = &nodes[number];
        put_node(text, units, leaves, number, node)?;
    }
    Ok(())
}

/// Appends the line of a node, where it is a call.
fn put_node(
    text: &mut Vec<u8>,
    units: &[MirUnit],
    leaves: &Leaves,
    number: usize,
    node: &Node,
) -> Result<(), Memory>
    ensures { AppendsOnOk result text.old text.new
        (join_line (names_of_units units.now) leaves.now.units number node.now) }
{
    match node {
        Node::Call(_, unit, _, _) => put_call(text, units, leaves, number, *unit),
        _ => Ok(()),
    }
}

/// Appends the line of a call of this unit.
fn put_call(
    text: &mut Vec<u8>,
    units: &[MirUnit],
    leaves: &Leaves,
    number: usize,
    unit: usize,
) -> Result<(), Memory>
    ensures { AppendsOnOk result text.old text.new
        (call_line (names_of_units units.now) leaves.now.units number unit) }
{
    text.extend_from_slice(b"call")?;
    put_count(text, number)?;
    put_unit_field(text, units, unit)?;
    put_became(text, leaves, unit)?;
    text.extend_from_slice(b"\n")
}

/// Appends what becomes of a call of this unit.
fn put_became(text: &mut Vec<u8>, leaves: &Leaves, unit: usize) -> Result<(), Memory>
    ensures { AppendsOnOk result text.old text.new (became_text (leaf_at leaves.now.units unit)) }
{
    match leaves.units.items().get(unit) {
        None => put_field(text, b"stays"),
        Some(entry) => match entry {
            None => put_field(text, b"stays"),
            Some(_) => put_field(text, b"joined"),
        },
    }
}
