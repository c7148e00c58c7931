// The texts of programs, graphs and rows, and what changes from one text to another. What is shown is appended to one
// text, so that each function holds one value alone that has memory of its own, over a call that does not fail: the
// proof of a test becomes long where several are to be given back.
use bit_rows::Rows;
use flow_graph::{Graph, Node};
use mir_base::{Memory, Name, Operand, Program, Rhs, Test, op_text, rel_op_text, un_op_text};
use mir_print::print;
use std::alloc::Global;
use std::mem;
use std::test::Fail;

/// Appends the canonical text of a program.
pub(crate) fn put_program(
    alloc: Global,
    text: &mut String,
    program: &Program,
) -> Result<(), Memory> {
    let bytes = print(alloc, program)?;
    let put = put_bytes(text, bytes.as_slice());
    mem::drop(bytes);
    put
}

/// Appends a line for each node of a graph, by its number, with the numbers of its successors.
pub(crate) fn put_graph(text: &mut String, graph: &Graph) -> Result<(), Memory> {
    for (number, node) in graph.nodes().iter().enumerate() {
        write!(text, "{number}: ")?;
        put_node(text, graph.vars(), node)?;
    }
    Ok(())
}

/// Appends the line of a node.
fn put_node(text: &mut String, vars: &[Name], node: &Node) -> Result<(), Memory> {
    match node {
        Node::Start(next) => write!(text, "start to {next}\n"),
        Node::Skip(next) => write!(text, "skip to {next}\n"),
        Node::Assign(x, rhs, next) => {
            put_var(text, vars, *x)?;
            text.push_str(" <- ")?;
            put_rhs(text, vars, rhs)?;
            write!(text, " to {next}\n")
        }
        Node::Print(a, next) => {
            text.push_str("print ")?;
            put_operand(text, vars, a)?;
            write!(text, " to {next}\n")
        }
        Node::Call(into, unit, args, next) => {
            if let Some(x) = into {
                put_var(text, vars, *x)?;
                text.push_str(" <- ")?;
            }
            write!(text, "call {unit}")?;
            put_operands(text, vars, args.items())?;
            write!(text, " to {next}\n")
        }
        Node::Test(test, taken, other) => {
            text.push_str("if ")?;
            put_test(text, vars, test)?;
            write!(text, " to {taken} else {other}\n")
        }
        Node::Guard(test, number, next) => {
            text.push_str("if ")?;
            put_test(text, vars, test)?;
            write!(text, " trap {number} to {next}\n")
        }
        Node::Return(a) => {
            text.push_str("return ")?;
            put_operand(text, vars, a)?;
            text.push('\n')
        }
    }
}

/// Appends each operand, after a blank.
fn put_operands(text: &mut String, vars: &[Name], operands: &[Operand]) -> Result<(), Memory> {
    for operand in operands {
        put_behind_blank(text, vars, operand)?;
    }
    Ok(())
}

/// Appends an operand, after a blank.
fn put_behind_blank(text: &mut String, vars: &[Name], operand: &Operand) -> Result<(), Memory> {
    text.push(' ')?;
    put_operand(text, vars, operand)
}

/// Appends a right side.
pub(crate) fn put_rhs(text: &mut String, vars: &[Name], rhs: &Rhs) -> Result<(), Memory> {
    match rhs {
        Rhs::Plain(a) => put_operand(text, vars, a),
        Rhs::Unary(op, a) => put_one(text, vars, un_op_text(*op), a),
        Rhs::Binary(op, a, b) => put_two(text, vars, a, op_text(*op), b),
    }
}

/// Appends a test.
fn put_test(text: &mut String, vars: &[Name], test: &Test) -> Result<(), Memory> {
    match test {
        Test::Rel(relation, a, b) => put_two(text, vars, a, rel_op_text(*relation), b),
        Test::Holds(a) => put_operand(text, vars, a),
        Test::Fails(a) => put_one(text, vars, b"!", a),
    }
}

/// Appends an operator and its operand.
fn put_one(text: &mut String, vars: &[Name], op: &[u8], a: &Operand) -> Result<(), Memory> {
    put_bytes(text, op)?;
    text.push(' ')?;
    put_operand(text, vars, a)
}

/// Appends an operator between its operands.
fn put_two(
    text: &mut String,
    vars: &[Name],
    a: &Operand,
    op: &[u8],
    b: &Operand,
) -> Result<(), Memory> {
    put_operand(text, vars, a)?;
    text.push(' ')?;
    put_one(text, vars, op, b)
}

/// Appends an operand.
fn put_operand(text: &mut String, vars: &[Name], operand: &Operand) -> Result<(), Memory> {
    match operand {
        Operand::Var(x) => put_var(text, vars, *x),
        Operand::Const(number) => write!(text, "{number}"),
    }
}

/// Appends the name of a variable.
pub(crate) fn put_var(text: &mut String, vars: &[Name], x: usize) -> Result<(), Memory> {
    match vars.get(x) {
        Some(name) => put_bytes(text, name.bytes()),
        None => text.push('?'),
    }
}

/// Appends bytes of ASCII.
pub(crate) fn put_bytes(text: &mut String, bytes: &[u8]) -> Result<(), Memory> {
    for byte in bytes {
        text.push(char::from(*byte))?;
    }
    Ok(())
}

/// Appends a line with a name and the nodes whose row has the bit of this number.
pub(crate) fn put_bit(
    text: &mut String,
    name: &str,
    rows: &Rows,
    bit: usize,
) -> Result<(), Memory> {
    text.push_str(name)?;
    for node in 0..rows.len() {
        if bit < rows.bits() && rows.get(node, bit) {
            write!(text, " {node}")?;
        }
    }
    text.push('\n')
}

/// Appends the lines of a text that another does not have, and how many of its lines that one has.
pub(crate) fn put_changes(text: &mut String, before: &str, after: &str) -> Result<(), Memory> {
    let mut stay = 0usize;
    for line in after.split_inclusive('\n') {
        if has_line(before, line) {
            stay = stay.saturating_add(1);
        } else {
            text.push_str(line)?;
        }
    }
    write!(text, "{stay} stay\n")
}

/// Whether a text has a line.
fn has_line(text: &str, wanted: &str) -> bool {
    for line in text.split_inclusive('\n') {
        if line == wanted {
            return true;
        }
    }
    false
}

/// The text of an example, and the parts of what is shown of it.
pub(crate) fn text_and_shown(example: &str) -> Option<(&str, &str)> {
    let (_, example) = example.split_once('\n')?;
    example.split_once("$ ")
}

/// Fails where the passes did not make what was wanted of a text, with what they made.
pub(crate) fn show_same(text: &str, passes: &str, made: &str, wanted: &str) -> Result<(), Fail> {
    if made == wanted {
        Ok(())
    } else {
        Err(Fail::new(format_args!("{text}$ {passes}\n{made}")))
    }
}
