// The terms of the variables before each node of a graph. Each function fails only with `Memory`.
ghost use Rattle.std.specs.Prelude.{flat_map, length, OnOk, Some};
ghost use Rattle.mir_base.specs.Appending.{AppendsOnOk};
ghost use Rattle.table_text.specs.Turns.{AppendsSome};
ghost use Rattle.pass_table.specs.Terms.{IsTermsText, leaf_text, nodes_below, number_field, numbers_line, term_line, term_text, terms_below};

use flow_graph::Graph;
use itoa::Buffer;
use key_table::KeyTable;
use mir_base::{Memory, Name, op_text, un_op_text};
use std::alloc::Global;
use table_text::{put_count, put_field, put_name};
use value_number::{AllTerms, TermKey, TermsAt};

/// Appends the terms, and then for each node the number of the term of each variable before it.
pub(crate) fn put_terms(alloc: Global, text: &mut Vec<u8>, graph: &Graph) -> Result<(), Memory>
    ensures { OnOk result (AppendsSome (IsTermsText graph.now) text.old text.new) }
{
    let all = AllTerms::of(alloc, graph)?;
    put_table(text, graph.vars(), &all.table)?;
    put_nodes(text, all.nodes.as_slice())?;
    Ok(())
}

/// Appends the terms of a table.
fn put_table(text: &mut Vec<u8>, vars: &[Name], table: &KeyTable<TermKey>) -> Result<(), Memory>
    ensures { AppendsOnOk result text.old text.new
        (terms_below vars.now table.now (length table.now)) }
{
    for number in 0..table.len() {
        put_term(text, vars, number, *table.get(number))?;
    }
    Ok(())
}

/// Appends the line of the term of this number.
fn put_term(text: &mut Vec<u8>, vars: &[Name], number: usize, key: TermKey) -> Result<(), Memory>
    ensures { AppendsOnOk result text.old text.new (term_line vars.now number (Some key)) }
{
    text.extend_from_slice(b"term")?;
    put_count(text, number)?;
    put_key(text, vars, key)?;
    text.extend_from_slice(b"\n")
}

/// Appends what a term is.
fn put_key(text: &mut Vec<u8>, vars: &[Name], key: TermKey) -> Result<(), Memory>
    ensures { AppendsOnOk result text.old text.new (term_text vars.now key) }
{
    match key {
        TermKey::Initial(x, root) => put_leaf(text, b"leaf", vars, x, root),
        TermKey::Opaque(node, x) => put_leaf(text, b"node", vars, x, node),
        TermKey::Number(number) => {
            let mut buffer = Buffer::new();
            text.extend_from_slice(b" number")?;
            put_field(text, buffer.format(number).as_bytes())
        }
        TermKey::Unary(op, a) => {
            put_field(text, un_op_text(op))?;
            put_count(text, a)
        }
        TermKey::Binary(op, a, b) => {
            put_field(text, op_text(op))?;
            put_count(text, a)?;
            put_count(text, b)
        }
    }
}

/// Appends a leaf: its kind, its variable and its node.
fn put_leaf(
    text: &mut Vec<u8>,
    kind: &[u8],
    vars: &[Name],
    x: usize,
    node: usize,
) -> Result<(), Memory>
    ensures { AppendsOnOk result text.old text.new (leaf_text kind.now vars.now x node) }
{
    put_field(text, kind)?;
    text.extend_from_slice(b" ")?;
    put_name(text, vars, x)?;
    put_count(text, node)
}

/// Appends the lines of these nodes.
fn put_nodes(text: &mut Vec<u8>, nodes: &[TermsAt]) -> Result<(), Memory>
    ensures { AppendsOnOk result text.old text.new (nodes_below nodes.now (length nodes.now)) }
{
    for node in 0..nodes.len() {
        let at = &nodes[node];
        put_numbers(text, node, at.root, at.numbers.as_slice())?;
    }
    Ok(())
}

/// Appends the line of a node with this root and these numbers.
fn put_numbers(
    text: &mut Vec<u8>,
    node: usize,
    root: usize,
    numbers: &[Option<usize>],
) -> Result<(), Memory>
    ensures { AppendsOnOk result text.old text.new (numbers_line node root numbers.now) }
{
    text.extend_from_slice(b"terms")?;
    put_count(text, node)?;
    put_count(text, root)?;
    put_each_number(text, numbers)?;
    text.extend_from_slice(b"\n")
}

/// Appends the number of each term, and `-` where there is none.
fn put_each_number(text: &mut Vec<u8>, numbers: &[Option<usize>]) -> Result<(), Memory>
    ensures { AppendsOnOk result text.old text.new (flat_map number_field numbers.now) }
{
    for number in numbers {
        put_number(text, *number)?;
    }
    Ok(())
}

/// Appends the number of a term, or `-`.
fn put_number(text: &mut Vec<u8>, number: Option<usize>) -> Result<(), Memory>
    ensures { AppendsOnOk result text.old text.new (number_field number) }
{
    match number {
        None => put_field(text, b"-"),
        Some(number) => put_count(text, number),
    }
}
