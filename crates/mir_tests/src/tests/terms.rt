// The terms that the variables of a graph have before each node.
ghost use Rattle.std.specs.Prelude.{◌<◌, length};

use crate::tests::shown::{put_bytes, put_var};
use flow_graph::Graph;
use mir_base::{Memory, Name, op_text, un_op_text};
use std::alloc::Global;
use std::mem;
use value_number::{NodeTerms, TermKey};

/// Appends a line for each node of a graph: the root at which the terms before it begin, and the term of each variable
/// that has a number, as all have that have another than their leaf of the root. The leaf of a variable is its name with
/// the number of its root.
pub(crate) fn put_all_terms(alloc: Global, text: &mut String, graph: &Graph) -> Result<(), Memory> {
    for n in 0..graph.len() {
        put_node_terms(alloc, text, graph, n)?;
    }
    Ok(())
}

/// Appends the line of node `n`.
fn put_node_terms(alloc: Global, text: &mut String, graph: &Graph, n: usize) -> Result<(), Memory>
    requires { n < length graph.now.nodes }
{
    let terms = NodeTerms::before(alloc, graph, n)?;
    let put = put_terms(alloc, text, graph.vars(), n, &terms);
    mem::drop(terms);
    put
}

/// Appends the line of node `n`, before which these are the terms.
fn put_terms(
    alloc: Global,
    text: &mut String,
    vars: &[Name],
    n: usize,
    terms: &NodeTerms,
) -> Result<(), Memory> {
    let texts = term_texts(alloc, vars, terms)?;
    let put = put_line(text, vars, n, terms, texts.as_slice());
    mem::drop(texts);
    put
}

/// Appends the line of node n: its root, and of each variable that has a term the text of it out of `texts`.
fn put_line(
    text: &mut String,
    vars: &[Name],
    n: usize,
    terms: &NodeTerms,
    texts: &[String],
) -> Result<(), Memory> {
    write!(text, "{n} from {}", terms.root)?;
    for (x, number) in terms.numbers.iter().enumerate() {
        if let Some(number) = number {
            text.push(' ')?;
            put_var(text, vars, x)?;
            text.push('=')?;
            put_part(text, texts, *number)?;
        }
    }
    text.push('\n')
}

/// The text of each term of the table, by its number. The walk puts those of the operands before it; where one did not
/// stand there, its text would be a `?`.
fn term_texts(alloc: Global, vars: &[Name], terms: &NodeTerms) -> Result<Vec<String>, Memory> {
    let mut texts = Vec::new(alloc);
    push_texts(alloc, &mut texts, vars, terms)?;
    Ok(texts)
}

/// Appends these texts to none.
fn push_texts(
    alloc: Global,
    texts: &mut Vec<String>,
    vars: &[Name],
    terms: &NodeTerms,
) -> Result<(), Memory> {
    for number in 0..terms.table.len() {
        push_text(alloc, texts, vars, *terms.table.get(number))?;
    }
    Ok(())
}

/// Appends the text of a term to those of the terms before it.
fn push_text(
    alloc: Global,
    texts: &mut Vec<String>,
    vars: &[Name],
    key: TermKey,
) -> Result<(), Memory> {
    let text = term_text(alloc, vars, texts.as_slice(), key)?;
    texts.push(text)?;
    Ok(())
}

/// The text of a term, where its operands have these.
fn term_text(
    alloc: Global,
    vars: &[Name],
    texts: &[String],
    key: TermKey,
) -> Result<String, Memory> {
    let mut text = String::new(alloc);
    put_term(&mut text, vars, texts, key)?;
    Ok(text)
}

/// Appends it.
fn put_term(
    text: &mut String,
    vars: &[Name],
    texts: &[String],
    key: TermKey,
) -> Result<(), Memory> {
    match key {
        TermKey::Initial(x, root) => {
            put_var(text, vars, x)?;
            write!(text, "{root}")
        }
        TermKey::Opaque(node, x) => {
            write!(text, "node{node}.")?;
            put_var(text, vars, x)
        }
        TermKey::Number(number) => write!(text, "{number}"),
        TermKey::Unary(op, a) => {
            put_bytes(text, un_op_text(op))?;
            put_part(text, texts, a)
        }
        TermKey::Binary(op, a, b) => {
            text.push('(')?;
            put_part(text, texts, a)?;
            put_bytes(text, op_text(op))?;
            put_part(text, texts, b)?;
            text.push(')')
        }
    }
}

/// Appends the text of the term of this number.
fn put_part(text: &mut String, texts: &[String], number: usize) -> Result<(), Memory> {
    match texts.get(number) {
        Some(part) => text.push_str(part.as_str()),
        None => text.push('?'),
    }
}
