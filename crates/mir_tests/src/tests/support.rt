// The programs and the graphs of texts.
use flow_graph::{Graph, lower};
use mir_base::{MOST_BYTES, Memory, Program};
use mir_parse::read_text;
use mir_valid::check;
use std::alloc::Global;
use std::mem;
use std::test::Fail;

/// The program of this text.
pub(crate) fn program_of(alloc: Global, text: &str) -> Result<Program, Fail> {
    if text.len() > MOST_BYTES {
        return Err("too long a text".into());
    }
    let raw = read_text(alloc, text.as_bytes())?;
    let program = check(alloc, &raw);
    mem::drop(raw);
    Ok(program?)
}

/// The graph of the first unit of this text.
pub(crate) fn graph_of(alloc: Global, text: &str) -> Result<Graph, Fail> {
    let program = program_of(alloc, text)?;
    let graph = first_graph(alloc, &program);
    mem::drop(program);
    Ok(graph?)
}

/// The graph of the first unit of a program.
fn first_graph(alloc: Global, program: &Program) -> Result<Graph, Memory> {
    // The proof needs what holds of every program: that it has a first unit.
    let _inputs = program.inputs();
    lower(alloc, program.unit(0))
}
