// At which nodes the copies of a graph hold.
ghost use Rattle.std.specs.Prelude.{◌<◌, length};

use crate::tests::shown::{put_bit, put_rhs, put_var};
use copy_flow::PickCopies;
use flow_graph::Graph;
use held_assign::HeldAssigns;
use mir_base::{Memory, Name};
use std::alloc::Global;
use std::mem;

/// Appends a line for each distinct copy of a graph, with the nodes at which it holds.
pub(crate) fn put_copies(alloc: Global, text: &mut String, graph: &Graph) -> Result<(), Memory> {
    let copies = HeldAssigns::of(alloc, graph, &PickCopies)?;
    let put = put_each(text, graph.vars(), &copies);
    mem::drop(copies);
    put
}

/// Appends the lines of these copies.
fn put_each(text: &mut String, vars: &[Name], copies: &HeldAssigns) -> Result<(), Memory> {
    for number in 0..copies.table.len() {
        put_copy(text, vars, copies, number)?;
    }
    Ok(())
}

/// Appends the line of the copy of this number.
fn put_copy(
    text: &mut String,
    vars: &[Name],
    copies: &HeldAssigns,
    number: usize,
) -> Result<(), Memory>
    requires { number < length copies.now.table }
{
    let copy = *copies.table.get(number);
    put_var(text, vars, copy.target)?;
    text.push_str(" <- ")?;
    put_rhs(text, vars, &copy.rhs)?;
    put_bit(text, "", &copies.held, number)
}
