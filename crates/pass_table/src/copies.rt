// The copies of a graph, and where they hold. Each function fails only with `Memory`.
ghost use Rattle.std.specs.Prelude.{length, OnOk, Some};
ghost use Rattle.mir_base.specs.Appending.{AppendsOnOk};
ghost use Rattle.held_assign.specs.Rows.{AreHeldRows};
ghost use Rattle.table_text.specs.Rows.{HaveBit};
ghost use Rattle.table_text.specs.Turns.{AppendsSome};
ghost use Rattle.pass_table.specs.Copies.{IsCopiesText, copies_below, copy_head, copy_lines};

use copy_flow::PickCopies;
use flow_graph::Graph;
use held_assign::{Assignment, HeldAssigns};
use key_table::KeyTable;
use mir_base::{Memory, Name};
use std::alloc::Global;
use table_text::{Columns, put_assigned, put_bits, put_count};

/// Appends the copies of a graph, each with the nodes before which it holds.
pub(crate) fn put_copies(alloc: Global, text: &mut Vec<u8>, graph: &Graph) -> Result<(), Memory>
    ensures { OnOk result (AppendsSome (IsCopiesText graph.now) text.old text.new) }
{
    let copies = HeldAssigns::of(alloc, graph, &PickCopies)?;
    let held = Columns::of(alloc, &copies.held)?;
    put_each(text, graph, &copies.table, &held)?;
    Ok(())
}

/// Appends the lines of the copies of this table; `held` says where each holds.
fn put_each(
    text: &mut Vec<u8>,
    graph: &Graph,
    table: &KeyTable<Assignment>,
    held: &Columns,
) -> Result<(), Memory>
    requires { AreHeldRows graph.now table.now held.now }
    ensures { AppendsOnOk result text.old text.new
        (copies_below graph.now.vars table.now held.now (length table.now)) }
{
    for number in 0..table.len() {
        put_copy(text, graph.vars(), held, number, table.get(number))?;
    }
    Ok(())
}

/// Appends the lines of a copy of this number.
fn put_copy(
    text: &mut Vec<u8>,
    vars: &[Name],
    held: &Columns,
    number: usize,
    copy: &Assignment,
) -> Result<(), Memory>
    requires { HaveBit held.now number }
    ensures { AppendsOnOk result text.old text.new
        (copy_lines vars.now held.now number (Some copy.now)) }
{
    put_head(text, vars, number, copy)?;
    put_bits(text, held, number, b"held")
}

/// Appends the number of a copy, and the copy.
fn put_head(
    text: &mut Vec<u8>,
    vars: &[Name],
    number: usize,
    copy: &Assignment,
) -> Result<(), Memory>
    ensures { AppendsOnOk result text.old text.new (copy_head vars.now number copy.now) }
{
    text.extend_from_slice(b"copy")?;
    put_count(text, number)?;
    text.extend_from_slice(b" ")?;
    put_assigned(text, vars, copy.target, &copy.rhs)?;
    text.extend_from_slice(b"\n")
}
