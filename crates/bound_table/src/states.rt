// What is known before each node of a graph.
ghost use Rattle.std.specs.Prelude.{length, OnOk};
ghost use Rattle.table_text.specs.Turns.{AppendsSome, InTurn};
ghost use Rattle.bound_table.specs.BoundLines.{IsBoundLine, fact_text};

use crate::ends::put_fact;
use bounds::Fact;
use cond_flow::LeastStates;
use flow_graph::Graph;
use mir_base::Memory;
use std::alloc::Global;
use table_text::{KnownText, put_known};

/// How the bounds of a variable are written.
struct FactText;

impl KnownText for FactText {
    type Known = Fact;

    ghost text_of = { fact_text };

    fn put(text: &mut Vec<u8>, known: Fact) -> Result<(), Memory> {
        put_fact(text, known)
    }
}

/// Appends a line for each node, with the bounds of each variable before it. It fails only with `Memory`.
pub(crate) fn put_states(alloc: Global, text: &mut Vec<u8>, graph: &Graph) -> Result<(), Memory>
    ensures { OnOk result (AppendsSome (InTurn (IsBoundLine graph.now) (length graph.now.nodes))
        text.old text.new) }
{
    let states = LeastStates::<Fact>::of(alloc, graph)?;
    let known = states.before_each(alloc, graph)?;
    put_known::<FactText>(text, known.as_slice())?;
    Ok(())
}
