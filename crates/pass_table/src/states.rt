// What is known before each node of a graph. Each function fails only with `Memory`.
ghost use Rattle.std.specs.Prelude.{length, OnOk};
ghost use Rattle.table_text.specs.Turns.{AppendsSome, InTurn};
ghost use Rattle.pass_table.specs.States.{IsStateLine, known_text};

use cond_const::{Known, LeastStates};
use flow_graph::Graph;
use itoa::Buffer;
use mir_base::Memory;
use std::alloc::Global;
use table_text::{KnownText, put_field, put_known};

/// How what is known of a variable is written: its value, or `?`.
struct ValueText;

impl KnownText for ValueText {
    type Known = Known;

    ghost text_of = { known_text };

    fn put(text: &mut Vec<u8>, known: Known) -> Result<(), Memory> {
        match known {
            Known::Varying => text.extend_from_slice(b" ?"),
            Known::Fixed(value) => {
                let mut buffer = Buffer::new();
                put_field(text, buffer.format(value).as_bytes())
            }
        }
    }
}

/// Appends a line for each node, with what is known of each variable before it.
pub(crate) fn put_states(alloc: Global, text: &mut Vec<u8>, graph: &Graph) -> Result<(), Memory>
    ensures { OnOk result (AppendsSome (InTurn (IsStateLine graph.now) (length graph.now.nodes))
        text.old text.new) }
{
    let states = LeastStates::of(alloc, graph)?;
    let known = states.before_each(alloc, graph)?;
    put_known::<ValueText>(text, known.as_slice())?;
    Ok(())
}
