// What is known before each node. Each function fails only with `Memory`.
ghost use Rattle.std.specs.Prelude.{ℕ, List, flat_map, length, OnOk};
ghost use Rattle.std.specs.Option.{option_map};
ghost use Rattle.mir_base.specs.Appending.{AppendsOnOk};
ghost use Rattle.table_text.specs.Known.{IsStateAmong, state_line, state_text};
ghost use Rattle.table_text.specs.Turns.{AppendsSome, InTurn};

use crate::fields::put_count;
use mir_base::Memory;

/// How what is known of one variable is written, behind a blank.
pub trait KnownText {
    /// What may be known of a variable.
    type Known: Copy;

    ghost text_of: { Self.Known → List ℕ };

    /// Appends what is known of a variable. It fails only with `Memory`.
    fn put(text: &mut Vec<u8>, known: Self::Known) -> Result<(), Memory>
        ensures { AppendsOnOk result text.old text.new (text_of known) };
}

/// Appends a line `state` for each of these nodes, from number 0 on, before which this is known of each variable;
/// `None`: no run comes to the node.
pub fn put_known<T: KnownText>(
    text: &mut Vec<u8>,
    known: &[Option<Vec<T::Known>>],
) -> Result<(), Memory>
    ensures { OnOk result (AppendsSome
        (InTurn (IsStateAmong T.text_of known.now) (length known.now)) text.old text.new) }
{
    for node in 0..known.len() {
        let one = &known[node];
        put_state::<T>(text, node, one)?;
    }
    Ok(())
}

/// Appends the line of a node.
fn put_state<T: KnownText>(
    text: &mut Vec<u8>,
    node: usize,
    known: &Option<Vec<T::Known>>,
) -> Result<(), Memory>
    ensures { AppendsOnOk result text.old text.new
        (state_line T.text_of node (option_map (λ list. list.items) known.now)) }
{
    text.extend_from_slice(b"state")?;
    put_count(text, node)?;
    put_before::<T>(text, known)?;
    text.extend_from_slice(b"\n")
}

/// Appends what is known of all variables, or that no run comes to the node.
fn put_before<T: KnownText>(text: &mut Vec<u8>, known: &Option<Vec<T::Known>>) -> Result<(), Memory>
    ensures { AppendsOnOk result text.old text.new
        (state_text T.text_of (option_map (λ list. list.items) known.now)) }
{
    match known {
        None => text.extend_from_slice(b" unreached"),
        Some(known) => put_each_known::<T>(text, known.as_slice()),
    }
}

/// Appends what is known of each variable.
fn put_each_known<T: KnownText>(text: &mut Vec<u8>, known: &[T::Known]) -> Result<(), Memory>
    ensures { AppendsOnOk result text.old text.new (flat_map T.text_of known.now) }
{
    for one in known {
        T::put(text, *one)?;
    }
    Ok(())
}
