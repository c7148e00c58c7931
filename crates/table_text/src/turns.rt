// Texts that have numbers and are written in this order. Each function fails only with `Memory`.
ghost use Rattle.std.specs.Prelude.{◌≡◌, ◌<◌, ℕ, List, IfOk, OnOk};
ghost use Rattle.table_text.specs.Turns.{AppendsSome, InTurn, IsTableText};

use mir_base::Memory;
use std::alloc::Global;

/// Texts that are written one after the other, each known by its number, from 0 on. For contracts `count` says how many
/// there are, `is_piece` which text is that of a number, and `holds` what is known of them all.
pub trait Pieces {
    ghost count: { Self → ℕ };

    ghost is_piece: { Self → ℕ → List ℕ → Type 0 };

    ghost holds: { Self → Type 0 } = { λ _. Unit {0} };

    /// How many there are. It does not allocate.
    fn len(&self) -> usize
        ensures { result ≡ count self.now };

    /// Appends the text of this number. It fails only with `Memory`.
    fn put(&self, alloc: Global, text: &mut Vec<u8>, number: usize) -> Result<(), Memory>
        requires number { number < count self.now }
        requires all { holds self.now }
        ensures { OnOk result (AppendsSome (is_piece self.now number) text.old text.new) };
}

/// Appends all of these texts, one after the other.
pub fn put_in_turn<P: Pieces>(alloc: Global, text: &mut Vec<u8>, pieces: &P) -> Result<(), Memory>
    requires { P.holds pieces.now }
    ensures { OnOk result (AppendsSome (InTurn (P.is_piece pieces.now) (P.count pieces.now))
        text.old text.new) }
{
    for number in 0..pieces.len() {
        pieces.put(alloc, text, number)?;
    }
    Ok(())
}

/// The text of this line and, behind it, of all these texts.
pub fn text_in_turn<P: Pieces>(alloc: Global, line: &[u8], pieces: &P) -> Result<Vec<u8>, Memory>
    requires { P.holds pieces.now }
    ensures { IfOk result (λ text. IsTableText line.now (P.is_piece pieces.now) (P.count pieces.now)
        text.items) }
{
    let mut text = Vec::new(alloc);
    text.extend_from_slice(line)?;
    put_in_turn(alloc, &mut text, pieces)?;
    Ok(text)
}
