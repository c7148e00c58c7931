// A row that is kept elsewhere.
ghost use Rattle.std.specs.Prelude.{◌≡◌, ℕ, ◌+◌, ◌*◌, ◌<◌, ◌↔◌, IsTrue, false, IfNone, IfSome, length, nat_eq, slice_index_or};
ghost use Rattle.std.specs.Int.{bit_at};
ghost use Rattle.bit_rows.specs.Bits.{IsTrueFrom, NoneTrue, row_bit};

use crate::words::{next_set, word_at, word_bit};
use std::marker::Model;

/// A row of truth values that stands among others, or alone. Contracts see it as the list of these.
#[derive(Drop)]
pub struct RowView<'a> {
    pub(crate) bits: usize,
    pub(crate) words: &'a [u64],
}

impl<'a> Model for RowView<'a> {
    ghost use Rattle.std.specs.Prelude.{List, Bool};
    ghost use Rattle.bit_rows.specs.Words.{bits_of, FitsWords};

    ghost Value = { List Bool };

    ghost view = { λ row. bits_of row.bits row.words.now };

    ghost invariant = { λ row. FitsWords row.bits row.words.now };
}

impl<'a> RowView<'a> {
    /// How many bits it has. It does not allocate.
    pub fn len(&self) -> usize
        ensures { result ≡ length self.now }
    {
        self.bits
    }

    /// The bit of a number, counted from 0. It does not allocate.
    pub fn get(&self, bit: usize) -> bool
        requires { bit < length self.now }
        ensures { result ≡ slice_index_or self.now bit false }
    {
        word_bit(self.words, bit)
    }

    /// The number of the first true bit from number `from` on, and `None` exactly where no bit from there on is true.
    /// It does not allocate.
    pub fn next_true(&self, from: usize) -> Option<usize>
        ensures found { IfSome result (IsTrueFrom (row_bit self.now) (length self.now) from) }
        ensures first { IfSome result (NoneTrue (row_bit self.now) from) }
        ensures none { IfNone result (NoneTrue (row_bit self.now) from (length self.now)) }
    {
        if from < self.len() {
            next_set(self.words, from)
        } else {
            None
        }
    }

    /// The 64 bits from number 64 * `number` on, as a word of which the lowest bit is the first of them. Bits past the
    /// last of the row are not set in it. It does not allocate.
    pub fn word(&self, number: usize) -> u64
        requires { 64 * number < length self.now }
        ensures { (i : ℕ) → i < 64 →
            row_bit self.now (64 * number + i) ≡ nat_eq (bit_at result i) 1 }
    {
        word_at(self.words, number)
    }

    /// Whether it has the same bits as the other. It does not allocate.
    pub fn is_same(&self, other: &RowView<'_>) -> bool
        requires { length self.now ≡ length other.now }
        ensures { IsTrue result ↔ (self.now ≡ other.now) }
    {
        self.words == other.words
    }
}
