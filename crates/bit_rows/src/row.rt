// One row of truth values.
ghost use Rattle.std.specs.Prelude.{◌≡◌, ◌<◌, ◌↔◌, [], false, IfOk, length, slice_index_or, slice_set, replicate};
ghost use Rattle.bit_rows.specs.Bits.{or_bits, minus_bits, not_bits};
ghost use Rattle.bit_rows.specs.Marks.{AreMarked, AreSettled, words_for};

use crate::joining::Joining;
use crate::marked::or_minus_marked_words;
use crate::words::{
    clear_words, copy_of_words, flip_words, join_words, minus_then_or_words, or_minus_words,
    or_then_minus_words, or_words, set_word_bit, word_bit,
};
use crate::{Memory, RowView};
use smallvec::SmallVec;
use std::alloc::Global;
use std::marker::Model;

/// A row of truth values. Contracts see it as the list of these.
///
/// It is kept in words of 64 bits, whose bits past the last are not set.
#[derive(Drop)]
pub struct Row {
    bits: usize,
    words: SmallVec<u64, 2>,
}

impl Model for Row {
    ghost use Rattle.std.specs.Prelude.{List, Bool};
    ghost use Rattle.bit_rows.specs.Words.{bits_of, FitsWords};

    ghost Value = { List Bool };

    ghost view = { λ row. bits_of row.bits row.words.items };

    ghost invariant = { λ row. FitsWords row.bits row.words.items };
}

impl Row {
    /// A row of so many bits, all false. It fails only with `Memory`.
    pub fn new(alloc: Global, bits: usize) -> Result<Row, Memory>
        ensures { IfOk result (λ row. row ≡ replicate bits false) }
    {
        let count = bits.div_ceil(64);
        Ok(Row {
            bits,
            words: SmallVec::from_elem(alloc, 0u64, count)?,
        })
    }

    /// A row of no bit. It does not allocate.
    #[inline(always)]
    pub fn empty(alloc: Global) -> Row
        ensures { result ≡ [] }
    {
        Row {
            bits: 0,
            words: SmallVec::new(alloc),
        }
    }

    /// A copy of a row. It fails only with `Memory`.
    #[inline(always)]
    pub fn of(alloc: Global, row: &RowView<'_>) -> Result<Row, Memory>
        ensures { IfOk result (λ made. made ≡ row.now) }
    {
        Ok(Row {
            bits: row.bits,
            words: copy_of_words(alloc, row.words)?,
        })
    }

    /// The row, to read it. It does not allocate.
    pub fn view(&self) -> RowView<'_>
        ensures { result ≡ self.now }
    {
        RowView {
            bits: self.bits,
            words: self.words.as_slice(),
        }
    }

    /// The bit of a number, counted from 0. It does not allocate.
    pub fn get(&self, bit: usize) -> bool
        requires { bit < length self.now }
        ensures { result ≡ slice_index_or self.now bit false }
    {
        word_bit(self.words.as_slice(), bit)
    }

    /// Sets or clears the bit of a number, counted from 0. It does not allocate.
    pub fn set(&mut self, bit: usize, value: bool)
        requires { bit < length self.old }
        ensures { self.new ≡ slice_set self.old bit value }
    {
        set_word_bit(self.words.as_mut_slice(), bit, value);
    }

    /// Each bit becomes false. It does not allocate.
    pub fn clear(&mut self)
        ensures { self.new ≡ replicate (length self.old) false }
    {
        clear_words(self.words.as_mut_slice());
    }

    /// Each bit becomes true that is true in `other`, which has as many bits. It answers whether one changed, and does
    /// not allocate.
    pub fn or_from(&mut self, other: &RowView<'_>) -> bool
        requires { length self.old ≡ length other.now }
        ensures or { self.new ≡ or_bits self.old other.now }
        ensures len { length self.new ≡ length self.old }
        ensures unchanged { (result ≡ false) ↔ (self.new ≡ self.old) }
    {
        or_words(self.words.as_mut_slice(), other.words)
    }

    /// Each bit becomes true that is true in `other` and false in `less`, in one pass; all three have equally many
    /// bits. It answers whether one changed, and does not allocate.
    pub fn or_minus_from(&mut self, other: &RowView<'_>, less: &RowView<'_>) -> bool
        requires other { length self.old ≡ length other.now }
        requires less { length self.old ≡ length less.now }
        ensures or_minus { self.new ≡ or_bits self.old (minus_bits other.now less.now) }
        ensures len { length self.new ≡ length self.old }
        ensures unchanged { (result ≡ false) ↔ (self.new ≡ self.old) }
    {
        or_minus_words(self.words.as_mut_slice(), other.words, less.words)
    }

    /// Becomes its disjunction with what another has and a third has not, and answers whether it changed. It looks only
    /// at the words of 64 bits that are marked, since what the others bring is there already; its own words that change
    /// are marked afterwards, with those that were. It does not allocate.
    pub fn or_minus_marked(
        &mut self,
        other: &RowView<'_>,
        less: &RowView<'_>,
        marks: &RowView<'_>,
        own_marks: &mut Row,
    ) -> bool
        requires other { length self.old ≡ length other.now }
        requires less { length self.old ≡ length less.now }
        requires marks { length marks.now ≡ words_for (length self.old) }
        requires own_marks { length own_marks.old ≡ words_for (length self.old) }
        requires settled { AreSettled marks.now other.now less.now self.old }
        ensures or_minus { self.new ≡ or_bits self.old (minus_bits other.now less.now) }
        ensures len { length self.new ≡ length self.old }
        ensures unchanged { (result ≡ false) ↔ (self.new ≡ self.old) }
        ensures marked { AreMarked own_marks.old self.old own_marks.new self.new }
        ensures marks_len { length own_marks.new ≡ length own_marks.old }
    {
        or_minus_marked_words(
            self.words.as_mut_slice(),
            other.words,
            less.words,
            marks,
            own_marks,
        )
    }

    /// Gets what another has, and then loses what a third has, in one pass. It does not allocate.
    pub fn or_then_minus(&mut self, more: &RowView<'_>, less: &RowView<'_>)
        requires more { length self.old ≡ length more.now }
        requires less { length self.old ≡ length less.now }
        ensures made { self.new ≡ minus_bits (or_bits self.old more.now) less.now }
        ensures len { length self.new ≡ length self.old }
    {
        or_then_minus_words(self.words.as_mut_slice(), more.words, less.words);
    }

    /// Loses what another has, and then gets what a third has, in one pass. It does not allocate.
    pub fn minus_then_or(&mut self, less: &RowView<'_>, more: &RowView<'_>)
        requires less { length self.old ≡ length less.now }
        requires more { length self.old ≡ length more.now }
        ensures made { self.new ≡ or_bits (minus_bits self.old less.now) more.now }
        ensures len { length self.new ≡ length self.old }
    {
        minus_then_or_words(self.words.as_mut_slice(), less.words, more.words);
    }

    /// Keeps what is not in the other. It does not allocate.
    pub fn minus_from(&mut self, other: &RowView<'_>)
        requires { length self.old ≡ length other.now }
        ensures minus { self.new ≡ minus_bits self.old other.now }
        ensures len { length self.new ≡ length self.old }
    {
        join_words(Joining::Minus, self.words.as_mut_slice(), other.words);
    }

    /// Becomes a copy of the other. It does not allocate.
    pub fn copy_from(&mut self, other: &RowView<'_>)
        requires { length self.old ≡ length other.now }
        ensures copy { self.new ≡ other.now }
        ensures len { length self.new ≡ length self.old }
    {
        self.words.as_mut_slice().copy_from_slice(other.words);
    }

    /// Each bit becomes its opposite. It does not allocate.
    pub fn flip(&mut self)
        ensures flipped { self.new ≡ not_bits self.old }
        ensures len { length self.new ≡ length self.old }
    {
        flip_words(self.bits, self.words.as_mut_slice());
    }
}
