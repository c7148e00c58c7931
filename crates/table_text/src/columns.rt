// Bit rows that are transposed into columns of words, so that one bit of all rows can be written at once. Each function
// that makes columns fails only with `Memory`.
ghost use Rattle.std.specs.Prelude.{◌≡◌, ℕ, ◌+◌, ◌*◌, ◌%◌, ◌<◌, ◌≤◌, IfOk, OnOk, length, slice_index, slice_range};
ghost use Rattle.bit_rows.specs.Bits.{row_bit, row_of};
ghost use Rattle.table_text.specs.Columns.{AddsColumn, AreColumns, IsWordOf, word_bit};
ghost use Rattle.table_text.specs.Rows.{HaveBit};

use bit_rows::Rows;
use mir_base::Memory;
use std::alloc::{AllocError, Global};
use std::marker::Model;

/// Rows of bits, all equally long, transposed so that one bit of all of them is written after the other. Contracts see
/// them as the list of the rows of which they were made.
///
/// They are kept in words of 16 bits, column after column: bits `16 * k` to `16 * k + 15` of row `n` stand in the word
/// at `k * rows + n`. With narrower words one machine instruction writes more of them, but there are more to transpose.
#[derive(Drop)]
pub struct Columns {
    rows: usize,
    bits: usize,
    words: Vec<u16>,
}

impl Model for Columns {
    ghost use Rattle.std.specs.Prelude.{List, Bool};
    ghost use Rattle.table_text.specs.Columns.{lines_of, FitsColumns};

    ghost Value = { List (List Bool) };

    ghost view = { λ columns. lines_of columns.rows columns.bits columns.words.items };

    ghost invariant = { λ columns. FitsColumns columns.rows columns.bits columns.words.items };
}

impl Columns {
    /// The rows in columns. It fails only with `Memory`. It is never inlined, so that a profile shows its own cost.
    #[inline(never)]
    pub fn of(alloc: Global, rows: &Rows) -> Result<Columns, Memory>
        ensures { IfOk result (λ made. made ≡ rows.now) }
    {
        let bits = rows.bits();
        let words = all_columns(alloc, rows, bits.div_ceil(16))?;
        Ok(Columns {
            rows: rows.len(),
            bits,
            words,
        })
    }

    /// For each row the word that holds the bit of this number, as bit `bit` % 16, counted from the lowest. It does not
    /// allocate.
    pub(crate) fn column(&self, bit: usize) -> &[u16]
        requires { HaveBit self.now bit }
        ensures len { length result.now ≡ length self.now }
        ensures bits { (n : ℕ) → n < length self.now →
            row_bit (row_of self.now n) bit ≡ word_bit (slice_index result.now n) (bit % 16) }
    {
        column_words(&self.words, self.rows, bit / 16)
    }
}

/// The words of the column of this number, where a column has `rows` words.
fn column_words(words: &[u16], rows: usize, number: usize) -> &[u16]
    requires { number * rows + rows ≤ length words.now }
    ensures { result.now ≡ slice_range words.now (number * rows) (number * rows + rows) }
{
    let at = number * rows;
    &words[at..at + rows]
}

/// The first `count` columns of the rows, one after the other.
fn all_columns(alloc: Global, rows: &Rows, count: usize) -> Result<Vec<u16>, Memory>
    requires { (n : ℕ) → n < length rows.now → 16 * count < length (row_of rows.now n) + 16 }
    ensures { IfOk result (λ made. AreColumns rows.now count made.items) }
{
    let Some(len) = count.checked_mul(rows.len()) else {
        return Err(AllocError);
    };
    let mut words = Vec::with_capacity(alloc, len)?;
    for number in 0..count {
        push_column(&mut words, rows, number)?;
    }
    Ok(words)
}

/// Appends the column of this number.
fn push_column(words: &mut Vec<u16>, rows: &Rows, number: usize) -> Result<(), Memory>
    requires { (n : ℕ) → n < length rows.now → 16 * number < length (row_of rows.now n) }
    ensures { OnOk result (AddsColumn rows.now number (length rows.now)
        words.old.items words.new.items) }
{
    for row in 0..rows.len() {
        words.push(row_word(rows, row, number))?;
    }
    Ok(())
}

/// The word of a row in the column of this number: the bits from `16 * number` on.
#[inline(always)]
fn row_word(rows: &Rows, row: usize, number: usize) -> u16
    requires row { row < length rows.now }
    requires number { 16 * number < length (row_of rows.now row) }
    ensures { IsWordOf rows.now number row result }
{
    word_part(rows.row(row).word(number / 4), number % 4)
}

/// A quarter of a 64-bit word, by number; that of number 0 has the lowest 16 bits.
#[inline(always)]
fn word_part(word: u64, part: usize) -> u16
    requires { part < 4 }
    ensures { (i : ℕ) → i < 16 → word_bit result i ≡ word_bit word (16 * part + i) }
{
    ((word >> (16 * part)) & 0xffff) as u16
}
