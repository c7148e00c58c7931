// Rows of truth values, all equally long.
ghost use Rattle.std.specs.Prelude.{◌≡◌, ℕ, ◌<◌, ◌≤◌, ◌&&◌, ◌||◌, not, ◌↔◌, IsTrue, false, IfOk, OnOk, OnErr, List, [], ◌∷◌, ◌++◌, length, slice_index_or, slice_set, replicate};
ghost use Rattle.bit_rows.specs.Bits.{AreAlike, AreEquallyLong, EachBit, EachBitFlipped, EachRow, or_bits, and_bits, minus_bits, not_bits, row_of, with_row_by, zip_with};
ghost use Rattle.bit_rows.specs.Joinings.{bit_join};

use crate::joining::Joining;
use crate::packed::{
    flip_row, join_row, or_minus_row, or_minus_rows, or_passed_rows, row_words, set_row_bit,
};
use crate::words::{join_words, push_words, push_zeros, words_without};
use crate::{Memory, RowView};
use std::alloc::{AllocError, Global};
use std::marker::Model;

/// Rows of truth values, all equally long. Contracts see them as a list of lists.
///
/// They are kept in words of 64 bits, each row in as many as it needs, one after the other; the bits past the last of a
/// row are not set.
#[derive(Drop)]
pub struct Rows {
    rows: usize,
    bits: usize,
    stride: usize,
    words: Vec<u64>,
}

impl Model for Rows {
    ghost use Rattle.std.specs.Prelude.{List, Bool};
    ghost use Rattle.bit_rows.specs.Words.{rows_of, FitsRows};

    ghost Value = { List (List Bool) };

    ghost view = { λ rows. rows_of rows.rows rows.bits rows.stride rows.words.items };

    ghost invariant = { λ rows. FitsRows rows.rows rows.bits rows.stride rows.words.items };
}

impl Rows {
    /// So many rows of so many bits, all false. It fails only with `Memory`.
    pub fn new(alloc: Global, rows: usize, bits: usize) -> Result<Rows, Memory>
        ensures { IfOk result (λ made. made ≡ replicate rows (replicate bits false)) }
    {
        let stride = bits.div_ceil(64);
        let Some(count) = stride.checked_mul(rows) else {
            return Err(AllocError);
        };
        Ok(Rows {
            rows,
            bits,
            stride,
            words: vec![in alloc; 0u64; count]?,
        })
    }

    /// An empty set of rows of `bits` bits, with room for `rows` of them. It fails only with `Memory`.
    pub fn with_room(alloc: Global, rows: usize, bits: usize) -> Result<Rows, Memory>
        ensures { IfOk result (λ made. made ≡ []) }
    {
        let stride = bits.div_ceil(64);
        let Some(count) = stride.checked_mul(rows) else {
            return Err(AllocError);
        };
        Ok(Rows {
            rows: 0,
            bits,
            stride,
            words: Vec::with_capacity(alloc, count)?,
        })
    }

    /// Puts a copy of a row at the end, as long as those that stand. It fails only with `Memory`, and the rows are then
    /// as they were.
    #[inline(always)]
    pub fn push(&mut self, row: &RowView<'_>) -> Result<(), Memory>
        requires { AreEquallyLong (length row.now) self.old }
        ensures ok { OnOk result (self.new ≡ self.old ++ row.now ∷ []) }
        ensures err { OnErr result (self.new ≡ self.old) }
    {
        let Some(rows) = self.rows.checked_add(1) else {
            return Err(AllocError);
        };
        push_words(&mut self.words, row.words)?;
        self.rows = rows;
        self.bits = row.bits;
        self.stride = row.words.len();
        Ok(())
    }

    /// Puts a row of so many bits, all false, at the end; those that stand are as long. It fails only with `Memory`,
    /// and the rows are then as they were.
    #[inline(always)]
    pub fn push_false(&mut self, bits: usize) -> Result<(), Memory>
        requires { AreEquallyLong bits self.old }
        ensures ok { OnOk result (self.new ≡ self.old ++ replicate bits false ∷ []) }
        ensures err { OnErr result (self.new ≡ self.old) }
    {
        let stride = bits.div_ceil(64);
        let Some(rows) = self.rows.checked_add(1) else {
            return Err(AllocError);
        };
        push_zeros(&mut self.words, stride)?;
        self.rows = rows;
        self.bits = bits;
        self.stride = stride;
        Ok(())
    }

    /// How many rows there are. It does not allocate.
    pub fn len(&self) -> usize
        ensures { result ≡ length self.now }
    {
        self.rows
    }

    /// How many bits each row has; where there is no row, any number. It does not allocate.
    pub fn bits(&self) -> usize
        ensures { AreEquallyLong result self.now }
    {
        self.bits
    }

    /// The row of a number, counted from 0. It does not allocate.
    pub fn row(&self, row: usize) -> RowView<'_>
        requires { row < length self.now }
        ensures { result ≡ row_of self.now row }
    {
        RowView {
            bits: self.bits,
            words: row_words(&self.words, self.stride, row),
        }
    }

    /// One bit. It does not allocate.
    pub fn get(&self, row: usize, bit: usize) -> bool
        requires row { row < length self.now }
        requires bit { bit < length (row_of self.now row) }
        ensures { result ≡ slice_index_or (row_of self.now row) bit false }
    {
        self.row(row).get(bit)
    }

    /// Sets or clears one bit. It does not allocate.
    pub fn set(&mut self, row: usize, bit: usize, value: bool)
        requires row { row < length self.old }
        requires bit { bit < length (row_of self.old row) }
        ensures { self.new ≡ slice_set self.old row (slice_set (row_of self.old row) bit value) }
    {
        set_row_bit(&mut self.words, self.stride, row, bit, value);
    }

    /// In row number `row` each bit becomes true that is true in `from`, which has as many bits. It does not allocate.
    pub fn or_from(&mut self, row: usize, from: &RowView<'_>)
        requires row { row < length self.old }
        requires equally_long { length (row_of self.old row) ≡ length from.now }
        ensures { self.new ≡ slice_set self.old row (or_bits (row_of self.old row) from.now) }
    {
        self.join_from(row, from, Joining::Or);
    }

    /// In row number `row` each bit becomes false that is true in `from`, which has as many bits. It does not allocate.
    pub fn minus_from(&mut self, row: usize, from: &RowView<'_>)
        requires row { row < length self.old }
        requires equally_long { length (row_of self.old row) ≡ length from.now }
        ensures { self.new ≡ slice_set self.old row (minus_bits (row_of self.old row) from.now) }
    {
        self.join_from(row, from, Joining::Minus);
    }

    /// In row number `row` each bit becomes false that is false in `from`, which has as many bits. It does not
    /// allocate.
    pub fn and_from(&mut self, row: usize, from: &RowView<'_>)
        requires row { row < length self.old }
        requires equally_long { length (row_of self.old row) ≡ length from.now }
        ensures { self.new ≡ slice_set self.old row (and_bits (row_of self.old row) from.now) }
    {
        self.join_from(row, from, Joining::And);
    }

    /// The row becomes its disjunction with what another has and a third has not, in one pass. It does not allocate.
    pub fn or_minus_from(&mut self, row: usize, from: &RowView<'_>, less: &RowView<'_>)
        requires row { row < length self.old }
        requires equally_long { length (row_of self.old row) ≡ length from.now }
        requires less { length (row_of self.old row) ≡ length less.now }
        ensures { self.new ≡ slice_set self.old row
            (or_bits (row_of self.old row) (minus_bits from.now less.now)) }
    {
        or_minus_row(&mut self.words, self.stride, row, from.words, less.words);
    }

    /// The row becomes its disjunction with what a second row of these has and another row has not, in one pass. It
    /// does not allocate.
    pub fn or_minus_within(&mut self, row: usize, from: usize, less: &RowView<'_>)
        requires row { row < length self.old }
        requires from { from < length self.old }
        requires less { length (row_of self.old row) ≡ length less.now }
        ensures { self.new ≡ slice_set self.old row
            (or_bits (row_of self.old row) (minus_bits (row_of self.old from) less.now)) }
    {
        or_minus_rows(&mut self.words, self.stride, row, from, less.words);
    }

    /// The row becomes its disjunction with what a second row of these or another row has and a third has not, in one
    /// pass. It does not allocate.
    pub fn or_passed_within(
        &mut self,
        row: usize,
        from: usize,
        more: &RowView<'_>,
        less: &RowView<'_>,
    )
        requires row { row < length self.old }
        requires from { from < length self.old }
        requires more { length (row_of self.old row) ≡ length more.now }
        requires less { length (row_of self.old row) ≡ length less.now }
        ensures { self.new ≡ slice_set self.old row (or_bits (row_of self.old row)
            (minus_bits (or_bits (row_of self.old from) more.now) less.now)) }
    {
        or_passed_rows(
            &mut self.words,
            self.stride,
            row,
            from,
            more.words,
            less.words,
        );
    }

    /// In row number `row` each bit becomes true that is true in row number `from` of `other`. The two rows have
    /// equally many bits. It does not allocate.
    pub fn or_into(&mut self, row: usize, other: &Rows, from: usize)
        requires row { row < length self.old }
        requires from { from < length other.now }
        requires equally_long { length (row_of self.old row) ≡ length (row_of other.now from) }
        ensures { self.new ≡ with_row_by or_bits self.old row other.now from }
    {
        self.or_from(row, &other.row(from));
    }

    /// In row number `row` each bit becomes false that is false in row number `from` of `other`. The two rows have
    /// equally many bits. It does not allocate.
    pub fn and_into(&mut self, row: usize, other: &Rows, from: usize)
        requires row { row < length self.old }
        requires from { from < length other.now }
        requires equally_long { length (row_of self.old row) ≡ length (row_of other.now from) }
        ensures { self.new ≡ with_row_by and_bits self.old row other.now from }
    {
        self.and_from(row, &other.row(from));
    }

    /// In row number `row` each bit becomes false that is true in row number `from` of `other`. The two rows have
    /// equally many bits. It does not allocate.
    pub fn minus_into(&mut self, row: usize, other: &Rows, from: usize)
        requires row { row < length self.old }
        requires from { from < length other.now }
        requires equally_long { length (row_of self.old row) ≡ length (row_of other.now from) }
        ensures { self.new ≡ with_row_by minus_bits self.old row other.now from }
    {
        self.minus_from(row, &other.row(from));
    }

    /// Whether row number `row` has the same bits as row number `from` of `other`, which has as many. It does not
    /// allocate.
    pub fn row_eq(&self, row: usize, other: &Rows, from: usize) -> bool
        requires row { row < length self.now }
        requires from { from < length other.now }
        requires equally_long { length (row_of self.now row) ≡ length (row_of other.now from) }
        ensures { IsTrue result ↔ (row_of self.now row ≡ row_of other.now from) }
    {
        self.row(row).is_same(&other.row(from))
    }

    /// Each bit of the row becomes its opposite. It does not allocate.
    pub fn flip(&mut self, row: usize)
        requires { row < length self.old }
        ensures { self.new ≡ slice_set self.old row (not_bits (row_of self.old row)) }
    {
        flip_row(&mut self.words, self.stride, row, self.bits);
    }

    /// A copy of the rows. It fails only with `Memory`.
    pub fn copied(&self, alloc: Global) -> Result<Rows, Memory>
        ensures { IfOk result (λ made. made ≡ self.now) }
    {
        Ok(Rows {
            rows: self.rows,
            bits: self.bits,
            stride: self.stride,
            words: Vec::from_slice(alloc, &self.words)?,
        })
    }

    /// Rows that have what these have and those of the other have not. It fails only with `Memory`.
    pub fn without(&self, alloc: Global, other: &Rows) -> Result<Rows, Memory>
        requires { AreAlike self.now other.now }
        ensures alike { IfOk result (AreAlike self.now) }
        ensures rows { IfOk result (EachRow minus_bits self.now other.now) }
        ensures bits { IfOk result (EachBit (λ x y. x && not y) self.now other.now) }
    {
        Ok(Rows {
            rows: self.rows,
            bits: self.bits,
            stride: self.stride,
            words: words_without(alloc, &self.words, &other.words)?,
        })
    }

    /// Each row becomes its disjunction with that of the other. It does not allocate.
    pub fn or_rows(&mut self, other: &Rows)
        requires { AreAlike self.old other.now }
        ensures alike { AreAlike self.old self.new }
        ensures rows { EachRow or_bits self.old other.now self.new }
        ensures bits { EachBit (λ x y. x || y) self.old other.now self.new }
    {
        self.join_rows(other, Joining::Or);
    }

    /// Each row becomes its conjunction with that of the other. It does not allocate.
    pub fn and_rows(&mut self, other: &Rows)
        requires { AreAlike self.old other.now }
        ensures alike { AreAlike self.old self.new }
        ensures rows { EachRow and_bits self.old other.now self.new }
        ensures bits { EachBit (λ x y. x && y) self.old other.now self.new }
    {
        self.join_rows(other, Joining::And);
    }

    /// Each row keeps what is not in that of the other. It does not allocate.
    pub fn minus_rows(&mut self, other: &Rows)
        requires { AreAlike self.old other.now }
        ensures alike { AreAlike self.old self.new }
        ensures rows { EachRow minus_bits self.old other.now self.new }
        ensures bits { EachBit (λ x y. x && not y) self.old other.now self.new }
    {
        self.join_rows(other, Joining::Minus);
    }

    /// Each bit of the rows from this number on becomes its opposite. It does not allocate.
    pub fn flip_rows(&mut self, from: usize)
        ensures alike { AreAlike self.old self.new }
        ensures before { (n : ℕ) → n < from → row_of self.new n ≡ row_of self.old n }
        ensures rows { (n : ℕ) → from ≤ n → row_of self.new n ≡ not_bits (row_of self.old n) }
        ensures bits { EachBitFlipped from self.old self.new }
    {
        for row in from..self.len() {
            self.flip(row);
        }
    }

    /// The row becomes what a joining makes of it and of another.
    fn join_from(&mut self, row: usize, from: &RowView<'_>, how: Joining)
        requires row { row < length self.old }
        requires equally_long { length (row_of self.old row) ≡ length from.now }
        ensures { self.new
            ≡ slice_set self.old row (zip_with (bit_join how) (row_of self.old row) from.now) }
    {
        join_row(how, &mut self.words, self.stride, row, from.words);
    }

    /// Each row becomes what a joining makes of it and of that of the other.
    fn join_rows(&mut self, other: &Rows, how: Joining)
        requires { AreAlike self.old other.now }
        ensures alike { AreAlike self.old self.new }
        ensures rows { EachRow (zip_with (bit_join how)) self.old other.now self.new }
        ensures bits { EachBit (bit_join how) self.old other.now self.new }
    {
        join_words(how, &mut self.words, &other.words);
    }
}
