// Rows one after the other in one list of words, so many to a row. Each clause says what becomes of the words of a row.
ghost use Rattle.std.specs.Prelude.{◌≡◌, ◌+◌, ◌*◌, ◌<◌, ◌≤◌, length};
ghost use Rattle.bit_rows.specs.Joinings.{word_join};
ghost use Rattle.bit_rows.specs.Words.{AreFlipped, EachOrMinus, EachOrPassed, EachWordOfRow, Rewritten, words_at, words_with_bit};

use crate::joining::Joining;
use crate::words::{flip_words, join_words, or_minus_words, set_word_bit};

/// The words of a row.
pub fn row_words(words: &[u64], stride: usize, row: usize) -> &[u64]
    requires { stride * row + stride ≤ length words.now }
    ensures { result.now ≡ words_at stride words.now row }
{
    let at = stride * row;
    &words[at..at + stride]
}

/// The words of a row become what a joining makes of them and of others.
#[tactic(auto, using(crate::proofs::Splices::rewrites, crate::proofs::Splices::rewritten_here))]
pub fn join_row(how: Joining, into: &mut [u64], stride: usize, row: usize, from: &[u64])
    requires within { stride * row + stride ≤ length into.old }
    requires from { length from.now ≡ stride }
    ensures others { Rewritten stride row into.old into.new }
    ensures each { EachWordOfRow (word_join how) stride row into.old from.now into.new }
{
    let at = stride * row;
    join_words(how, &mut into[at..at + stride], from);
}

/// The words of row `row` get the bits that are 1 in `from` and 0 in `less`; a row has `stride` words.
#[tactic(auto, using(crate::proofs::Splices::rewrites, crate::proofs::Splices::rewritten_here))]
pub fn or_minus_row(into: &mut [u64], stride: usize, row: usize, from: &[u64], less: &[u64])
    requires within { stride * row + stride ≤ length into.old }
    requires from { length from.now ≡ stride }
    requires less { length less.now ≡ stride }
    ensures others { Rewritten stride row into.old into.new }
    ensures each { EachOrMinus stride (words_at stride into.old row) from.now less.now
        (words_at stride into.new row) }
{
    let at = stride * row;
    let _changed = or_minus_words(&mut into[at..at + stride], from, less);
}

/// The words of row `row` get the bits that are 1 in row `from` and 0 in `less`; a row has `stride` words.
pub fn or_minus_rows(words: &mut [u64], stride: usize, row: usize, from: usize, less: &[u64])
    requires row { stride * row + stride ≤ length words.old }
    requires from { stride * from + stride ≤ length words.old }
    requires less { length less.now ≡ stride }
    ensures others { Rewritten stride row words.old words.new }
    ensures each { EachOrMinus stride (words_at stride words.old row)
        (words_at stride words.old from) less.now (words_at stride words.new row) }
{
    let to = stride * row;
    let at = stride * from;
    for i in 0..stride {
        words[to + i] = words[to + i] | (words[at + i] & !less[i]);
    }
}

/// The words of a row become their disjunction with what those of a second row or others have and third ones have not.
pub fn or_passed_rows(
    words: &mut [u64],
    stride: usize,
    row: usize,
    from: usize,
    more: &[u64],
    less: &[u64],
)
    requires row { stride * row + stride ≤ length words.old }
    requires from { stride * from + stride ≤ length words.old }
    requires more { length more.now ≡ stride }
    requires less { length less.now ≡ stride }
    ensures others { Rewritten stride row words.old words.new }
    ensures each { EachOrPassed stride (words_at stride words.old row)
        (words_at stride words.old from) more.now less.now (words_at stride words.new row) }
{
    let to = stride * row;
    let at = stride * from;
    for i in 0..stride {
        words[to + i] = words[to + i] | ((words[at + i] | more[i]) & !less[i]);
    }
}

/// The bits of a row below a number become their opposites, and those past it are not set.
#[tactic(auto, using(crate::proofs::Splices::rewrites, crate::proofs::Splices::rewritten_here))]
pub fn flip_row(into: &mut [u64], stride: usize, row: usize, bits: usize)
    requires within { stride * row + stride ≤ length into.old }
    requires bits { 64 * stride < bits + 64 }
    ensures others { Rewritten stride row into.old into.new }
    ensures flipped { AreFlipped bits stride (words_at stride into.old row)
        (words_at stride into.new row) }
{
    let at = stride * row;
    flip_words(bits, &mut into[at..at + stride]);
}

/// Sets or clears a bit of a row.
#[tactic(auto, using(crate::proofs::Splices::rewrites, crate::proofs::Splices::rewritten_here))]
pub fn set_row_bit(into: &mut [u64], stride: usize, row: usize, bit: usize, value: bool)
    requires within { stride * row + stride ≤ length into.old }
    requires bit { bit < 64 * stride }
    ensures others { Rewritten stride row into.old into.new }
    ensures set { words_at stride into.new row
        ≡ words_with_bit (words_at stride into.old row) bit value }
{
    let at = stride * row;
    set_word_bit(&mut into[at..at + stride], bit, value);
}
