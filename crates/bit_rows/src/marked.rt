// The pass over the words of a row that are marked.
ghost use Rattle.std.specs.Prelude.{◌≡◌, ◌<◌, ◌↔◌, false, bit_or, length, slice_index, slice_set};
ghost use Rattle.bit_rows.specs.Marks.{AreMarkedWords, AreSettledWords};
ghost use Rattle.bit_rows.specs.Words.{EachOrMinus, minus_word};

use crate::{Row, RowView};

/// Each word becomes its disjunction with what another has and a third has not, and is marked if it changed. It answers
/// whether one did. Only the words that are marked for it are looked at: the others bring nothing.
pub fn or_minus_marked_words(
    into: &mut [u64],
    from: &[u64],
    less: &[u64],
    marks: &RowView<'_>,
    into_marks: &mut Row,
) -> bool
    requires from { length into.old ≡ length from.now }
    requires less { length into.old ≡ length less.now }
    requires marks { length marks.now ≡ length into.old }
    requires into_marks { length into_marks.old ≡ length into.old }
    requires settled { AreSettledWords marks.now from.now less.now into.old }
    ensures len { length into.new ≡ length into.old }
    ensures or_minus { EachOrMinus (length into.old) into.old from.now less.now into.new }
    ensures unchanged { (result ≡ false) ↔ (into.new ≡ into.old) }
    ensures marked { AreMarkedWords into_marks.old into.old into_marks.new into.new }
    ensures marks_len { length into_marks.new ≡ length into_marks.old }
{
    let mut changed = false;
    let mut at = 0;
    while let Some(word) = marks.next_true(at) {
        if or_minus_word(into, from, less, word) {
            into_marks.set(word, true);
            changed = true;
        }
        at = word + 1;
    }
    changed
}

/// One word becomes its disjunction with what another has and a third has not. It answers whether it changed.
fn or_minus_word(into: &mut [u64], from: &[u64], less: &[u64], at: usize) -> bool
    requires into { at < length into.old }
    requires from { at < length from.now }
    requires less { at < length less.now }
    ensures made { into.new
        ≡ slice_set into.old at (bit_or (slice_index into.old at)
        (minus_word (slice_index from.now at) (slice_index less.now at))) }
    ensures unchanged { (result ≡ false) ↔ (slice_index into.new at ≡ slice_index into.old at) }
{
    let word = into[at] | (from[at] & !less[at]);
    let changed = word != into[at];
    into[at] = word;
    changed
}
