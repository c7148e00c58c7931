// The passes over words. Each clause says what becomes of one word, or of one bit.
ghost use Rattle.std.specs.Prelude.{◌≡◌, ℕ, ◌+◌, ◌*◌, ◌^◌, ◌<◌, ◌≤◌, ◌↔◌, ◌++◌, false, IfNone, IfOk, IfSome, OnErr, OnOk, length, replicate, slice_index_or, bit_and, bit_or};
ghost use Rattle.std.specs.Int.{bit_at};
ghost use Rattle.bit_rows.specs.Bits.{IsTrueFrom, NoneTrue};
ghost use Rattle.bit_rows.specs.Joinings.{word_join};
ghost use Rattle.bit_rows.specs.Words.{AddsWithout, AreFlipped, EachByTwo, EachOrMinus, EachWord, bit_of, minus_word, used_bits, words_with_bit};

use crate::Memory;
use crate::joining::Joining;
use smallvec::SmallVec;
use std::alloc::{AllocError, Global};

/// Each word of `into` gets the bits that are 1 in the same word of `from`. It answers whether one changed.
pub fn or_words(into: &mut [u64], from: &[u64]) -> bool
    requires { length into.old ≡ length from.now }
    ensures len { length into.new ≡ length into.old }
    ensures or { EachWord bit_or (length into.old) into.old from.now into.new }
    ensures unchanged { (result ≡ false) ↔ (into.new ≡ into.old) }
{
    let mut changed = false;
    for i in 0..into.len() {
        let word = into[i] | from[i];
        changed = changed | (word != into[i]);
        into[i] = word;
    }
    changed
}

/// Each word of `into` gets the bits that are 1 in `from` and 0 in `less`. It answers whether one changed.
pub fn or_minus_words(into: &mut [u64], from: &[u64], less: &[u64]) -> bool
    requires from { length into.old ≡ length from.now }
    requires less { length into.old ≡ length less.now }
    ensures len { length into.new ≡ length into.old }
    ensures or_minus { EachOrMinus (length into.old) into.old from.now less.now into.new }
    ensures unchanged { (result ≡ false) ↔ (into.new ≡ into.old) }
{
    let mut changed = false;
    for i in 0..into.len() {
        let word = into[i] | (from[i] & !less[i]);
        changed = changed | (word != into[i]);
        into[i] = word;
    }
    changed
}

/// Each word of `into` gets the bits of `more`, and then loses those of `less`.
pub fn or_then_minus_words(into: &mut [u64], more: &[u64], less: &[u64])
    requires more { length into.old ≡ length more.now }
    requires less { length into.old ≡ length less.now }
    ensures len { length into.new ≡ length into.old }
    ensures each { EachByTwo bit_or minus_word (length into.old) into.old more.now less.now
        into.new }
{
    for i in 0..into.len() {
        into[i] = (into[i] | more[i]) & !less[i];
    }
}

/// Each word of `into` loses the bits of `less`, and then gets those of `more`.
pub fn minus_then_or_words(into: &mut [u64], less: &[u64], more: &[u64])
    requires less { length into.old ≡ length less.now }
    requires more { length into.old ≡ length more.now }
    ensures len { length into.new ≡ length into.old }
    ensures each { EachByTwo minus_word bit_or (length into.old) into.old less.now more.now
        into.new }
{
    for i in 0..into.len() {
        into[i] = (into[i] & !less[i]) | more[i];
    }
}

/// Each word becomes 0.
pub fn clear_words(words: &mut [u64])
    ensures { words.new ≡ replicate (length words.old) 0 }
{
    for i in 0..words.len() {
        words[i] = 0;
    }
}

/// Each word becomes its conjunction with the other's.
fn and_words(into: &mut [u64], from: &[u64])
    requires { length into.old ≡ length from.now }
    ensures len { length into.new ≡ length into.old }
    ensures and { EachWord bit_and (length into.old) into.old from.now into.new }
{
    for i in 0..into.len() {
        into[i] = into[i] & from[i];
    }
}

/// Each word loses the bits of the other's.
fn minus_words(into: &mut [u64], from: &[u64])
    requires { length into.old ≡ length from.now }
    ensures len { length into.new ≡ length into.old }
    ensures minus { EachWord minus_word (length into.old) into.old from.now into.new }
{
    for i in 0..into.len() {
        into[i] = into[i] & !from[i];
    }
}

/// Each word becomes what a joining makes of it and the other's.
pub fn join_words(how: Joining, into: &mut [u64], from: &[u64])
    requires { length into.old ≡ length from.now }
    ensures len { length into.new ≡ length into.old }
    ensures each { EachWord (word_join how) (length into.old) into.old from.now into.new }
{
    match how {
        Joining::Or => {
            let _changed = or_words(into, from);
        }
        Joining::And => and_words(into, from),
        Joining::Minus => minus_words(into, from),
    }
}

/// Puts words at the end. One word, which is what most rows have, goes there without a copy of memory.
#[inline(always)]
pub fn push_words(made: &mut Vec<u64>, words: &[u64]) -> Result<(), Memory>
    ensures ok { OnOk result (made.new.items ≡ made.old.items ++ words.now) }
    ensures err { OnErr result (made.new.items ≡ made.old.items) }
{
    if words.len() == 1 && made.len() < made.capacity() {
        made.push_reserved(words[0]);
    } else {
        made.extend_from_slice(words)?;
    }
    Ok(())
}

/// Puts so many words that are 0 at the end; one goes there without a call.
#[inline(always)]
pub fn push_zeros(made: &mut Vec<u64>, count: usize) -> Result<(), Memory>
    ensures ok { OnOk result (made.new.items ≡ made.old.items ++ replicate count 0) }
    ensures err { OnErr result (made.new.items ≡ made.old.items) }
{
    if count == 1 && made.len() < made.capacity() {
        made.push_reserved(0);
        Ok(())
    } else {
        push_more_zeros(made, count)
    }
}

/// Puts so many words that are 0 at the end, where their number can be counted.
#[inline(never)]
fn push_more_zeros(made: &mut Vec<u64>, count: usize) -> Result<(), Memory>
    ensures ok { OnOk result (made.new.items ≡ made.old.items ++ replicate count 0) }
    ensures err { OnErr result (made.new.items ≡ made.old.items) }
{
    let Some(len) = made.len().checked_add(count) else {
        return Err(AllocError);
    };
    made.resize(len, 0)?;
    Ok(())
}

/// A copy of words. One word, which is what most rows have, is put down without a copy of memory.
#[inline(always)]
pub fn copy_of_words(alloc: Global, words: &[u64]) -> Result<SmallVec<u64, 2>, Memory>
    ensures { IfOk result (λ made. made.items ≡ words.now) }
{
    if words.len() == 1 {
        let mut made = SmallVec::new(alloc);
        made.push_reserved(words[0]);
        Ok(made)
    } else {
        copy_of_more_words(alloc, words)
    }
}

/// A copy of words, however many.
#[inline(never)]
fn copy_of_more_words(alloc: Global, words: &[u64]) -> Result<SmallVec<u64, 2>, Memory>
    ensures { IfOk result (λ made. made.items ≡ words.now) }
{
    let made = SmallVec::from_slice(alloc, words)?;
    Ok(made)
}

/// Puts words without the bits of others at the end, as many as there are.
fn push_without(made: &mut Vec<u64>, words: &[u64], less: &[u64]) -> Result<(), Memory>
    requires { length words.now ≡ length less.now }
    ensures { OnOk result (AddsWithout made.old.items words.now less.now made.new.items) }
{
    let at = made.len();
    made.extend_from_slice(words)?;
    minus_words(&mut made[at..], less);
    Ok(())
}

/// How many words are put into a list at once, so that they are at hand when they are changed.
const AT_ONCE: usize = 128;

/// The words of the first without the bits of those of the second.
pub fn words_without(alloc: Global, words: &[u64], less: &[u64]) -> Result<Vec<u64>, Memory>
    requires { length words.now ≡ length less.now }
    ensures len { IfOk result (λ made. length made.items ≡ length words.now) }
    ensures minus { IfOk result
        (λ made. EachWord minus_word (length words.now) words.now less.now made.items) }
{
    let count = words.len();
    let mut made = Vec::with_capacity(alloc, count)?;
    let mut at = 0;
    while at < count {
        let end = at + (count - at).min(AT_ONCE);
        push_without(&mut made, &words[at..end], &less[at..end])?;
        at = end;
    }
    Ok(made)
}

/// The bits of a word that stand below a number of bits, all set.
fn used(bits: usize, word: usize) -> u64
    requires { 64 * word < bits }
    ensures { result ≡ used_bits bits word }
{
    let left = (bits - 64 * word).min(64);
    u64::MAX >> (64 - left)
}

/// The bits below a number become their opposites, and those past it are not set.
pub fn flip_words(bits: usize, words: &mut [u64])
    requires { 64 * length words.old < bits + 64 }
    ensures len { length words.new ≡ length words.old }
    ensures flipped { AreFlipped bits (length words.old) words.old words.new }
{
    let whole = (bits / 64).min(words.len());
    for i in 0..whole {
        words[i] = !words[i];
    }
    if whole < words.len() {
        words[whole] = !words[whole] & used(bits, whole);
    }
}

/// The word of a number.
pub fn word_at(words: &[u64], number: usize) -> u64
    requires { number < length words.now }
    ensures { result ≡ slice_index_or words.now number 0 }
{
    words[number]
}

/// Bit number `bit` of the words, 64 to a word, from the lowest of the first word on.
pub fn word_bit(words: &[u64], bit: usize) -> bool
    requires { bit < 64 * length words.now }
    ensures { result ≡ bit_of words.now bit }
{
    (words[bit / 64] >> (bit % 64)) & 1 == 1
}

/// The lowest set bit of a word from number `from` on.
fn next_in_word(word: u64, from: usize) -> Option<usize>
    requires { from < 64 }
    ensures found { IfSome result (λ bit. (from ≤ bit) × (bit < 64) × (bit_at word bit ≡ 1)) }
    ensures first { IfSome result (λ bit. (i : ℕ) → from ≤ i → i < bit → bit_at word i ≡ 0) }
    ensures none { IfNone result ((i : ℕ) → from ≤ i → i < 64 → bit_at word i ≡ 0) }
{
    let rest = word >> from;
    if rest == 0 {
        None
    } else {
        Some(from + rest.trailing_zeros() as usize)
    }
}

/// The number of the first bit that is 1 among those from number `from` on, counted through all words, 64 to a word;
/// `None` where there is none. Words that are 0 are passed over whole.
pub fn next_set(words: &[u64], from: usize) -> Option<usize>
    requires { 64 * length words.now ≤ 2 ^ 64 }
    ensures found { IfSome result (IsTrueFrom (bit_of words.now) (64 * length words.now) from) }
    ensures first { IfSome result (NoneTrue (bit_of words.now) from) }
    ensures none { IfNone result (NoneTrue (bit_of words.now) from (64 * length words.now)) }
{
    let mut start = from % 64;
    for i in from / 64..words.len() {
        if let Some(bit) = next_in_word(words[i], start) {
            return Some(64 * i + bit);
        }
        start = 0;
    }
    None
}

/// Sets or clears a bit of the words.
pub fn set_word_bit(words: &mut [u64], bit: usize, value: bool)
    requires { bit < 64 * length words.old }
    ensures { words.new ≡ words_with_bit words.old bit value }
{
    let mask = 1u64 << (bit % 64);
    let at = bit / 64;
    if value {
        words[at] = words[at] | mask;
    } else {
        words[at] = words[at] & !mask;
    }
}
