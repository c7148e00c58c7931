// Joins of what is known, as it is kept: by kinds and numbers.
ghost use Rattle.std.specs.Prelude.{◌≡◌, ◌↔◌, ◌<◌, ◌≤◌, ◌+◌, ◌∷◌, [], false, true, pos, length, slice_index_or, slice_set};
ghost use Rattle.cond_flow.specs.FactLists.{JoinedCode, StaysCode, decoded_each};
ghost use Rattle.cond_flow.specs.Joining.{JoinedBetween, SameItems};
ghost use Rattle.cond_flow.specs.States.{joined_each};
ghost use Rattle.cond_flow.specs.NewsShapes.{IsNotedIf};
ghost use Rattle.cond_flow.specs.Raising.{IsRaised, KeepsRaised};

use crate::Knowledge;
use crate::facts::{Coded, put_code};
use crate::news::StateNews;

/// Turns what is known into what is known where two paths meet, and answers whether that changed.
pub(crate) fn join_lists<K: Knowledge>(
    kinds: &mut [u8],
    numbers: &mut [i64],
    other_kinds: &[u8],
    other_numbers: &[i64],
) -> bool
    requires long { length numbers.old ≡ length kinds.old }
    requires other { length other_kinds.now ≡ length kinds.old }
    requires other_long { length other_numbers.now ≡ length kinds.old }
    ensures long { length kinds.new ≡ length kinds.old }
    ensures numbers_long { length numbers.new ≡ length numbers.old }
    ensures joined { decoded_each K.decoded kinds.new numbers.new
        ≡ joined_each K.rules.joined (decoded_each K.decoded kinds.old numbers.old)
        (decoded_each K.decoded other_kinds.now other_numbers.now) }
    ensures unchanged { (result ≡ false) ↔ (decoded_each K.decoded kinds.new numbers.new
        ≡ decoded_each K.decoded kinds.old numbers.old) }
{
    let mut changed = false;
    for i in 0..kinds.len() {
        changed = changed | join_at::<K>(kinds, numbers, i, other_kinds[i], &other_numbers[i]);
    }
    changed
}

/// The same, and each variable of which more may be known then is put among the news.
pub(crate) fn join_noted<K: Knowledge>(
    kinds: &mut [u8],
    numbers: &mut [i64],
    other_kinds: &[u8],
    other_numbers: &[i64],
    news: &mut StateNews,
) -> bool
    requires long { length numbers.old ≡ length kinds.old }
    requires other { length other_kinds.now ≡ length kinds.old }
    requires other_long { length other_numbers.now ≡ length kinds.old }
    ensures long { length kinds.new ≡ length kinds.old }
    ensures numbers_long { length numbers.new ≡ length numbers.old }
    ensures joined { decoded_each K.decoded kinds.new numbers.new
        ≡ joined_each K.rules.joined (decoded_each K.decoded kinds.old numbers.old)
        (decoded_each K.decoded other_kinds.now other_numbers.now) }
    ensures unchanged { (result ≡ false) ↔ (decoded_each K.decoded kinds.new numbers.new
        ≡ decoded_each K.decoded kinds.old numbers.old) }
    ensures keeps { KeepsRaised K.rules news.old (decoded_each K.decoded kinds.old numbers.old)
        news.new (decoded_each K.decoded kinds.new numbers.new) }
{
    let mut changed = false;
    let mut start = 0;
    while start < kinds.len() {
        let stop = stop_of(start, kinds.len());
        changed = changed
            | join_part::<K>(
                kinds,
                numbers,
                other_kinds,
                other_numbers,
                start,
                stop,
                news,
            );
        start = stop;
    }
    changed
}

/// So many variables are looked at together.
const PART: usize = 16;

/// The end of the part that begins at this place, where there are so many variables.
fn stop_of(start: usize, count: usize) -> usize
    requires { start < count }
    ensures later { start < result }
    ensures within { result ≤ count }
{
    if count - start < PART {
        count
    } else {
        start + PART
    }
}

/// The same for the variables from one on to another. Where their codes are the same on both sides nothing changes, and
/// to find this out for several at once takes a fraction of the steps.
fn join_part<K: Knowledge>(
    kinds: &mut [u8],
    numbers: &mut [i64],
    other_kinds: &[u8],
    other_numbers: &[i64],
    start: usize,
    stop: usize,
    news: &mut StateNews,
) -> bool
    requires long { length numbers.old ≡ length kinds.old }
    requires other { length other_kinds.now ≡ length kinds.old }
    requires other_long { length other_numbers.now ≡ length kinds.old }
    requires start { start ≤ stop }
    requires stop { stop ≤ length kinds.old }
    ensures long { length kinds.new ≡ length kinds.old }
    ensures numbers_long { length numbers.new ≡ length numbers.old }
    ensures joined { JoinedBetween K.rules.joined K.rules.top
        (decoded_each K.decoded kinds.old numbers.old)
        (decoded_each K.decoded other_kinds.now other_numbers.now)
        (decoded_each K.decoded kinds.new numbers.new) result start stop }
    ensures keeps { KeepsRaised K.rules news.old (decoded_each K.decoded kinds.old numbers.old)
        news.new (decoded_each K.decoded kinds.new numbers.new) }
{
    if are_same_kinds(kinds, other_kinds, start, stop)
        && are_same_numbers(numbers, other_numbers, start, stop)
    {
        false
    } else {
        join_each::<K>(
            kinds,
            numbers,
            other_kinds,
            other_numbers,
            start,
            stop,
            news,
        )
    }
}

/// The same, variable by variable.
fn join_each<K: Knowledge>(
    kinds: &mut [u8],
    numbers: &mut [i64],
    other_kinds: &[u8],
    other_numbers: &[i64],
    start: usize,
    stop: usize,
    news: &mut StateNews,
) -> bool
    requires long { length numbers.old ≡ length kinds.old }
    requires other { length other_kinds.now ≡ length kinds.old }
    requires other_long { length other_numbers.now ≡ length kinds.old }
    requires start { start ≤ stop }
    requires stop { stop ≤ length kinds.old }
    ensures long { length kinds.new ≡ length kinds.old }
    ensures numbers_long { length numbers.new ≡ length numbers.old }
    ensures joined { JoinedBetween K.rules.joined K.rules.top
        (decoded_each K.decoded kinds.old numbers.old)
        (decoded_each K.decoded other_kinds.now other_numbers.now)
        (decoded_each K.decoded kinds.new numbers.new) result start stop }
    ensures keeps { KeepsRaised K.rules news.old (decoded_each K.decoded kinds.old numbers.old)
        news.new (decoded_each K.decoded kinds.new numbers.new) }
{
    let mut changed = false;
    for i in start..stop {
        changed = changed
            | join_one::<K>(kinds, numbers, i, other_kinds[i], &other_numbers[i], news);
    }
    changed
}

/// Whether the same kinds stand from one place on to another.
fn are_same_kinds(kinds: &[u8], others: &[u8], start: usize, stop: usize) -> bool
    requires here { stop ≤ length kinds.now }
    requires there { stop ≤ length others.now }
    ensures { result ≡ true → SameItems 0 kinds.now others.now start stop }
{
    let mut same = true;
    for i in start..stop {
        same = same & (kinds[i] == others[i]);
    }
    same
}

/// And the same numbers.
fn are_same_numbers(numbers: &[i64], others: &[i64], start: usize, stop: usize) -> bool
    requires here { stop ≤ length numbers.now }
    requires there { stop ≤ length others.now }
    ensures { result ≡ true → SameItems (pos 0) numbers.now others.now start stop }
{
    let mut same = true;
    for i in start..stop {
        same = same & is_number(&numbers[i], &others[i]);
    }
    same
}

/// Whether two numbers are one.
fn is_number(number: &i64, other: &i64) -> bool
    ensures { result ≡ true → number.now ≡ other.now }
{
    *number == *other
}

/// Joins what is known of these variables alone, if there are such, and puts each that was raised among the news.
pub(crate) fn raise_lists<K: Knowledge>(
    kinds: &mut [u8],
    numbers: &mut [i64],
    other_kinds: &[u8],
    other_numbers: &[i64],
    raised: &[usize],
    news: &mut StateNews,
) -> bool
    requires long { length numbers.old ≡ length kinds.old }
    requires other { length other_kinds.now ≡ length kinds.old }
    requires other_long { length other_numbers.now ≡ length kinds.old }
    ensures long { length kinds.new ≡ length kinds.old }
    ensures numbers_long { length numbers.new ≡ length numbers.old }
    ensures raised { IsRaised K.below K.rules raised.now
        (decoded_each K.decoded other_kinds.now other_numbers.now)
        (decoded_each K.decoded kinds.old numbers.old)
        (decoded_each K.decoded kinds.new numbers.new) }
    ensures unchanged { (result ≡ false) ↔ (decoded_each K.decoded kinds.new numbers.new
        ≡ decoded_each K.decoded kinds.old numbers.old) }
    ensures keeps { KeepsRaised K.rules news.old (decoded_each K.decoded kinds.old numbers.old)
        news.new (decoded_each K.decoded kinds.new numbers.new) }
{
    let mut changed = false;
    for i in 0..raised.len() {
        changed = changed
            | raise_at::<K>(kinds, numbers, other_kinds, other_numbers, raised[i], news);
    }
    changed
}

/// The same of one variable, if there is one of this number.
fn raise_at<K: Knowledge>(
    kinds: &mut [u8],
    numbers: &mut [i64],
    other_kinds: &[u8],
    other_numbers: &[i64],
    x: usize,
    news: &mut StateNews,
) -> bool
    requires long { length numbers.old ≡ length kinds.old }
    requires other { length other_kinds.now ≡ length kinds.old }
    requires other_long { length other_numbers.now ≡ length kinds.old }
    ensures long { length kinds.new ≡ length kinds.old }
    ensures numbers_long { length numbers.new ≡ length numbers.old }
    ensures raised { IsRaised K.below K.rules (x ∷ [])
        (decoded_each K.decoded other_kinds.now other_numbers.now)
        (decoded_each K.decoded kinds.old numbers.old)
        (decoded_each K.decoded kinds.new numbers.new) }
    ensures unchanged { (result ≡ false) ↔ (decoded_each K.decoded kinds.new numbers.new
        ≡ decoded_each K.decoded kinds.old numbers.old) }
    ensures keeps { KeepsRaised K.rules news.old (decoded_each K.decoded kinds.old numbers.old)
        news.new (decoded_each K.decoded kinds.new numbers.new) }
{
    if x < kinds.len() {
        join_one::<K>(kinds, numbers, x, other_kinds[x], &other_numbers[x], news)
    } else {
        false
    }
}

/// Joins what is known of one variable, by its code, and puts it among the news if it was raised.
fn join_one<K: Knowledge>(
    kinds: &mut [u8],
    numbers: &mut [i64],
    i: usize,
    kind: u8,
    number: &i64,
    news: &mut StateNews,
) -> bool
    requires there { i < length kinds.old }
    requires long { length numbers.old ≡ length kinds.old }
    ensures long { length kinds.new ≡ length kinds.old }
    ensures numbers_long { length numbers.new ≡ length numbers.old }
    ensures joined { JoinedCode K.rules K.decoded kinds.old numbers.old i kind number.now
        (decoded_each K.decoded kinds.new numbers.new) }
    ensures unchanged { (result ≡ false)
        ↔ StaysCode K.rules K.decoded kinds.old numbers.old i kind number.now }
    ensures noted { IsNotedIf result i news.old news.new }
{
    let raised = join_at::<K>(kinds, numbers, i, kind, number);
    if raised {
        news.note(i);
    }
    raised
}

/// Turns what is known of one variable into what is known where two paths meet, and answers whether that changed. Where
/// the codes stand for the same it did not.
fn join_at<K: Knowledge>(
    kinds: &mut [u8],
    numbers: &mut [i64],
    i: usize,
    kind: u8,
    number: &i64,
) -> bool
    requires there { i < length kinds.old }
    requires long { length numbers.old ≡ length kinds.old }
    ensures long { length kinds.new ≡ length kinds.old }
    ensures numbers_long { length numbers.new ≡ length numbers.old }
    ensures joined { JoinedCode K.rules K.decoded kinds.old numbers.old i kind number.now
        (decoded_each K.decoded kinds.new numbers.new) }
    ensures unchanged { (result ≡ false)
        ↔ StaysCode K.rules K.decoded kinds.old numbers.old i kind number.now }
{
    if is_code::<K>(kinds[i], &numbers[i], kind, number) {
        false
    } else {
        join_other::<K>(kinds, numbers, i, kind, number)
    }
}

/// The same where the codes may differ: by the kinds alone, if these tell it.
fn join_other<K: Knowledge>(
    kinds: &mut [u8],
    numbers: &mut [i64],
    i: usize,
    kind: u8,
    number: &i64,
) -> bool
    requires there { i < length kinds.old }
    requires long { length numbers.old ≡ length kinds.old }
    ensures long { length kinds.new ≡ length kinds.old }
    ensures numbers_long { length numbers.new ≡ length numbers.old }
    ensures joined { JoinedCode K.rules K.decoded kinds.old numbers.old i kind number.now
        (decoded_each K.decoded kinds.new numbers.new) }
    ensures unchanged { (result ≡ false)
        ↔ StaysCode K.rules K.decoded kinds.old numbers.old i kind number.now }
{
    match K::joined_kind(kinds[i], kind) {
        Some(met) => put_kind(kinds, i, met),
        None => join_decoded::<K>(kinds, numbers, i, kind, number),
    }
}

/// The same by what the codes stand for.
fn join_decoded<K: Knowledge>(
    kinds: &mut [u8],
    numbers: &mut [i64],
    i: usize,
    kind: u8,
    number: &i64,
) -> bool
    requires there { i < length kinds.old }
    requires long { length numbers.old ≡ length kinds.old }
    ensures long { length kinds.new ≡ length kinds.old }
    ensures numbers_long { length numbers.new ≡ length numbers.old }
    ensures joined { JoinedCode K.rules K.decoded kinds.old numbers.old i kind number.now
        (decoded_each K.decoded kinds.new numbers.new) }
    ensures unchanged { (result ≡ false)
        ↔ StaysCode K.rules K.decoded kinds.old numbers.old i kind number.now }
{
    let before = K::of_code(kinds[i], &numbers[i]);
    let after = before.joined(K::of_code(kind, number));
    if after.is_same(before) {
        false
    } else {
        put_code(kinds, numbers, i, after.kind(), after.number());
        true
    }
}

/// Sets the kind of a variable, and answers whether it changed.
fn put_kind(kinds: &mut [u8], i: usize, kind: u8) -> bool
    requires { i < length kinds.old }
    ensures kinds { kinds.new ≡ slice_set kinds.old i kind }
    ensures unchanged { (result ≡ false) ↔ (kind ≡ slice_index_or kinds.old i 0) }
{
    let before = kinds[i];
    kinds[i] = kind;
    before != kind
}

/// Whether it is seen by two codes that they stand for the same. It looks at numbers only where the kinds do not tell
/// it.
fn is_code<K: Coded>(kind: u8, number: &i64, other: u8, other_number: &i64) -> bool
    ensures { result ≡ true → K.decoded kind number.now ≡ K.decoded other other_number.now }
{
    kind == other && (K::tells_all(kind) || *number == *other_number)
}
