// How many insertions, replaced uses and held edges each expression has.
ghost use Rattle.std.specs.Prelude.{◌≡◌, ℕ, ◌+◌, ◌<◌, ◌≤◌, ◌^◌, true, false, length, replicate, slice_index_or, IfOk};
ghost use Rattle.bit_rows.specs.Bits.{AreEquallyLong, row_bit};
ghost use Rattle.live_range.specs.Counts.{AreCounts, only_if};

use crate::Held;
use bit_rows::{Row, RowView, Rows};
use mir_base::{Items, Memory};
use motion_rewrite::Placement;
use std::alloc::Global;

/// For each expression of a table, in its order, how often a placement of it inserts, replaces and holds.
#[derive(Drop)]
pub struct RangeCounts {
    /// Before how many nodes it is inserted.
    pub inserted: Items<usize>,
    /// How many of its uses are replaced.
    pub replaced: Items<usize>,
    /// On how many edges its temporary is held.
    pub held: Items<usize>,
}

/// How many nodes have an insertion of each expression, how many of its uses are replaced, and on how many edges its
/// temporary is held; the rows have a bit for each of so many expressions. It fails only with `Memory`.
pub fn count_ranges(
    alloc: Global,
    expressions: usize,
    placement: &Placement,
    held: &Held,
) -> Result<RangeCounts, Memory>
    requires insert { AreEquallyLong expressions placement.now.insert }
    requires replace { AreEquallyLong expressions placement.now.replace }
    requires edges { AreEquallyLong expressions held.now.edges }
    ensures inserted { IfOk result (λ made.
        AreCounts expressions placement.now.insert made.inserted) }
    ensures replaced { IfOk result (λ made.
        AreCounts expressions placement.now.replace made.replaced) }
    ensures held { IfOk result (λ made. AreCounts expressions held.now.edges made.held) }
{
    let inserted = bit_counts(alloc, expressions, &placement.insert)?;
    let replaced = bit_counts(alloc, expressions, &placement.replace)?;
    let held = bit_counts(alloc, expressions, &held.edges)?;
    Ok(RangeCounts {
        inserted,
        replaced,
        held,
    })
}

/// How many rows have each of so many bits.
fn bit_counts(alloc: Global, bits: usize, rows: &Rows) -> Result<Items<usize>, Memory>
    requires { AreEquallyLong bits rows.now }
    ensures { IfOk result (AreCounts bits rows.now) }
{
    let mut counts = vec![in alloc; 0usize; bits]?;
    let mut before = Row::new(alloc, bits)?;
    let mut newly_set = Row::new(alloc, bits)?;
    count_rows(&mut counts, &mut before, &mut newly_set, rows);
    Ok(Items::of(counts))
}

/// Counts for each bit how many of the rows have it, where the counts are 0 and no bit of `before` is set; `newly_set`
/// is room for as many bits.
fn count_rows(counts: &mut [usize], before: &mut Row, newly_set: &mut Row, rows: &Rows)
    requires long { AreEquallyLong (length counts.old) rows.now }
    requires counts { counts.old ≡ replicate (length counts.old) 0 }
    requires before { before.old ≡ replicate (length counts.old) false }
    requires newly_set { length newly_set.old ≡ length counts.old }
    ensures { AreCounts (length counts.old) rows.now counts.new }
{
    for n in 0..rows.len() {
        count_differences(counts, before, newly_set, &rows.row(n), rows.len() - n);
    }
}

/// Where a row and the one before it differ, adds how many rows are left with it to the count of each bit that it has,
/// and takes them off that of each bit that it has not. Rows are alike most often, so this looks at few bits. The row
/// stands in the place of the one before it then.
fn count_differences(
    counts: &mut [usize],
    before: &mut Row,
    newly_set: &mut Row,
    row: &RowView<'_>,
    left: usize,
)
    requires counts { length counts.old ≡ length row.now }
    requires before { length before.old ≡ length row.now }
    requires newly_set { length newly_set.old ≡ length row.now }
    requires taken { (b : ℕ) → b < length counts.old → row_bit before.old b ≡ true →
        left ≤ slice_index_or counts.old b 0 }
    requires room { (b : ℕ) → b < length counts.old → row_bit before.old b ≡ false →
        slice_index_or counts.old b 0 + left < 2 ^ 64 }
    ensures counts { length counts.new ≡ length counts.old }
    ensures before { before.new ≡ row.now }
    ensures newly_set { length newly_set.new ≡ length row.now }
    ensures each { (b : ℕ) → b < length counts.old →
        slice_index_or counts.new b 0 + only_if (row_bit before.old b) left
        ≡ slice_index_or counts.old b 0 + only_if (row_bit row.now b) left }
{
    newly_set.copy_from(row);
    newly_set.minus_from(&before.view());
    add_where(counts, &newly_set.view(), left);
    before.minus_from(row);
    take_where(counts, &before.view(), left);
    before.copy_from(row);
}

/// Adds so many to the count of each bit that is set in the row.
fn add_where(counts: &mut [usize], row: &RowView<'_>, more: usize)
    requires len { length counts.old ≡ length row.now }
    requires room { (b : ℕ) → b < length counts.old → row_bit row.now b ≡ true →
        slice_index_or counts.old b 0 + more < 2 ^ 64 }
    ensures len { length counts.new ≡ length counts.old }
    ensures each { (b : ℕ) → b < length counts.old →
        slice_index_or counts.new b 0
        ≡ slice_index_or counts.old b 0 + only_if (row_bit row.now b) more }
{
    let mut from = 0;
    while from < row.len() {
        match row.next_true(from) {
            Some(bit) => {
                counts[bit] += more;
                from = bit + 1;
            }
            None => return,
        }
    }
}

/// Takes so many off the count of each bit that is set in the row.
fn take_where(counts: &mut [usize], row: &RowView<'_>, less: usize)
    requires len { length counts.old ≡ length row.now }
    requires enough { (b : ℕ) → b < length counts.old → row_bit row.now b ≡ true →
        less ≤ slice_index_or counts.old b 0 }
    ensures len { length counts.new ≡ length counts.old }
    ensures each { (b : ℕ) → b < length counts.old →
        slice_index_or counts.new b 0 + only_if (row_bit row.now b) less
        ≡ slice_index_or counts.old b 0 }
{
    let mut from = 0;
    while from < row.len() {
        match row.next_true(from) {
            Some(bit) => {
                counts[bit] -= less;
                from = bit + 1;
            }
            None => return,
        }
    }
}
