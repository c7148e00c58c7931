// Which successors of a node are known to be down, as values of a flow.
ghost use Rattle.std.specs.Prelude.{◌≡◌, ◌↔◌, false, length, replicate, if◌then◌else◌, IfOk};
ghost use Rattle.bit_rows.specs.Bits.{or_bits};
ghost use Rattle.div_move.specs.Slots.{BelowSlots, HasBits, pairs, slots_rank};
ghost use Rattle.div_move.specs.SlotLaws.{slots_laws};

use bit_rows::{Row, RowView};
use fix_solve::{AllNews, Lattice, Room};
use mir_base::Memory;
use std::alloc::Global;
use std::marker::Model;

/// Two rows of equally many bits.
#[derive(Drop)]
pub struct RowPair {
    pub(crate) first: Row,
    pub(crate) second: Row,
}

impl Room for RowPair {
    ghost fits = { λ pair bits. HasBits pair.first pair.second bits };
}

/// Two rows of so many bits, in the first of which each is `first`, and in the second `second`.
pub(crate) fn row_pair(
    alloc: Global,
    bits: usize,
    first: bool,
    second: bool,
) -> Result<RowPair, Memory>
    ensures first { IfOk result (λ pair. pair.first ≡ replicate bits first) }
    ensures second { IfOk result (λ pair. pair.second ≡ replicate bits second) }
{
    let first = row_of(alloc, bits, first)?;
    let second = row_of(alloc, bits, second)?;
    Ok(RowPair { first, second })
}

/// A row of so many bits that are all the same.
fn row_of(alloc: Global, bits: usize, value: bool) -> Result<Row, Memory>
    ensures { IfOk result (λ row. row ≡ replicate bits value) }
{
    let mut row = Row::new(alloc, bits)?;
    if value {
        row.flip();
    }
    Ok(row)
}

/// For each expression, which of a node's two slots are known to lead to a node that is down (a run must come to the
/// division). Contracts see a pair of bits for each expression.
#[derive(Drop)]
pub struct Slots {
    pub(crate) known: RowPair,
}

impl Model for Slots {
    ghost use Rattle.std.specs.Prelude.{◌≡◌, Bool, List, length};
    ghost use Rattle.div_move.specs.Slots.{pairs};

    ghost Value = { List (Bool × Bool) };

    ghost view = { λ s. pairs s.known.first s.known.second };

    ghost invariant = { λ s. length s.known.second ≡ length s.known.first };
}

impl Slots {
    /// The rows of the first and of the second slot. It does not allocate.
    pub(crate) fn known(&self) -> &RowPair
        ensures value { pairs result.now.first result.now.second ≡ self.now }
        ensures long { length result.now.second ≡ length result.now.first }
    {
        &self.known
    }
}

impl Lattice for Slots {
    type News = AllNews;

    type Room = RowPair;

    ghost below = { BelowSlots };

    ghost size = { length };

    ghost rank = { slots_rank };

    fn join_from(&mut self, other: &Self) -> bool {
        let first = self.known.first.or_from(&other.known.first.view());
        let second = self.known.second.or_from(&other.known.second.view());
        first | second
    }

    ghost laws = { slots_laws };
}

/// Adds the bits of another row, where it is to be, and answers whether any is new.
pub(crate) fn add_where(to_be: bool, row: &mut Row, more: &RowView<'_>) -> bool
    requires { length row.old ≡ length more.now }
    ensures added { row.new ≡ (if to_be then or_bits row.old more.now else row.old) }
    ensures long { length row.new ≡ length row.old }
    ensures unchanged { (result ≡ false) ↔ (row.new ≡ row.old) }
{
    if to_be { row.or_from(more) } else { false }
}
