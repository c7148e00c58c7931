// Numbers of wanted bits as values of a flow.
ghost use Rattle.std.specs.Prelude.{◌≡◌, ◌↔◌, ◌<◌, ◌≤◌, false, length, max, replicate, slice_set, slice_index_or, IfOk};
ghost use Rattle.wanted_bits.specs.BitsOrder.{BelowLists, HasFew, joined_bits, lists_laws, lists_rank};

use crate::news::SomeVariables;
use fix_solve::{Lattice, NoRoom};
use mir_base::Memory;
use std::alloc::Global;
use std::marker::Model;

/// How many of the lowest bits of each variable are wanted, by the numbers of the variables, and room for as many
/// numbers, so that what passes along an edge needs no memory. Contracts see it as the list of the numbers, each of
/// which is at most 64.
#[derive(Drop)]
pub struct WantedList {
    pub(crate) bits: Vec<u8>,
    pub(crate) room: Vec<u8>,
}

impl Model for WantedList {
    ghost use Rattle.std.specs.Prelude.{◌≡◌, List, length, ℕ};
    ghost use Rattle.wanted_bits.specs.BitsOrder.{HasFew};

    ghost Value = { List ℕ };

    ghost view = { λ l. l.bits.items };

    ghost invariant = { λ l. HasFew l.bits.items × HasFew l.room.items
        × (length l.room.items ≡ length l.bits.items) };
}

impl WantedList {
    /// No wanted bits of so many variables. It fails only with `Memory`.
    pub(crate) fn zeros(alloc: Global, vars: usize) -> Result<WantedList, Memory>
        ensures { IfOk result (λ list. list ≡ replicate vars 0) }
    {
        let bits = vec![in alloc; 0; vars]?;
        let room = vec![in alloc; 0; vars]?;
        Ok(WantedList { bits, room })
    }

    /// The numbers, by the numbers of the variables. It does not allocate.
    pub(crate) fn bits(&self) -> &[u8]
        ensures numbers { result.now ≡ self.now }
        ensures few { HasFew result.now }
    {
        self.bits.as_slice()
    }
}

impl Lattice for WantedList {
    type News = SomeVariables;

    type Room = NoRoom;

    ghost below = { BelowLists };

    ghost size = { length };

    ghost rank = { lists_rank };

    fn join_from(&mut self, other: &Self) -> bool {
        raise_each(self.bits.as_mut_slice(), other.bits.as_slice())
    }

    ghost laws = { lists_laws };
}

/// Raises each number to at least the other, and answers whether one was less.
pub(crate) fn raise_each(bits: &mut [u8], others: &[u8]) -> bool
    requires { length others.now ≡ length bits.old }
    ensures joined { bits.new ≡ joined_bits bits.old others.now }
    ensures unchanged { (result ≡ false) ↔ (bits.new ≡ bits.old) }
{
    let mut changed = false;
    for x in 0..bits.len() {
        changed |= raise(bits, x, others[x]);
    }
    changed
}

/// Raises a number to at least this one, and answers whether it was less.
fn raise(bits: &mut [u8], x: usize, least: u8) -> bool
    requires { x < length bits.old }
    ensures raised { bits.new ≡ slice_set bits.old x (max (slice_index_or bits.old x 0) least) }
    ensures unchanged { (result ≡ false) ↔ (least ≤ slice_index_or bits.old x 0) }
{
    if bits[x] < least {
        bits[x] = least;
        true
    } else {
        false
    }
}
