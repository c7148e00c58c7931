// What is asked for around a unit.
ghost use Rattle.std.specs.Prelude.{◌≡◌, ◌≤◌, ◌↔◌, ◌++◌, ◌∷◌, [], false, length, max, replicate, slice_set, IfOk, OnOk};
ghost use Rattle.wanted_bits.specs.BitsOrder.{HasFew, joined_bits};
ghost use Rattle.wanted_bits.specs.Asking.{argument_at, global_at, width_at};
ghost use Rattle.wanted_bits.specs.KeptRows.{RaisesBelow};
ghost use Rattle.wanted_bits.specs.Walking.{bits_at};

use crate::lists::raise_each;
use crate::news::SomeVariables;
use crate::raises::raise_some;
use mir_base::Memory;
use std::alloc::Global;
use std::marker::Model;

/// How many of the lowest bits are wanted of each of some values. Contracts see it as the list of the numbers, each of
/// which is at most 64.
#[derive(Drop)]
pub struct Widths {
    bits: Vec<u8>,
}

impl Model for Widths {
    ghost use Rattle.std.specs.Prelude.{List, ℕ};
    ghost use Rattle.wanted_bits.specs.BitsOrder.{HasFew};

    ghost Value = { List ℕ };

    ghost view = { λ w. w.bits.items };

    ghost invariant = { λ w. HasFew w.bits.items };
}

impl Widths {
    /// No wanted bits of so many values. It fails only with `Memory`.
    pub fn zeros(alloc: Global, count: usize) -> Result<Widths, Memory>
        ensures { IfOk result (λ widths. widths ≡ replicate count 0) }
    {
        let bits = vec![in alloc; 0; count]?;
        Ok(Widths { bits })
    }

    /// These numbers, each of which is at most 64. It fails only with `Memory`.
    pub(crate) fn of(alloc: Global, numbers: &[u8]) -> Result<Widths, Memory>
        requires { HasFew numbers.now }
        ensures { IfOk result (λ widths. widths ≡ numbers.now) }
    {
        let bits = numbers.to_vec(alloc)?;
        Ok(Widths { bits })
    }

    /// One more number. It fails only with `Memory`.
    pub fn push(&mut self, k: u8) -> Result<(), Memory>
        requires { k ≤ 64 }
        ensures { OnOk result (self.new ≡ self.old ++ k ∷ []) }
    {
        self.bits.push(k)?;
        Ok(())
    }

    /// The number of a value, and 64 where there is none. It does not allocate.
    pub fn get(&self, place: usize) -> u8
        ensures value { result ≡ width_at self.now place }
        ensures most { result ≤ 64 }
    {
        if place < self.bits.len() {
            self.bits[place]
        } else {
            64
        }
    }

    /// The number of a value, and 0 where there is none. It does not allocate.
    pub fn bits_at(&self, place: usize) -> u8
        ensures { result ≡ bits_at self.now place }
    {
        if place < self.bits.len() {
            self.bits[place]
        } else {
            0
        }
    }

    /// Raises the number of a value, where there is one, to at least this, and answers whether it was less. It does not
    /// allocate.
    pub fn raise(&mut self, place: usize, least: u8) -> bool
        requires { least ≤ 64 }
        ensures raised { self.new ≡ slice_set self.old place (max (bits_at self.old place) least) }
        ensures unchanged { (result ≡ false) ↔ (self.new ≡ self.old) }
    {
        if place < self.bits.len() && self.bits[place] < least {
            self.bits[place] = least;
            true
        } else {
            false
        }
    }
}

impl Widths {
    /// Raises each number to at least that of the others, and answers whether one was less. It does not allocate.
    pub fn raise_all(&mut self, others: &Widths) -> bool
        requires { length others.now ≡ length self.old }
        ensures raised { self.new ≡ joined_bits self.old others.now }
        ensures unchanged { (result ≡ false) ↔ (self.new ≡ self.old) }
    {
        raise_each(self.bits.as_mut_slice(), others.bits.as_slice())
    }

    /// The numbers.
    pub(crate) fn bits(&self) -> &[u8]
        ensures numbers { result.now ≡ self.now }
        ensures few { HasFew result.now }
    {
        self.bits.as_slice()
    }

    /// Raises the numbers of some variables to at least the others, puts those that rose among the news, and answers
    /// whether there are any.
    pub(crate) fn raise_some(
        &mut self,
        others: &[u8],
        some: &SomeVariables,
        more: &SomeVariables,
        news: &mut SomeVariables,
    ) -> bool
        requires long { length others.now ≡ length self.old }
        requires few { HasFew others.now }
        ensures { RaisesBelow others.now self.old self.new }
    {
        raise_some(self.bits.as_mut_slice(), others, some, more, news)
    }
}

/// What is asked for around a unit. Where a list has no number, all 64 bits are asked for.
#[derive(Clone, Copy)]
pub struct Around<'a> {
    /// For each unit how many bits are wanted of each global where it is entered.
    pub globals: &'a [Widths],
    /// For each unit how many are wanted of each of its arguments.
    pub arguments: &'a [Widths],
    /// How many are wanted of each global where the unit itself returns, and then of its result.
    pub back: &'a Widths,
}

impl<'a> Around<'a> {
    /// How many bits are wanted of a global where a unit is entered.
    pub(crate) fn global(&self, unit: usize, x: usize) -> u8
        ensures value { result ≡ global_at self.now unit x }
        ensures most { result ≤ 64 }
    {
        match self.globals.get(unit) {
            Some(widths) => widths.get(x),
            None => 64,
        }
    }

    /// How many are wanted of an argument of a unit.
    pub(crate) fn argument(&self, unit: usize, i: usize) -> u8
        ensures value { result ≡ argument_at self.now unit i }
        ensures most { result ≤ 64 }
    {
        match self.arguments.get(unit) {
            Some(widths) => widths.get(i),
            None => 64,
        }
    }
}
