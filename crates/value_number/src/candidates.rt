// Variables that may have a term, of which the least is at hand.
ghost use Rattle.std.specs.Prelude.{◌≡◌, ℕ, ◌<◌, ◌≤◌, ◌⊎◌, Some, OnOk};
ghost use Rattle.value_number.specs.Candidates.{AreInOrder, IsCandidate, candidate_count};

use mir_base::Memory;
use std::alloc::Global;
use std::cmp::Reverse;
use std::collections::BinaryHeap;

/// Variables that may have one term: each that has it is among them, and those that have lost it may be.
#[derive(Drop)]
pub(crate) struct Candidates {
    /// The least of them, where there are any.
    pub(crate) first: Option<usize>,
    /// The others, a variable as often as it was put here.
    pub(crate) others: BinaryHeap<Reverse<usize>>,
}

impl Candidates {
    /// No variable. It does not allocate.
    pub(crate) fn none(alloc: Global) -> Candidates
        ensures { AreInOrder result }
    {
        Candidates {
            first: None,
            others: BinaryHeap::new(alloc),
        }
    }

    /// Puts a variable among them. It fails only with `Memory`.
    pub(crate) fn add(&mut self, v: usize) -> Result<(), Memory>
        ensures order { AreInOrder self.old → AreInOrder self.new }
        ensures stay { (u : ℕ) → IsCandidate self.old u → IsCandidate self.new u }
        ensures there { OnOk result (IsCandidate self.new v) }
    {
        match self.first {
            None => {
                self.first = Some(v);
                Ok(())
            }
            Some(first) => {
                if first != v {
                    let (lesser, greater) = in_order(first, v);
                    self.others.push(Reverse(greater))?;
                    self.first = Some(lesser);
                }
                Ok(())
            }
        }
    }

    /// Drops the least, where there are any.
    pub(crate) fn drop_first(&mut self)
        ensures order { AreInOrder self.old → AreInOrder self.new }
        ensures stay { (u : ℕ) → IsCandidate self.old u
            → (self.old.first ≡ Some u) ⊎ IsCandidate self.new u }
        ensures fewer { (v : ℕ) → self.old.first ≡ Some v
            → candidate_count self.new < candidate_count self.old }
    {
        let _others = self.others.as_slice();
        self.first = match self.others.pop() {
            None => None,
            Some(Reverse(v)) => Some(v),
        };
    }
}

/// These two variables, the lesser first.
fn in_order(v: usize, u: usize) -> (usize, usize)
    ensures order { result.0 ≤ result.1 }
    ensures are { ((result.0 ≡ v) × (result.1 ≡ u)) ⊎ ((result.0 ≡ u) × (result.1 ≡ v)) }
{
    if u < v { (u, v) } else { (v, u) }
}
