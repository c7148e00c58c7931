// The numbers of the variables' terms, and the first variable that has a number.
ghost use Rattle.std.specs.Prelude.{◌≡◌, ℕ, ◌<◌, ◌≢◌, List, Option, None, Some, IfNone, IfOk, IfSome, OnOk, length, replicate, slice_set};
ghost use Rattle.value_number.specs.Candidates.{Cover, CoverAll};
ghost use Rattle.value_number.specs.Table.{variable_number};

use crate::candidates::Candidates;
use mir_base::Memory;
use std::alloc::Global;
use std::marker::Model;

/// The number of each variable's term, where it has one. Contracts see it as the list of them.
#[derive(Drop)]
pub(crate) struct TermNumbers {
    numbers: Vec<Option<usize>>,
    /// For each number the variables that may have it.
    table: Vec<Candidates>,
    alloc: Global,
}

impl Model for TermNumbers {
    ghost use Rattle.std.specs.Prelude.{List, Option, ℕ};
    ghost use Rattle.value_number.specs.Candidates.{CoverAll};

    ghost Value = { List (Option ℕ) };

    ghost view = { λ numbers. numbers.numbers.items };

    ghost invariant = { λ numbers. CoverAll numbers.numbers.items numbers.table.items };
}

impl TermNumbers {
    /// So many variables, of which none has a number.
    pub(crate) fn none(alloc: Global, count: usize) -> Result<TermNumbers, Memory>
        ensures { IfOk result (λ numbers. numbers ≡ replicate count None) }
    {
        let numbers = vec![in alloc; None; count]?;
        Ok(TermNumbers {
            numbers,
            table: Vec::new(alloc),
            alloc,
        })
    }

    /// The numbers. It does not allocate.
    pub(crate) fn as_slice(&self) -> &[Option<usize>]
        ensures { result.now ≡ self.now }
    {
        self.numbers.as_slice()
    }

    /// The numbers, as a list.
    pub(crate) fn into_numbers(self) -> Vec<Option<usize>>
        ensures { result.items ≡ self }
    {
        self.numbers
    }

    /// Gives a variable a number, or none. It fails only with `Memory`.
    pub(crate) fn set(&mut self, x: usize, number: Option<usize>) -> Result<(), Memory>
        requires { x < length self.old }
        ensures { OnOk result (self.new ≡ slice_set self.old x number) }
    {
        match number {
            None => {
                self.numbers[x] = None;
                Ok(())
            }
            Some(number) => {
                add_at(&mut self.table, self.alloc, number, x)?;
                self.numbers[x] = Some(number);
                Ok(())
            }
        }
    }

    /// The first variable with this number. Variables that lost the number are dropped here, each as often as it was
    /// given it, so that all searches together cost a logarithm for each number that is given.
    pub(crate) fn first_with(&mut self, number: usize) -> Option<usize>
        ensures same { self.new ≡ self.old }
        ensures within { IfSome result (λ v. v < length self.old) }
        ensures has { IfSome result (λ v. variable_number self.old v ≡ Some number) }
        ensures first { IfSome result (λ v. (u : ℕ) → u < v
            → variable_number self.old u ≢ Some number) }
        ensures none { IfNone result
            ((u : ℕ) → u < length self.old → variable_number self.old u ≢ Some number) }
    {
        if number < self.table.len() {
            least(&mut self.table[number], self.numbers.as_slice(), number)
        } else {
            None
        }
    }
}

/// Puts a variable among the candidates for a number, and first makes room for it.
fn add_at(table: &mut Vec<Candidates>, alloc: Global, number: usize, x: usize) -> Result<(), Memory>
    ensures covers { (numbers : List (Option ℕ)) → CoverAll numbers table.old.items
        → CoverAll numbers table.new.items }
    ensures there { OnOk result ((numbers : List (Option ℕ)) → x < length numbers
        → CoverAll numbers table.old.items
        → CoverAll (slice_set numbers x (Some number)) table.new.items) }
{
    while table.len() <= number {
        table.push(Candidates::none(alloc))?;
    }
    table[number].add(x)
}

/// The least variable that has the number, by its candidates; those before it have lost the number, and are dropped.
/// `None` where no variable has it. It does not allocate.
fn least(candidates: &mut Candidates, numbers: &[Option<usize>], number: usize) -> Option<usize>
    requires { Cover numbers.now number candidates.old }
    ensures covers { Cover numbers.now number candidates.new }
    ensures has { IfSome result (λ v. variable_number numbers.now v ≡ Some number) }
    ensures first { IfSome result (λ v. (u : ℕ) → u < v
        → variable_number numbers.now u ≢ Some number) }
    ensures none { IfNone result ((u : ℕ) → variable_number numbers.now u ≢ Some number) }
{
    while let Some(v) = candidates.first {
        if number_of(numbers, v) == Some(number) {
            return Some(v);
        }
        candidates.drop_first();
    }
    None
}

/// The number of a variable, where it has one.
fn number_of(numbers: &[Option<usize>], v: usize) -> Option<usize>
    ensures { result ≡ variable_number numbers.now v }
{
    match numbers.get(v) {
        None => None,
        Some(number) => *number,
    }
}
