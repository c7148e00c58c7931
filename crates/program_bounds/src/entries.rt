// What is known where a unit is entered.
ghost use Rattle.std.specs.Prelude.{◌≡◌, ◌↔◌, false, length, replicate, IfOk};
ghost use Rattle.cond_flow.specs.States.{Unreached, Knows, is_reached, joined, size_of};
ghost use Rattle.bounds.specs.declared.facts.Fact.TheVariants.{Never};
ghost use Rattle.bounds.specs.Facts.{joined_fact};
ghost use Rattle.program_bounds.specs.Facts.{facts_in};

use bounds::Fact;
use cond_flow::Facts;
use mir_base::Memory;
use std::alloc::Global;
use std::marker::Model;

/// Whether a unit is entered, and what is then known of each global and of each argument; nothing but "never" is of a
/// unit that is not. Contracts see it as a state.
#[derive(Drop)]
pub(crate) struct Entry {
    reached: bool,
    facts: Facts<Fact>,
}

impl Model for Entry {
    ghost use Rattle.std.specs.Prelude.{◌≡◌, false, length, replicate};
    ghost use Rattle.bounds.specs.declared.facts.Fact.{Fact};
    ghost use Rattle.bounds.specs.declared.facts.Fact.TheVariants.{Never};
    ghost use Rattle.cond_flow.specs.States.{NodeState, state_where};

    ghost Value = { NodeState Fact };

    ghost view = { λ e. state_where e.reached e.facts };

    ghost invariant = { λ e. e.reached ≡ false → e.facts ≡ replicate (length e.facts) Never };
}

impl Entry {
    /// That of a unit that is not entered, with "never" for each global and argument. It fails only with `Memory`.
    pub(crate) fn none(alloc: Global, never: &[Fact]) -> Result<Entry, Memory>
        requires { never.now ≡ replicate (length never.now) Never }
        ensures { IfOk result (λ entry. entry ≡ Unreached (length never.now)) }
    {
        let facts = Facts::of_list(alloc, never, Fact::Never)?;
        Ok(Entry {
            reached: false,
            facts,
        })
    }

    /// Whether the unit is entered. It does not allocate.
    pub(crate) fn is_reached(&self) -> bool
        ensures { result ≡ is_reached self.now }
    {
        self.reached
    }

    /// What is known. It does not allocate.
    pub(crate) fn facts(&self) -> &Facts<Fact>
        ensures { result.now ≡ facts_in self.now }
    {
        &self.facts
    }

    /// Joins what a call hands over, and answers whether more may be known now. It does not allocate.
    pub(crate) fn raise(&mut self, facts: &Facts<Fact>) -> bool
        requires { length facts.now ≡ size_of self.old }
        ensures joined { self.new ≡ joined joined_fact self.old (Knows facts.now) }
        ensures unchanged { (result ≡ false) ↔ (self.new ≡ self.old) }
    {
        if self.reached {
            self.facts.join_from(facts)
        } else {
            self.facts.refill(facts);
            self.reached = true;
            true
        }
    }
}
