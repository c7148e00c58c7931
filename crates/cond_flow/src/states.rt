// States of nodes, as they are kept where blocks begin.
ghost use Rattle.std.specs.Prelude.{◌≡◌, ◌↔◌, false, true, length, IfOk};
ghost use Rattle.fix_solve.specs.Order.{IsLeastUpper};
ghost use Rattle.cond_flow.specs.States.{BelowState, is_reached, size_of, state_rank, state_where};
ghost use Rattle.cond_flow.specs.StateLaws.{state_laws};

use crate::news::StateNews;
use crate::{Facts, Knowledge};
use fix_solve::{Lattice, Room};
use mir_base::Memory;
use std::alloc::Global;
use std::marker::Model;

/// Whether a block is reached, and what is known of each variable before it where it is. Contracts see it as the state.
#[derive(Drop)]
pub(crate) struct BlockState<K: Knowledge> {
    pub(crate) reached: bool,
    pub(crate) known: Facts<K>,
}

impl<K: Knowledge> Model for BlockState<K> {
    ghost use Rattle.cond_flow.specs.States.{NodeState, state_where};

    ghost Value = { NodeState K };

    ghost view = { λ s. state_where s.reached s.known };
}

impl<K: Knowledge> BlockState<K> {
    /// The state by whether the block is reached and what is then known. It fails only with `Memory`.
    pub(crate) fn of(
        alloc: Global,
        reached: bool,
        known: &Facts<K>,
    ) -> Result<BlockState<K>, Memory>
        ensures { IfOk result (λ state. state ≡ state_where reached known.now) }
    {
        let known = known.copied(alloc)?;
        Ok(BlockState { reached, known })
    }

    /// Joins what is known where a path meets this one, or takes it where the block was not reached, and answers
    /// whether the state changed.
    pub(crate) fn meet(&mut self, known: &Facts<K>) -> bool
        requires { length known.now ≡ size_of self.old }
        ensures joined { IsLeastUpper (BelowState K.below) self.old (state_where true known.now)
            self.new }
        ensures unchanged { (result ≡ false) ↔ (self.new ≡ self.old) }
    {
        if self.reached {
            self.known.join_from(known)
        } else {
            self.known.refill(known);
            self.reached = true;
            true
        }
    }
}

impl<K: Knowledge> Room for Facts<K> {
    ghost fits = { λ room size. length room ≡ size };
}

impl<K: Knowledge> Lattice for BlockState<K> {
    type News = StateNews;

    type Room = Facts<K>;

    ghost below = { BelowState K.below };

    ghost size = { size_of };

    ghost rank = { state_rank K.rules.rank };

    fn join_from(&mut self, other: &Self) -> bool {
        if other.reached {
            self.meet(&other.known)
        } else {
            false
        }
    }

    ghost laws = { state_laws K.laws.order };
}
