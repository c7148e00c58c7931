// Some of the variables: those that were raised behind a block since it was pushed last, or those that it touches.
ghost use Rattle.std.specs.Prelude.{◌≡◌, ◌∷◌, [], false, IfOk};
ghost use Rattle.wanted_bits.specs.NewsShapes.{AreNoted, FitsAny, IsAllNew, IsNoneNew};

use fix_solve::News;
use mir_base::Memory;
use std::alloc::Global;
use std::marker::Model;

/// All variables, or those that are listed, of which each may be there more than once. Contracts see both.
#[derive(Drop)]
pub struct SomeVariables {
    whole: bool,
    listed: Vec<usize>,
}

impl Model for SomeVariables {
    ghost use Rattle.wanted_bits.specs.NewsShapes.{VariablesShape};

    ghost Value = { VariablesShape };

    ghost view = { λ some. record { whole = some.whole; listed = some.listed.items } };
}

/// Up to so many variables none are listed: to look at all of them costs no more.
const MOST_SMALL: usize = 256;

/// One in so many variables may be listed; if there are more, all are meant.
const SHARE: usize = 16;

impl SomeVariables {
    /// None of so many variables. It fails only with `Memory`.
    pub(crate) fn new(alloc: Global, variables: usize) -> Result<SomeVariables, Memory>
        ensures { IfOk result IsNoneNew }
    {
        let most = if variables <= MOST_SMALL {
            0
        } else {
            variables / SHARE
        };
        let listed = Vec::with_capacity(alloc, most)?;
        Ok(SomeVariables {
            whole: false,
            listed,
        })
    }

    /// None, with room for so many. It fails only with `Memory`.
    pub(crate) fn with_room(alloc: Global, most: usize) -> Result<SomeVariables, Memory>
        ensures { IfOk result IsNoneNew }
    {
        let listed = Vec::with_capacity(alloc, most)?;
        Ok(SomeVariables {
            whole: false,
            listed,
        })
    }

    /// Takes the place of these variables, and leaves none there, or all, where there is no room for them.
    pub(crate) fn take_over(&mut self, others: &mut SomeVariables) {
        self.settle();
        if others.whole {
            self.whole = true;
        }
        for i in 0..others.listed.len() {
            self.note(others.listed[i]);
        }
        others.settle();
    }

    /// The same variables, with room for no more. It fails only with `Memory`.
    pub(crate) fn copied(&self, alloc: Global) -> Result<SomeVariables, Memory>
        ensures { IfOk result (λ copy. copy ≡ self.now) }
    {
        let listed = self.listed.as_slice().to_vec(alloc)?;
        Ok(SomeVariables {
            whole: self.whole,
            listed,
        })
    }

    /// Whether they are all. It does not allocate.
    pub(crate) fn are_all(&self) -> bool
        ensures { result ≡ self.now.whole }
    {
        self.whole
    }

    /// Which they are, where they are not all. It does not allocate.
    pub(crate) fn listed(&self) -> &[usize]
        ensures { result.now ≡ self.now.listed }
    {
        self.listed.as_slice()
    }

    /// Adds a variable; where there is no room for it, they are all. It does not allocate.
    pub(crate) fn note(&mut self, x: usize)
        ensures { AreNoted (x ∷ []) self.old self.new }
    {
        if self.whole {
            return;
        }
        if self.listed.len() == self.listed.capacity() || self.listed.push(x).is_err() {
            self.renew();
        }
    }
}

impl News for SomeVariables {
    ghost fits = { FitsAny };

    ghost is_all = { IsAllNew };

    ghost is_none = { IsNoneNew };

    fn renew(&mut self) {
        self.whole = true;
        self.listed.clear();
    }

    fn settle(&mut self) {
        self.whole = false;
        self.listed.clear();
    }
}
