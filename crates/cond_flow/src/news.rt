// What of the state of a block is news.
ghost use Rattle.std.specs.Prelude.{◌≡◌, true};
ghost use Rattle.cond_flow.specs.NewsShapes.{FitsAny, IsAllNew, IsNoneNew, IsNoted, IsPut, is_among};

use fix_solve::News;
use mir_base::Memory;
use std::alloc::Global;
use std::marker::Model;

/// What of a state is news: all of it, or that more may be known now of each of some variables, those that were raised.
/// Contracts see both.
#[derive(Drop)]
pub(crate) struct StateNews {
    whole: bool,
    raised: Vec<usize>,
}

impl Model for StateNews {
    ghost use Rattle.cond_flow.specs.NewsShapes.{NewsShape};

    ghost Value = { NewsShape };

    ghost view = { λ news. record { whole = news.whole; raised = news.raised.items } };
}

/// Up to so many variables each push takes the whole state: to look at all of them costs no more than to keep news.
pub(crate) const MOST_SMALL: usize = 16;

/// So many variables may be told of, and one in `SHARE` of all; if more are raised, all is news.
const FEW: usize = 32;

/// One in so many of all variables may be told of.
const SHARE: usize = 16;

impl StateNews {
    /// News of a state of so many variables: nothing is news. It fails only with `Memory`.
    pub(crate) fn new(alloc: Global, variables: usize) -> Result<StateNews, Memory> {
        let most = if variables <= MOST_SMALL {
            0
        } else {
            FEW + variables / SHARE
        };
        let raised = Vec::with_capacity(alloc, most)?;
        Ok(StateNews {
            whole: false,
            raised,
        })
    }

    /// Whether all is news. It does not allocate.
    pub(crate) fn are_all(&self) -> bool
        ensures { result ≡ self.now.whole }
    {
        self.whole
    }

    /// The variables that were raised, where not all is news. It does not allocate.
    pub(crate) fn raised(&self) -> &[usize]
        ensures { result.now ≡ self.now.raised }
    {
        self.raised.as_slice()
    }

    /// Adds a variable that was raised, if it is not the one that was added last. It does not allocate.
    pub(crate) fn note(&mut self, x: usize)
        ensures { IsNoted x self.old self.new }
    {
        if self.is_last(x) {
            return;
        }
        self.put(x);
    }

    /// Adds a variable; where there is no room for it, all becomes news.
    fn put(&mut self, x: usize)
        ensures { IsPut x self.old self.new }
    {
        if self.whole {
            return;
        }
        if self.raised.len() == self.raised.capacity() || self.raised.push(x).is_err() {
            self.renew();
        }
    }

    /// Whether a variable is the one that was added last.
    fn is_last(&self, x: usize) -> bool
        ensures { result ≡ true → is_among self.now.raised x ≡ true }
    {
        let count = self.raised.len();
        count > 0 && self.raised[count - 1] == x
    }
}

impl News for StateNews {
    ghost fits = { FitsAny };

    ghost is_all = { IsAllNew };

    ghost is_none = { IsNoneNew };

    fn renew(&mut self) {
        self.whole = true;
        self.raised.clear();
    }

    fn settle(&mut self) {
        self.whole = false;
        self.raised.clear();
    }
}
