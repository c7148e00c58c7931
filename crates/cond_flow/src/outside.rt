// What is known outside of a unit.
ghost use Rattle.std.specs.Prelude.{◌≡◌, ◌+◌, [], slice_index_or};
ghost use Rattle.cond_flow.specs.Outsides.{outside_of};
ghost use Rattle.cond_flow.specs.Rules.{known_at};

use crate::{Facts, Knowledge};

/// What is known outside of a unit. Of what a list does not have nothing is known. Contracts see it as `outside_of`.
#[derive(Drop)]
pub struct Outside<'a, K: Knowledge> {
    /// Where the unit is entered, of each global and then of each argument.
    pub entry: &'a Facts<K>,
    /// Of what each unit hands back, of each global and then of its result.
    pub backs: &'a [Facts<K>],
}

impl<'a, K: Knowledge> Outside<'a, K> {
    /// What is known of a global where the unit is entered. It does not allocate.
    pub(crate) fn global(&self, x: usize) -> K
        ensures { result ≡ known_at K.rules (outside_of self.now).entry x }
    {
        self.entry.get(x, K::top())
    }

    /// What is known of an argument, where there are so many globals. It does not allocate.
    pub(crate) fn argument(&self, shared: usize, i: usize) -> K
        ensures { result ≡ known_at K.rules (outside_of self.now).entry (shared + i) }
    {
        let count = self.entry.len();
        if shared < count && i < count - shared {
            self.entry.get(shared + i, K::top())
        } else {
            K::top()
        }
    }

    /// What is known of a global that a unit hands back, or, behind the globals, of its result. It does not allocate.
    pub(crate) fn handed_back(&self, unit: usize, x: usize) -> K
        ensures { result
            ≡ known_at K.rules (slice_index_or (outside_of self.now).backs unit []) x }
    {
        match self.backs.get(unit) {
            None => K::top(),
            Some(back) => back.get(x, K::top()),
        }
    }
}
