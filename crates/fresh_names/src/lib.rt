//! Names for new variables of a graph: in go the names that are taken, and out come `h1`, `h2`, .. that are not.
#![tactic(auto)]

ghost use Rattle.std.specs.Prelude.{◌≡◌, ◌↔◌, Contains, IsTrue, IfOk};
ghost use Rattle.fresh_names.specs.FreshNames.{AreTemporaryNames, HaveSameNames};

use indexmap::IndexSet;
use mir_base::{Memory, Name};
use std::alloc::{AllocError, Global};
use std::marker::Model;

/// Names that are taken, looked up by hash. Contracts see them as the list of their bytes.
#[derive(Drop)]
struct TakenNames<'a> {
    names: IndexSet<&'a [u8]>,
}

impl<'a> Model for TakenNames<'a> {
    ghost use Rattle.std.specs.Prelude.{List, ℕ, map};

    ghost Value = { List (List ℕ) };

    ghost view = { λ taken. map (λ name. name.now) taken.names.keys };
}

impl<'a> TakenNames<'a> {
    /// These names. It fails only with `Memory`.
    fn of(alloc: Global, names: &'a [Name]) -> Result<TakenNames<'a>, Memory>
        ensures { IfOk result (HaveSameNames names.now) }
    {
        let mut taken = IndexSet::new(alloc);
        for name in names {
            taken.insert(name.bytes())?;
        }
        Ok(TakenNames { names: taken })
    }

    /// Whether the name is taken. It does not allocate.
    fn has(&self, name: &Name) -> bool
        ensures { IsTrue result ↔ Contains self.now name.now }
    {
        self.names.contains(name.bytes())
    }
}

/// The names of so many temporaries of a graph whose variables have these names: for each the least number from 1 on
/// that makes a name which no variable and no earlier temporary has. Since the numbers ascend, one walk over them finds
/// all. It fails only with `Memory`.
pub fn temporary_names(alloc: Global, vars: &[Name], count: usize) -> Result<Vec<Name>, Memory>
    ensures { IfOk result (λ names. AreTemporaryNames vars.now count names.items) }
{
    let taken = TakenNames::of(alloc, vars)?;
    let mut names = Vec::new(alloc);
    for number in 1..usize::MAX {
        if names.len() == count {
            return Ok(names);
        }
        let name = Name::numbered(alloc, b"h", number)?;
        if !taken.has(&name) {
            names.push(name)?;
        }
    }
    Err(AllocError)
}
