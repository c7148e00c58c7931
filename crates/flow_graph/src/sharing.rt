// The names of the variables of graphs: a graph shares them with the graphs that are made of it.
ghost use Rattle.std.specs.Prelude.{◌≡◌, ◌++◌, IfOk};

use mir_base::{Items, Memory, Name};
use std::alloc::Global;
use std::marker::Model;
use std::rc::Rc;

/// Names of variables, of which a share does not allocate. Contracts see them as the list of these.
#[derive(Drop)]
pub struct Names {
    shared: Rc<Items<Name>>,
}

impl Model for Names {
    ghost use Rattle.std.specs.Prelude.{List, ℕ};

    ghost Value = { List (List ℕ) };

    ghost view = { λ names. names.shared.value };
}

impl Names {
    /// Copies of these names. It fails only with `Memory`.
    pub(crate) fn copied(alloc: Global, names: &[Name]) -> Result<Names, Memory>
        ensures { IfOk result (λ copied. copied ≡ names.now) }
    {
        let all = all_names(alloc, names, Vec::new(alloc))?;
        Names::of(alloc, all)
    }

    /// These names. It fails only with `Memory`.
    fn of(alloc: Global, names: Vec<Name>) -> Result<Names, Memory>
        ensures { IfOk result (λ made. made ≡ names.items) }
    {
        let shared = Rc::new(alloc, Items::of(names))?;
        Ok(Names { shared })
    }

    /// These names with `extra` behind them: a new list, or the same one shared (`Rc`) where `extra` is empty. It fails
    /// only with `Memory`.
    pub fn with(&self, alloc: Global, extra: Vec<Name>) -> Result<Names, Memory>
        ensures { IfOk result (λ all. all ≡ self.now ++ extra.items) }
    {
        if extra.is_empty() {
            self.share()
        } else {
            let all = all_names(alloc, self.items(), extra)?;
            Names::of(alloc, all)
        }
    }

    /// A share of the names. It does not allocate, and is refused only where there are too many shares to count.
    pub(crate) fn share(&self) -> Result<Names, Memory>
        ensures { IfOk result (λ share. share ≡ self.now) }
    {
        let shared = self.shared.clone()?;
        Ok(Names { shared })
    }

    /// The names, in order. It does not allocate.
    pub(crate) fn items(&self) -> &[Name]
        ensures { result.now ≡ self.now }
    {
        self.shared.as_ref().items()
    }
}

/// Copies of the names, and the others after them.
fn all_names(alloc: Global, names: &[Name], extra: Vec<Name>) -> Result<Vec<Name>, Memory>
    ensures { IfOk result (λ all. all.items ≡ names.now ++ extra.items) }
{
    let mut all = Vec::with_capacity(alloc, names.len())?;
    for name in names {
        all.push(name.clone()?)?;
    }
    for name in extra {
        all.push(name)?;
    }
    Ok(all)
}
