// Tables from names to numbers, with their names looked up by hash.
ghost use Rattle.std.specs.Prelude.{◌≡◌, [], IfOk, OnOk, is_none};
ghost use Rattle.mir_valid.specs.Names.{number_in};
ghost use Rattle.mir_valid.specs.NameTables.{number_or_zero, with_entry};

use crate::Memory;
use indexmap::IndexMap;
use mir_base::Name;
use std::alloc::Global;
use std::marker::Model;

/// Names with their numbers, in the order in which they were added. Contracts see it as that list of pairs.
#[derive(Drop)]
pub struct Table<'a> {
    numbers: IndexMap<&'a [u8], usize>,
}

impl<'a> Model for Table<'a> {
    ghost use Rattle.std.specs.Prelude.{List, map};
    ghost use Rattle.mir_valid.specs.Names.{NameEntry};

    ghost Value = { List NameEntry };

    ghost view = { λ table. map (λ entry. (entry.0.now, entry.1)) table.numbers.entries };
}

impl<'a> Table<'a> {
    /// The table with no name. It does not allocate.
    pub fn new(alloc: Global) -> Table<'a>
        ensures { result ≡ [] }
    {
        Table {
            numbers: IndexMap::new(alloc),
        }
    }

    /// The number of this name, and `None` exactly where the table does not have it. It does not allocate.
    pub fn get(&self, name: &Name) -> Option<usize>
        ensures { result ≡ number_in self.now name.now }
    {
        self.numbers.get(name.bytes()).copied()
    }

    /// The number of this name, and 0 where the table does not have it. It does not allocate.
    pub fn number(&self, name: &Name) -> usize
        ensures { result ≡ number_or_zero self.now name.now }
    {
        self.get(name).unwrap_or(0)
    }

    /// Gives this name its number, unless it has one, and says whether the name is new. It fails only with `Memory`.
    pub fn add(&mut self, name: &'a Name, number: usize) -> Result<bool, Memory>
        ensures new { IfOk result (λ new. new ≡ is_none (number_in self.old name.now)) }
        ensures added { OnOk result (self.new ≡ with_entry self.old (name.now, number)) }
    {
        match self.get(name) {
            Some(_) => Ok(false),
            None => {
                self.numbers.insert(name.bytes(), number)?;
                Ok(true)
            }
        }
    }
}
