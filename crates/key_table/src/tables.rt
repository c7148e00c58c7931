// Tables of keys.
ghost use Rattle.std.specs.Prelude.{◌≡◌, ◌<◌, [], length, slice_get, IfOk, IfSome, OnErr, OnOk, Some};
ghost use Rattle.mir_base.specs.Shapes.{AllDiffer};
ghost use Rattle.key_table.specs.Keys.{FindsKey, FindsSome, IsWithKey};

use crate::Key;
use indexmap::IndexSet;
use mir_base::Memory;
use std::alloc::Global;
use std::marker::Model;

/// A hashed table of distinct keys, numbered from 0. Contracts see it as the list of them.
#[derive(Drop)]
pub struct KeyTable<K: Key> {
    keys: IndexSet<K>,
}

impl<K: Key> Model for KeyTable<K> {
    ghost use Rattle.std.specs.Prelude.{List};
    ghost use Rattle.mir_base.specs.Shapes.{AllDiffer};

    ghost Value = { List K };

    ghost view = { λ table. table.keys.keys };

    ghost invariant = { λ table. AllDiffer table.keys.keys };
}

impl<K: Key> KeyTable<K> {
    /// The table of no keys. It does not allocate.
    pub fn new(alloc: Global) -> KeyTable<K>
        ensures { result ≡ [] }
    {
        KeyTable {
            keys: IndexSet::new(alloc),
        }
    }

    /// The table of these keys, which are distinct, in their order. It fails only with `Memory`.
    pub fn of(alloc: Global, keys: Vec<K>) -> Result<KeyTable<K>, Memory>
        requires { AllDiffer keys.items }
        ensures { IfOk result (λ table. table ≡ keys.items) }
    {
        let mut table = KeyTable::new(alloc);
        for key in keys {
            table.number(key)?;
        }
        Ok(table)
    }

    /// How many keys there are. It does not allocate.
    pub fn len(&self) -> usize
        ensures len { result ≡ length self.now }
        ensures differ { AllDiffer self.now }
    {
        self.keys.len()
    }

    /// The key of a number, counted from 0 and below `len`. It does not allocate.
    pub fn get(&self, number: usize) -> &K
        requires { number < length self.now }
        ensures { slice_get self.now number ≡ Some result.now }
    {
        &self.keys.as_slice()[number]
    }

    /// The number of a key, and `None` exactly where the table does not have it. It does not allocate.
    pub fn find(&self, key: &K) -> Option<usize>
        ensures within { IfSome result (λ number. number < length self.now) }
        ensures finds { FindsKey self.now key.now result }
        ensures differ { AllDiffer self.now }
    {
        self.keys.get_index_of(key)
    }

    /// The number of a key, and `None` exactly where there is no key or the table does not have it. It does not
    /// allocate.
    pub fn find_some(&self, key: Option<K>) -> Option<usize>
        ensures within { IfSome result (λ number. number < length self.now) }
        ensures finds { FindsSome self.now key result }
        ensures differ { AllDiffer self.now }
    {
        let _keys = &self.keys;
        let key = key?;
        self.find(&key)
    }

    /// The number of a key, which is put at the end where the table does not have it. It fails only with `Memory`,
    /// and the table is then as it was.
    pub fn number(&mut self, key: K) -> Result<usize, Memory>
        ensures here { IfOk result (λ number. slice_get self.new number ≡ Some key) }
        ensures with_key { OnOk result (IsWithKey self.old key self.new) }
        ensures err { OnErr result (self.new ≡ self.old) }
    {
        let (number, _) = self.keys.insert_full(key)?;
        Ok(number)
    }
}
