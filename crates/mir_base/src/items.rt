// A list of items, which contracts see as a plain list.
ghost use Rattle.std.specs.Prelude.{◌≡◌, ◌++◌, [], ◌∷◌, IfOk, OnErr, OnOk};

use crate::Memory;
use std::alloc::{AllocError, Global};
use std::marker::Model;

/// A list in a program or in the result of a pass. Contracts see it as the list of its items, so that two lists with
/// equal items are equal, whatever their capacities are.
#[derive(Drop)]
pub struct Items<T> {
    items: Vec<T>,
}

impl<T> Model for Items<T> {
    ghost use Rattle.std.specs.Prelude.{List};
    ghost use Rattle.std.specs.Coded.{coded_list};

    ghost Value = { List T };

    ghost coded = { coded_list T.code };

    ghost view = { λ list. list.items.items };
}

impl<T> Items<T> {
    /// The list of these items, in their order. It does not allocate.
    pub fn of(items: Vec<T>) -> Items<T>
        ensures { result ≡ items.items }
    {
        Items { items }
    }

    /// The empty list. It does not allocate; `alloc` gives the memory when the list grows.
    pub fn new(alloc: Global) -> Items<T>
        ensures { result ≡ [] }
    {
        Items {
            items: Vec::new(alloc),
        }
    }

    /// The items, in order. It does not allocate.
    pub fn items(&self) -> &[T]
        ensures { result.now ≡ self.now }
    {
        self.items.as_slice()
    }
}

impl<T: Drop> Items<T> {
    /// Puts one more item at the end. It fails only with `Memory`; the list is then as it was, and the item is dropped.
    pub fn push(&mut self, item: T) -> Result<(), Memory>
        ensures pushed { OnOk result (self.new ≡ self.old ++ item ∷ []) }
        ensures unchanged { OnErr result (self.new ≡ self.old) }
    {
        self.items.push(item)?;
        Ok(())
    }

    /// The list with one more item at its end. It fails only with `Memory`, and then the list and the item are dropped.
    pub fn with(self, item: T) -> Result<Items<T>, Memory>
        ensures { IfOk result (λ items. items ≡ self ++ item ∷ []) }
    {
        let mut items = self.items;
        items.push(item)?;
        Ok(Items { items })
    }
}

/// Where the clone of an item is equal to it, the clone of a list is equal to the list.
impl<T: Clone + Drop> Clone for Items<T> {
    ghost is_clone = { λ list copy.
        ((item other : T) → T.is_clone item other → other ≡ item) → copy ≡ list };

    fn clone(&self) -> Result<Items<T>, AllocError> {
        let items = self.items.as_slice().to_vec(*self.items.allocator())?;
        Ok(Items { items })
    }
}
