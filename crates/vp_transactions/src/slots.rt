//! A list whose items stay where they are in memory when others are added or removed.

ghost use Rattle.std.specs.Prelude.{◌≡◌, ◌++◌, ◌∷◌, ◌<◌, ◌-◌, [], OnOk, OnErr, Some, length, slice_get, slice_set, option_copied};
ghost use Rattle.std.specs.Borrow.{Lends, sem};
ghost use Rattle.std.specs.List.{remove};

use slab::Slab;
use std::alloc::Global;
use std::collections::VecDeque;
use std::marker::Model;
use vp_base::NoMemory;

/// A list whose items are in the slots of a slab, at keys that are listed in the order of the items. Adding or removing an item
/// moves no other item.
#[derive(Drop)]
pub struct Slots<T> {
    keys: VecDeque<usize>,
    items: Slab<T>,
}

impl<T> Model for Slots<T> {
    ghost use Rattle.std.specs.Prelude.{List};
    ghost use Rattle.vp_transactions.specs.Slots.{items_at, AreKeys};

    ghost Value = { List T };

    ghost view = { λ a. items_at a.items a.keys.items };

    ghost invariant = { λ a. AreKeys a.items a.keys.items };
}

impl<T: Drop> Slots<T> {
    ghost use Rattle.vp_transactions.specs.contracts.slots.Slots.{the_row};

    /// Makes an empty list, which takes no memory.
    pub fn new(alloc: Global) -> Slots<T>
        ensures { result ≡ [] }
    {
        Slots {
            keys: VecDeque::new(alloc),
            items: Slab::new(alloc),
        }
    }

    /// The allocator from which the list takes its memory.
    pub fn allocator(&self) -> Global {
        *self.keys.allocator()
    }

    /// How many items there are.
    pub fn len(&self) -> usize
        ensures { result ≡ length self.now }
    {
        self.keys.len()
    }

    /// The item at the place, if there is one. Places count from 0.
    pub fn get(&self, place: usize) -> Option<&T>
        ensures { option_copied result ≡ slice_get self.now place }
    {
        let key = self.keys.get(place)?;
        self.items.get(*key)
    }

    /// The last item, if there is one.
    pub fn last(&self) -> Option<&T>
        ensures { option_copied result ≡ slice_get self.now (length self.now - 1) }
    {
        self.get(self.len().saturating_sub(1))
    }

    /// Appends the item. Where memory is lacking, the list stays as it is.
    pub fn push(&mut self, item: T) -> Result<(), NoMemory>
        ensures ok { OnOk result (self.new ≡ self.old ++ item ∷ []) }
        ensures err { OnErr result (self.new ≡ self.old) }
    {
        self.keys.reserve(1)?;
        let key = self.items.insert(item)?;
        self.keys.push_back_reserved(key);
        Ok(())
    }

    /// The item at the place, for writing.
    pub fn item_mut(&mut self, place: usize) -> &mut T
        requires { place < length self.old }
        ensures* writes_back { sem 𝓛
            (Lends (the_row T.row) T.row self.entry result (slice_set self.old place)) }
        ensures value { slice_get self.old place ≡ Some result.now }
    {
        let key = self.keys[place];
        &mut self.items[key]
    }

    /// Removes the item at the place and returns it, if there is one.
    pub fn remove(&mut self, place: usize) -> Option<T>
        ensures taken { result ≡ slice_get self.old place }
        ensures rest { self.new ≡ remove self.old place }
    {
        let key = self.keys.remove(place)?;
        Some(self.items.remove(key))
    }
}
