//! Lists of the places of locks, by their records or by their owners.

ghost use Rattle.std.specs.Prelude.{◌≡◌, ℕ, ◌++◌, ◌∷◌, ◌==◌, [], OnErr, OnOk, filter, if◌then◌else◌, is_some, not, true};
ghost use Rattle.std.specs.List.{list_any};
ghost use Rattle.vp_locks.specs.Index.{Changes, places_of};
ghost use Rattle.vp_locks.specs.Places.{lock_at};

use crate::slots::is_taken;
use indexmap::IndexMap;
use std::alloc::Global;
use std::hash::Hash;
use vp_base::{Lock, NoMemory};

/// For each key a list of places, in the order in which the locks were taken.
#[derive(Drop)]
pub(crate) struct Places<K: Eq + Hash> {
    pub(crate) lists: IndexMap<K, Vec<usize>>,
}

impl<K: Eq + Hash + Drop> Places<K> {
    pub(crate) fn new(alloc: Global) -> Places<K>
        ensures { (q : K) → places_of K.eq result.lists q ≡ [] }
    {
        Places {
            lists: IndexMap::new(alloc),
        }
    }

    /// The places of the key.
    pub(crate) fn of(&self, key: &K) -> &[usize]
        ensures { result.now ≡ places_of K.eq self.now.lists key.now }
    {
        match self.lists.get(key) {
            Some(list) => list.as_slice(),
            None => &[],
        }
    }

    /// Whether the place is one of the key's.
    pub(crate) fn has(&self, key: &K, place: usize) -> bool
        ensures { result ≡ list_any (λ k. k == place) (places_of K.eq self.now.lists key.now) }
    {
        self.of(key).contains(&place)
    }

    /// Appends a place to the key's list.
    pub(crate) fn note(&mut self, key: K, place: usize) -> Result<(), NoMemory>
        ensures noted { OnOk result
            (Changes K.eq (K.eq key) (λ ps. ps ++ place ∷ []) self.old.lists self.new.lists) }
        ensures err { OnErr result
            ((q : K) → places_of K.eq self.new.lists q ≡ places_of K.eq self.old.lists q) }
    {
        self.lists.entry(key)?.or_default().push(place)?;
        Ok(())
    }

    /// Appends a place to the key's list, unless it is there already.
    pub(crate) fn note_once(&mut self, key: K, place: usize) -> Result<(), NoMemory>
        ensures noted { OnOk result (list_any (λ k. k == place) (places_of K.eq self.new.lists key) ≡ true) }
        ensures kept { (q : K) (n : ℕ) → list_any (λ k. k == n) (places_of K.eq self.old.lists q) ≡ true →
            list_any (λ k. k == n) (places_of K.eq self.new.lists q) ≡ true }
    {
        if self.has(&key, place) {
            return Ok(());
        }
        self.note(key, place)
    }

    /// Removes the place from the key's list. A key without places takes no memory.
    pub(crate) fn forget(&mut self, key: &K, place: usize)
        ensures { Changes K.eq (K.eq key.now) (filter (λ k. not (k == place))) self.old.lists self.new.lists }
    {
        let Some(list) = self.lists.get_mut(key) else {
            return;
        };
        list.retain(|other| *other != place);
        if list.is_empty() {
            self.lists.swap_remove(key);
        }
    }

    /// Removes those places of the key at which there is no lock any more. A key without places takes no memory.
    pub(crate) fn keep_taken(&mut self, key: &K, slots: &[Option<Lock>])
        ensures { Changes K.eq (K.eq key.now) (filter (λ k. is_some (lock_at slots.now k))) self.old.lists
            self.new.lists }
    {
        let Some(list) = self.lists.get_mut(key) else {
            return;
        };
        list.retain(|place| is_taken(slots, *place));
        if list.is_empty() {
            self.lists.swap_remove(key);
        }
    }
}
