//! The locks of each record.

ghost use Rattle.std.specs.Prelude.{◌≡◌, ℕ, ◌==◌, OnErr, OnOk, nat_eq, true, false};
ghost use Rattle.std.specs.List.{list_any};
ghost use Rattle.vp_locks.specs.Holders.{HasLess, HasMore, HasSame, holder_of};
ghost use Rattle.vp_locks.specs.Index.{KeepsAll, on_rec, places_of};
ghost use Rattle.vp_locks.specs.Keys.{Holder, holder_cmp};
ghost use Rattle.vp_locks.specs.Places.{lock_at, passes};
ghost use Rattle.std.specs.BTreeSet.{contains};

use crate::holders::{Holder, Holders};
use crate::key::owner_key;
use crate::places::Places;
use crate::slots::is_on;
use std::alloc::Global;
use vp_base::{Lock, NoMemory, RecId};

fn holder_of(lock: &Lock, place: usize) -> Holder
    ensures { result ≡ holder_of lock.now place }
{
    (lock.rec.get(), owner_key(&lock.owner), place)
}

/// The locks of each record: all of them by their owners, and the places of the exclusive ones, since only those conflict with a
/// shared lock. A list of those may have further places, which a search passes over.
#[derive(Drop)]
pub(crate) struct RecLocks {
    pub(crate) holders: Holders,
    pub(crate) exclusive: Places<u8>,
}

impl RecLocks {
    pub(crate) fn new(alloc: Global) -> RecLocks
        ensures { (holder : Holder) → contains holder_cmp result.holders.set holder ≡ false }
    {
        RecLocks {
            holders: Holders::new(alloc),
            exclusive: Places::new(alloc),
        }
    }

    /// Adds a lock at a place.
    pub(crate) fn note(&mut self, lock: &Lock, place: usize) -> Result<(), NoMemory>
        ensures noted { OnOk result
            (HasMore (holder_of lock.now place) self.old.holders.set self.new.holders.set) }
        ensures err { OnErr result (HasSame self.old.holders.set self.new.holders.set) }
        ensures kept { KeepsAll self.old.exclusive.lists self.new.exclusive.lists }
        ensures exclusive { OnOk result
            (lock.now.exclusive ≡ true →
            list_any (λ k. k == place) (places_of nat_eq self.new.exclusive.lists lock.now.rec) ≡ true) }
    {
        if lock.exclusive {
            self.exclusive.note_once(lock.rec.get(), place)?;
        }
        self.holders.note(holder_of(lock, place))
    }

    /// Lists the places at which there is a lock on the record among those of its exclusive locks.
    pub(crate) fn note_exclusive(
        &mut self,
        slots: &[Option<Lock>],
        places: &[usize],
        rec: RecId,
    ) -> Result<(), NoMemory>
        ensures holders { self.new.holders ≡ self.old.holders }
        ensures kept { KeepsAll self.old.exclusive.lists self.new.exclusive.lists }
        ensures noted { OnOk result
            ((place : ℕ) → list_any (λ k. k == place) places.now ≡ true →
            passes (λ lock. on_rec lock rec) (lock_at slots.now place) ≡ true →
            list_any (λ k. k == place) (places_of nat_eq self.new.exclusive.lists rec) ≡ true) }
    {
        for place in places {
            if is_on(slots, *place, rec) {
                self.exclusive.note_once(rec.get(), *place)?;
            }
        }
        Ok(())
    }

    /// Removes the lock at a place.
    pub(crate) fn forget(&mut self, lock: &Lock, place: usize)
        ensures holders { HasLess (holder_of lock.now place) self.old.holders.set self.new.holders.set }
        ensures kept { (rec other : ℕ) → (other == place) ≡ false →
            list_any (λ k. k == other) (places_of nat_eq self.old.exclusive.lists rec) ≡ true →
            list_any (λ k. k == other) (places_of nat_eq self.new.exclusive.lists rec) ≡ true }
    {
        self.holders.forget(&holder_of(lock, place));
        if lock.exclusive {
            self.exclusive.forget(&lock.rec.get(), place);
        }
    }
}
