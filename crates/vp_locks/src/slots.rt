//! Slots for locks: each holds a lock, or held one.

ghost use Rattle.std.specs.Prelude.{◌≡◌, ◌<◌, IfSome, None, Some, fold, if◌then◌else◌, is_some, length, map, true, false};
ghost use Rattle.std.specs.Option.{option_copied, option_map_or};
ghost use Rattle.vp_locks.specs.Index.{IsOwnerIndex, IsRecIndex, on_rec};
ghost use Rattle.vp_locks.specs.Places.{if_kept, lock_at, passes, revise_slot};
ghost use Rattle.vp_model.specs.Locks.{raised};

use crate::keeps::Keeps;
use crate::key::{OwnerKey, owner_key};
use crate::places::Places;
use crate::rec_locks::RecLocks;
use vp_base::{Lock, Owner, RecId};
use vp_lists::is_same_owner;

/// The lock at a place.
pub(crate) fn lock_at(slots: &[Option<Lock>], place: usize) -> Option<&Lock>
    ensures lock { option_copied result ≡ lock_at slots.now place }
    ensures within { IfSome result (λ _. place < length slots.now) }
{
    slots.get(place)?.as_ref()
}

/// Whether there is a lock at the place.
pub(crate) fn is_taken(slots: &[Option<Lock>], place: usize) -> bool
    ensures { result ≡ is_some (lock_at slots.now place) }
{
    lock_at(slots, place).is_some()
}

/// Whether there is a lock on the record at the place.
pub(crate) fn is_on(slots: &[Option<Lock>], place: usize, rec: RecId) -> bool
    ensures { result ≡ passes (λ lock. on_rec lock rec) (lock_at slots.now place) }
{
    match lock_at(slots, place) {
        Some(lock) => lock.rec == rec,
        None => false,
    }
}

/// The lock, made exclusive where it is the owner's on the record.
fn raised(lock: &Lock, rec: RecId, owner: &Owner) -> Lock
    ensures { result ≡ raised rec true owner.now lock.now }
{
    let is_own = lock.rec == rec && is_same_owner(&lock.owner, owner);
    Lock {
        rec: lock.rec,
        exclusive: lock.exclusive || is_own,
        owner: lock.owner,
    }
}

fn raise_at(slots: &mut [Option<Lock>], place: usize, rec: RecId, owner: &Owner)
    ensures { slots.new ≡ revise_slot (λ lock. Some (raised rec true owner.now lock)) slots.old place }
{
    if let Some(lock) = lock_at(slots, place) {
        slots[place] = Some(raised(lock, rec, owner));
    }
}

/// Makes those locks at the places exclusive that are the owner's on the record.
pub(crate) fn raise(slots: &mut [Option<Lock>], places: &[usize], rec: RecId, owner: &Owner)
    ensures { slots.new ≡
        fold (revise_slot (λ lock. Some (raised rec true owner.now lock))) slots.old places.now }
{
    for place in places {
        raise_at(slots, *place, rec, owner);
    }
}

/// Releases the lock at the place unless it is kept, and returns its owner.
fn sweep_at<K: Keeps>(
    slots: &mut [Option<Lock>],
    by_rec: &mut RecLocks,
    place: usize,
    kept: &K,
) -> Option<Owner>
    requires index { IsRecIndex by_rec.old slots.old }
    ensures slots { slots.new ≡ revise_slot (if_kept (K.keeps kept.now)) slots.old place }
    ensures index { IsRecIndex by_rec.new slots.new }
    ensures owner { result ≡
        option_map_or (λ lock. if K.keeps kept.now lock then None else Some lock.owner)
        (lock_at slots.old place) None }
{
    let lock = lock_at(slots, place)?;
    if kept.keeps(lock) {
        return None;
    }
    let owner = lock.owner;
    by_rec.forget(lock, place);
    slots[place] = None;
    Some(owner)
}

/// Releases the locks at the places, except those that are kept.
pub(crate) fn sweep<K: Keeps>(
    slots: &mut [Option<Lock>],
    by_rec: &mut RecLocks,
    places: &[usize],
    kept: &K,
)
    requires index { IsRecIndex by_rec.old slots.old }
    ensures slots { slots.new ≡ fold (revise_slot (if_kept (K.keeps kept.now))) slots.old places.now }
    ensures index { IsRecIndex by_rec.new slots.new }
{
    for place in places {
        sweep_at(slots, by_rec, *place, kept);
    }
}

/// Releases all locks except those that are kept.
pub(crate) fn sweep_all<K: Keeps>(
    slots: &mut [Option<Lock>],
    by_rec: &mut RecLocks,
    by_owner: &mut Places<OwnerKey>,
    kept: &K,
)
    requires records { IsRecIndex by_rec.old slots.old }
    requires owners { IsOwnerIndex by_owner.old.lists slots.old }
    ensures slots { slots.new ≡ map (λ s. option_map_or (if_kept (K.keeps kept.now)) s None) slots.old }
    ensures records { IsRecIndex by_rec.new slots.new }
    ensures owners { IsOwnerIndex by_owner.new.lists slots.new }
{
    for place in 0..slots.len() {
        if let Some(owner) = sweep_at(slots, by_rec, place, kept) {
            by_owner.forget(&owner_key(&owner), place);
        }
    }
}
