//! The lock table of a site. A contract sees it as the list of its locks, in the order in which they were taken. Locks are shared
//! or exclusive, and the transaction keeps them to its end: strict two-phase locking (Bernstein, Hadzilacos and Goodman 1987,
//! chapter 3).
#![tactic(auto)]

ghost use Rattle.std.specs.Prelude.{◌≡◌, ◌==◌, ◌++◌, ◌∷◌, [], is_ok, not, ◌&&◌, ◌||◌, Some, None, option_copied, if◌then◌else◌, filter, map, fold, true, false};
ghost use Rattle.std.specs.List.{filter_map, list_any};
ghost use Rattle.std.specs.Option.{option_map_or};
ghost use Rattle.vp_base.specs.declared.entry.Owner.TheVariants as owner;
ghost use Rattle.vp_locks.specs.Faults.{holder_in};
ghost use Rattle.vp_locks.specs.Index.{exclusive_on};
ghost use Rattle.vp_locks.specs.Places.{lock_at, passes};
ghost use Rattle.vp_model.specs.Locks.{conflict, conflicting, least_owner, holds, with_lock, with_guard, without_owner, without_guard, without_shared, lesser, raised};
ghost use Rattle.vp_locks.specs.Staying.{stays};
ghost use Rattle.vp_model.specs.Words.{same_owner, owner_before};

mod holders;
mod keeps;
mod key;
mod places;
mod rec_locks;
mod slots;

use keeps::KeepRule;
pub use keeps::Keeps;
use key::{OwnerKey, owner_key};
use places::Places;
use rec_locks::RecLocks;
use slots::{lock_at, raise, sweep, sweep_all};
use std::alloc::Global;
use std::marker::Model;
use vp_base::{CopyOf, Lock, NoMemory, Owner, RecId, TxnId};
use vp_lists::{is_same_owner, owner_comes_before};

/// Why a lock isn't taken: another owner has a lock that conflicts with it, or memory is lacking.
#[derive(Clone, Copy, Drop)]
pub enum LockFault {
    /// This owner has a lock that conflicts; of several such owners, the least one.
    Held { owner: Owner },
    /// Memory is lacking. The table is as it was.
    NoMemory,
}

impl From<NoMemory> for LockFault {
    ghost use Rattle.vp_locks.specs.declared.LockFault.TheVariants as fault;

    ghost from_gives = { λ _ e. e ≡ fault.NoMemory };

    fn from(_e: NoMemory) -> LockFault {
        LockFault::NoMemory
    }
}

/// The lower of the least owner so far and another.
fn lesser_of(best: Option<Owner>, owner: &Owner) -> Owner
    ensures { result ≡ lesser best owner.now }
{
    match best {
        None => *owner,
        Some(best) => {
            if owner_comes_before(owner, &best) {
                *owner
            } else {
                best
            }
        }
    }
}

/// The lower of the least owner so far and the lock's owner, if the lock is another owner's and an exclusive one on the record.
fn least_with(best: Option<Owner>, lock: Option<&Lock>, rec: RecId, owner: &Owner) -> Option<Owner>
    ensures { result ≡
        option_map_or
        (λ lock. if exclusive_on lock rec && not (same_owner lock.owner owner.now)
        then Some (lesser best lock.owner) else best)
        (option_copied lock.entry) best }
{
    match lock {
        Some(lock) if lock.rec == rec && lock.exclusive && !is_same_owner(&lock.owner, owner) => {
            Some(lesser_of(best, &lock.owner))
        }
        _ => best,
    }
}

/// The least owner, other than `owner`, of the exclusive locks on the record at the places.
fn least_exclusive(
    slots: &[Option<Lock>],
    places: &[usize],
    rec: RecId,
    owner: &Owner,
) -> Option<Owner>
    ensures { result ≡
        least_owner
        (filter (λ lock. exclusive_on lock rec && not (same_owner lock.owner owner.now))
        (filter_map (lock_at slots.now) places.now)) }
{
    let mut best = None;
    for place in places {
        best = least_with(best, lock_at(slots, *place), rec, owner);
    }
    best
}

/// Whether the lock is the owner's, and an exclusive one on the record.
fn is_held(lock: Option<&Lock>, rec: RecId, owner: &Owner) -> bool
    ensures { result ≡
        passes (λ lock. exclusive_on lock rec && same_owner lock.owner owner.now) (option_copied lock.entry) }
{
    match lock {
        Some(lock) => lock.rec == rec && lock.exclusive && is_same_owner(&lock.owner, owner),
        None => false,
    }
}

/// Whether one of the locks at the places is the owner's, and an exclusive one on the record.
fn is_among(slots: &[Option<Lock>], places: &[usize], rec: RecId, owner: &Owner) -> bool
    ensures { result ≡
        list_any (λ lock. exclusive_on lock rec && same_owner lock.owner owner.now)
        (filter_map (lock_at slots.now) places.now) }
{
    for place in places {
        if is_held(lock_at(slots, *place), rec, owner) {
            return true;
        }
    }
    false
}

/// How many slots a table may use beyond four times the locks that it had when it was last copied.
const ROOM: usize = 64;

/// The locks at a site, in slots in the order in which they were taken. The locks of each record are listed by their owners, so that
/// the least one is found at once, and for each owner there are the places of its locks: a question about a record or an owner reads
/// no other locks. A lock that is released leaves an empty slot. When the slots reach the limit, the table is replaced by a copy
/// without empty slots; by then as many locks were taken as the copy has, so this costs no more than a constant for each lock.
pub struct Locks {
    slots: Vec<Option<Lock>>,
    by_rec: RecLocks,
    by_owner: Places<OwnerKey>,
    limit: usize,
}

impl Drop for Locks {
    fn drop(self) {
        let Locks {
            slots: _,
            by_rec: _,
            by_owner: _,
            limit: _,
        } = self;
    }
}

impl Model for Locks {
    ghost use Rattle.std.specs.Prelude.{List};
    ghost use Rattle.vp_base.specs.declared.site.Lock.{Lock};
    ghost use Rattle.vp_locks.specs.Index.{IsOwnerIndex, IsRecIndex};
    ghost use Rattle.vp_locks.specs.Places.{present_locks};

    ghost Value = { List Lock };

    ghost view = { λ a. present_locks a.slots.items };

    ghost invariant = { λ a. IsRecIndex a.by_rec a.slots.items × IsOwnerIndex a.by_owner.lists a.slots.items };
}

impl CopyOf for Locks {
    fn copy_of(&self) -> Result<Locks, NoMemory> {
        let mut copy = Locks::new(*self.slots.allocator());
        for slot in &self.slots {
            if let Some(lock) = slot {
                copy.append(lock.rec, lock.exclusive, &lock.owner)?;
            }
        }
        copy.limit = copy.slots.len().saturating_mul(4).saturating_add(ROOM);
        Ok(copy)
    }
}

impl Locks {
    /// Makes a table without locks. Takes no memory.
    pub fn new(alloc: Global) -> Locks
        ensures { result ≡ [] }
    {
        Locks {
            slots: Vec::new(alloc),
            by_rec: RecLocks::new(alloc),
            by_owner: Places::new(alloc),
            limit: ROOM,
        }
    }

    /// The least other owner whose lock conflicts with such a lock of this owner.
    fn blocker(&self, rec: RecId, exclusive: bool, owner: &Owner) -> Option<Owner>
        ensures { result ≡ least_owner (conflicting rec exclusive owner.now self.now) }
    {
        if exclusive {
            let holders = &self.by_rec.holders;
            let place = holders.least_other(rec.get(), owner_key(owner))?;
            Some(lock_at(&self.slots, place)?.owner)
        } else {
            let places = self.by_rec.exclusive.of(&rec.get());
            least_exclusive(&self.slots, places, rec, owner)
        }
    }

    /// Whether the owner has the lock.
    fn has(&self, rec: RecId, exclusive: bool, owner: &Owner) -> bool
        ensures { result ≡ holds rec exclusive owner.now self.now }
    {
        if exclusive {
            let places = self.by_rec.exclusive.of(&rec.get());
            is_among(&self.slots, places, rec, owner)
        } else {
            self.by_rec.holders.has(rec.get(), owner_key(owner))
        }
    }

    fn put(&mut self, rec: RecId, exclusive: bool, owner: &Owner) -> Result<(), NoMemory>
        ensures { self.new ≡ (if is_ok result then with_lock rec exclusive owner.now self.old else self.old) }
    {
        if !self.has(rec, false, owner) {
            self.add(rec, exclusive, owner)
        } else if exclusive {
            self.raise(rec, owner)
        } else {
            Ok(())
        }
    }

    /// Makes the owner's lock on the record exclusive.
    fn raise(&mut self, rec: RecId, owner: &Owner) -> Result<(), NoMemory>
        ensures { self.new ≡ (if is_ok result then map (raised rec true owner.now) self.old else self.old) }
    {
        let alloc = *self.slots.allocator();
        let holders = &self.by_rec.holders;
        let places = holders.places(alloc, rec.get(), owner_key(owner))?;
        self.by_rec.note_exclusive(&self.slots, &places, rec)?;
        raise(&mut self.slots, &places, rec, owner);
        Ok(())
    }

    /// Appends a lock, whoever else has one on the record.
    pub fn add(&mut self, rec: RecId, exclusive: bool, owner: &Owner) -> Result<(), NoMemory>
        ensures { self.new ≡
            (if is_ok result then self.old ++
            (record { rec = rec; exclusive = exclusive; owner = owner.now }) ∷ [] else self.old) }
    {
        if self.slots.len() >= self.limit {
            *self = self.copy_of()?;
        }
        self.append(rec, exclusive, owner)
    }

    /// Appends a lock, in a slot of its own.
    fn append(&mut self, rec: RecId, exclusive: bool, owner: &Owner) -> Result<(), NoMemory>
        ensures { self.new ≡
            (if is_ok result then self.old ++
            (record { rec = rec; exclusive = exclusive; owner = owner.now }) ∷ [] else self.old) }
    {
        let place = self.slots.len();
        let lock = Lock {
            rec,
            exclusive,
            owner: *owner,
        };
        self.slots.reserve(1)?;
        self.by_rec.note(&lock, place)?;
        if let Err(fault) = self.by_owner.note(owner_key(owner), place) {
            self.by_rec.forget(&lock, place);
            return Err(fault);
        }
        self.slots.push(Some(lock))?;
        Ok(())
    }

    fn take(&mut self, rec: RecId, exclusive: bool, txn: TxnId) -> Result<(), LockFault>
        ensures held { holder_in result ≡ conflict rec exclusive txn self.old }
        ensures locks { self.new ≡
            (if is_ok result then with_lock rec exclusive (owner.Txn txn) self.old else self.old) }
    {
        let taker = Owner::Txn(txn);
        match self.blocker(rec, exclusive, &taker) {
            Some(owner) => Err(LockFault::Held { owner }),
            None => {
                self.put(rec, exclusive, &taker)?;
                Ok(())
            }
        }
    }

    /// Releases the locks of the owner, except those that are to be kept.
    fn sweep(&mut self, owner: &Owner, staying: KeepRule)
        ensures { self.new ≡
            filter (λ lock. not (same_owner lock.owner owner.now) || stays staying lock) self.old }
    {
        sweep(
            &mut self.slots,
            &mut self.by_rec,
            self.by_owner.of(&owner_key(owner)),
            &staying,
        );
        self.by_owner.keep_taken(&owner_key(owner), &self.slots);
    }

    /// The least other owner with a lock on the record that conflicts with such a lock of the transaction.
    pub fn conflict(&self, rec: RecId, exclusive: bool, txn: TxnId) -> Option<Owner>
        ensures { result ≡ conflict rec exclusive txn self.now }
    {
        self.blocker(rec, exclusive, &Owner::Txn(txn))
    }

    /// Whether the transaction has a lock on the record, and an exclusive one where that is required.
    pub fn holds(&self, rec: RecId, exclusive: bool, txn: TxnId) -> bool
        ensures { result ≡ holds rec exclusive (owner.Txn txn) self.now }
    {
        self.has(rec, exclusive, &Owner::Txn(txn))
    }

    /// Takes a shared lock for the transaction, or keeps the exclusive one that it has. A conflict leaves the table as it was.
    pub fn take_shared(&mut self, rec: RecId, txn: TxnId) -> Result<(), LockFault>
        ensures held { holder_in result ≡ conflict rec false txn self.old }
        ensures locks { self.new ≡
            (if is_ok result then with_lock rec false (owner.Txn txn) self.old else self.old) }
    {
        self.take(rec, false, txn)
    }

    /// Takes an exclusive lock for the transaction; a shared one that it has becomes exclusive. A conflict leaves the table as it
    /// was.
    pub fn take_exclusive(&mut self, rec: RecId, txn: TxnId) -> Result<(), LockFault>
        ensures held { holder_in result ≡ conflict rec true txn self.old }
        ensures locks { self.new ≡
            (if is_ok result then with_lock rec true (owner.Txn txn) self.old else self.old) }
    {
        self.take(rec, true, txn)
    }

    /// Gives the transaction an exclusive lock, whoever else has a lock on the record.
    pub fn hold(&mut self, rec: RecId, txn: TxnId) -> Result<(), NoMemory>
        ensures { self.new ≡
            (if is_ok result then with_lock rec true (owner.Txn txn) self.old else self.old) }
    {
        self.put(rec, true, &Owner::Txn(txn))
    }

    /// Gives the refresh of the record's copy its lock, whoever else has a lock on the record.
    pub fn guard(&mut self, rec: RecId) -> Result<(), NoMemory>
        ensures { self.new ≡ (if is_ok result then with_guard rec self.old else self.old) }
    {
        self.put(rec, true, &Owner::Refresh)
    }

    /// Releases the lock that the refresh of the record's copy has.
    pub fn unguard(&mut self, rec: RecId)
        ensures { self.new ≡ without_guard rec self.old }
    {
        self.sweep(&Owner::Refresh, KeepRule::Elsewhere { rec });
    }

    /// Releases all locks of the transaction.
    pub fn release(&mut self, txn: TxnId)
        ensures { self.new ≡ without_owner (owner.Txn txn) self.old }
    {
        self.sweep(&Owner::Txn(txn), KeepRule::None);
    }

    /// Releases the shared locks of the transaction, and keeps its exclusive ones.
    pub fn release_shared(&mut self, txn: TxnId)
        ensures { self.new ≡ without_shared (owner.Txn txn) self.old }
    {
        self.sweep(&Owner::Txn(txn), KeepRule::Exclusive);
    }

    /// Releases all locks except those that `kept` keeps.
    pub fn retain<K: Keeps>(&mut self, kept: &K)
        ensures { self.new ≡ filter (K.keeps kept.now) self.old }
    {
        sweep_all(&mut self.slots, &mut self.by_rec, &mut self.by_owner, kept);
    }
}
