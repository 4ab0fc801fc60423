//! The locks of each record, by their owners.

ghost use Rattle.std.specs.Prelude.{◌≡◌, ℕ, true, false, OnErr, OnOk, IfOk, IfSome, IfNone};
ghost use Rattle.std.specs.BTreeSet.{contains};
ghost use Rattle.std.specs.Bool.{OnTrue, OnFalse};
ghost use Rattle.vp_locks.specs.Keys.{Holder, OwnerKey, holder_cmp, key_eq};
ghost use Rattle.vp_locks.specs.Holders.{HasLess, HasMore, HasNoneFrom, HasSame, IsFirstFrom, IsLeastOther, places_between};

use crate::key::OwnerKey;
use std::alloc::Global;
use std::collections::BTreeSet;
use std::ops::Bound;
use vp_base::NoMemory;

/// A lock by its record, its owner and its place.
pub(crate) type Holder = (u8, OwnerKey, usize);

/// No owner's key is below this one.
const LEAST_KEY: OwnerKey = (0, 0, 0, 0);

/// Locks, those of a record in the order of their owners.
#[derive(Drop)]
pub(crate) struct Holders {
    pub(crate) set: BTreeSet<Holder>,
}

impl Holders {
    pub(crate) fn new(alloc: Global) -> Holders
        ensures { (holder : Holder) → contains holder_cmp result.set holder ≡ false }
    {
        Holders {
            set: BTreeSet::new(alloc),
        }
    }

    /// The first of them from a bound on.
    fn first_from(&self, start: Bound<Holder>) -> Option<Holder>
        ensures first { IfSome result (IsFirstFrom start self.now.set) }
        ensures none { IfNone result (HasNoneFrom start self.now.set) }
    {
        self.set.range((start, Bound::Unbounded)).next().copied()
    }

    /// Whether the owner has a lock on the record.
    pub(crate) fn has(&self, rec: u8, owner: OwnerKey) -> bool
        ensures found { OnTrue result
            ((place : ℕ) × (contains holder_cmp self.now.set (rec, owner, place) ≡ true)) }
        ensures absent { OnFalse result
            ((place : ℕ) → contains holder_cmp self.now.set (rec, owner, place) ≡ false) }
    {
        match self.first_from(Bound::Included((rec, owner, 0))) {
            Some(first) => first.0 == rec && first.1 == owner,
            None => false,
        }
    }

    /// The place of a lock on the record whose owner is the least one other than this.
    pub(crate) fn least_other(&self, rec: u8, owner: OwnerKey) -> Option<usize>
        ensures least { IfSome result (IsLeastOther rec owner self.now.set) }
        ensures none { IfNone result
            ((key : OwnerKey) (place : ℕ) → contains holder_cmp self.now.set (rec, key, place) ≡ true →
            key_eq key owner ≡ true) }
    {
        let mut first = self.first_from(Bound::Included((rec, LEAST_KEY, 0)))?;
        if first.0 == rec && first.1 == owner {
            first = self.first_from(Bound::Excluded((rec, owner, usize::MAX)))?;
        }
        (first.0 == rec).then_some(first.2)
    }

    /// The places of the owner's locks on the record.
    pub(crate) fn places(
        &self,
        alloc: Global,
        rec: u8,
        owner: OwnerKey,
    ) -> Result<Vec<usize>, NoMemory>
        ensures { IfOk result
            (λ places. places.items ≡ places_between rec owner self.now.set) }
    {
        let mut places = Vec::new(alloc);
        for holder in self.set.range((rec, owner, 0)..=(rec, owner, usize::MAX)) {
            places.push(holder.2)?;
        }
        Ok(places)
    }

    /// Adds a lock.
    pub(crate) fn note(&mut self, holder: Holder) -> Result<(), NoMemory>
        ensures noted { OnOk result (HasMore holder self.old.set self.new.set) }
        ensures err { OnErr result (HasSame self.old.set self.new.set) }
    {
        self.set.insert(holder)?;
        Ok(())
    }

    /// Removes a lock.
    pub(crate) fn forget(&mut self, holder: &Holder)
        ensures { HasLess holder.now self.old.set self.new.set }
    {
        self.set.remove(holder);
    }
}
