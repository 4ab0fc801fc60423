//! A copy under refresh, with the copies that have come for it.

ghost use Rattle.std.specs.Prelude.{◌≡◌, [], OnOk, IfOk, option_copied};
ghost use Rattle.vp_model.specs.Words.{has, keys, put_at};
ghost use Rattle.vp_refresh.specs.Asking.{missing_of};
ghost use Rattle.vp_refresh.specs.Done.{done_of};
ghost use Rattle.vp_refresh.specs.Newest.{IsNewest};

use crate::done::Done;
use crate::newest::newest;
use std::alloc::Global;
use std::marker::Model;
use std::mem;
use vp_base::{CopyOf, NoMemory, RecId, Refreshing, Seq, SiteId, Sites, Stored, View};
use vp_catalog::Catalog;
use vp_lists::{OfRec, put_in};

/// A copy under refresh, with the copies that other sites have sent, ascending by site.
#[derive(Drop)]
pub struct RefreshEntry {
    refreshing: Refreshing,
}

impl Model for RefreshEntry {
    ghost use Rattle.vp_model.specs.Types.{Refreshing};
    ghost use Rattle.vp_refresh.specs.Newest.{Ascends};

    ghost Value = { Refreshing };

    ghost view = { λ a. a.refreshing };

    ghost invariant = { λ a. Ascends a.refreshing.answers };
}

impl CopyOf for RefreshEntry {
    fn copy_of(&self) -> Result<RefreshEntry, NoMemory> {
        Ok(RefreshEntry {
            refreshing: self.refreshing.copy_of()?,
        })
    }
}

impl OfRec for RefreshEntry {
    ghost rec = { λ a. a.rec };

    fn rec_of(&self) -> RecId {
        self.refreshing.rec
    }
}

impl RefreshEntry {
    /// Begins with no copies of other sites.
    pub(crate) fn new(alloc: Global, rec: RecId) -> RefreshEntry
        ensures { result ≡ record { rec = rec; answers = [] } }
    {
        RefreshEntry {
            refreshing: Refreshing {
                rec,
                answers: Seq::new(alloc),
            },
        }
    }

    /// The record.
    pub fn rec(&self) -> RecId
        ensures { result ≡ self.now.rec }
    {
        self.refreshing.rec
    }

    fn has_answer(&self, site: SiteId) -> bool
        ensures { result ≡ has (keys self.now.answers) site }
    {
        self.refreshing
            .answers
            .as_slice()
            .iter()
            .map(|answer| answer.0)
            .any(|other| other == site)
    }

    /// The other holders in the view that have not answered, ascending; none where no view is held.
    pub fn missing(
        &self,
        catalog: &Catalog,
        id: SiteId,
        held: Option<&View>,
    ) -> Result<Sites, NoMemory>
        ensures { IfOk result
            (λ sites. sites ≡ missing_of catalog.now id (option_copied held.entry) self.now) }
    {
        let others = catalog.other_holders(id, held, self.refreshing.rec)?;
        let sites = others
            .as_slice()
            .iter()
            .copied()
            .filter(|site| !self.has_answer(*site))
            .collect(others.allocator())?;
        Ok(Sites::from_vec(sites))
    }

    /// Keeps the copy of the site. After want of memory the copies that had come may be lost.
    pub(crate) fn keep(&mut self, from: SiteId, stored: &Stored) -> Result<(), NoMemory>
        ensures kept { OnOk result
            (self.new ≡ record self.old { answers = put_at from stored.now self.old.answers }) }
        ensures rec { self.new.rec ≡ self.old.rec }
    {
        let stored = stored.copy_of()?;
        let none = Seq::new(self.refreshing.answers.allocator());
        let mut answers = mem::replace(&mut self.refreshing.answers, none);
        put_in(&mut answers, (from, stored))?;
        self.refreshing.answers = answers;
        Ok(())
    }

    /// The newest of the own copy and those that have come, with the weights by its table.
    pub(crate) fn done(
        &self,
        catalog: &Catalog,
        members: &Sites,
        own: &Stored,
    ) -> Result<Done, NoMemory>
        ensures done { IfOk result (λ done. done ≡ done_of catalog.now members.now own.now self.now) }
        ensures newest { IfOk result (λ done. IsNewest own.now self.now.answers done.stored) }
    {
        let newest = newest(own, self.refreshing.answers.as_slice());
        let (inside, total) = catalog.sums(self.refreshing.rec, newest.table.as_ref(), members);
        Ok(Done {
            stored: newest.copy_of()?,
            inside,
            total,
        })
    }
}
