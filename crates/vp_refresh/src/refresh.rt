//! The copies under refresh.

ghost use Rattle.std.specs.Prelude.{◌≡◌, ◌==◌, [], not, nat_lt, OnOk, OnErr, IfOk, IfSome, filter, map, option_map, option_copied};
ghost use Rattle.vp_model.specs.Words.{put};
ghost use Rattle.vp_model.specs.Refresh.{refreshing_of};
ghost use Rattle.vp_model.specs.Messages.{with_answer};
ghost use Rattle.vp_refresh.specs.Asking.{missing_of};
ghost use Rattle.vp_refresh.specs.Done.{done_of};
ghost use Rattle.vp_refresh.specs.Newest.{IsNewestIn};

use crate::asked::RefreshEntry;
use crate::done::Done;
use std::alloc::Global;
use std::marker::Model;
use vp_base::{CopyOf, NoMemory, RecId, SiteId, Sites, Stored, View};
use vp_catalog::Catalog;
use vp_lists::{copy_all, place_among, put_among, remove_among};

/// The copies of a site that are under refresh. They ascend by record, and one is found by halving.
pub struct Refresh {
    listed: Vec<RefreshEntry>,
}

impl Drop for Refresh {
    fn drop(self) {
        let Refresh { listed: _ } = self;
    }
}

impl Model for Refresh {
    ghost use Rattle.std.specs.Prelude.{List, map};
    ghost use Rattle.std.specs.List.Sorted.{IsStrictlyIncreasing};
    ghost use Rattle.vp_model.specs.Types.{Refreshing};

    ghost Value = { List Refreshing };

    ghost view = { λ r. r.listed.items };

    ghost invariant = { λ r. IsStrictlyIncreasing (map (λ asked. asked.rec) r.listed.items) };
}

impl CopyOf for Refresh {
    fn copy_of(&self) -> Result<Refresh, NoMemory> {
        let listed = copy_all(*self.listed.allocator(), &self.listed)?;
        Ok(Refresh { listed })
    }
}

impl Refresh {
    /// Makes an empty list, with no copy under refresh. Takes no memory.
    pub fn none(alloc: Global) -> Refresh
        ensures { result ≡ [] }
    {
        Refresh {
            listed: Vec::new(alloc),
        }
    }

    /// Begins the refresh of the record's copy, and forgets what came for it before. Where memory is lacking, nothing changes.
    pub fn begin(&mut self, rec: RecId) -> Result<(), NoMemory>
        ensures ok { OnOk result
            (self.new ≡
            put (λ a b. a.rec == b.rec) (λ a b. nat_lt a.rec b.rec) (record { rec = rec; answers = [] })
            self.old) }
        ensures err { OnErr result (self.new ≡ self.old) }
    {
        let alloc = *self.listed.allocator();
        put_among(&mut self.listed, RefreshEntry::new(alloc, rec))
    }

    /// The copies under refresh, ascending by record.
    pub fn as_slice(&self) -> &[RefreshEntry]
        ensures { result.now ≡ self.now }
    {
        &self.listed
    }

    fn find(&self, rec: RecId) -> Option<&RefreshEntry>
        ensures { option_copied result ≡ refreshing_of rec self.now }
    {
        match place_among(&self.listed, rec) {
            None => None,
            Some(place) => Some(&self.listed[place]),
        }
    }

    /// The other holders in the view that have not answered for the record, ascending; `None` where its copy is not under refresh.
    pub fn missing(
        &self,
        catalog: &Catalog,
        id: SiteId,
        held: Option<&View>,
        rec: RecId,
    ) -> Result<Option<Sites>, NoMemory>
        ensures { IfOk result
            (λ sites. sites ≡
            option_map (missing_of catalog.now id (option_copied held.entry)) (refreshing_of rec self.now)) }
    {
        match self.find(rec) {
            None => Ok(None),
            Some(asked) => Ok(Some(asked.missing(catalog, id, held)?)),
        }
    }

    /// Keeps the copy that the site has answered with. After want of memory the list may be changed in part: drop it.
    pub fn on_answer(&mut self, from: SiteId, rec: RecId, stored: &Stored) -> Result<(), NoMemory>
        ensures { OnOk result (self.new ≡ map (with_answer rec from stored.now) self.old) }
    {
        match place_among(&self.listed, rec) {
            None => Ok(()),
            Some(place) => self.listed[place].keep(from, stored),
        }
    }

    /// The newest of the own copy and those that have come for the record, with the weights by its table; `None` where its copy is
    /// not under refresh.
    pub fn done(
        &self,
        catalog: &Catalog,
        members: &Sites,
        rec: RecId,
        own: &Stored,
    ) -> Result<Option<Done>, NoMemory>
        ensures done { IfOk result
            (λ done. done ≡ option_map (done_of catalog.now members.now own.now) (refreshing_of rec self.now)) }
        ensures newest { IfOk result (λ done. IfSome done (λ d. IsNewestIn rec own.now self.now d.stored)) }
    {
        match self.find(rec) {
            None => Ok(None),
            Some(asked) => Ok(Some(asked.done(catalog, members, own)?)),
        }
    }

    /// Ends all refreshes; nothing is copied.
    pub fn clear(&mut self)
        ensures { self.new ≡ [] }
    {
        self.listed.clear();
    }

    /// Ends the refresh of the record's copy; nothing is copied.
    pub fn unlist(&mut self, rec: RecId)
        ensures { self.new ≡ filter (λ r. not (r.rec == rec)) self.old }
    {
        remove_among(&mut self.listed, rec);
    }
}
