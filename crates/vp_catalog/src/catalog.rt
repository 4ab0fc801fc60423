//! The catalogue and its look-ups.

ghost use Rattle.std.specs.Prelude.{◌≡◌, ◌≤◌, ◌<◌, ◌++◌, ◌∷◌, [], length, map, slice_get, option_map, option_copied, if◌then◌else◌, is_ok, nat_lt, false, IsTrue, Some, None, OnOk, IfOk, IfSome};
ghost use Rattle.std.specs.List.{list_any};
ghost use Rattle.vp_model.specs.Words.{first, keys, value_at, has};
ghost use Rattle.vp_model.specs.Refresh.{members_in, other_holders_in};
ghost use Rattle.vp_catalog.specs.Entries.{IsSite, IsRecord, last_site, has_port, has_name};
ghost use Rattle.vp_catalog.specs.Adding.{IsAllowed, Adds};
ghost use Rattle.vp_catalog.specs.Document.{IsCatalogueSoFar};
ghost use Rattle.vp_model.specs.Catalogue.{sites_of, find_record, weights_of, holders, has_holders, inside, total, accessible, table_or, weight, weight_inside, weight_total, start_copies, copies_from};

use crate::entry::Entry;
use crate::fault::CatalogFault;
use crate::others::{least_other, others_in};
use crate::placed::{CatalogRecord, has_common, number_of};
use indexmap::IndexSet;
use std::alloc::Global;
use std::marker::Model;
use vp_base::{
    Copies, CopyOf, MOST_RECORDS, Name, Names, NoMemory, RecId, SiteId, Sites, Stored, Table,
    Value, View, ViewId, has_site,
};

/// Sites with their ports, ascending by site, and at most 256 records, known by their places. The bytes of the records' names are
/// in a separate set, each at the place of its record.
pub struct Catalog {
    sites: Sites,
    ports: Vec<(SiteId, u16)>,
    records: Vec<CatalogRecord>,
    names: IndexSet<Vec<u8>>,
}

impl Drop for Catalog {
    fn drop(self) {
        let Catalog {
            sites: _,
            ports: _,
            records: _,
            names: _,
        } = self;
    }
}

impl Model for Catalog {
    ghost use Rattle.std.specs.Prelude.{◌≡◌, map};
    ghost use Rattle.vp_model.specs.Catalogue.{Catalogue};
    ghost use Rattle.vp_model.specs.Words.{keys};
    ghost use Rattle.vp_catalog.specs.Document.{IsCatalogueSoFar};

    ghost Value = { Catalogue };

    ghost view = { λ c. record { sites = c.ports.items; records = c.records.items } };

    ghost invariant = { λ c. (c.sites ≡ keys c.ports.items) × (map (λ name. name.items) c.names.keys ≡ map (λ entry. entry.name) c.records.items) × IsCatalogueSoFar (record { sites = c.ports.items; records = c.records.items }) };
}

impl CopyOf for Catalog {
    fn copy_of(&self) -> Result<Catalog, NoMemory> {
        let alloc = self.sites.allocator();
        Ok(Catalog {
            sites: self.sites.copy_of()?,
            ports: Vec::from_slice(alloc, &self.ports)?,
            records: copy_records(alloc, &self.records)?,
            names: self.names.clone()?,
        })
    }
}

impl Catalog {
    /// Makes a catalogue without sites and records. Takes no memory.
    pub fn new(alloc: Global) -> Catalog
        ensures { result ≡ record { sites = []; records = [] } }
    {
        Catalog {
            sites: Sites::new(alloc),
            ports: Vec::new(alloc),
            records: Vec::new(alloc),
            names: IndexSet::new(alloc),
        }
    }

    /// Appends a site. Where memory is lacking, the catalogue stays as it is.
    fn add_site(&mut self, site: SiteId, port: u16) -> Result<(), NoMemory>
        requires first { length self.old.records ≡ 0 }
        requires allowed { IsSite (last_site self.old) (site, port) }
        requires fresh { has_port self.old port ≡ false }
        ensures { self.new ≡
            (if is_ok result then record self.old { sites = self.old.sites ++ (site, port) ∷ [] }
            else self.old) }
    {
        self.ports.reserve(1)?;
        self.sites.push(site)?;
        self.ports.push_reserved((site, port));
        Ok(())
    }

    /// Appends a record. Where memory is lacking, the catalogue stays as it is.
    fn add_record(&mut self, placed: CatalogRecord) -> Result<(), NoMemory>
        requires room { length self.old.records < 256 }
        requires allowed { IsRecord (sites_of self.old) placed }
        requires fresh { has_name self.old placed.name ≡ false }
        ensures { self.new ≡
            (if is_ok result then record self.old { records = self.old.records ++ placed ∷ [] }
            else self.old) }
    {
        self.records.reserve(1)?;
        let name = Vec::from_slice(*self.records.allocator(), placed.name().as_bytes())?;
        self.names.insert(name)?;
        self.records.push_reserved(placed);
        Ok(())
    }

    /// Adds what the line of this number says. The error is `TooMany` for a record line after 256 records, and `Twice` for a port
    /// or a name that is there already. After an `Err` the catalogue is as it was.
    pub fn add(&mut self, entry: Entry, line: usize) -> Result<(), CatalogFault>
        requires { IsAllowed self.old entry }
        ensures { Adds self.old entry line self.new result }
    {
        match entry {
            Entry::Site { site, port } => {
                if self.has_port(port) {
                    return Err(CatalogFault::Twice { line });
                }
                self.add_site(site, port)?;
                Ok(())
            }
            Entry::Record(placed) => {
                if self.records.len() >= MOST_RECORDS {
                    return Err(CatalogFault::TooMany {
                        line,
                        limit: MOST_RECORDS as u32,
                    });
                }
                if self.has_name(placed.name().as_bytes()) {
                    return Err(CatalogFault::Twice { line });
                }
                self.add_record(placed)?;
                Ok(())
            }
        }
    }

    fn has_port(&self, port: u16) -> bool
        ensures { result ≡ has_port self.now port }
    {
        for entry in self.ports() {
            if entry.1 == port {
                return true;
            }
        }
        false
    }

    fn has_name(&self, name: &[u8]) -> bool
        ensures { result ≡ has_name self.now name.now }
    {
        self.names.contains(name)
    }

    /// The sites, ascending.
    pub fn sites(&self) -> &Sites
        ensures sites { result.now ≡ sites_of self.now }
        ensures so_far { IsCatalogueSoFar self.now }
    {
        &self.sites
    }

    /// The number of the last site; 0 where there is none.
    pub fn last_site(&self) -> u8
        ensures last { result ≡ last_site self.now }
        ensures fits { result ≤ 16 }
    {
        match self.ports.last() {
            Some(entry) => entry.0.get(),
            None => 0,
        }
    }

    /// The sites with their ports, ascending by site.
    pub fn ports(&self) -> &[(SiteId, u16)]
        ensures { result.now ≡ self.now.sites }
    {
        &self.ports
    }

    /// The records, each at its place.
    pub fn records(&self) -> &[CatalogRecord]
        ensures { result.now ≡ self.now.records }
    {
        &self.records
    }

    /// The port of a site, or `None` where the catalogue lacks the site.
    pub fn port(&self, site: SiteId) -> Option<u16>
        ensures { result ≡ value_at site self.now.sites }
    {
        number_of(&self.ports, site)
    }

    /// How many records there are; at most 256.
    pub fn count(&self) -> usize
        ensures count { result ≡ length self.now.records }
        ensures most { result ≤ 256 }
    {
        self.records.len()
    }

    /// The place of the record with this name, or `None` where there is none.
    pub fn find(&self, name: &Name) -> Option<RecId>
        ensures { result ≡ find_record self.now name.now }
    {
        match self.names.get_index_of(name.as_bytes()) {
            Some(place) => Some(RecId::new(place as u8)),
            None => None,
        }
    }

    fn placed(&self, rec: RecId) -> Option<&CatalogRecord>
        ensures { option_copied result ≡ slice_get self.now.records rec }
    {
        self.records.get(usize::from(rec.get()))
    }

    /// The name of a record, or `None` where its place is not below the count.
    pub fn name(&self, rec: RecId) -> Option<&Name>
        ensures { option_copied result ≡ option_map (λ entry. entry.name) (slice_get self.now.records rec) }
    {
        match self.placed(rec) {
            Some(placed) => Some(placed.name()),
            None => None,
        }
    }

    /// The value that each copy of a record starts with, or `None` where its place is not below the count.
    pub fn start(&self, rec: RecId) -> Option<&Value>
        ensures { option_copied result ≡ option_map (λ entry. entry.start) (slice_get self.now.records rec) }
    {
        match self.placed(rec) {
            Some(placed) => Some(placed.start()),
            None => None,
        }
    }

    /// The sites with a copy of the record, ascending, or `None` where its place is not below the count.
    pub fn holders(&self, rec: RecId) -> Option<&Sites>
        ensures { option_copied result ≡
            option_map (λ entry. keys entry.weights) (slice_get self.now.records rec) }
    {
        match self.placed(rec) {
            Some(placed) => Some(placed.holders()),
            None => None,
        }
    }

    /// Whether the site has a copy of the record.
    pub fn is_holder(&self, rec: RecId, site: SiteId) -> bool
        ensures { result ≡ has (holders self.now rec) site }
    {
        match self.holders(rec) {
            Some(sites) => has_site(sites.as_slice(), site),
            None => false,
        }
    }

    /// Whether the table has a weight for each holder of the record, and for no other site.
    pub fn has_holders(&self, rec: RecId, table: &Table) -> Result<bool, NoMemory>
        ensures { IfOk result (λ same. same ≡ has_holders self.now rec table.now) }
    {
        match self.placed(rec) {
            None => Ok(table.as_slice().is_empty()),
            Some(placed) => placed.has_holders(table),
        }
    }

    /// The holders of the record that are members of the view, except this site; none where there is no view.
    pub fn other_holders(
        &self,
        id: SiteId,
        held: Option<&View>,
        rec: RecId,
    ) -> Result<Sites, NoMemory>
        ensures { IfOk result
            (λ others. others ≡ other_holders_in self.now id (option_copied held.entry) rec) }
    {
        let alloc = *self.records.allocator();
        match held {
            Some(view) => match self.holders(rec) {
                Some(sites) => others_in(alloc, sites.as_slice(), &view.members, id),
                None => Ok(Sites::new(alloc)),
            },
            None => Ok(Sites::new(alloc)),
        }
    }

    /// The lowest of the other holders of the record in the view, or `None` where there is none or no view.
    #[tactic(auto, using(crate::proofs::Least::first_kept))]
    pub fn least_other_holder(&self, id: SiteId, held: Option<&View>, rec: RecId) -> Option<SiteId>
        ensures { result ≡ first (other_holders_in self.now id (option_copied held.entry) rec) }
    {
        match held {
            Some(view) => least_other(self.holders(rec)?.as_slice(), &view.members, id),
            None => None,
        }
    }

    /// The weight of the record's copy at a site; 0 where it has none.
    pub fn weight(&self, rec: RecId, site: SiteId) -> u32
        ensures { result ≡ weight self.now rec site }
    {
        match self.placed(rec) {
            Some(placed) => placed.weight(site),
            None => 0,
        }
    }

    /// The weight of the record's copies at the members.
    pub fn inside(&self, rec: RecId, members: &Sites) -> u32
        ensures { result ≡ inside self.now rec members.now }
    {
        match self.placed(rec) {
            Some(placed) => placed.inside(members),
            None => 0,
        }
    }

    /// The weight of all copies of the record.
    pub fn total(&self, rec: RecId) -> u32
        ensures { result ≡ total self.now rec }
    {
        match self.placed(rec) {
            Some(placed) => placed.total(),
            None => 0,
        }
    }

    /// Whether more than half of the weight of the record's copies is at the members. (El Abbadi, Skeen and Cristian 1985.)
    pub fn accessible(&self, rec: RecId, members: &Sites) -> bool
        ensures { result ≡ accessible self.now rec members.now }
    {
        u64::from(self.total(rec)) < 2 * u64::from(self.inside(rec, members))
    }

    /// Whether one of the members has a copy of the record.
    pub fn is_held_by_some(&self, rec: RecId, members: &Sites) -> bool
        ensures { result ≡ list_any (has members.now) (holders self.now rec) }
    {
        match self.holders(rec) {
            Some(sites) => has_common(sites.as_slice(), members.as_slice()),
            None => false,
        }
    }

    /// The weight of the record's copies at the members, and of all of them, by this table or, where none is given, the catalogue's.
    pub fn sums(&self, rec: RecId, table: Option<&Table>, members: &Sites) -> (u32, u32)
        ensures { let t = table_or self.now rec (option_copied table.entry) in
            result ≡ (weight_inside members.now t, weight_total t) }
    {
        match table {
            None => (self.inside(rec, members), self.total(rec)),
            Some(table) => (table.inside(members), table.total()),
        }
    }

    /// Copies the names of the records, in their order.
    pub fn names(&self) -> Result<Names, NoMemory>
        ensures { IfOk result (λ names. names ≡ map (λ entry. entry.name) self.now.records) }
    {
        let mut names = Names::new(*self.records.allocator());
        for placed in self.records() {
            names.push(placed.name().copy_of()?)?;
        }
        Ok(names)
    }

    /// Copies the values that the records start with, in their order.
    pub fn starts(&self) -> Result<Vec<Value>, NoMemory>
        ensures { IfOk result (λ values. values.items ≡ map (λ entry. entry.start) self.now.records) }
    {
        let mut values = Vec::new(*self.records.allocator());
        for placed in self.records() {
            values.push(placed.start().copy_of()?)?;
        }
        Ok(values)
    }

    /// Makes the copies that a site starts with: the catalogue's values, with the opening view as their date.
    pub fn copies(&self, site: SiteId) -> Result<Copies, NoMemory>
        ensures { IfOk result (λ copies. copies ≡ start_copies self.now site) }
    {
        let copies = copies_at(*self.records.allocator(), &self.records, site)?;
        Ok(Copies::from_vec(copies))
    }
}

/// The members of the view, or the list `none` where there is no view.
pub fn members_of<'a>(held: Option<&'a View>, none: &'a Sites) -> &'a Sites
    requires { none.now ≡ [] }
    ensures { result.now ≡ members_in (option_copied held.entry) }
{
    match held {
        None => none,
        Some(view) => &view.members,
    }
}

fn copy_records(alloc: Global, records: &[CatalogRecord]) -> Result<Vec<CatalogRecord>, NoMemory>
    ensures { IfOk result (λ copies. copies.items ≡ records.now) }
{
    let mut copies = Vec::new(alloc);
    for placed in records {
        copies.push(placed.copy_of()?)?;
    }
    Ok(copies)
}

/// The copies that a site has of these records, of which there are at most 256.
fn copies_at(
    alloc: Global,
    records: &[CatalogRecord],
    site: SiteId,
) -> Result<Vec<(RecId, Stored)>, NoMemory>
    requires { length records.now ≤ 256 }
    ensures { IfOk result (λ copies. copies.items ≡ copies_from 0 records.now site) }
{
    let mut copies = Vec::new(alloc);
    for (place, placed) in records.iter().enumerate() {
        if placed.is_held_by(site) {
            let stored = Stored {
                value: Some(placed.start().copy_of()?),
                table: None,
                date: ViewId { number: 0, site: 0 },
            };
            copies.push((RecId::new(place as u8), stored))?;
        }
    }
    Ok(copies)
}
