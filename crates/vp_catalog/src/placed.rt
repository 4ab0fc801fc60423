//! A record of the catalogue with the weights of its copies.

ghost use Rattle.std.specs.Prelude.{◌≡◌, ◌≤◌, ◌<◌, ◌^◌, length, filter, sum_by, IfOk, IsTrue};
ghost use Rattle.std.specs.Str.{bytes_eq};
ghost use Rattle.std.specs.List.{list_any};
ghost use Rattle.std.specs.Option.{option_map_or};
ghost use Rattle.vp_model.specs.Words.{has, keys, value_at};
ghost use Rattle.vp_model.specs.Catalogue.{weight_inside, weight_total};

use std::alloc::Global;
use std::marker::Model;
use vp_base::{
    CopyOf, Name, NoMemory, SiteId, Sites, Table, Value, has_site, weight_inside, weight_total,
};

/// A record: its name, the value that each copy starts with, and the weights of its copies, ascending by holder.
pub struct CatalogRecord {
    pub name: Name,
    pub start: Value,
    holders: Sites,
    weights: Vec<(SiteId, u16)>,
}

impl Drop for CatalogRecord {
    fn drop(self) {
        let CatalogRecord {
            name: _,
            start: _,
            holders: _,
            weights: _,
        } = self;
    }
}

impl Model for CatalogRecord {
    ghost use Rattle.std.specs.Prelude.{◌≡◌, ◌≤◌, length};
    ghost use Rattle.vp_model.specs.Catalogue.{RecordEntry};
    ghost use Rattle.vp_model.specs.Words.{keys};

    ghost Value = { RecordEntry };

    ghost view = { λ p. record { name = p.name; start = p.start; weights = p.weights.items } };

    ghost invariant = { λ p. (p.holders ≡ keys p.weights.items) × (length p.weights.items ≤ 16) };
}

impl CopyOf for CatalogRecord {
    fn copy_of(&self) -> Result<CatalogRecord, NoMemory> {
        let alloc = *self.weights.allocator();
        CatalogRecord::new(
            alloc,
            self.name.copy_of()?,
            self.start.copy_of()?,
            Vec::from_slice(alloc, &self.weights)?,
        )
    }
}

impl CatalogRecord {
    /// Makes a record with these weights, and the list of its holders, which takes memory.
    pub(crate) fn new(
        alloc: Global,
        name: Name,
        start: Value,
        weights: Vec<(SiteId, u16)>,
    ) -> Result<CatalogRecord, NoMemory>
        requires { length weights.items ≤ 16 }
        ensures { IfOk result
            (λ placed. placed ≡ record { name = name; start = start; weights = weights.items }) }
    {
        Ok(CatalogRecord {
            name,
            start,
            holders: holders_of(alloc, &weights)?,
            weights,
        })
    }

    /// The sites with a copy, ascending.
    pub fn holders(&self) -> &Sites
        ensures { result.now ≡ keys self.now.weights }
    {
        &self.holders
    }

    /// Its name.
    pub fn name(&self) -> &Name
        ensures { result.now ≡ self.now.name }
    {
        &self.name
    }

    /// The value that each copy starts with.
    pub fn start(&self) -> &Value
        ensures { result.now ≡ self.now.start }
    {
        &self.start
    }

    /// The weights of the copies, ascending by holder.
    pub fn weights(&self) -> &[(SiteId, u16)]
        ensures { result.now ≡ self.now.weights }
    {
        &self.weights
    }

    /// The weight of the copy at a site; 0 where it has none.
    pub fn weight(&self, site: SiteId) -> u32
        ensures { result ≡ option_map_or (λ w. w) (value_at site self.now.weights) 0 }
    {
        match number_of(&self.weights, site) {
            Some(weight) => u32::from(weight),
            None => 0,
        }
    }

    /// Whether the site has a copy.
    pub fn is_held_by(&self, site: SiteId) -> bool
        ensures { result ≡ has (keys self.now.weights) site }
    {
        has_site(self.holders.as_slice(), site)
    }

    /// Whether the table has a weight for each holder, and for no other site.
    pub fn has_holders(&self, table: &Table) -> Result<bool, NoMemory>
        ensures { IfOk result (λ same. same ≡ bytes_eq (keys table.now) (keys self.now.weights)) }
    {
        let sites = holders_of(*self.weights.allocator(), table.as_slice())?;
        Ok(sites.as_slice() == self.holders.as_slice())
    }

    /// The weight of the copies at the members.
    pub fn inside(&self, members: &Sites) -> u32
        ensures { result ≡ weight_inside members.now self.now.weights }
    {
        weight_inside(&self.weights, members.as_slice())
    }

    /// The weight of all copies.
    pub fn total(&self) -> u32
        ensures { result ≡ weight_total self.now.weights }
    {
        weight_total(&self.weights)
    }
}

fn holders_of(alloc: Global, weights: &[(SiteId, u16)]) -> Result<Sites, NoMemory>
    ensures { IfOk result (λ holders. holders ≡ keys weights.now) }
{
    let mut holders = Sites::new(alloc);
    for weight in weights {
        holders.push(weight.0)?;
    }
    Ok(holders)
}

/// The number that the list gives for the site, or `None` where the site is not in it.
pub(crate) fn number_of(numbers: &[(SiteId, u16)], site: SiteId) -> Option<u16>
    ensures { result ≡ value_at site numbers.now }
{
    for entry in numbers {
        if entry.0 == site {
            return Some(entry.1);
        }
    }
    None
}

/// Whether some site is in both lists.
pub(crate) fn has_common(sites: &[SiteId], others: &[SiteId]) -> bool
    ensures { result ≡ list_any (has others.now) sites.now }
{
    sites.iter().any(|site| has_site(others, *site))
}
