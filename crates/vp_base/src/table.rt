//! Tables of weights: a contract sees one as its shares, the pairs of a site and a weight.

ghost use Rattle.std.specs.Prelude.{◌≡◌, ◌≤◌, length};
ghost use Rattle.vp_base.specs.Tables.{IsTable, has, weight_inside, weight_total};

use crate::ids::SiteId;
use crate::lists::Sites;
use crate::memory::NoMemory;
use crate::seq::CopyOf;
use std::marker::Model;

/// The weight of a record's copy at each of its holders: 1 to 16 sites, ascending, each with a weight of 1 to 65,535.
#[derive(Drop)]
pub struct Table {
    shares: Vec<(SiteId, u16)>,
}

impl Model for Table {
    ghost use Rattle.std.specs.Prelude.{List, ℕ};
    ghost use Rattle.vp_base.specs.Tables.{IsTable};

    ghost Value = { List (ℕ × ℕ) };

    ghost view = { λ a. a.shares.items };

    ghost invariant = { λ a. IsTable a.shares.items };
}

impl CopyOf for Table {
    fn copy_of(&self) -> Result<Table, NoMemory> {
        let mut shares = Vec::with_capacity(*self.shares.allocator(), self.shares.len())?;
        shares.extend_from_slice(&self.shares)?;
        Ok(Table { shares })
    }
}

impl Table {
    /// The table with these shares.
    pub fn of(shares: Vec<(SiteId, u16)>) -> Table
        requires { IsTable shares.items }
        ensures { result ≡ shares.items }
    {
        Table { shares }
    }

    /// The holders with their weights.
    pub fn as_slice(&self) -> &[(SiteId, u16)]
        ensures shares { result.now ≡ self.now }
        ensures allowed { IsTable self.now }
    {
        &self.shares
    }

    /// The weight of the copies at the members.
    pub fn inside(&self, members: &Sites) -> u32
        ensures { result ≡ weight_inside members.now self.now }
    {
        weight_inside(&self.shares, members.as_slice())
    }

    /// The weight of all copies.
    pub fn total(&self) -> u32
        ensures { result ≡ weight_total self.now }
    {
        weight_total(&self.shares)
    }
}

/// Whether the site is in the list.
pub fn has_site(sites: &[SiteId], site: SiteId) -> bool
    ensures { result ≡ has sites.now site }
{
    sites.contains(&site)
}

/// The weight, by the shares of at most 16 holders, of the copies at the members.
pub fn weight_inside(shares: &[(SiteId, u16)], members: &[SiteId]) -> u32
    requires { length shares.now ≤ 16 }
    ensures { result ≡ weight_inside members.now shares.now }
{
    let mut inside = 0;
    for share in shares {
        if has_site(members, share.0) {
            inside += u32::from(share.1);
        }
    }
    inside
}

/// The weight, by the shares of at most 16 holders, of all copies.
pub fn weight_total(shares: &[(SiteId, u16)]) -> u32
    requires { length shares.now ≤ 16 }
    ensures { result ≡ weight_total shares.now }
{
    let mut total = 0;
    for share in shares {
        total += u32::from(share.1);
    }
    total
}
