//! Lists of other sites, and of the other holders of a record in a view.

ghost use Rattle.std.specs.Prelude.{◌≡◌, ◌≤◌, ◌∷◌, [], ℕ, false, not, ◌==◌, ◌&&◌, get_or, filter, find, length, IfOk};
ghost use Rattle.vp_model.specs.Words.{has};

use std::alloc::Global;
use vp_base::{NoMemory, SiteId, Sites, has_site};

/// Makes a list of this site only.
pub fn alone(alloc: Global, site: SiteId) -> Result<Sites, NoMemory>
    ensures { IfOk result (λ sites. sites ≡ site ∷ []) }
{
    let mut sites = Sites::new(alloc);
    sites.push(site)?;
    Ok(sites)
}

/// Copies the list without this site.
pub fn others_of(sites: &Sites, id: SiteId) -> Result<Sites, NoMemory>
    ensures { IfOk result (λ others. others ≡ filter (λ q. not (q == id)) sites.now) }
{
    let others = sites
        .as_slice()
        .iter()
        .copied()
        .filter(|site| *site != id)
        .collect(sites.allocator())?;
    Ok(Sites::from_vec(others))
}

/// The sites of the list that are members, except this site.
pub(crate) fn others_in(
    alloc: Global,
    sites: &[SiteId],
    members: &Sites,
    id: SiteId,
) -> Result<Sites, NoMemory>
    ensures { IfOk result (λ others. others ≡ filter (λ q. has members.now q && not (q == id)) sites.now) }
{
    let is_other = other_members(members.as_slice(), id);
    let mut others = Vec::with_capacity(alloc, sites.len())?;
    for site in sites {
        if is_other[usize::from(site.get())] {
            others.push(*site)?;
        }
    }
    Ok(Sites::from_vec(others))
}

/// The first site of the list that is a member, except this site.
pub(crate) fn least_other(sites: &[SiteId], members: &Sites, id: SiteId) -> Option<SiteId>
    ensures { result ≡ find (λ q. has members.now q && not (q == id)) sites.now }
{
    for site in sites {
        if is_other_member(members, id, *site) {
            return Some(*site);
        }
    }
    None
}

fn is_other_member(members: &Sites, id: SiteId, site: SiteId) -> bool
    ensures { result ≡ (has members.now site && not (site == id)) }
{
    has_site(members.as_slice(), site) && site != id
}

/// Marks, by the number of each site, whether it is a member, except this site.
fn other_members(members: &[SiteId], id: SiteId) -> [bool; 17]
    ensures all { length result ≡ 17 }
    ensures each { (q : ℕ) → q ≤ 16 → get_or result q false ≡ (has members.now q && not (q == id)) }
{
    let mut is_other = [false; 17];
    for member in members {
        is_other[usize::from(member.get())] = true;
    }
    is_other[usize::from(id.get())] = false;
    is_other
}
