//! One decision, and the sites that it waits for.

ghost use Rattle.std.specs.Prelude.{◌≡◌, ◌==◌, filter, not};
ghost use Rattle.vp_model.specs.Words.{has, is_empty};

use std::mem;
use vp_base::{Decision, SiteId, Sites};

/// Whether the decision waits for some site.
pub(crate) fn is_awaited(decision: &Decision) -> bool
    ensures { result ≡ not (is_empty decision.now.waiting) }
{
    !decision.waiting.as_slice().is_empty()
}

/// Whether the decision waits for the site.
pub(crate) fn waits_for_site(decision: &Decision, site: SiteId) -> bool
    ensures { result ≡ has decision.now.waiting site }
{
    decision.waiting.as_slice().contains(&site)
}

/// Removes the site from those that are waited for.
pub(crate) fn drop_site(sites: &mut Sites, site: SiteId)
    ensures { sites.new ≡ filter (λ q. not (q == site)) sites.old }
{
    let none = Sites::new(sites.allocator());
    let mut items = mem::replace(sites, none).into_vec();
    items.retain(|other| *other != site);
    *sites = Sites::from_vec(items);
}
