//! Which sites were heard since the last probe.

ghost use Rattle.std.specs.Prelude.{◌≡◌, ◌==◌, ◌&&◌, ◌||◌, not};
ghost use Rattle.std.specs.List.{list_any};
ghost use Rattle.vp_model.specs.Words.{has};
ghost use Rattle.vp_model.specs.Step.{is_odd};

use vp_base::{SiteId, has_site};

/// Whether a member other than the site itself was not heard.
fn lacks_member(id: SiteId, members: &[SiteId], heard: &[SiteId]) -> bool
    ensures { result ≡ list_any (λ q. not (q == id) && not (has heard.now q)) members.now }
{
    members
        .iter()
        .any(|site| *site != id && !has_site(heard, *site))
}

/// Whether a site was heard that is not a member.
fn has_stranger(members: &[SiteId], heard: &[SiteId]) -> bool
    ensures { result ≡ list_any (λ q. not (has members.now q)) heard.now }
{
    heard.iter().any(|site| !has_site(members, *site))
}

/// Whether the sites that were heard differ from the members, the site itself left out.
pub fn is_odd(id: SiteId, members: &[SiteId], heard: &[SiteId]) -> bool
    ensures { result ≡ is_odd id members.now heard.now }
{
    lacks_member(id, members, heard) || has_stranger(members, heard)
}
