//! Positions, in pixels: the lifeline of a site, and the height of a line of text.

ghost use Rattle.std.specs.Prelude.{◌≡◌, ◌==◌, ◌≤◌, ◌<◌, ◌^◌};
ghost use Rattle.std.specs.List.{position};
ghost use Rattle.vp_pictures.specs.Places.{column, edge, stub_end, top};

use vp_base::SiteId;
use vp_catalog::Catalog;

fn place_of(sites: &[SiteId], site: SiteId) -> Option<usize>
    ensures { result ≡ position (λ s. s == site) sites.now }
{
    sites.iter().position(|s| s.get() == site.get())
}

/// The left position of the lifeline of a site: that of the first site is 60, each other one is 280 to the right of the one before it.
pub fn column(catalog: &Catalog, site: SiteId) -> u64
    ensures place { result ≡ column catalog.now site }
    ensures least { 60 ≤ result }
    ensures most { result ≤ 4260 }
{
    match place_of(catalog.sites().as_slice(), site) {
        None => 60,
        Some(place) => if place < 16 {
            60 + 280 * place as u64
        } else {
            60
        },
    }
}

/// The top of a line of text, in pixels from that of the picture.
pub fn top(line: u32) -> u64
    ensures place { result ≡ top line }
    ensures most { result < 2 ^ 40 }
{
    12 + 18 * u64::from(line)
}

/// The edge of a lifeline on the side of another one.
pub fn edge(own: u64, other: u64) -> u64
    requires least { 60 ≤ own }
    requires most { own ≤ 4260 }
    ensures { result ≡ edge own other }
{
    if own < other { own + 5 } else { own - 5 }
}

/// The end of a stub that goes from one lifeline towards another one.
pub fn stub_end(own: u64, other: u64) -> u64
    requires least { 60 ≤ own }
    requires most { own ≤ 4260 }
    ensures { result ≡ stub_end own other }
{
    if own < other { own + 29 } else { own - 29 }
}
