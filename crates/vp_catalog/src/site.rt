//! Reading the number of a site.

ghost use Rattle.std.specs.Prelude.{◌≡◌, ◌<◌, nat_eq, IfOk, IfSome};
ghost use Rattle.std.specs.Fmt.{decimal};
ghost use Rattle.std.specs.List.{starts_with};
ghost use Rattle.std.specs.Str.{bytes_eq};
ghost use Rattle.vp_text.specs.Reading.{Reads};
ghost use Rattle.vp_base.specs.Reading.{starts_any};
ghost use Rattle.vp_catalog.specs.Sites.{site_texts, site_named, site_at};

use vp_base::SiteId;
use vp_text::{Cursor, Unexpected};

/// Reads the number of a site in the list that is above the given one (0 for any site of the list), in decimal digits.
///
/// It reads a digit only where the number of such a site begins with the digits up to it: of the sites 1 and 12 it reads nothing of
/// `2`, and the 1 of `13`.
pub fn parse_site(cursor: &mut Cursor, sites: &[SiteId], above: u8) -> Result<SiteId, Unexpected>
    ensures read { Reads (λ site. site) (λ e. e.left) result cursor.new (site_at sites.now above cursor.old) }
    ensures higher { IfOk result (λ site. above < site) }
{
    let bytes = cursor.rest();
    let mut count = 0;
    while count < bytes.len() && some_starts(sites, above, &bytes[..count + 1]) {
        count += 1;
    }
    match named(sites, above, &bytes[..count]) {
        Some(site) => {
            cursor.advance(count);
            Ok(site)
        }
        None => Err(Unexpected {
            left: bytes.len() - count,
        }),
    }
}

/// Whether the number of one of the sites above the given one begins with these digits.
fn some_starts(sites: &[SiteId], above: u8, prefix: &[u8]) -> bool
    ensures { result ≡ starts_any (site_texts sites.now above) prefix.now }
{
    for site in sites {
        if above < site.get() && begins(*site, prefix) {
            return true;
        }
    }
    false
}

/// Finds the site above the given one whose number is the text.
fn named(sites: &[SiteId], above: u8, text: &[u8]) -> Option<SiteId>
    ensures site { result ≡ site_named sites.now above text.now }
    ensures higher { IfSome result (λ site. above < site) }
{
    for site in sites {
        if above < site.get() && is_number(*site, text) {
            return Some(*site);
        }
    }
    None
}

/// Whether the decimal digits of the site begin with these.
fn begins(site: SiteId, prefix: &[u8]) -> bool
    ensures { result ≡ starts_with nat_eq (decimal site) prefix.now }
{
    let number = site.get();
    if number < 10 {
        [b'0' + number].starts_with(prefix)
    } else {
        [b'0' + number / 10, b'0' + number % 10].starts_with(prefix)
    }
}

/// Whether the text is the decimal digits of the site.
fn is_number(site: SiteId, text: &[u8]) -> bool
    ensures { result ≡ bytes_eq (decimal site) text.now }
{
    let number = site.get();
    if number < 10 {
        [b'0' + number].as_slice() == text
    } else {
        [b'0' + number / 10, b'0' + number % 10].as_slice() == text
    }
}
