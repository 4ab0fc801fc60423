//! Names, by their places in a list.

ghost use Rattle.std.specs.Prelude.{◌≡◌};
ghost use Rattle.vp_text.specs.Reading.{Reads};
ghost use Rattle.vp_base.specs.Reading.{starts_any, place_of, among_at};

use crate::text::Name;
use vp_text::{Cursor, Unexpected};

/// Reads the longest prefix that begins one of the names, and gives the place of that name in the list, the first one if it is
/// there twice. Fails where the prefix is not a whole name.
pub fn parse_place(cursor: &mut Cursor, names: &[Name]) -> Result<usize, Unexpected>
    ensures { Reads (λ i. i) (λ e. e.left) result cursor.new (among_at names.now cursor.old) }
{
    let bytes = cursor.rest();
    let mut count = 0;
    while count < bytes.len() && some_starts(names, &bytes[..count + 1]) {
        count += 1;
    }
    match place(names, &bytes[..count]) {
        Some(place) => {
            cursor.advance(count);
            Ok(place)
        }
        None => Err(Unexpected {
            left: bytes.len() - count,
        }),
    }
}

/// Whether one of the names begins with this prefix.
fn some_starts(names: &[Name], prefix: &[u8]) -> bool
    ensures { result ≡ starts_any names.now prefix.now }
{
    for name in names {
        if name.as_bytes().starts_with(prefix) {
            return true;
        }
    }
    false
}

/// The first place of a name in the list, from 0.
pub fn place(names: &[Name], word: &[u8]) -> Option<usize>
    ensures { result ≡ place_of names.now word.now }
{
    for (place, name) in names.iter().enumerate() {
        if name.is(word) {
            return Some(place);
        }
    }
    None
}
