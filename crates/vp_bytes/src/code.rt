//! Reading codes: bytes that each mean one kind of thing.

ghost use Rattle.std.specs.Prelude.{◌≡◌, ℕ, Option};
ghost use Rattle.vp_text.specs.Reading.{Reads};
ghost use Rattle.vp_bytes.specs.Codes.{code_at};

use vp_text::{Cursor, Unexpected};

/// Kinds, each of which has one byte for its code.
pub trait HasCode: Sized {
    // The kind that a code means.
    ghost kind: { ℕ → Option Self };

    /// The kind with this code, or `None` where no kind has it.
    fn of(code: u8) -> Option<Self>
        ensures { result ≡ kind code };
}

/// Reads the code of a kind.
pub fn read_coded<K: HasCode>(cursor: &mut Cursor) -> Result<K, Unexpected>
    ensures { Reads (λ k. k) (λ e. e.left) result cursor.new (code_at K.kind cursor.old) }
{
    let rest = cursor.rest();
    if rest.is_empty() {
        return Err(Unexpected { left: 0 });
    }
    match K::of(rest[0]) {
        Some(kind) => {
            cursor.advance(1);
            Ok(kind)
        }
        None => Err(Unexpected { left: rest.len() }),
    }
}
