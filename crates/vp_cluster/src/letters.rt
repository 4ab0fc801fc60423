//! The letters of clients.

ghost use Rattle.std.specs.Prelude.{◌≡◌, ℕ, IfOk};
ghost use Rattle.vp_base.specs.Calls.{IsCall};
ghost use Rattle.vp_bytes.specs.Fields.{IsSite};
ghost use Rattle.vp_cluster.specs.Letters.{letter_to};
ghost use Rattle.vp_runs.specs.Asking.{call_frame};
ghost use Rattle.vp_wire.specs.Grammar.{IsFrame, frame_of};

use crate::letter::Letter;
use bytes::BytesMut;
use vp_base::{Call, NoMemory, SiteId};
use vp_catalog::Catalog;
use vp_wire::{Body, Frame, encode, encode_call};

/// Makes the letter of a client's call to the site, which comes from port 0, in the room; none where the catalogue lacks the site.
pub fn call_to<'a>(
    catalog: &Catalog,
    site: SiteId,
    call: &Call,
    room: &'a mut BytesMut,
) -> Result<Option<Letter<'a>>, NoMemory>
    requires { IsCall call.now }
    ensures { IfOk result (λ letter. letter ≡ letter_to catalog.now site (call_frame site call.now)) }
{
    let Some(to) = catalog.port(site) else {
        return Ok(None);
    };
    room.clear();
    encode_call(site, call, room)?;
    Ok(Some(Letter {
        from: 0,
        to,
        bytes: room,
    }))
}

/// Makes the letter of an order to the site, which comes from port 0, in the room; none where the catalogue lacks the site. The body must
/// be one that can be framed.
pub fn order_to<'a>(
    catalog: &Catalog,
    site: SiteId,
    body: Body,
    room: &'a mut BytesMut,
) -> Result<Option<Letter<'a>>, NoMemory>
    requires { (id : ℕ) → IsSite id → IsFrame (frame_of 0 id body) }
    ensures { IfOk result (λ letter. letter ≡ letter_to catalog.now site (frame_of 0 site body)) }
{
    let Some(to) = catalog.port(site) else {
        return Ok(None);
    };
    room.clear();
    encode(&Frame::of(0, site.get(), body), room)?;
    Ok(Some(Letter {
        from: 0,
        to,
        bytes: room,
    }))
}
