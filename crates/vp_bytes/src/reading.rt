//! Reading numbers, identifiers, and fields of several of these.

ghost use Rattle.std.specs.Prelude.{◌≡◌, ◌≤◌, IfOk};
ghost use Rattle.vp_text.specs.Reading.{Reads};
ghost use Rattle.vp_base.specs.Reading.{least_site, most_site};
ghost use Rattle.vp_bytes.specs.Reading.{byte_at, within, maybe_view_at, numbered_at, outcome_at, owner_at, request_at, some_u32_at, txn_at, u32_at, u64_at, view_at};

use byteorder::{BigEndian, ByteOrder};
use vp_base::{CallNo, LAST_SITE, Owner, RecId, SiteId, TxnId, ViewId};
use vp_text::{Cursor, Unexpected};

/// Reads a byte from `least` to `most`.
pub fn read_byte(cursor: &mut Cursor, least: u8, most: u8) -> Result<u8, Unexpected>
    ensures read { Reads (λ x. x) (λ e. e.left) result cursor.new (byte_at (within least most) cursor.old) }
    ensures range { IfOk result (λ x. (least ≤ x) × (x ≤ most)) }
{
    let rest = cursor.rest();
    if rest.is_empty() {
        return Err(Unexpected { left: 0 });
    }
    let byte = rest[0];
    if byte < least || most < byte {
        return Err(Unexpected { left: rest.len() });
    }
    cursor.advance(1);
    Ok(byte)
}

/// Reads a number in 4 bytes, the highest first.
pub fn read_u32(cursor: &mut Cursor) -> Result<u32, Unexpected>
    ensures { Reads (λ x. x) (λ e. e.left) result cursor.new (u32_at cursor.old) }
{
    let rest = cursor.rest();
    if rest.len() < 4 {
        return Err(Unexpected { left: 0 });
    }
    cursor.advance(4);
    Ok(BigEndian::read_u32(rest))
}

/// Reads a number in 8 bytes, the highest first.
pub fn read_u64(cursor: &mut Cursor) -> Result<u64, Unexpected>
    ensures { Reads (λ x. x) (λ e. e.left) result cursor.new (u64_at cursor.old) }
{
    let rest = cursor.rest();
    if rest.len() < 8 {
        return Err(Unexpected { left: 0 });
    }
    cursor.advance(8);
    Ok(BigEndian::read_u64(rest))
}

/// Reads a view: the number 0 with the site 0, or a number of 1 or more with a site from 1 to 16.
#[tactic(auto, unfolding(crate::specs::Reading::view_at))]
pub fn read_view(cursor: &mut Cursor) -> Result<ViewId, Unexpected>
    ensures { Reads (λ v. v) (λ e. e.left) result cursor.new (view_at cursor.old) }
{
    let number = read_u64(cursor)?;
    let site = read_view_site(cursor, number)?;
    Ok(ViewId { number, site })
}

/// Reads the site of a view with this number.
fn read_view_site(cursor: &mut Cursor, number: u64) -> Result<u8, Unexpected>
    ensures { Reads (λ x. x) (λ e. e.left) result cursor.new
        (byte_at (within (least_site number) (most_site number)) cursor.old) }
{
    if number == 0 {
        read_byte(cursor, 0, 0)
    } else {
        read_byte(cursor, 1, LAST_SITE)
    }
}

/// Reads a number in 4 bytes that isn't 0.
pub fn read_some_u32(cursor: &mut Cursor) -> Result<u32, Unexpected>
    ensures read { Reads (λ x. x) (λ e. e.left) result cursor.new (some_u32_at cursor.old) }
    ensures some { IfOk result (λ x. 1 ≤ x) }
{
    let rest = cursor.rest();
    if rest.len() < 4 {
        return Err(Unexpected { left: 0 });
    }
    let number = BigEndian::read_u32(rest);
    if number == 0 {
        return Err(Unexpected {
            left: rest.len() - 3,
        });
    }
    cursor.advance(4);
    Ok(number)
}

/// Reads a site, from 1 to 16.
pub fn read_site(cursor: &mut Cursor) -> Result<SiteId, Unexpected>
    ensures { Reads (λ s. s) (λ e. e.left) result cursor.new (byte_at (within 1 16) cursor.old) }
{
    let number = read_byte(cursor, 1, LAST_SITE)?;
    Ok(SiteId::of(number))
}

/// Reads a transaction: a site, a life and a place in that life, none of which is 0.
#[tactic(auto, unfolding(crate::specs::Reading::txn_at))]
pub fn read_txn(cursor: &mut Cursor) -> Result<TxnId, Unexpected>
    ensures { Reads (λ t. t) (λ e. e.left) result cursor.new (txn_at cursor.old) }
{
    let site = read_site(cursor)?;
    let life = read_some_u32(cursor)?;
    let seq = read_some_u32(cursor)?;
    Ok(TxnId { site, life, seq })
}

/// Reads the number of a call, which isn't 0.
pub fn read_number(cursor: &mut Cursor) -> Result<CallNo, Unexpected>
    ensures { Reads (λ n. n) (λ e. e.left) result cursor.new (some_u32_at cursor.old) }
{
    let number = read_some_u32(cursor)?;
    match CallNo::new(number) {
        Some(number) => Ok(number),
        None => unreachable!(),
    }
}

/// Reads a transaction and the number of a call on it.
#[tactic(auto, unfolding(crate::specs::Reading::numbered_at))]
pub fn read_numbered(cursor: &mut Cursor) -> Result<(TxnId, CallNo), Unexpected>
    ensures { Reads (λ x. (x.0, x.1)) (λ e. e.left) result cursor.new (numbered_at cursor.old) }
{
    let txn = read_txn(cursor)?;
    let number = read_number(cursor)?;
    Ok((txn, number))
}

/// Reads 1 and a view, or 0 for none.
#[tactic(auto, unfolding(crate::specs::Reading::maybe_view_at))]
pub fn read_maybe_view(cursor: &mut Cursor) -> Result<Option<ViewId>, Unexpected>
    ensures { Reads (λ v. v) (λ e. e.left) result cursor.new (maybe_view_at cursor.old) }
{
    let flag = read_byte(cursor, 0, 1)?;
    if flag == 0 {
        return Ok(None);
    }
    let view = read_view(cursor)?;
    Ok(Some(view))
}

/// Reads an owner: 1 and a transaction, or 0 for a refresh.
#[tactic(auto, unfolding(crate::specs::Reading::owner_at))]
pub fn read_owner(cursor: &mut Cursor) -> Result<Owner, Unexpected>
    ensures { Reads (λ o. o) (λ e. e.left) result cursor.new (owner_at cursor.old) }
{
    let flag = read_byte(cursor, 0, 1)?;
    if flag == 0 {
        return Ok(Owner::Refresh);
    }
    let txn = read_txn(cursor)?;
    Ok(Owner::Txn(txn))
}

/// Reads a record, by its place in the catalogue.
pub fn read_rec(cursor: &mut Cursor) -> Result<RecId, Unexpected>
    ensures { Reads (λ r. r) (λ e. e.left) result cursor.new (byte_at (within 0 255) cursor.old) }
{
    let place = read_byte(cursor, 0, 255)?;
    Ok(RecId::new(place))
}

/// Reads what each request for a lock or a vote begins with: a transaction, its view, and the number of the call.
#[tactic(auto, unfolding(crate::specs::Reading::request_at))]
pub fn read_request(cursor: &mut Cursor) -> Result<(TxnId, ViewId, CallNo), Unexpected>
    ensures { Reads (λ x. (x.0, x.1, x.2)) (λ e. e.left) result cursor.new (request_at cursor.old) }
{
    let txn = read_txn(cursor)?;
    let view = read_view(cursor)?;
    let number = read_number(cursor)?;
    Ok((txn, view, number))
}

/// Reads an outcome: true for commit, which is 1, and false for abort, which is 0.
#[tactic(auto, unfolding(crate::specs::Reading::outcome_at))]
pub fn read_outcome(cursor: &mut Cursor) -> Result<bool, Unexpected>
    ensures { Reads (λ b. b) (λ e. e.left) result cursor.new (outcome_at cursor.old) }
{
    let flag = read_byte(cursor, 0, 1)?;
    Ok(flag == 1)
}
