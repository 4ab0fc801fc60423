//! Writing fields. After want of memory a beginning of the field may have been appended.

ghost use Rattle.std.specs.Prelude.{◌≡◌, ◌≤◌, ◌++◌, ◌∷◌, [], OnOk, OnErr, length};
ghost use Rattle.vp_text.specs.Printing.{Appends};
ghost use Rattle.vp_bytes.specs.Fields.{number_bytes, view_bytes, maybe_view_bytes, txn_bytes, owner_bytes, counted_bytes, numbered_bytes, request_bytes, outcome_byte};

use bytes::BufMut;
use vp_base::{CallNo, Name, NoMemory, Owner, RecId, SiteId, TxnId, ViewId};

/// Appends a byte.
pub fn put_byte<B: BufMut>(out: &mut B, byte: u8) -> Result<(), NoMemory>
    ensures ok { OnOk result (B.written out.new ≡ B.written out.old ++ byte ∷ []) }
    ensures err { OnErr result (B.written out.new ≡ B.written out.old) }
{
    out.put_u8(byte)?;
    Ok(())
}

/// Appends a number in 4 bytes, the highest first.
#[tactic(auto, unfolding(crate::specs::Fields::number_bytes))]
pub fn put_u32<B: BufMut>(out: &mut B, number: u32) -> Result<(), NoMemory>
    ensures ok { OnOk result (B.written out.new ≡ B.written out.old ++ number_bytes 4 number) }
    ensures err { OnErr result (B.written out.new ≡ B.written out.old) }
{
    out.put_u32(number)?;
    Ok(())
}

/// Appends a number in 8 bytes, the highest first.
#[tactic(auto, unfolding(crate::specs::Fields::number_bytes))]
pub fn put_u64<B: BufMut>(out: &mut B, number: u64) -> Result<(), NoMemory>
    ensures ok { OnOk result (B.written out.new ≡ B.written out.old ++ number_bytes 8 number) }
    ensures err { OnErr result (B.written out.new ≡ B.written out.old) }
{
    out.put_u64(number)?;
    Ok(())
}

/// Appends the count of the bytes, itself one byte, and then the bytes.
#[tactic(auto, using(vp_text::proofs::Printing::printing))]
pub fn put_counted<B: BufMut>(out: &mut B, bytes: &[u8]) -> Result<(), NoMemory>
    requires { length bytes.now ≤ 64 }
    ensures { Appends result (B.written out.old) (counted_bytes bytes.now) (B.written out.new) }
{
    put_byte(out, bytes.len() as u8)?;
    out.put_slice(bytes)?;
    Ok(())
}

/// Appends the count of a name's bytes and then the bytes.
#[tactic(auto, using(vp_text::proofs::Printing::printing))]
pub fn put_name<B: BufMut>(out: &mut B, name: &Name) -> Result<(), NoMemory>
    ensures { Appends result (B.written out.old) (counted_bytes name.now) (B.written out.new) }
{
    put_counted(out, name.as_bytes())
}

/// Appends a view: its number in 8 bytes and its site in one.
#[tactic(auto, using(vp_text::proofs::Printing::printing), unfolding(crate::specs::Fields::view_bytes, crate::specs::Fields::number_bytes))]
pub fn put_view<B: BufMut>(out: &mut B, view: &ViewId) -> Result<(), NoMemory>
    ensures { Appends result (B.written out.old) (view_bytes view.now) (B.written out.new) }
{
    let [a, b, c, d, e, f, g, h] = view.number.to_be_bytes();
    out.put_slice(&[a, b, c, d, e, f, g, h, view.site])?;
    Ok(())
}

/// Appends 1 and a view, or 0 for none.
#[tactic(auto, using(vp_text::proofs::Printing::printing))]
pub fn put_maybe_view<B: BufMut>(out: &mut B, view: &Option<ViewId>) -> Result<(), NoMemory>
    ensures { Appends result (B.written out.old) (maybe_view_bytes view.now) (B.written out.new) }
{
    match view {
        None => put_byte(out, 0),
        Some(view) => {
            put_byte(out, 1)?;
            put_view(out, view)
        }
    }
}

/// Appends a transaction: its site in a byte, and its life and its place in 4 bytes each.
#[tactic(auto, using(vp_text::proofs::Printing::printing), unfolding(crate::specs::Fields::txn_bytes, crate::specs::Fields::number_bytes))]
pub fn put_txn<B: BufMut>(out: &mut B, txn: &TxnId) -> Result<(), NoMemory>
    ensures { Appends result (B.written out.old) (txn_bytes txn.now) (B.written out.new) }
{
    let [a, b, c, d] = txn.life.to_be_bytes();
    let [e, f, g, h] = txn.seq.to_be_bytes();
    out.put_slice(&[txn.site.get(), a, b, c, d, e, f, g, h])?;
    Ok(())
}

/// Appends 1 and a transaction, or 0 for a refresh.
#[tactic(auto, using(vp_text::proofs::Printing::printing))]
pub fn put_owner<B: BufMut>(out: &mut B, owner: &Owner) -> Result<(), NoMemory>
    ensures { Appends result (B.written out.old) (owner_bytes owner.now) (B.written out.new) }
{
    match owner {
        Owner::Refresh => put_byte(out, 0),
        Owner::Txn(txn) => {
            put_byte(out, 1)?;
            put_txn(out, txn)
        }
    }
}

/// Appends a transaction and its outcome: 1 for commit, 0 for abort.
#[tactic(auto, using(vp_text::proofs::Printing::printing))]
pub fn put_outcome<B: BufMut>(out: &mut B, txn: &TxnId, commit: bool) -> Result<(), NoMemory>
    ensures { Appends result (B.written out.old) (txn_bytes txn.now ++ outcome_byte commit ∷ [])
        (B.written out.new) }
{
    put_txn(out, txn)?;
    if commit {
        put_byte(out, 1)
    } else {
        put_byte(out, 0)
    }
}

/// Appends the count of the sites and then the sites, a byte each.
#[tactic(auto, using(vp_text::proofs::Printing::printing))]
pub fn put_sites<B: BufMut>(out: &mut B, sites: &[SiteId]) -> Result<(), NoMemory>
    requires { length sites.now ≤ 16 }
    ensures { Appends result (B.written out.old) (counted_bytes sites.now) (B.written out.new) }
{
    put_byte(out, sites.len() as u8)?;
    for site in sites {
        put_byte(out, site.get())?;
    }
    Ok(())
}

/// Appends the count of the records and then the records, a byte each.
#[tactic(auto, using(vp_text::proofs::Printing::printing))]
pub fn put_recs<B: BufMut>(out: &mut B, recs: &[RecId]) -> Result<(), NoMemory>
    requires { length recs.now ≤ 64 }
    ensures { Appends result (B.written out.old) (counted_bytes recs.now) (B.written out.new) }
{
    put_byte(out, recs.len() as u8)?;
    for rec in recs {
        put_byte(out, rec.get())?;
    }
    Ok(())
}

/// Appends a transaction and the number of a call on it.
#[tactic(auto, using(vp_text::proofs::Printing::printing))]
pub fn put_numbered<B: BufMut>(out: &mut B, txn: &TxnId, number: CallNo) -> Result<(), NoMemory>
    ensures { Appends result (B.written out.old) (numbered_bytes txn.now number) (B.written out.new) }
{
    put_txn(out, txn)?;
    put_u32(out, number.get())
}

/// Appends what each request for a lock or a vote begins with: a transaction, its view, and the number of the call.
#[tactic(auto, using(vp_text::proofs::Printing::printing))]
pub fn put_request<B: BufMut>(
    out: &mut B,
    txn: &TxnId,
    view: &ViewId,
    number: CallNo,
) -> Result<(), NoMemory>
    ensures { Appends result (B.written out.old) (request_bytes txn.now view.now number) (B.written out.new) }
{
    put_txn(out, txn)?;
    put_view(out, view)?;
    put_u32(out, number.get())
}
