//! Printing the fields of a line. After an error a beginning of a field may have been appended, where nothing else is said.

ghost use Rattle.std.specs.Prelude.{◌≡◌, ◌++◌, ◌∷◌, [], OnOk, OnErr, codes, flat_map};
ghost use Rattle.vp_text.specs.Printing.{Appends};
ghost use Rattle.std.specs.Fmt.{decimal};
ghost use Rattle.vp_model.specs.Catalogue.{name_of};
ghost use Rattle.vp_model.specs.Texts.Fields.{view_text, held_text, txn_text, owner_text, call_name_text, sites_text, later_site_text};

use vp_base::{CallNo, NoMemory, Owner, RecId, SiteId, TxnId, Value, ViewId};
use vp_catalog::Catalog;
use vp_text::print_number;

/// Appends the bytes. Where memory is lacking, none of them are appended.
pub fn print_word(out: &mut Vec<u8>, word: &[u8]) -> Result<(), NoMemory>
    ensures ok { OnOk result (out.new.items ≡ out.old.items ++ word.now) }
    ensures err { OnErr result (out.new.items ≡ out.old.items) }
{
    out.extend_from_slice(word)?;
    Ok(())
}

/// Appends a number in decimal. Where memory is lacking, nothing is appended.
pub fn print_count(out: &mut Vec<u8>, number: u32) -> Result<(), NoMemory>
    ensures ok { OnOk result (out.new.items ≡ out.old.items ++ decimal number) }
    ensures err { OnErr result (out.new.items ≡ out.old.items) }
{
    print_number(out, u64::from(number))?;
    Ok(())
}

/// Appends the bytes and a number.
pub fn print_counted(out: &mut Vec<u8>, word: &[u8], count: u32) -> Result<(), NoMemory>
    ensures { Appends result out.old.items (word.now ++ decimal count) out.new.items }
{
    print_word(out, word)?;
    print_count(out, count)
}

/// Appends the bytes and a site.
pub fn print_site(out: &mut Vec<u8>, word: &[u8], site: SiteId) -> Result<(), NoMemory>
    ensures { Appends result out.old.items (word.now ++ decimal site) out.new.items }
{
    print_word(out, word)?;
    site.print(out)
}

/// Appends the view that a site holds, or `none`.
pub fn print_held(out: &mut Vec<u8>, held: &Option<ViewId>) -> Result<(), NoMemory>
    ensures { Appends result out.old.items (held_text held.now) out.new.items }
{
    match held {
        None => print_word(out, b"none"),
        Some(view) => view.print(out),
    }
}

/// Appends the owner of a lock: a transaction, or `refresh`.
pub fn print_owner(out: &mut Vec<u8>, owner: &Owner) -> Result<(), NoMemory>
    ensures { Appends result out.old.items (owner_text owner.now) out.new.items }
{
    match owner {
        Owner::Txn(txn) => txn.print(out),
        Owner::Refresh => print_word(out, b"refresh"),
    }
}

/// Appends a transaction and the number of one of its calls.
pub fn print_call_name(out: &mut Vec<u8>, txn: &TxnId, number: CallNo) -> Result<(), NoMemory>
    ensures { Appends result out.old.items (call_name_text txn.now number) out.new.items }
{
    txn.print(out)?;
    out.push(b' ')?;
    print_count(out, number.get())
}

/// Appends the bytes and a view.
pub fn print_view(out: &mut Vec<u8>, word: &[u8], view: &ViewId) -> Result<(), NoMemory>
    ensures { Appends result out.old.items (word.now ++ view_text view.now) out.new.items }
{
    print_word(out, word)?;
    view.print(out)
}

/// Appends the bytes and a transaction.
pub fn print_txn(out: &mut Vec<u8>, word: &[u8], txn: &TxnId) -> Result<(), NoMemory>
    ensures { Appends result out.old.items (word.now ++ txn_text txn.now) out.new.items }
{
    print_word(out, word)?;
    txn.print(out)
}

/// Appends the bytes, a transaction, and the number of one of its calls.
pub fn print_numbered(
    out: &mut Vec<u8>,
    word: &[u8],
    txn: &TxnId,
    number: CallNo,
) -> Result<(), NoMemory>
    ensures { Appends result out.old.items (word.now ++ call_name_text txn.now number) out.new.items }
{
    print_word(out, word)?;
    print_call_name(out, txn, number)
}

/// Appends the sites with commas between them.
#[tactic(auto, using(vp_text::proofs::Printing::printing))]
pub fn print_sites(out: &mut Vec<u8>, sites: &[SiteId]) -> Result<(), NoMemory>
    ensures { Appends result out.old.items (sites_text sites.now) out.new.items }
{
    match sites.split_first() {
        None => Ok(()),
        Some((first, others)) => {
            first.print(out)?;
            print_later_sites(out, others)
        }
    }
}

fn print_later_sites(out: &mut Vec<u8>, sites: &[SiteId]) -> Result<(), NoMemory>
    ensures { Appends result out.old.items (flat_map later_site_text sites.now) out.new.items }
{
    for site in sites {
        out.push(b',')?;
        site.print(out)?;
    }
    Ok(())
}

/// Appends a space and a value.
pub fn print_value(out: &mut Vec<u8>, value: &Value) -> Result<(), NoMemory>
    ensures { Appends result out.old.items (32 ∷ value.now) out.new.items }
{
    out.push(b' ')?;
    value.print(out)
}

/// Appends a space and the name of a record; only the space where the catalogue has no record at that place.
pub fn print_record_after(out: &mut Vec<u8>, catalog: &Catalog, rec: RecId) -> Result<(), NoMemory>
    ensures { Appends result out.old.items (32 ∷ name_of catalog.now rec) out.new.items }
{
    out.push(b' ')?;
    print_record(out, catalog, rec)
}

/// Appends the name of a record; nothing where the catalogue has no record at that place.
#[tactic(auto, using(vp_text::proofs::Printing::printing))]
pub fn print_record(out: &mut Vec<u8>, catalog: &Catalog, rec: RecId) -> Result<(), NoMemory>
    ensures { Appends result out.old.items (name_of catalog.now rec) out.new.items }
{
    match catalog.name(rec) {
        None => Ok(()),
        Some(name) => name.print(out),
    }
}
