//! The lines of a report on stopped sites.

ghost use Rattle.std.specs.Prelude.{◌≡◌, ◌++◌, ◌∷◌, OnOk, codes, flat_map};
ghost use Rattle.std.specs.Fmt.{decimal};
ghost use Rattle.vp_audit.specs.Lines.{can_text, content_text, doubt_line, found_text, newest_line, report_text};
ghost use Rattle.vp_model.specs.Catalogue.{name_of};
ghost use Rattle.vp_model.specs.Texts.Fields.{sites_text, txn_text, view_text};

use vp_audit::{Can, DoubtAt, Found, Report};
use vp_base::{NoMemory, RecId, SiteId, Value, ViewId};
use vp_catalog::Catalog;
use vp_text::print_number;
use vp_trace::print_sites;

/// Appends the lines of each record.
pub fn print_report(catalog: &Catalog, report: &Report, out: &mut Vec<u8>) -> Result<(), NoMemory>
    ensures { OnOk result (out.new.items ≡ out.old.items ++ report_text catalog.now report.now) }
{
    for found in report.as_slice() {
        print_found(catalog, found, out)?;
    }
    Ok(())
}

fn print_found(catalog: &Catalog, found: &Found, out: &mut Vec<u8>) -> Result<(), NoMemory>
    ensures { OnOk result (out.new.items ≡ out.old.items ++ found_text catalog.now found.now) }
{
    print_newest(catalog, found, out)?;
    print_doubts(catalog, found.rec, found.doubts.as_slice(), out)?;
    out.extend_from_slice(b"can ")?;
    print_name(catalog, found.rec, out)?;
    print_can(&found.can, out)?;
    out.push(b'\n')?;
    Ok(())
}

/// Appends the line of the newest settled copy, or the line that there is none.
fn print_newest(catalog: &Catalog, found: &Found, out: &mut Vec<u8>) -> Result<(), NoMemory>
    ensures { OnOk result
        (out.new.items ≡ out.old.items ++
        newest_line (name_of catalog.now found.now.rec) found.now.newest found.now.sites) }
{
    let Some(copy) = &found.newest else {
        out.extend_from_slice(b"unsettled ")?;
        print_name(catalog, found.rec, out)?;
        out.push(b'\n')?;
        return Ok(());
    };
    print_content(catalog, found.rec, &copy.value, out)?;
    print_date(&copy.date, found.sites.as_slice(), out)?;
    out.push(b'\n')?;
    Ok(())
}

/// Appends the beginning of a line on a copy: its record, and its value if it has one.
fn print_content(
    catalog: &Catalog,
    rec: RecId,
    content: &Option<Value>,
    out: &mut Vec<u8>,
) -> Result<(), NoMemory>
    ensures { OnOk result (out.new.items ≡ out.old.items ++ content_text (name_of catalog.now rec) content.now) }
{
    match content {
        None => {
            out.extend_from_slice(b"absent ")?;
            print_name(catalog, rec, out)
        }
        Some(value) => {
            out.extend_from_slice(b"newest ")?;
            print_name(catalog, rec, out)?;
            out.push(b' ')?;
            value.print(out)
        }
    }
}

/// Appends the date of a copy, and the sites that have one of that date.
fn print_date(date: &ViewId, sites: &[SiteId], out: &mut Vec<u8>) -> Result<(), NoMemory>
    ensures { OnOk result
        (out.new.items ≡ out.old.items ++ 32 ∷
        (view_text date.now ++ (codes " at " ++ sites_text sites.now))) }
{
    out.push(b' ')?;
    date.print(out)?;
    out.extend_from_slice(b" at ")?;
    print_sites(out, sites)
}

fn print_doubts(
    catalog: &Catalog,
    rec: RecId,
    doubts: &[DoubtAt],
    out: &mut Vec<u8>,
) -> Result<(), NoMemory>
    ensures { OnOk result
        (out.new.items ≡ out.old.items ++ flat_map (doubt_line (name_of catalog.now rec)) doubts.now) }
{
    for doubt in doubts {
        print_doubt(catalog, rec, doubt, out)?;
    }
    Ok(())
}

/// Appends the line of a transaction in doubt at a site.
fn print_doubt(
    catalog: &Catalog,
    rec: RecId,
    doubt: &DoubtAt,
    out: &mut Vec<u8>,
) -> Result<(), NoMemory>
    ensures { OnOk result (out.new.items ≡ out.old.items ++ doubt_line (name_of catalog.now rec) doubt.now) }
{
    out.extend_from_slice(b"doubt ")?;
    print_name(catalog, rec, out)?;
    print_doubt_at(doubt, out)?;
    out.push(b'\n')?;
    Ok(())
}

/// Appends the transaction, its view and the site.
fn print_doubt_at(doubt: &DoubtAt, out: &mut Vec<u8>) -> Result<(), NoMemory>
    ensures { OnOk result
        (out.new.items ≡ out.old.items ++ 32 ∷
        (txn_text doubt.now.txn ++ 32 ∷
        (view_text doubt.now.view ++ (codes " at " ++ decimal doubt.now.site)))) }
{
    out.push(b' ')?;
    doubt.txn.print(out)?;
    out.push(b' ')?;
    doubt.view.print(out)?;
    out.extend_from_slice(b" at ")?;
    doubt.site.print(out)
}

/// Appends whether the value is sure.
fn print_can(can: &Can, out: &mut Vec<u8>) -> Result<(), NoMemory>
    ensures { OnOk result (out.new.items ≡ out.old.items ++ can_text can.now) }
{
    match can {
        Can::No { inside, total } => {
            out.extend_from_slice(b" no ")?;
            print_number(out, u64::from(*inside))?;
            out.extend_from_slice(b" of ")?;
            print_number(out, u64::from(*total))?;
        }
        Can::Wait { txn } => {
            out.extend_from_slice(b" wait ")?;
            txn.print(out)?;
        }
        Can::Yes => out.extend_from_slice(b" yes")?,
    }
    Ok(())
}

/// Appends the name of a record; nothing where the catalogue has no record with this index.
fn print_name(catalog: &Catalog, rec: RecId, out: &mut Vec<u8>) -> Result<(), NoMemory>
    ensures { OnOk result (out.new.items ≡ out.old.items ++ name_of catalog.now rec) }
{
    match catalog.name(rec) {
        None => Ok(()),
        Some(name) => name.print(out),
    }
}
