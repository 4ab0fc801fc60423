//! Reading a catalogue.

ghost use Rattle.std.specs.Prelude.{◌≡◌, ◌≤◌, ◌<◌, ◌^◌, ℕ, length, Err};
ghost use Rattle.vp_catalog.specs.EntryReading.{entry_at};
ghost use Rattle.vp_catalog.specs.Document.{Answered, IsOnly, NextEntry, is_owed};

use crate::catalog::Catalog;
use crate::entry::Entry;
use crate::fault::CatalogFault;
use crate::reading::parse_entry;
use std::alloc::Global;
use vp_base::LineFault;
use vp_text::Cursor;

impl Catalog {
    /// Reads the whole text as a catalogue. An error names the first faulty line.
    pub fn read(alloc: Global, text: &[u8]) -> Result<Catalog, CatalogFault>
        ensures answer { Answered text.now result }
        ensures only { IsOnly text.now result }
    {
        let mut catalog = Catalog::new(alloc);
        let mut cursor = Cursor::new(text);
        let mut line = 1;
        while owes_line(&cursor, &catalog) {
            let entry = next_entry(alloc, &mut cursor, &catalog, line)?;
            catalog.add(entry, line)?;
            line += 1;
        }
        Ok(catalog)
    }
}

/// Whether another line has to come: more bytes are left, or there is no site yet.
fn owes_line(cursor: &Cursor, catalog: &Catalog) -> bool
    ensures { result ≡ is_owed cursor.now catalog.now }
{
    cursor.left() > 0 || catalog.sites().as_slice().is_empty()
}

/// Reads the next line, which the lines before it allow.
fn next_entry(
    alloc: Global,
    cursor: &mut Cursor,
    catalog: &Catalog,
    line: usize,
) -> Result<Entry, CatalogFault>
    requires room { (left : ℕ) → entry_at catalog.now cursor.old ≡ Err left → left ≤ length cursor.old }
    requires small { length cursor.old < 2 ^ 63 }
    ensures { NextEntry catalog.now line cursor.old cursor.new result }
{
    let here = cursor.left();
    match parse_entry(alloc, cursor, catalog) {
        Ok(entry) => Ok(entry),
        Err(LineFault::NoMemory) => Err(CatalogFault::NoMemory),
        Err(LineFault::Unexpected(e)) => Err(CatalogFault::BadLine {
            line,
            at: here - e.left + 1,
        }),
    }
}
