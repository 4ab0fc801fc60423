//! Reading the lines of a head.

ghost use Rattle.std.specs.Prelude.{◌≡◌};
ghost use Rattle.vp_text.specs.Reading.{Reads, Tries};
ghost use Rattle.vp_base.specs.Faults.{line_left};
ghost use Rattle.vp_heads.specs.HeadReading.{entry_line_at, key_line_at, head_at};

use crate::line::HeadLine;
use std::alloc::Global;
use vp_base::LineFault;
use vp_catalog::{Catalog, parse_entry};
use vp_text::{Cursor, Unexpected};

#[tactic(auto, unfolding(crate::specs::HeadReading::entry_line_at))]
fn parse_entry_line(
    alloc: Global,
    cursor: &mut Cursor,
    catalog: &Catalog,
) -> Result<HeadLine, LineFault>
    ensures { Tries (λ line. line) line_left result cursor.new (entry_line_at catalog.now cursor.old) }
{
    let entry = parse_entry(alloc, cursor, catalog)?;
    Ok(HeadLine::Entry(entry))
}

#[tactic(auto, unfolding(crate::specs::HeadReading::key_line_at))]
fn parse_key_line(cursor: &mut Cursor, key: &[u8]) -> Result<HeadLine, Unexpected>
    ensures { Reads (λ line. line) (λ e. e.left) result cursor.new (key_line_at key.now cursor.old) }
{
    cursor.literal(key)?;
    Ok(HeadLine::Key)
}

/// Reads a line of the catalogue that the lines before it allow or, where there is a site already, the key line, with its newline.
#[tactic(auto, unfolding(crate::specs::HeadReading::head_at))]
pub fn parse_head(
    alloc: Global,
    cursor: &mut Cursor,
    catalog: &Catalog,
    key: &[u8],
) -> Result<HeadLine, LineFault>
    ensures { Tries (λ line. line) line_left result cursor.new (head_at key.now catalog.now cursor.old) }
{
    if catalog.sites().as_slice().is_empty() {
        return parse_entry_line(alloc, cursor, catalog);
    }
    let mut other = cursor.fork();
    match parse_entry_line(alloc, cursor, catalog) {
        Ok(line) => Ok(line),
        Err(LineFault::NoMemory) => Err(LineFault::NoMemory),
        Err(LineFault::Unexpected(first)) => match parse_key_line(&mut other, key) {
            Ok(line) => {
                *cursor = other;
                Ok(line)
            }
            Err(second) => Err(LineFault::Unexpected(first.farther(second))),
        },
    }
}
