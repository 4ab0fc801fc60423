//! Printing a catalogue.

ghost use Rattle.std.specs.Prelude.{◌++◌, ◌∷◌, [], flat_map};
ghost use Rattle.std.specs.Fmt.{decimal};
ghost use Rattle.vp_text.specs.Printing.{Appends};
ghost use Rattle.vp_model.specs.Texts.Schedule.{site_line, record_line, catalogue_text};
ghost use Rattle.vp_model.specs.Texts.Fields.{weight_text, table_text};

use crate::catalog::Catalog;
use crate::placed::CatalogRecord;
use vp_base::{NoMemory, SiteId};
use vp_text::print_number;

/// Appends these bytes, then the site and its number with a mark between them.
fn print_pair(
    out: &mut Vec<u8>,
    before: &[u8],
    pair: &(SiteId, u16),
    mark: u8,
) -> Result<(), NoMemory>
    ensures { Appends result out.old.items (before.now ++ (decimal pair.now.0 ++ mark ∷ decimal pair.now.1))
        out.new.items }
{
    out.extend_from_slice(before)?;
    pair.0.print(out)?;
    out.push(mark)?;
    print_number(out, u64::from(pair.1))?;
    Ok(())
}

fn print_sites(out: &mut Vec<u8>, sites: &[(SiteId, u16)]) -> Result<(), NoMemory>
    ensures { Appends result out.old.items (flat_map site_line sites.now) out.new.items }
{
    for site in sites {
        print_pair(out, b"site ", site, b' ')?;
        out.push(b'\n')?;
    }
    Ok(())
}

/// Appends a space, the site and the weight for each weight. After want of memory a beginning of it may have been appended.
pub fn print_weights(out: &mut Vec<u8>, weights: &[(SiteId, u16)]) -> Result<(), NoMemory>
    ensures { Appends result out.old.items (table_text weights.now) out.new.items }
{
    for weight in weights {
        print_pair(out, b" ", weight, b':')?;
    }
    Ok(())
}

/// Appends the value that each copy starts with, the weights of the copies, and a newline.
fn print_copies(out: &mut Vec<u8>, placed: &CatalogRecord) -> Result<(), NoMemory>
    ensures { Appends result out.old.items
        (placed.now.start ++ (flat_map weight_text placed.now.weights ++ 10 ∷ []))
        out.new.items }
{
    placed.start().print(out)?;
    print_weights(out, placed.weights())?;
    out.push(b'\n')?;
    Ok(())
}

fn print_record(out: &mut Vec<u8>, placed: &CatalogRecord) -> Result<(), NoMemory>
    ensures { Appends result out.old.items (record_line placed.now) out.new.items }
{
    out.extend_from_slice(b"record ")?;
    placed.name().print(out)?;
    out.push(b' ')?;
    print_copies(out, placed)
}

fn print_records(out: &mut Vec<u8>, records: &[CatalogRecord]) -> Result<(), NoMemory>
    ensures { Appends result out.old.items (flat_map record_line records.now) out.new.items }
{
    for placed in records {
        print_record(out, placed)?;
    }
    Ok(())
}

impl Catalog {
    /// Appends the lines of the catalogue. After want of memory a beginning of them may have been appended.
    #[tactic(auto, using(vp_text::proofs::Printing::printing))]
    pub fn print(&self, out: &mut Vec<u8>) -> Result<(), NoMemory>
        ensures { Appends result out.old.items (catalogue_text self.now) out.new.items }
    {
        print_sites(out, self.ports())?;
        print_records(out, self.records())
    }
}
