//! The text of a view, NUMBER@SITE.

ghost use Rattle.vp_text.specs.Meaning.{Answers};
ghost use Rattle.vp_text.specs.Printing.{Appends};
ghost use Rattle.vp_text.specs.Reading.{Reads, whole, number_at};
ghost use Rattle.vp_base.specs.Identifiers.{IsViewText, view_text};
ghost use Rattle.vp_base.specs.Reading.{view_at, view_from_at, least_site, most_site, least_site_from};
ghost use Rattle.vp_base.specs.Faults.{bad_place};

use crate::fault::BadName;
use crate::ids::ViewId;
use crate::limits::LAST_SITE;
use crate::memory::NoMemory;
use crate::txn_text::print_after;
use vp_text::{Cursor, Unexpected, print_number};

impl ViewId {
    /// Reads the whole text as a view: a number of 1 or more with a site from 1 to 16, or 0@0. `BadName` says how many bytes of the
    /// text begin a view.
    pub fn read(text: &[u8]) -> Result<ViewId, BadName>
        ensures { Answers IsViewText (λ v. v) bad_place text.now result }
    {
        let mut cursor = Cursor::new(text);
        match ViewId::parse_whole(&mut cursor) {
            Ok(view) => Ok(view),
            Err(e) => Err(BadName {
                at: text.len() - e.left,
            }),
        }
    }

    fn parse_whole(cursor: &mut Cursor) -> Result<ViewId, Unexpected>
        ensures { Reads (λ v. v) (λ e. e.left) result cursor.new (whole view_at cursor.old) }
    {
        let view = ViewId::parse(cursor)?;
        cursor.end()?;
        Ok(view)
    }

    /// Reads a view from the front of what is left.
    #[tactic(auto, unfolding(crate::specs::Reading::view_at))]
    pub fn parse(cursor: &mut Cursor) -> Result<ViewId, Unexpected>
        ensures { Reads (λ v. v) (λ e. e.left) result cursor.new (view_at cursor.old) }
    {
        let number = cursor.number(0, u64::MAX)?;
        cursor.literal(b"@")?;
        let site = parse_site(cursor, number)?;
        Ok(ViewId { number, site })
    }

    /// Reads a view that isn't below `last` from the front of what is left.
    #[tactic(auto, unfolding(crate::specs::Reading::view_from_at))]
    pub fn parse_from(cursor: &mut Cursor, last: ViewId) -> Result<ViewId, Unexpected>
        ensures { Reads (λ v. v) (λ e. e.left) result cursor.new (view_from_at last cursor.old) }
    {
        let number = cursor.number(last.number, u64::MAX)?;
        cursor.literal(b"@")?;
        let site = parse_site_from(cursor, last, number)?;
        Ok(ViewId { number, site })
    }

    /// Appends the text of the view. After an error a beginning of it may have been appended.
    #[tactic(auto, using(vp_text::proofs::Printing::printing))]
    pub fn print(&self, out: &mut Vec<u8>) -> Result<(), NoMemory>
        ensures { Appends result out.old.items (view_text self.now) out.new.items }
    {
        print_number(out, self.number)?;
        print_after(out, b'@', u32::from(self.site))
    }
}

/// Reads the site of a view with this number.
fn parse_site(cursor: &mut Cursor, number: u64) -> Result<u8, Unexpected>
    ensures { Reads (λ x. x) (λ e. e.left) result cursor.new
        (number_at (least_site number) (most_site number) cursor.old) }
{
    if number == 0 {
        cursor.number_u8(0, 0)
    } else {
        cursor.number_u8(1, LAST_SITE)
    }
}

/// Reads the site of a view with this number, where the view isn't below `last`.
fn parse_site_from(cursor: &mut Cursor, last: ViewId, number: u64) -> Result<u8, Unexpected>
    ensures { Reads (λ x. x) (λ e. e.left) result cursor.new
        (number_at (least_site_from last number) (most_site number) cursor.old) }
{
    let most = if number == 0 { 0 } else { LAST_SITE };
    if number == last.number {
        cursor.number_u8(last.site, most)
    } else if number == 0 {
        cursor.number_u8(0, most)
    } else {
        cursor.number_u8(1, most)
    }
}
