//! The lines that refuse an input.

ghost use Rattle.std.specs.Prelude.{◌≡◌};
ghost use Rattle.vp_text.specs.Printing.{Appends};
ghost use Rattle.vp_status.specs.Refused.{bad_line_text, twice_text, limit_words, limit_text};

use vp_base::{MOST_MESSAGES, MOST_RECORDS, NoMemory};
use vp_text::print_number;

/// Appends the line that says where the input goes wrong; line and byte are counted from 1. If memory runs out, a beginning of it is
/// appended.
#[tactic(auto, using(vp_text::proofs::Printing::printing))]
pub fn print_bad_line(line: usize, at: usize, out: &mut Vec<u8>) -> Result<(), NoMemory>
    ensures { Appends result out.old.items (bad_line_text line at) out.new.items }
{
    out.extend_from_slice(b"bad line ")?;
    print_number(out, line as u64)?;
    out.extend_from_slice(b" at ")?;
    print_number(out, at as u64)?;
    out.push(b'\n')?;
    Ok(())
}

/// Appends the line that says which line of the input repeats a port or a name. If memory runs out, a beginning of it is appended.
#[tactic(auto, using(vp_text::proofs::Printing::printing))]
pub fn print_twice(line: usize, out: &mut Vec<u8>) -> Result<(), NoMemory>
    ensures { Appends result out.old.items (twice_text line) out.new.items }
{
    out.extend_from_slice(b"twice line ")?;
    print_number(out, line as u64)?;
    out.push(b'\n')?;
    Ok(())
}

/// The word for what the limit counts.
fn limit_words(limit: u32) -> &'static [u8]
    ensures { result.now ≡ limit_words limit }
{
    if limit == MOST_RECORDS as u32 {
        b"records "
    } else if limit == MOST_MESSAGES {
        b"messages "
    } else {
        b"events "
    }
}

/// Appends the line of a limit: how many records, messages or events there may be. If memory runs out, a beginning of it is appended.
#[tactic(auto, using(vp_text::proofs::Printing::printing))]
pub fn print_limit(limit: u32, out: &mut Vec<u8>) -> Result<(), NoMemory>
    ensures { Appends result out.old.items (limit_text limit) out.new.items }
{
    out.extend_from_slice(b"limit ")?;
    out.extend_from_slice(limit_words(limit))?;
    print_number(out, u64::from(limit))?;
    out.push(b'\n')?;
    Ok(())
}
