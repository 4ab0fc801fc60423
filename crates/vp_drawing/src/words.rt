//! The words of the command line.

ghost use Rattle.std.specs.Prelude.{◌≡◌, ◌≤◌, IfOk, IfSome};
ghost use Rattle.vp_text.specs.Reading.{Reads, number_at, whole};
ghost use Rattle.vp_status.specs.declared.status.Status.TheVariants as status;
ghost use Rattle.vp_drawing.specs.Words.{line_number, part_between, part_of, usage_text};

use std::alloc::Global;
use vp_base::{NoMemory, Word};
use vp_pictures::Part;
use vp_status::{RunOutput, Status};
use vp_text::{Cursor, Unexpected};

/// The highest number of an event line.
const LAST_LINE: u32 = 100_000;

/// The part of a run that the words ask for: the whole run, or from one event line to another; `None` where they ask for none.
pub fn part_of(words: &[Word]) -> Option<Part>
    ensures { result ≡ part_of words.now }
{
    match words {
        [] => Some(Part {
            from: 1,
            to: LAST_LINE,
        }),
        [from, to] => part_between(line_number(from)?, line_number(to)?),
        _ => None,
    }
}

fn part_between(from: u32, to: u32) -> Option<Part>
    ensures { result ≡ part_between from to }
{
    if from <= to {
        Some(Part { from, to })
    } else {
        None
    }
}

/// The number of an event line that the whole word is.
fn line_number(word: &Word) -> Option<u32>
    ensures { result ≡ line_number word.now }
{
    let mut cursor = Cursor::new(word.as_slice());
    whole_number(&mut cursor).ok()
}

fn whole_number(cursor: &mut Cursor) -> Result<u32, Unexpected>
    ensures { Reads (λ n. n) (λ e. e.left) result cursor.new (whole (number_at 1 100000) cursor.old) }
{
    let number = cursor.number_u32(1, LAST_LINE)?;
    cursor.end()?;
    Ok(number)
}

/// Makes the status and the line for other words.
pub fn usage(alloc: Global) -> Result<RunOutput, NoMemory>
    ensures status { IfOk result (λ it. it.status ≡ status.Usage) }
    ensures text { IfOk result (λ it. it.text.items ≡ usage_text) }
{
    RunOutput::new(alloc, Status::Usage, b"usage: vpdraw [FROM TO]\n")
}
