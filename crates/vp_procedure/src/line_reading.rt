//! Reading the lines of a procedure's input.

ghost use Rattle.std.specs.Prelude.{◌≡◌, ◌≤◌, filter, length};
ghost use Rattle.vp_text.specs.Reading.{Reads, Tries};
ghost use Rattle.vp_base.specs.Faults.{line_left};
ghost use Rattle.vp_procedure.specs.Keywords.{keyword_at};
ghost use Rattle.vp_procedure.specs.LineReading.{may_begin, head_line_at, statement_line_at, line_at};

use crate::draft::ProcedureDraft;
use crate::keyword::{Keyword, parse_keyword};
use crate::line::ProcedureLine;
use crate::statement_reading::parse_fields;
use std::alloc::Global;
use vp_base::LineFault;
use vp_heads::parse_head;
use vp_text::{Cursor, Unexpected};

/// The line after the catalogue.
pub const KEY: &[u8] = b"procedure\n";

/// How deep `if`s may be nested.
const MOST_IFS: usize = 16;

/// The words that statements begin with.
const FIRST_WORDS: [Keyword; 8] = [
    Keyword::Read,
    Keyword::Set,
    Keyword::Write,
    Keyword::If,
    Keyword::Else,
    Keyword::End,
    Keyword::Fail,
    Keyword::Result,
];

/// Whether a statement that begins so may come after what the lines say.
fn may_begin(draft: &ProcedureDraft, keyword: Keyword) -> bool
    ensures { result ≡ may_begin draft.now keyword }
{
    match keyword {
        Keyword::Read | Keyword::Write => draft.head.catalog.count() > 0,
        Keyword::Set | Keyword::Fail => true,
        Keyword::If => draft.ifs.count() < MOST_IFS,
        Keyword::Else => draft.ifs.may_else(),
        Keyword::End => draft.ifs.count() > 0,
        Keyword::Result => draft.ifs.count() == 0,
        _ => false,
    }
}

/// Reads one of the words, which a statement that may come after what the lines say begins with.
fn parse_first_word(
    cursor: &mut Cursor,
    draft: &ProcedureDraft,
    words: &[Keyword],
) -> Result<Keyword, Unexpected>
    requires { length words.now ≤ 8 }
    ensures { Reads (λ keyword. keyword) (λ e. e.left) result cursor.new
        (keyword_at (filter (may_begin draft.now) words.now) cursor.old) }
{
    let mut allowed = [Keyword::Set; 8];
    let mut count = 0;
    for keyword in words {
        if may_begin(draft, *keyword) {
            allowed[count] = *keyword;
            count += 1;
        }
    }
    parse_keyword(cursor, &allowed[..count])
}

#[tactic(auto, unfolding(crate::specs::LineReading::statement_line_at))]
fn parse_statement_line(
    cursor: &mut Cursor,
    draft: &ProcedureDraft,
) -> Result<ProcedureLine, LineFault>
    ensures { Tries (λ line. line) line_left result cursor.new (statement_line_at draft.now cursor.old) }
{
    let keyword = parse_first_word(cursor, draft, &FIRST_WORDS)?;
    let statement = parse_fields(cursor, &draft.head.catalog, keyword)?;
    Ok(ProcedureLine::Statement(statement))
}

#[tactic(auto, unfolding(crate::specs::LineReading::head_line_at))]
fn parse_head_line(
    alloc: Global,
    cursor: &mut Cursor,
    draft: &ProcedureDraft,
) -> Result<ProcedureLine, LineFault>
    ensures { Tries (λ line. line) line_left result cursor.new (head_line_at draft.now cursor.old) }
{
    let line = parse_head(alloc, cursor, &draft.head.catalog, KEY)?;
    Ok(ProcedureLine::Head(line))
}

/// Reads a line that the lines before it allow.
#[tactic(auto, unfolding(crate::specs::LineReading::line_at))]
pub fn parse_line(
    alloc: Global,
    cursor: &mut Cursor,
    draft: &ProcedureDraft,
) -> Result<ProcedureLine, LineFault>
    ensures { Tries (λ line. line) line_left result cursor.new (line_at draft.now cursor.old) }
{
    if draft.head.opened {
        parse_statement_line(cursor, draft)
    } else {
        parse_head_line(alloc, cursor, draft)
    }
}
