//! The fixed words of statements.

ghost use Rattle.std.specs.Prelude.{◌≡◌};
ghost use Rattle.vp_text.specs.Reading.{Reads};
ghost use Rattle.vp_procedure.specs.Keywords.{word, keyword_at, ends_of, signs_of};

use vp_text::{Cursor, Unexpected};

/// A fixed word of a statement: the one that it begins with, or what is between and after its terms.
#[derive(Clone, Copy, Debug, PartialEq, Eq)]
pub enum Keyword {
    Read,
    Set,
    Write,
    If,
    Else,
    End,
    Fail,
    Result,
    Plus,
    Minus,
    Less,
    Equal,
    Newline,
}

impl Keyword {
    /// Its bytes, with the spaces around it.
    pub fn word(self) -> &'static [u8]
        ensures { result.now ≡ word self }
    {
        match self {
            Keyword::Read => b"read ",
            Keyword::Set => b"set ",
            Keyword::Write => b"write ",
            Keyword::If => b"if ",
            Keyword::Else => b"else\n",
            Keyword::End => b"end\n",
            Keyword::Fail => b"fail ",
            Keyword::Result => b"result ",
            Keyword::Plus => b" + ",
            Keyword::Minus => b" - ",
            Keyword::Less => b" < ",
            Keyword::Equal => b" = ",
            Keyword::Newline => b"\n",
        }
    }
}

/// What may come after an expression: what compares it with another one, or the end of the line.
pub fn ends_of(compared: bool) -> &'static [Keyword]
    ensures { result.now ≡ ends_of compared }
{
    if compared {
        &[Keyword::Less, Keyword::Equal]
    } else {
        &[Keyword::Newline]
    }
}

/// What may come after the first term of an expression.
pub fn signs_of(compared: bool) -> &'static [Keyword]
    ensures { result.now ≡ signs_of compared }
{
    if compared {
        &[Keyword::Plus, Keyword::Minus, Keyword::Less, Keyword::Equal]
    } else {
        &[Keyword::Plus, Keyword::Minus, Keyword::Newline]
    }
}

/// Reads one of the keywords. If there is none, the fault is that of the one that went farthest.
pub fn parse_keyword(cursor: &mut Cursor, keywords: &[Keyword]) -> Result<Keyword, Unexpected>
    ensures { Reads (λ keyword. keyword) (λ e. e.left) result cursor.new (keyword_at keywords.now cursor.old) }
{
    let mut fault = Unexpected {
        left: cursor.left(),
    };
    for keyword in keywords {
        let mut next = cursor.fork();
        match next.literal(keyword.word()) {
            Ok(()) => {
                *cursor = next;
                return Ok(*keyword);
            }
            Err(e) => fault = fault.farther(e),
        }
    }
    Err(fault)
}
