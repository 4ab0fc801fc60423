//! The lines before a history.

ghost use Rattle.std.specs.Prelude.{◌≤◌, ◌<◌, ◌^◌, ◌+◌, length, take, MatchOption, MatchResult};
ghost use Rattle.vp_text.specs.Documents.{HasNoNewline, IsLine};
ghost use Rattle.vp_onecopy.specs.Passing.{Passes};

use vp_text::Cursor;

/// The length of the first line, its newline included, or `None` where there is no newline.
fn line_size(bytes: &[u8]) -> Option<usize>
    ensures { MatchOption result (HasNoNewline bytes.now)
        (λ n. (0 < n) × (n ≤ length bytes.now) × IsLine (take n bytes.now)) }
{
    for (i, byte) in bytes.iter().enumerate() {
        if *byte == b'\n' {
            return Some(i + 1);
        }
    }
    None
}

/// Passes over the lines up to the first line `history`, it included, and returns how many lines came before it. Where there is no
/// such line, the error is the number of all lines that end with a newline.
pub fn pass_over(cursor: &mut Cursor) -> Result<usize, usize>
    requires { length cursor.old < 2 ^ 63 }
    ensures passes { Passes cursor.old cursor.new result }
    ensures bound { MatchResult result (λ n. n + length cursor.new ≤ length cursor.old)
        (λ n. n + length cursor.new ≤ length cursor.old) }
{
    let mut passed = 0;
    loop {
        let mut other = cursor.fork();
        if let Ok(()) = other.literal(b"history\n") {
            *cursor = other;
            return Ok(passed);
        }
        let Some(size) = line_size(cursor.rest()) else {
            return Err(passed);
        };
        cursor.advance(size);
        passed += 1;
    }
}
