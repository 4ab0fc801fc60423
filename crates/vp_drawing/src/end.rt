//! Why a run isn't drawn.

ghost use Rattle.std.specs.Prelude.{◌≡◌, ◌++◌, OnOk};
ghost use Rattle.vp_drawing.specs.Limits.{end_of, limit_text};

use vp_base::{Counted, NoMemory};
use vp_world::WorldEnd;

/// The most steps of a run that is drawn.
pub const MOST_STEPS: u32 = 2_000;

/// The most messages of a run that is drawn.
pub const MOST_MESSAGES: usize = 20_000;

/// Why a run isn't drawn.
#[derive(Clone, Copy, Debug, Drop, PartialEq, Eq)]
pub enum DrawingEnd {
    /// It has too many steps or messages.
    Limit { what: Counted },
    NoMemory,
}

impl From<NoMemory> for DrawingEnd {
    ghost use Rattle.vp_drawing.specs.declared.end.DrawingEnd.TheVariants as end;

    ghost from_gives = { λ _ e. e ≡ end.NoMemory };

    fn from(_e: NoMemory) -> DrawingEnd {
        DrawingEnd::NoMemory
    }
}

impl From<WorldEnd> for DrawingEnd {
    ghost from_gives = { λ e d. d ≡ end_of e };

    fn from(e: WorldEnd) -> DrawingEnd {
        match e {
            WorldEnd::Limit { what, .. } => DrawingEnd::Limit { what },
            WorldEnd::NoMemory => DrawingEnd::NoMemory,
        }
    }
}

/// Appends the line of a limit.
pub fn print_limit(what: Counted, out: &mut Vec<u8>) -> Result<(), NoMemory>
    ensures { OnOk result (out.new.items ≡ out.old.items ++ limit_text what) }
{
    match what {
        Counted::Steps => out.extend_from_slice(b"limit steps 2000\n")?,
        Counted::Messages => out.extend_from_slice(b"limit messages 20000\n")?,
    }
    Ok(())
}
