//! The kinds of event lines, by their first words.

ghost use Rattle.std.specs.Prelude.{◌≡◌};
ghost use Rattle.vp_text.specs.Reading.{Reads};
ghost use Rattle.vp_schedule.specs.Kinds.{word, kind_at};

use vp_text::{Cursor, Unexpected};

/// A kind of event line. What the event does is at the variant of `Event` with its name.
#[derive(Clone, Copy)]
pub enum EventKind {
    Call,
    Deliver,
    Flow,
    Tick,
    Probe,
    Crash,
    Restart,
    Cut,
    Heal,
}

impl EventKind {
    /// The first word of a line of this kind, with the space after it.
    fn word(self) -> &'static [u8]
        ensures { result.now ≡ word self }
    {
        match self {
            EventKind::Call => b"call ",
            EventKind::Deliver => b"deliver ",
            EventKind::Flow => b"flow ",
            EventKind::Tick => b"tick ",
            EventKind::Probe => b"probe ",
            EventKind::Crash => b"crash ",
            EventKind::Restart => b"restart ",
            EventKind::Cut => b"cut ",
            EventKind::Heal => b"heal ",
        }
    }
}

/// Reads the word of one of the kinds. Where there is none, the fault is that of the word that went farthest.
pub fn parse_kind(cursor: &mut Cursor, kinds: &[EventKind]) -> Result<EventKind, Unexpected>
    ensures { Reads (λ kind. kind) (λ e. e.left) result cursor.new (kind_at kinds.now cursor.old) }
{
    let mut fault = Unexpected {
        left: cursor.left(),
    };
    for kind in kinds {
        let mut next = cursor.fork();
        match next.literal(kind.word()) {
            Ok(()) => {
                *cursor = next;
                return Ok(*kind);
            }
            Err(e) => fault = fault.farther(e),
        }
    }
    Err(fault)
}
