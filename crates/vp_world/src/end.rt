//! Why a world ends.

ghost use Rattle.std.specs.Prelude.{◌≡◌};

use vp_base::{Counted, NoMemory};

/// Why an event is not done. The world is gone then.
#[derive(Clone, Copy, Debug, Drop, PartialEq, Eq)]
pub enum WorldEnd {
    /// With the event there would be more than `limit` steps or messages.
    Limit { what: Counted, limit: u32 },
    NoMemory,
}

impl From<NoMemory> for WorldEnd {
    ghost use Rattle.vp_world.specs.declared.end.WorldEnd.TheVariants as end;

    ghost from_gives = { λ _ e. e ≡ end.NoMemory };

    fn from(_e: NoMemory) -> WorldEnd {
        WorldEnd::NoMemory
    }
}
