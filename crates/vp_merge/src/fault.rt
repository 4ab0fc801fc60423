//! Why recordings are not put together.

ghost use Rattle.std.specs.Prelude.{◌≡◌};
ghost use Rattle.vp_merge.specs.declared.fault.MergeFault.TheVariants as faults;
ghost use Rattle.vp_merge.specs.Faults.{fault_of};

use vp_base::{Counted, NoMemory, SiteId};
use vp_world::WorldEnd;

/// Why recordings are not put together. Turns are counted from 1, over all recordings of their site.
#[derive(Clone, Copy, Drop, PartialEq, Eq)]
pub enum MergeFault {
    /// No further turn can be done. The lowest site with turns left waits in this one for a message that no step has sent, and that no
    /// schedule sends that fits.
    Unsent { site: SiteId, turn: u32 },
    /// The datagram of this turn is no input of its site and does not stop its node, or its step gives other datagrams than are told.
    Differs { site: SiteId, turn: u32 },
    /// With the next event there would be more than `limit` steps or messages.
    Limit { what: Counted, limit: u32 },
    NoMemory,
}

impl From<NoMemory> for MergeFault {
    ghost from_gives = { λ _ e. e ≡ faults.NoMemory };

    fn from(_e: NoMemory) -> MergeFault {
        MergeFault::NoMemory
    }
}

impl From<WorldEnd> for MergeFault {
    ghost from_gives = { λ end e. e ≡ fault_of end };

    fn from(end: WorldEnd) -> MergeFault {
        match end {
            WorldEnd::Limit { what, limit } => MergeFault::Limit { what, limit },
            WorldEnd::NoMemory => MergeFault::NoMemory,
        }
    }
}
