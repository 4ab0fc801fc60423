//! Why a request of another site's transaction is refused.

use vp_base::{NoMemory, Owner, ViewId};
use vp_locks::LockFault;

/// Why a lock is refused.
#[derive(Clone, Copy, Drop)]
pub enum PartFault {
    /// The site holds another view, `now`, or none.
    OtherView { now: Option<ViewId> },
    /// The transaction has ended here, in the held view.
    Ended,
    /// The record may not be used in the held view, which has this weight inside of the whole.
    Barred { inside: u32, total: u32 },
    /// Another owner has a lock that conflicts; of several such owners, the least one.
    Held { owner: Owner },
    /// Memory is lacking.
    NoMemory,
}

/// Why a vote is refused.
#[derive(Clone, Copy, Drop)]
pub enum PrepareFault {
    /// The site holds another view, `now`, or none.
    OtherView { now: Option<ViewId> },
    /// The transaction has ended here, in the held view.
    Ended,
    /// Memory is lacking.
    NoMemory,
}

impl From<NoMemory> for PartFault {
    ghost use Rattle.std.specs.Prelude.{◌≡◌};
    ghost use Rattle.vp_participant.specs.declared.fault.PartFault.TheVariants as fault;

    ghost from_gives = { λ _ e. e ≡ fault.NoMemory };

    fn from(_e: NoMemory) -> PartFault {
        PartFault::NoMemory
    }
}

impl From<LockFault> for PartFault {
    ghost use Rattle.std.specs.Prelude.{◌≡◌};
    ghost use Rattle.vp_participant.specs.Refusals.{of_lock};

    ghost from_gives = { λ e f. f ≡ of_lock e };

    fn from(e: LockFault) -> PartFault {
        match e {
            LockFault::Held { owner } => PartFault::Held { owner },
            LockFault::NoMemory => PartFault::NoMemory,
        }
    }
}

impl From<PrepareFault> for PartFault {
    ghost use Rattle.std.specs.Prelude.{◌≡◌};
    ghost use Rattle.vp_participant.specs.Refusals.{of_vote};

    ghost from_gives = { λ e f. f ≡ of_vote e };

    fn from(e: PrepareFault) -> PartFault {
        match e {
            PrepareFault::OtherView { now } => PartFault::OtherView { now },
            PrepareFault::Ended => PartFault::Ended,
            PrepareFault::NoMemory => PartFault::NoMemory,
        }
    }
}

impl From<NoMemory> for PrepareFault {
    ghost use Rattle.std.specs.Prelude.{◌≡◌};
    ghost use Rattle.vp_participant.specs.declared.fault.PrepareFault.TheVariants as fault;

    ghost from_gives = { λ _ e. e ≡ fault.NoMemory };

    fn from(_e: NoMemory) -> PrepareFault {
        PrepareFault::NoMemory
    }
}
