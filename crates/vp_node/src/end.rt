//! Why a node ends.

ghost use Rattle.std.specs.Prelude.{◌≡◌};
ghost use Rattle.vp_node.specs.Causes.{end_of_log, end_of_start, end_of_append};
ghost use Rattle.vp_node.specs.declared.end.NodeEnd.TheVariants.{NoMemory as OutOfMemory};

use vp_base::NoMemory;
use vp_site::StartFault;
use vp_stable::{AppendFault, LogFault};

/// Why a node doesn't start, or ends in a turn. Its site is gone then, as after a crash.
#[derive(Clone, Copy, Debug, Drop, PartialEq, Eq)]
pub enum NodeEnd {
    /// The disk failed.
    DiskFault,
    /// The log is damaged: after the open gate at byte `at` of this half comes no batch of records with a gate.
    BadLog { half: u8, at: u64 },
    /// The log's life is the last one; its number is given.
    LivesSpent { life: u32 },
    NoMemory,
}

impl From<NoMemory> for NodeEnd {
    ghost from_gives = { λ _ given. given ≡ OutOfMemory };

    fn from(_: NoMemory) -> NodeEnd {
        NodeEnd::NoMemory
    }
}

impl From<LogFault> for NodeEnd {
    ghost from_gives = { λ fault given. given ≡ end_of_log fault };

    fn from(fault: LogFault) -> NodeEnd {
        match fault {
            LogFault::DiskFault => NodeEnd::DiskFault,
            LogFault::BadLog { half, at } => NodeEnd::BadLog { half, at },
            LogFault::NoMemory => NodeEnd::NoMemory,
        }
    }
}

impl From<StartFault> for NodeEnd {
    ghost from_gives = { λ fault given. given ≡ end_of_start fault };

    fn from(fault: StartFault) -> NodeEnd {
        match fault {
            StartFault::LivesSpent { life } => NodeEnd::LivesSpent { life },
            StartFault::NoMemory => NodeEnd::NoMemory,
        }
    }
}

impl From<AppendFault> for NodeEnd {
    ghost from_gives = { λ fault given. given ≡ end_of_append fault };

    fn from(fault: AppendFault) -> NodeEnd {
        match fault {
            AppendFault::DiskFault => NodeEnd::DiskFault,
            AppendFault::NoMemory => NodeEnd::NoMemory,
        }
    }
}
