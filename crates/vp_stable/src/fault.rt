//! Why a log can't be read, and why a batch isn't appended.

ghost use Rattle.std.specs.Prelude.{◌≡◌};
ghost use Rattle.vp_stable.specs.Faults.{log_fault, append_fault};
ghost use Rattle.vp_stable.specs.declared.fault.LogFault.TheVariants.{NoMemory as NoMemoryToRead};
ghost use Rattle.vp_stable.specs.declared.fault.AppendFault.TheVariants.{NoMemory as NoMemoryToAppend};

use vp_base::NoMemory;
use vp_outside::OutFault;

/// Why no log was recovered.
#[derive(Clone, Copy, Debug, Drop, PartialEq, Eq)]
pub enum LogFault {
    /// The disk failed.
    DiskFault,
    /// The current half is not a log: after the open gate at the byte `at` there is no batch of log records with a gate after it.
    BadLog { half: u8, at: u64 },
    /// Memory is lacking.
    NoMemory,
}

impl From<OutFault> for LogFault {
    ghost from_gives = { λ fault given. given ≡ log_fault fault };

    fn from(fault: OutFault) -> LogFault {
        match fault {
            OutFault::Failed => LogFault::DiskFault,
            OutFault::NoMemory => LogFault::NoMemory,
        }
    }
}

impl From<NoMemory> for LogFault {
    ghost from_gives = { λ _ given. given ≡ NoMemoryToRead };

    fn from(_: NoMemory) -> LogFault {
        LogFault::NoMemory
    }
}

/// Why a batch isn't appended, as far as the caller can know: after a disk fault it may be in the log or not.
#[derive(Clone, Copy, Debug, Drop, PartialEq, Eq)]
pub enum AppendFault {
    /// The disk failed.
    DiskFault,
    /// Memory is lacking.
    NoMemory,
}

impl From<OutFault> for AppendFault {
    ghost from_gives = { λ fault given. given ≡ append_fault fault };

    fn from(fault: OutFault) -> AppendFault {
        match fault {
            OutFault::Failed => AppendFault::DiskFault,
            OutFault::NoMemory => AppendFault::NoMemory,
        }
    }
}

impl From<NoMemory> for AppendFault {
    ghost from_gives = { λ _ given. given ≡ NoMemoryToAppend };

    fn from(_: NoMemory) -> AppendFault {
        AppendFault::NoMemory
    }
}
