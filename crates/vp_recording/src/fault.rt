//! Why recordings could not be read.

ghost use Rattle.std.specs.Prelude.{◌≡◌};
ghost use Rattle.vp_recording.specs.declared.fault.RecordingFault.TheVariants as faults;
ghost use Rattle.vp_recording.specs.Faults.{fault_of};

use vp_base::NoMemory;
use vp_catalog::CatalogFault;

/// Why recordings could not be read. Lines and places are counted from 1.
#[derive(Clone, Copy, Debug, Drop, PartialEq, Eq)]
pub enum RecordingFault {
    /// No allowed line is there: it goes wrong at this byte.
    BadLine { line: usize, at: usize },
    /// The line gives a port or a record's name that an earlier line gives.
    Twice { line: usize },
    /// The record line is one more than there may be.
    TooMany { line: usize, limit: u32 },
    NoMemory,
}

impl From<NoMemory> for RecordingFault {
    ghost from_gives = { λ _ e. e ≡ faults.NoMemory };

    fn from(_e: NoMemory) -> RecordingFault {
        RecordingFault::NoMemory
    }
}

impl From<CatalogFault> for RecordingFault {
    ghost from_gives = { λ e f. f ≡ fault_of e };

    fn from(e: CatalogFault) -> RecordingFault {
        match e {
            CatalogFault::BadLine { line, at } => RecordingFault::BadLine { line, at },
            CatalogFault::Twice { line } => RecordingFault::Twice { line },
            CatalogFault::TooMany { line, limit } => RecordingFault::TooMany { line, limit },
            CatalogFault::NoMemory => RecordingFault::NoMemory,
        }
    }
}
