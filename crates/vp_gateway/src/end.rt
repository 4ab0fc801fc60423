//! How a gateway ends.

ghost use Rattle.std.specs.Prelude.{◌≡◌};
ghost use Rattle.vp_gateway.specs.Ends.{end_of_input, end_of_output, end_of_catalog};
ghost use Rattle.vp_gateway.specs.declared.end.GateEnd.TheVariants as ends;

use std::alloc::AllocError;
use vp_base::NoMemory;
use vp_catalog::CatalogFault;
use vp_outside::{InputFault, OutFault};

/// How a gateway ends. What was answered before is in the sink.
#[derive(Clone, Copy, Debug, Drop, PartialEq, Eq)]
pub enum GateEnd {
    /// All lines were answered, to the end of the input.
    Done,
    /// The line is neither one of a catalogue nor the line after one: it goes wrong at byte `at`. Lines and bytes are counted from 1.
    BadLine { line: usize, at: usize },
    /// The line has a port or a record's name that an earlier line has.
    Twice { line: usize },
    /// The line is one record more than there may be.
    TooMany { line: usize, limit: u32 },
    /// The catalogue lacks the site.
    NoSite,
    /// The source failed.
    ReadFault,
    /// The sink failed.
    WriteFault,
    /// The port wasn't bound, or a call of the link failed.
    LinkFault,
    /// The input is longer than 16,777,216 bytes.
    Limit,
    NoMemory,
}

impl From<InputFault> for GateEnd {
    ghost from_gives = { λ fault given. given ≡ end_of_input fault };

    fn from(fault: InputFault) -> GateEnd {
        match fault {
            InputFault::Failed => GateEnd::ReadFault,
            InputFault::TooLong => GateEnd::Limit,
            InputFault::NoMemory => GateEnd::NoMemory,
        }
    }
}

impl From<OutFault> for GateEnd {
    ghost from_gives = { λ fault given. given ≡ end_of_output fault };

    fn from(fault: OutFault) -> GateEnd {
        match fault {
            OutFault::Failed => GateEnd::WriteFault,
            OutFault::NoMemory => GateEnd::NoMemory,
        }
    }
}

impl From<CatalogFault> for GateEnd {
    ghost from_gives = { λ fault given. given ≡ end_of_catalog fault };

    fn from(fault: CatalogFault) -> GateEnd {
        match fault {
            CatalogFault::BadLine { line, at } => GateEnd::BadLine { line, at },
            CatalogFault::Twice { line } => GateEnd::Twice { line },
            CatalogFault::TooMany { line, limit } => GateEnd::TooMany { line, limit },
            CatalogFault::NoMemory => GateEnd::NoMemory,
        }
    }
}

impl From<NoMemory> for GateEnd {
    ghost from_gives = { λ _ given. given ≡ ends.NoMemory };

    fn from(_: NoMemory) -> GateEnd {
        GateEnd::NoMemory
    }
}

impl From<AllocError> for GateEnd {
    ghost from_gives = { λ _ given. given ≡ ends.NoMemory };

    fn from(_: AllocError) -> GateEnd {
        GateEnd::NoMemory
    }
}
