//! Why a procedure can't be read.

ghost use Rattle.std.specs.Prelude.{◌≡◌};
ghost use Rattle.vp_procedure.specs.declared.fault.ProcedureFault.TheVariants as faults;
ghost use Rattle.vp_procedure.specs.Drafts.{fault_of};

use vp_base::NoMemory;
use vp_catalog::CatalogFault;

/// Why a procedure can't be read. Lines, and bytes within a line, are counted from 1.
#[derive(Clone, Copy, Debug, Drop, PartialEq, Eq)]
pub enum ProcedureFault {
    /// The line is not an allowed one: it goes wrong at the byte `at`.
    BadLine { line: usize, at: usize },
    /// The line repeats the port or the record's name of an earlier line.
    Twice { line: usize },
    /// The record line is one more than `limit`.
    TooMany { line: usize, limit: u32 },
    /// Memory is lacking; nothing is known of the text.
    NoMemory,
}

impl From<NoMemory> for ProcedureFault {
    ghost from_gives = { λ _ e. e ≡ faults.NoMemory };

    fn from(_e: NoMemory) -> ProcedureFault {
        ProcedureFault::NoMemory
    }
}

impl From<CatalogFault> for ProcedureFault {
    ghost from_gives = { λ e f. f ≡ fault_of e };

    fn from(e: CatalogFault) -> ProcedureFault {
        match e {
            CatalogFault::BadLine { line, at } => ProcedureFault::BadLine { line, at },
            CatalogFault::Twice { line } => ProcedureFault::Twice { line },
            CatalogFault::TooMany { line, limit } => ProcedureFault::TooMany { line, limit },
            CatalogFault::NoMemory => ProcedureFault::NoMemory,
        }
    }
}
