//! Why a catalogue can't be read.

use vp_base::NoMemory;

/// Why a catalogue can't be read. Lines, and bytes within a line, are counted from 1.
#[derive(Clone, Copy, Debug, Drop, PartialEq, Eq)]
pub enum CatalogFault {
    /// The line is not an allowed one: it goes wrong at the byte `at`.
    BadLine { line: usize, at: usize },
    /// The line repeats the port or the record's name of an earlier line.
    Twice { line: usize },
    /// The record line is one more than `limit`, which is 256.
    TooMany { line: usize, limit: u32 },
    /// Memory is lacking; nothing is known of the text.
    NoMemory,
}

impl From<NoMemory> for CatalogFault {
    ghost use Rattle.vp_catalog.specs.declared.fault.CatalogFault.TheVariants as faults;
    ghost use Rattle.std.specs.Prelude.{◌≡◌};

    ghost from_gives = { λ _ e. e ≡ faults.NoMemory };

    fn from(_e: NoMemory) -> CatalogFault {
        CatalogFault::NoMemory
    }
}
