//! Why a history can't be read.

use vp_base::NoMemory;

/// Why a history can't be read. Lines, and bytes within a line, are counted from 1.
#[derive(Clone, Copy, Debug, Drop, PartialEq, Eq)]
pub enum HistoryFault {
    /// The line is not an allowed one: it goes wrong at the byte `at`.
    BadLine { line: usize, at: usize },
    /// The start line names a record that an earlier start line names.
    Twice { line: usize },
    /// Memory is lacking; nothing is known of the text.
    NoMemory,
}

impl From<NoMemory> for HistoryFault {
    ghost use Rattle.vp_onecopy.specs.declared.fault.HistoryFault.TheVariants as faults;
    ghost use Rattle.std.specs.Prelude.{◌≡◌};

    ghost from_gives = { λ _ e. e ≡ faults.NoMemory };

    fn from(_e: NoMemory) -> HistoryFault {
        HistoryFault::NoMemory
    }
}
