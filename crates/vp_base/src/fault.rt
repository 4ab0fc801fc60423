//! Why a word or a part of a line can't be read.

ghost use Rattle.std.specs.Prelude.{◌≡◌};
ghost use Rattle.vp_base.specs.declared.fault.NameFault.TheVariants as faults;
ghost use Rattle.vp_base.specs.declared.fault.LineFault.TheVariants as line_faults;

use crate::memory::NoMemory;
use std::alloc::{AllocError, AllocFailed};
use vp_text::Unexpected;

/// The text is no such word: its longest prefix that begins one has this many bytes.
#[derive(Clone, Copy, Debug, PartialEq, Eq)]
pub struct BadName {
    pub at: usize,
}

/// Why a name or a value can't be read.
#[derive(Clone, Copy, Debug, Drop, PartialEq, Eq)]
pub enum NameFault {
    /// The text is no such word: its longest prefix that begins one has `at` bytes.
    BadName { at: usize },
    /// Memory is lacking; nothing is known of the text.
    NoMemory,
}

impl From<BadName> for NameFault {
    ghost from_gives = { λ b e. e ≡ faults.BadName b.at };

    fn from(e: BadName) -> NameFault {
        NameFault::BadName { at: e.at }
    }
}

impl From<NoMemory> for NameFault {
    ghost from_gives = { λ _ e. e ≡ faults.NoMemory };

    fn from(_e: NoMemory) -> NameFault {
        NameFault::NoMemory
    }
}

impl From<AllocError> for NameFault {
    ghost from_gives = { λ _ e. e ≡ faults.NoMemory };

    fn from(_e: AllocError) -> NameFault {
        NameFault::NoMemory
    }
}

impl<T: Drop> From<AllocFailed<T>> for NameFault {
    ghost from_gives = { λ _ e. e ≡ faults.NoMemory };

    fn from(_e: AllocFailed<T>) -> NameFault {
        NameFault::NoMemory
    }
}

/// Why a part of a line can't be read.
#[derive(Clone, Copy, Debug, Drop, PartialEq, Eq)]
pub enum LineFault {
    /// No allowed line goes on from there as the bytes do.
    Unexpected(Unexpected),
    /// Memory is lacking; nothing is known of the text.
    NoMemory,
}

impl From<Unexpected> for LineFault {
    ghost from_gives = { λ e f. f ≡ line_faults.Unexpected e };

    fn from(e: Unexpected) -> LineFault {
        LineFault::Unexpected(e)
    }
}

impl From<NoMemory> for LineFault {
    ghost from_gives = { λ _ e. e ≡ line_faults.NoMemory };

    fn from(_e: NoMemory) -> LineFault {
        LineFault::NoMemory
    }
}

impl From<AllocError> for LineFault {
    ghost from_gives = { λ _ e. e ≡ line_faults.NoMemory };

    fn from(_e: AllocError) -> LineFault {
        LineFault::NoMemory
    }
}

impl<T: Drop> From<AllocFailed<T>> for LineFault {
    ghost from_gives = { λ _ e. e ≡ line_faults.NoMemory };

    fn from(_e: AllocFailed<T>) -> LineFault {
        LineFault::NoMemory
    }
}
