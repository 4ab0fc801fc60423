//! Tests that decide which locks are kept.

use vp_base::{Lock, RecId};

/// Decides which locks are kept where others are released.
pub trait Keeps {
    ghost use Rattle.std.specs.Prelude.{◌≡◌, Bool};
    ghost use Rattle.vp_base.specs.declared.site.Lock.{Lock};

    ghost keeps: { Self → Lock → Bool };

    /// Whether the lock is kept.
    fn keeps(&self, lock: &Lock) -> bool
        ensures { result ≡ keeps self.now lock.now };
}

/// Which locks of an owner are kept where its others are released.
#[derive(Clone, Copy, Drop)]
pub(crate) enum KeepRule {
    /// No lock is kept.
    None,
    /// Its exclusive locks are kept.
    Exclusive,
    /// Its locks on other records than this one are kept.
    Elsewhere { rec: RecId },
}

impl Keeps for KeepRule {
    ghost use Rattle.vp_locks.specs.Staying.{stays};

    ghost keeps = { stays };

    fn keeps(&self, lock: &Lock) -> bool {
        match self {
            KeepRule::None => false,
            KeepRule::Exclusive => lock.exclusive,
            KeepRule::Elsewhere { rec } => lock.rec != *rec,
        }
    }
}
