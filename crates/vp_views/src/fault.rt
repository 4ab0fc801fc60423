//! Why a site can't invite to a view.

use vp_base::NoMemory;

/// All numbers of views were given: `number` is the highest that the site has seen, which is the last one, 2^64 - 1.
#[derive(Clone, Copy, Debug, Drop, PartialEq, Eq)]
pub struct Spent {
    pub number: u64,
}

/// Why a site can't invite to a view.
#[derive(Clone, Copy, Debug, Drop, PartialEq, Eq)]
pub enum InviteFault {
    /// All numbers of views were given; this is the last one.
    Spent { number: u64 },
    /// Memory is lacking.
    NoMemory,
}

impl From<Spent> for InviteFault {
    ghost use Rattle.std.specs.Prelude.{◌≡◌};
    ghost use Rattle.vp_views.specs.declared.fault.InviteFault.TheVariants as fault;

    ghost from_gives = { λ e f. f ≡ fault.Spent e.number };

    fn from(e: Spent) -> InviteFault {
        InviteFault::Spent { number: e.number }
    }
}

impl From<NoMemory> for InviteFault {
    ghost use Rattle.std.specs.Prelude.{◌≡◌};
    ghost use Rattle.vp_views.specs.declared.fault.InviteFault.TheVariants as fault;

    ghost from_gives = { λ _ e. e ≡ fault.NoMemory };

    fn from(_e: NoMemory) -> InviteFault {
        InviteFault::NoMemory
    }
}
