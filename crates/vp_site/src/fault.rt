//! Why a site does not start.

use vp_base::NoMemory;

/// Why a site does not start: it is in its last life, whose number is the last of its type, or memory runs out.
#[derive(Clone, Copy, Debug, Drop, PartialEq, Eq)]
pub enum StartFault {
    LivesSpent { life: u32 },
    NoMemory,
}

impl From<NoMemory> for StartFault {
    ghost use Rattle.std.specs.Prelude.{◌≡◌};
    ghost use Rattle.vp_site.specs.declared.fault.StartFault.TheVariants as fault;

    ghost from_gives = { λ _ e. e ≡ fault.NoMemory };

    fn from(_e: NoMemory) -> StartFault {
        StartFault::NoMemory
    }
}
