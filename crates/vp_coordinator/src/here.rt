//! The locks, copies and bars of a site, which the transactions of all sites use.

use std::marker::Model;
use vp_base::Bars;
use vp_locks::Locks;
use vp_records::SiteCopies;

/// The locks, the copies and the bars of a site.
#[derive(Drop)]
pub struct Here {
    pub locks: Locks,
    pub copies: SiteCopies,
    pub bars: Bars,
}

impl Model for Here {
    ghost use Rattle.vp_model.specs.Site.{Here as HereState};

    ghost Value = { HereState };

    ghost view = { λ h. record { locks = h.locks; copies = h.copies; bars = h.bars } };
}
