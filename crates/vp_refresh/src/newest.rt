//! The newest of several copies.

ghost use Rattle.std.specs.Prelude.{◌≡◌};
ghost use Rattle.vp_model.specs.Refresh.{newer, newest};
ghost use Rattle.vp_refresh.specs.Newest.{Ascends, IsNewest};

use vp_base::{SiteId, Stored};
use vp_lists::view_comes_before;

fn newer<'a>(best: &'a Stored, next: &'a Stored) -> &'a Stored
    ensures { result.now ≡ newer best.now next.now }
{
    if view_comes_before(&best.date, &next.date) {
        next
    } else {
        best
    }
}

/// The newest of the own copy and the answers: where dates are equal, the own one, and else that of the lowest site.
pub fn newest<'a>(own: &'a Stored, answers: &'a [(SiteId, Stored)]) -> &'a Stored
    requires { Ascends answers.now }
    ensures copy { result.now ≡ newest own.now answers.now }
    ensures newest { IsNewest own.now answers.now result.now }
{
    let mut best = own;
    for answer in answers {
        best = newer(best, &answer.1);
    }
    best
}
