//! Whether the held view is the one that a request names.

ghost use Rattle.std.specs.Prelude.{◌≡◌, option_copied};
ghost use Rattle.vp_model.specs.Words.{is_view};
ghost use Rattle.vp_participant.specs.Refusals.{id_of};

use vp_base::{View, ViewId};

/// The identifier of the held view.
pub fn id_of(held: Option<&View>) -> Option<ViewId>
    ensures { result ≡ id_of (option_copied held.entry) }
{
    held.map(|view| view.id)
}

/// Whether the held view is this one.
pub fn is_held(held: Option<&View>, view: ViewId) -> bool
    ensures { result ≡ is_view (id_of (option_copied held.entry)) view }
{
    held.is_some_and(|held| held.id == view)
}
