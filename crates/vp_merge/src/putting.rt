//! Putting recordings together.

ghost use Rattle.vp_catalog.specs.Document.{IsCatalogue};
ghost use Rattle.vp_recording.specs.Recordings.{AreOfNodes};
ghost use Rattle.vp_merge.specs.Merges.{Merges};

use crate::fault::MergeFault;
use crate::merging::Merging;
use vp_base::CopyOf;
use vp_catalog::Catalog;
use vp_fitting::{merged_schedules_fit, what_is_unsent_is_never_sent};
use vp_recording::Recordings;
use vp_schedule::Schedule;

/// The schedule in which the sites do what their nodes recorded. Again and again the lowest site whose next turn can be done takes it:
/// one that takes a message can be done once a step has sent it.
pub fn merge(catalog: &Catalog, recordings: &Recordings) -> Result<Schedule, MergeFault>
    requires catalogue { IsCatalogue catalog.now }
    requires nodes { AreOfNodes catalog.now recordings.now }
    ensures { Merges catalog.now recordings.now result }
{
    merged_schedules_fit();
    what_is_unsent_is_never_sent();
    let mut merging = Merging::start(catalog, recordings.as_slice())?;
    'turns: while let Some(place) = merging.ready() {
        merging = merging.take_turn(place)?;
    }
    if let Some(fault) = merging.waiting() {
        return Err(fault);
    }
    Ok(Schedule {
        catalog: catalog.copy_of()?,
        events: merging.played.events,
    })
}
