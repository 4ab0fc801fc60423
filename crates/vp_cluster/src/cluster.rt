//! The run of a schedule through nodes.

ghost use Rattle.vp_cluster.specs.Ran.{Runs};
ghost use Rattle.vp_schedule.specs.Document.{IsSchedule};

use crate::host::Logs;
use crate::nodes::Nodes;
use std::mem::replace;
use vp_base::{Commits, CopyOf};
use vp_catalog::Catalog;
use vp_playing::{TraceText, play};
use vp_schedule::Schedule;
use vp_world::WorldEnd;

/// What a run leaves: its commits in the order of the steps, and the log of each site, ascending by site.
#[derive(Drop)]
pub struct Ran {
    pub commits: Commits,
    pub logs: Logs,
}

/// Runs the schedule through nodes, and appends its trace to `out`. If a limit of the world ends the run, the trace of the steps before
/// was appended, with the line of a flow that is in progress; if memory runs out, a beginning of that.
pub fn run(schedule: &Schedule, out: &mut Vec<u8>) -> Result<Ran, WorldEnd>
    requires { IsSchedule schedule.now }
    ensures { Runs schedule.now result out.old.items out.new.items }
{
    let alloc = *out.allocator();
    let catalog = schedule.catalog.copy_of()?;
    let mut nodes = Nodes::begin(schedule.catalog.copy_of()?)?;
    let mut trace = TraceText {
        bytes: replace(out, Vec::new(alloc)),
    };
    let played = play(catalog, schedule.events.as_slice(), &mut nodes, &mut trace);
    *out = trace.bytes;
    let world = played?;
    Ok(Ran {
        commits: world.journal().copy_of()?,
        logs: nodes.logs(alloc)?,
    })
}
