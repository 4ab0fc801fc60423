//! Replaying a schedule: its trace and its journal.

ghost use Rattle.std.specs.Prelude.{◌≡◌, ◌++◌, IfOk, OnOk, map};
ghost use Rattle.vp_model.specs.OneCopy.{order};
ghost use Rattle.vp_model.specs.Texts.History.{history_lines};
ghost use Rattle.vp_schedule.specs.Document.{IsSchedule};
ghost use Rattle.vp_replay.specs.Replayed.{IsReplayAnswer, Gives, StopsAt};

use std::alloc::Global;
use vp_base::{Commits, NoMemory, Seq};
use vp_catalog::Catalog;
use vp_cluster::run;
use vp_onecopy::{History, order, print_history};
use vp_refusals::refuse;
use vp_schedule::{Schedule, read};
use vp_status::{RunOutput, Status, print_limit};
use vp_world::WorldEnd;

/// Replays the schedule in the input: the status and the text that `replay` prints for it.
pub fn replayed(alloc: Global, input: &[u8]) -> Result<RunOutput, NoMemory>
    ensures { IfOk result (λ defined. IsReplayAnswer input.now defined.status defined.text.items) }
{
    match read(alloc, input) {
        Ok(schedule) => play(alloc, &schedule),
        Err(fault) => refuse(alloc, fault),
    }
}

/// Plays a schedule, and makes the text of its trace and its history, or of what a limit of the world leaves of its trace.
fn play(alloc: Global, schedule: &Schedule) -> Result<RunOutput, NoMemory>
    requires { IsSchedule schedule.now }
    ensures { IfOk result (λ defined. Gives schedule.now defined.status defined.text.items) }
{
    let mut text = Vec::new(alloc);
    match run(schedule, &mut text) {
        Ok(ran) => {
            print_end(alloc, &schedule.catalog, &ran.commits, &mut text)?;
            Ok(RunOutput {
                status: Status::Done,
                text,
            })
        }
        Err(end) => stop_at_limit(end, text),
    }
}

/// Makes the status and the text of a run that a limit of the world ended: the line of the limit comes after the text.
pub(crate) fn stop_at_limit(end: WorldEnd, mut text: Vec<u8>) -> Result<RunOutput, NoMemory>
    ensures { IfOk result (λ defined. StopsAt end text.items defined.status defined.text.items) }
{
    match end {
        WorldEnd::Limit { limit, .. } => {
            print_limit(limit, &mut text)?;
            Ok(RunOutput {
                status: Status::Limit,
                text,
            })
        }
        WorldEnd::NoMemory => Err(NoMemory),
    }
}

/// Appends the history of a run over this catalogue, by its commits in the order of the steps.
fn print_end(
    alloc: Global,
    catalog: &Catalog,
    journal: &Commits,
    out: &mut Vec<u8>,
) -> Result<(), NoMemory>
    ensures { OnOk result (out.new.items ≡ out.old.items
        ++ history_lines (map (λ entry. entry.name) catalog.now.records) (map (λ entry. entry.start) catalog.now.records) (order journal.now)) }
{
    let history = History {
        names: catalog.names()?,
        start: Seq::from_vec(catalog.starts()?),
        commits: order(alloc, journal.as_slice())?,
    };
    print_history(&history, out)
}
