//! Each run that stops within a step is serial.

ghost use Rattle.std.specs.Prelude.{◌≤◌};
ghost use Rattle.vp_schedule.specs.Document.{IsSchedule};

use crate::texts::{DECISION, HELD_LOCK, LATE_COMMIT, history_text, schedule_text};
use std::alloc::Global;
use std::process::Abort;
use vp_cluster::Stop;
use vp_replay::{checked, replayed};
use vp_schedule::{Schedule, read};
use vp_status::Status;
use vp_stopping::{Stopped, run_stopped};

/// How many stops of a table became a schedule, and whether each of these has the journal that was returned, which the check finds
/// serial.
#[derive(Drop)]
struct Tally {
    stopped: u32,
    serial: bool,
}

/// Whether the schedule has this journal, and the check finds it serial.
fn is_serial(rt: &impl Abort, alloc: Global, stopped: &Stopped) -> bool {
    let schedule = schedule_text(alloc, &stopped.schedule).expect(rt, "memory");
    let history = history_text(alloc, &stopped.schedule.catalog, &stopped.commits).expect(
        rt, "memory",
    );
    let trace = replayed(alloc, &schedule).expect(rt, "memory");
    let verdict = checked(alloc, &history).expect(rt, "memory");
    trace.text.ends_with(&history) && verdict.status == Status::Done
}

fn try_stop(rt: &impl Abort, alloc: Global, schedule: &Schedule, stop: &Stop, tally: &mut Tally)
    requires schedule { IsSchedule schedule.now }
    requires calls { stop.now.calls ≤ 4 }
{
    let stopped = run_stopped(schedule, stop).ok();
    if let Some(stopped) = stopped.expect(rt, "a run") {
        tally.stopped = tally.stopped.saturating_add(1);
        tally.serial = tally.serial && is_serial(rt, alloc, &stopped);
    }
}

/// Stops in each of so many steps.
fn try_steps(rt: &impl Abort, alloc: Global, text: &str, steps: u32) -> Tally {
    let schedule = read(alloc, text.as_bytes()).expect(rt, "a schedule");
    let mut tally = Tally {
        stopped: 0,
        serial: true,
    };
    for step in 0..steps {
        for calls in 0..5 {
            for late in [false, true] {
                let stop = Stop { step, calls, late };
                try_stop(rt, alloc, &schedule, &stop, &mut tally);
            }
        }
    }
    tally
}

#[test]
fn a_held_lock_is_serial(rt: HostRuntime) {
    let tally = try_steps(&rt, rt.alloc(), HELD_LOCK, 24);
    assert!(rt; tally.serial);
    assert_eq!(rt; tally.stopped, 70);
}

#[test]
fn a_late_commit_is_serial(rt: HostRuntime) {
    let tally = try_steps(&rt, rt.alloc(), LATE_COMMIT, 40);
    assert!(rt; tally.serial);
    assert_eq!(rt; tally.stopped, 70);
}

#[test]
fn a_decision_is_serial(rt: HostRuntime) {
    let tally = try_steps(&rt, rt.alloc(), DECISION, 20);
    assert!(rt; tally.serial);
    assert_eq!(rt; tally.stopped, 50);
}
