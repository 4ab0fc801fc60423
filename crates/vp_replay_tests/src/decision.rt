//! A coordinator that stops within its decision.

ghost use Rattle.std.specs.Prelude.{◌≤◌};

use crate::texts::{DECISION, history_text, schedule_text};
use std::alloc::Global;
use std::process::Abort;
use vp_cluster::Stop;
use vp_schedule::read;
use vp_stopping::run_stopped;

const HEAD: &str = "\
site 1 7001
site 2 7002
record x 10 1:1 2:1
events
call 1 begin
call 1 1.1.1 1 write x 11
deliver 1
deliver 2
call 1 1.1.1 2 commit
deliver 3
";

/// The decision isn't in the log: the vote is lost.
const WITHOUT: &str = "\
crash 1
crash 1
restart 1
tick 1
deliver 7
deliver 8
call 2 begin
call 2 2.1.1 1 read x
call 2 2.1.1 2 commit
history
start x 10
end 0
";

/// It is in the log, and nobody gets the outcome, which is message 5.
const WITH: &str = "\
deliver 4
crash 1
crash 1
restart 1
tick 1
deliver 8
deliver 9
call 2 begin
call 2 2.1.1 1 read x
call 2 2.1.1 2 commit
history
start x 10
commit 1.1.1 0@0 w x 11
end 1
";

/// The texts of the schedule that the run becomes and of its history; nothing where it can't stop there.
fn comes_to(rt: &impl Abort, alloc: Global, stop: &Stop) -> Vec<u8>
    requires { stop.now.calls ≤ 4 }
{
    let schedule = read(alloc, DECISION.as_bytes()).expect(rt, "a schedule");
    let stopped = run_stopped(&schedule, stop).ok();
    match stopped.expect(rt, "a run") {
        Some(stopped) => {
            let schedule = &stopped.schedule;
            let mut text = schedule_text(alloc, schedule).expect(rt, "memory");
            let history = history_text(alloc, &schedule.catalog, &stopped.commits);
            text.extend_from_slice(&history.expect(rt, "memory"))
                .expect(rt, "memory");
            text
        }
        None => Vec::new(alloc),
    }
}

#[test]
fn a_decision_is_there_after_its_last_call(rt: HostRuntime) {
    let alloc = rt.alloc();
    for (calls, late, rest) in [
        (0, false, WITHOUT),
        (0, true, WITHOUT),
        (1, false, WITHOUT),
        (1, true, WITHOUT),
        (2, false, WITHOUT),
        (2, true, WITHOUT),
        (3, false, WITHOUT),
        (3, true, WITH),
        (4, false, WITH),
        (4, true, WITH),
    ] {
        let stop = Stop {
            step: 7,
            calls,
            late,
        };
        let text = comes_to(&rt, alloc, &stop);
        assert!(rt;
            text.as_slice().strip_prefix(HEAD.as_bytes()) == Some(rest.as_bytes()),
            "{calls} {late}"
        );
    }
}

#[test]
fn other_steps_append_nothing(rt: HostRuntime) {
    let alloc = rt.alloc();
    for step in [0, 1, 2, 3, 4, 5, 8, 9, 13, 16, 100] {
        let stop = Stop {
            step,
            calls: 4,
            late: true,
        };
        let text = comes_to(&rt, alloc, &stop);
        assert!(rt; text.is_empty(), "{step}");
    }
}
