//! The log that a stopped site leaves: each one is recovered.

ghost use Rattle.std.specs.Prelude.{◌≤◌};
ghost use Rattle.std.specs.List.{AllByRecursion};
ghost use Rattle.vp_records.specs.Batches.{IsBatch};
ghost use Rattle.vp_schedule.specs.Document.{IsSchedule};

use crate::texts::{DECISION, HELD_LOCK, LATE_COMMIT};
use std::alloc::Global;
use std::process::Abort;
use vp_base::{Batch, Event};
use vp_cluster::{SiteLog, Stop};
use vp_disks::SureDisk;
use vp_records::encode_batch;
use vp_schedule::{Schedule, read};
use vp_stable::Log;
use vp_stopping::{Stopped, run_stopped};

/// What a recovery reads in a log that was left: how many batches, and the bytes of the last one; and how many bytes its halves have.
#[derive(Drop)]
struct Image {
    batches: usize,
    last: Vec<u8>,
    bytes: usize,
}

/// The bytes of the last batch, none where there is no batch.
fn bytes_of_last(rt: &impl Abort, alloc: Global, batches: &[Batch]) -> Vec<u8>
    requires { AllByRecursion IsBatch batches.now }
{
    let mut last = Vec::new(alloc);
    for batch in batches {
        last.clear();
        encode_batch(batch, &mut last).expect(rt, "memory");
    }
    last
}

fn image_of(rt: &impl Abort, alloc: Global, log: &SiteLog) -> Image {
    let first = log.1.as_slice().to_vec(alloc).expect(rt, "memory");
    let second = log.2.as_slice().to_vec(alloc).expect(rt, "memory");
    let bytes = first.len().saturating_add(second.len());
    let mut disk = SureDisk::holding(alloc, first, second).expect(rt, "memory");
    let (_, batches) = Log::recover(alloc, &mut disk).ok().expect(rt, "a log");
    Image {
        batches: batches.as_slice().len(),
        last: bytes_of_last(rt, alloc, batches.as_slice()),
        bytes,
    }
}

/// Whether the schedule that the run is read as has the crash after the step, and not instead of it.
fn has_step(stopped: &Stopped, step: u32) -> bool {
    let place = step.saturating_sub(1) as usize;
    !matches!(
        stopped.schedule.events.as_slice().get(place),
        Some(Event::Crash { .. })
    )
}

fn stop_at(rt: &impl Abort, schedule: &Schedule, stop: &Stop) -> Option<Stopped>
    requires schedule { IsSchedule schedule.now }
    requires calls { stop.now.calls ≤ 4 }
{
    run_stopped(schedule, stop).ok().expect(rt, "a run")
}

/// Stops in the step after each count of calls. The image has the step's batch after the others if the run is read as a schedule with the
/// step, and is longer than the log was if the batch was written and that was synced, or is left nevertheless.
fn are_left(rt: &impl Abort, alloc: Global, schedule: &Schedule, step: u32) -> bool
    requires { IsSchedule schedule.now }
{
    let none = Stop {
        step,
        calls: 0,
        late: false,
    };
    let all = Stop {
        step,
        calls: 4,
        late: false,
    };
    let (Some(none), Some(all)) = (stop_at(rt, schedule, &none), stop_at(rt, schedule, &all)) else {
        return true;
    };
    let before = image_of(rt, alloc, &none.log);
    let whole = image_of(rt, alloc, &all.log);
    let mut right = whole.batches == before.batches.saturating_add(1);
    for calls in 0..5 {
        for late in [false, true] {
            let stop = Stop { step, calls, late };
            let stopped = stop_at(rt, schedule, &stop).expect(rt, "a stop");
            let image = image_of(rt, alloc, &stopped.log);
            let expected = if has_step(&stopped, step) {
                &whole
            } else {
                &before
            };
            let written = calls > 1 || late && calls > 0;
            right = right
                && image.batches == expected.batches
                && image.last == expected.last
                && (image.bytes > before.bytes) == written;
        }
    }
    right
}

#[test]
fn each_image_has_the_batch_or_not(rt: HostRuntime) {
    let alloc = rt.alloc();
    for text in [HELD_LOCK, LATE_COMMIT, DECISION] {
        let schedule = read(alloc, text.as_bytes()).expect(&rt, "a schedule");
        for step in 1..40 {
            assert!(rt; are_left(&rt, alloc, &schedule, step), "{step}");
        }
    }
}
