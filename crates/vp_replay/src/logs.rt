//! The logs that a schedule leaves at its sites.

ghost use Rattle.std.specs.Prelude.{◌≡◌, ◌++◌, IfOk, OnOk};
ghost use Rattle.std.specs.List.{flat_map};
ghost use Rattle.vp_schedule.specs.Document.{IsSchedule};
ghost use Rattle.vp_replay.specs.Logged.{IsLogsAnswer, Leaves, half_text, log_line};

use crate::replay::stop_at_limit;
use std::alloc::Global;
use vp_base::{NoMemory, SiteId, Word};
use vp_cluster::run;
use vp_refusals::refuse;
use vp_schedule::{Schedule, read};
use vp_status::{RunOutput, Status};

/// Runs the schedule in the input through nodes: the status and the text that `logs` prints for it.
pub fn logged(alloc: Global, input: &[u8]) -> Result<RunOutput, NoMemory>
    ensures { IfOk result (λ defined. IsLogsAnswer input.now defined.status defined.text.items) }
{
    match read(alloc, input) {
        Ok(schedule) => run_to_logs(alloc, &schedule),
        Err(fault) => refuse(alloc, fault),
    }
}

/// Runs the schedule through nodes, and makes the line of each log that it leaves, or of the limit of the world that ends the run.
fn run_to_logs(alloc: Global, schedule: &Schedule) -> Result<RunOutput, NoMemory>
    requires { IsSchedule schedule.now }
    ensures { IfOk result (λ defined. Leaves schedule.now defined.status defined.text.items) }
{
    let mut trace = Vec::new(alloc);
    let mut text = Vec::new(alloc);
    match run(schedule, &mut trace) {
        Ok(ran) => {
            print_logs(ran.logs.as_slice(), &mut text)?;
            Ok(RunOutput {
                status: Status::Done,
                text,
            })
        }
        Err(end) => stop_at_limit(end, text),
    }
}

/// Appends the line of each log.
fn print_logs(logs: &[(SiteId, Word, Word)], out: &mut Vec<u8>) -> Result<(), NoMemory>
    ensures { OnOk result (out.new.items ≡ out.old.items ++ flat_map log_line logs.now) }
{
    for log in logs {
        print_log(log, out)?;
    }
    Ok(())
}

fn print_log(log: &(SiteId, Word, Word), out: &mut Vec<u8>) -> Result<(), NoMemory>
    ensures { OnOk result (out.new.items ≡ out.old.items ++ log_line log.now) }
{
    out.extend_from_slice(b"log ")?;
    log.0.print(out)?;
    out.push(b' ')?;
    print_half(log.1.as_slice(), out)?;
    out.push(b' ')?;
    print_half(log.2.as_slice(), out)?;
    out.push(b'\n')?;
    Ok(())
}

/// Appends a half in lower-case hexadecimal, and `-` for an empty one.
fn print_half(half: &[u8], out: &mut Vec<u8>) -> Result<(), NoMemory>
    ensures { OnOk result (out.new.items ≡ out.old.items ++ half_text half.now) }
{
    if half.is_empty() {
        out.push(b'-')?;
        return Ok(());
    }
    let text = hex::encode(*out.allocator(), half)?;
    out.extend_from_slice(text.as_bytes())?;
    Ok(())
}
