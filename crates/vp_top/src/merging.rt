//! The command that puts the recordings of nodes together to one schedule.

ghost use Rattle.std.specs.Prelude.{◌≡◌, ◌++◌, ◌∷◌, [], Err, IfOk, List, OnOk, ℕ};
ghost use Rattle.std.specs.Fmt.{decimal};
ghost use Rattle.vp_catalog.specs.Document.{IsCatalogue};
ghost use Rattle.vp_recording.specs.Recordings.{AreOfNodes};
ghost use Rattle.vp_top.specs.Merges.{IsMergeAnswer, MergeGives, TellsMerge, TellsRecording};

use std::alloc::Global;
use vp_base::{NoMemory, SiteId};
use vp_fitting::{fitting_recordings_merge, merged_schedules_fit};
use vp_merge::{MergeFault, merge};
use vp_recording::{RecordingFault, RecordingSet, parse};
use vp_schedule::{Schedule, print};
use vp_status::{RunOutput, Status, print_bad_line, print_limit, print_twice};
use vp_text::print_number;

/// Puts the recordings in the input together: the status and the text that `merge` prints for it.
pub fn merged(alloc: Global, input: &[u8]) -> Result<RunOutput, NoMemory>
    ensures { IfOk result (λ defined. IsMergeAnswer input.now defined.status defined.text.items) }
{
    match parse(alloc, input) {
        Ok(recorded) => put_together(alloc, &recorded),
        Err(fault) => refuse(alloc, fault),
    }
}

/// Makes the text of the schedule that is put together of recordings, or of what ends it.
fn put_together(alloc: Global, recorded: &RecordingSet) -> Result<RunOutput, NoMemory>
    requires catalogue { IsCatalogue recorded.now.catalog }
    requires nodes { AreOfNodes recorded.now.catalog recorded.now.recordings }
    ensures { IfOk result (λ defined. MergeGives recorded.now defined.status defined.text.items) }
{
    merged_schedules_fit();
    fitting_recordings_merge();
    output_of(alloc, merge(&recorded.catalog, &recorded.recordings))
}

/// Makes the status and the text of what a merge answers.
fn output_of(alloc: Global, merged: Result<Schedule, MergeFault>) -> Result<RunOutput, NoMemory>
    ensures { IfOk result (λ defined. TellsMerge merged defined.status defined.text.items) }
{
    let mut text = Vec::new(alloc);
    let status = match &merged {
        Ok(schedule) => {
            print(schedule, &mut text)?;
            Status::Done
        }
        Err(fault) => print_fault(fault, &mut text)?,
    };
    Ok(RunOutput { status, text })
}

/// Appends the line of what ends a merge, and answers its status.
fn print_fault(fault: &MergeFault, out: &mut Vec<u8>) -> Result<Status, NoMemory>
    ensures { IfOk result (λ status.
        (text : List ℕ) × (out.new.items ≡ out.old.items ++ text) × TellsMerge (Err fault.now) status text) }
{
    match *fault {
        MergeFault::Unsent { site, turn } => {
            print_turn(b"unsent ", site, turn, out)?;
            Ok(Status::Unsent)
        }
        MergeFault::Differs { site, turn } => {
            print_turn(b"differs ", site, turn, out)?;
            Ok(Status::TurnDiffers)
        }
        MergeFault::Limit { limit, .. } => {
            print_limit(limit, out)?;
            Ok(Status::Limit)
        }
        MergeFault::NoMemory => Err(NoMemory),
    }
}

/// Appends the line of a turn at which a merge goes no further.
fn print_turn(word: &[u8], site: SiteId, turn: u32, out: &mut Vec<u8>) -> Result<(), NoMemory>
    ensures { OnOk result
        (out.new.items ≡ out.old.items ++ (word.now ++ (decimal site ++ 32 ∷ (decimal turn ++ 10 ∷ [])))) }
{
    out.extend_from_slice(word)?;
    site.print(out)?;
    out.push(b' ')?;
    print_number(out, u64::from(turn))?;
    out.push(b'\n')?;
    Ok(())
}

/// Makes the status and the line for an input that is no recordings.
fn refuse(alloc: Global, fault: RecordingFault) -> Result<RunOutput, NoMemory>
    ensures { IfOk result (λ defined. TellsRecording fault defined.status defined.text.items) }
{
    let mut text = Vec::new(alloc);
    let status = match fault {
        RecordingFault::BadLine { line, at } => {
            print_bad_line(line, at, &mut text)?;
            Status::BadLine
        }
        RecordingFault::Twice { line } => {
            print_twice(line, &mut text)?;
            Status::BadLine
        }
        RecordingFault::TooMany { limit, .. } => {
            print_limit(limit, &mut text)?;
            Status::Limit
        }
        RecordingFault::NoMemory => return Err(NoMemory),
    };
    Ok(RunOutput { status, text })
}
