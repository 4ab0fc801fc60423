//! Soaking the database: a generated schedule is played, and its run is counted and checked.

ghost use Rattle.std.specs.Prelude.{◌≡◌, ◌≤◌, ◌++◌, IfOk, OnOk, IsSome, codes, length};
ghost use Rattle.vp_replay.specs.Generated.{IsSoaked};
ghost use Rattle.vp_model.specs.Catalogue.{start_values};
ghost use Rattle.vp_model.specs.OneCopy.{order, serial};
ghost use Rattle.vp_onecopy.specs.Playing.{CommitsWithin};
ghost use Rattle.vp_replay.specs.Summary.{begins, commits, refuses, count_of, count_line, summary_lines};

use crate::generating::GeneratedRun;
use std::alloc::Global;
use vp_base::{Answer, NoMemory, Reply};
use vp_onecopy::{Map, Verdict, check, order};
use vp_status::{RunOutput, Status, print_limit};
use vp_text::print_number;
use vp_world::{World, WorldEnd};

/// Plays the schedule that is generated from these numbers: the status and the text that `soak` prints for it.
pub fn soaked(alloc: Global, seed: u32, count: u32) -> Result<RunOutput, NoMemory>
    requires seed { seed ≤ 2147483647 }
    requires few { count ≤ 2400 }
    ensures { IfOk result (λ defined. IsSoaked seed count defined.status defined.text.items) }
{
    let mut made = GeneratedRun::nothing(alloc);
    let mut text = Vec::new(alloc);
    match made.make(alloc, seed, count) {
        Ok(world) => {
            let serial = serial_commits(alloc, &world)?;
            print_summary(&made, world.messages(), serial, &mut text)?;
            Ok(RunOutput {
                status: Status::Done,
                text,
            })
        }
        Err(WorldEnd::Limit { limit, .. }) => {
            print_limit(limit, &mut text)?;
            Ok(RunOutput {
                status: Status::Limit,
                text,
            })
        }
        Err(WorldEnd::NoMemory) => Err(NoMemory),
    }
}

/// Counts the transactions that the run committed, which the check finds serial.
#[tactic(auto, using(crate::proofs::Contents::contents_start))]
fn serial_commits(alloc: Global, world: &World) -> Result<usize, NoMemory>
    requires within { CommitsWithin (length (start_values world.now.catalogue))
        (order world.now.world.journal) }
    requires serial { IsSome (serial (start_values world.now.catalogue) (order world.now.world.journal)) }
    ensures { IfOk result (λ count. count ≡ length (order world.now.world.journal)) }
{
    let start = Map::starting(alloc, &world.catalog().starts()?)?;
    let commits = order(alloc, world.journal().as_slice())?;
    match check(&start, commits.as_slice())? {
        Verdict::Serial { .. } => Ok(commits.as_slice().len()),
        Verdict::Differs { .. } => unreachable!(),
    }
}

/// How many of some replies are of each of three kinds.
#[derive(Drop)]
struct Counts {
    begun: usize,
    committed: usize,
    refused: usize,
}

/// Whether the answer refuses what the client asked for.
fn is_refusal(answer: &Answer) -> bool
    ensures { result ≡ refuses answer.now }
{
    match answer {
        Answer::Begun { .. }
        | Answer::Value { .. }
        | Answer::Written { .. }
        | Answer::Absent { .. }
        | Answer::Deleted { .. }
        | Answer::Weighed { .. }
        | Answer::Committed { .. }
        | Answer::Aborted { .. }
        | Answer::Inviting { .. } => false,
        Answer::NoView { .. }
        | Answer::Unknown { .. }
        | Answer::Skipped { .. }
        | Answer::Busy { .. }
        | Answer::NoRecord { .. }
        | Answer::BadTable { .. }
        | Answer::TooManyOps { .. }
        | Answer::Inaccessible { .. }
        | Answer::LockHeld { .. }
        | Answer::ViewChanged { .. }
        | Answer::TimedOut { .. }
        | Answer::Spent { .. }
        | Answer::TooManyLive => true,
    }
}

fn count(replies: &[Reply]) -> Counts
    ensures { result ≡
        record {
          begun = count_of begins replies.now;
          committed = count_of commits replies.now;
          refused = count_of refuses replies.now;
        } }
{
    let mut counts = Counts {
        begun: 0,
        committed: 0,
        refused: 0,
    };
    for reply in replies {
        match &reply.answer {
            Answer::Begun { .. } => counts.begun += 1,
            Answer::Committed { .. } => counts.committed += 1,
            answer => {
                if is_refusal(answer) {
                    counts.refused += 1;
                }
            }
        }
    }
    counts
}

fn print_count(word: &[u8], count: usize, out: &mut Vec<u8>) -> Result<(), NoMemory>
    ensures { OnOk result (out.new.items ≡ out.old.items ++ count_line word.now count) }
{
    out.extend_from_slice(word)?;
    print_number(out, count as u64)?;
    out.push(b'\n')?;
    Ok(())
}

fn print_summary(
    made: &GeneratedRun,
    messages: usize,
    serial: usize,
    out: &mut Vec<u8>,
) -> Result<(), NoMemory>
    ensures { OnOk result
        (out.new.items ≡ out.old.items ++
        summary_lines (length made.now.events) messages made.now.replies serial) }
{
    let counts = count(made.replies.as_slice());
    print_count(b"events ", made.events.as_slice().len(), out)?;
    print_count(b"messages ", messages, out)?;
    print_count(b"begun ", counts.begun, out)?;
    print_count(b"committed ", counts.committed, out)?;
    print_count(b"refused ", counts.refused, out)?;
    print_count(b"serial ", serial, out)
}
