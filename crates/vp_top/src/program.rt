//! The program: from the words and the source to the sink, the link, the disk and the status.

ghost use Rattle.std.specs.Prelude.{◌≡◌, ◌≤◌, ◌<◌, ◌↔◌, IfOk, IfSome, IsErrOf, IsTrue, None, ℕ, List, length};
ghost use Rattle.vp_outside.specs.Causes.{Rose};
ghost use Rattle.vp_outside.specs.Input.{IsEnded, Took};
ghost use Rattle.vp_serving.specs.Serving.{outside};
ghost use Rattle.vp_top.specs.Ends.{Ends, EndsInText, EndsOnDisk, LeavesLink};
ghost use Rattle.vp_top.specs.Plans.{Plans};
ghost use Rattle.vp_top.specs.Program.{AreOf, Calls, CallsDisk, IsForGateway, Reads};
ghost use Rattle.vp_top.specs.declared.program.PlanFault.TheVariants as plan_faults;

use crate::auditing::audit_logs;
use crate::gateway::serve_session;
use crate::node::serve_log;
use crate::plan::{Plan, plan_of, too_long, usage};
use std::alloc::{AllocError, Global};
use vp_base::{NoMemory, Word};
use vp_outside::{Disk, InputFault, Link, Sink, Source, read_to_end};
use vp_status::Status;
use vp_words::Command;

/// The most bytes that an input may have.
pub const MOST_BYTES: usize = 16_777_216;

/// Why there is no plan.
#[derive(Clone, Copy, Drop)]
enum PlanFault {
    SourceFault,
    NoMemory,
}

impl From<NoMemory> for PlanFault {
    ghost from_gives = { λ _ fault. fault ≡ plan_faults.NoMemory };

    fn from(_: NoMemory) -> PlanFault {
        PlanFault::NoMemory
    }
}

impl From<AllocError> for PlanFault {
    ghost from_gives = { λ _ fault. fault ≡ plan_faults.NoMemory };

    fn from(_: AllocError) -> PlanFault {
        PlanFault::NoMemory
    }
}

/// Does all that the program does: tests the words, reads the source to its end if the command reads one, and prints what the words
/// define for what was read and for the logs of an audit, or serves a node, which prints as it goes. Before the source was read nothing
/// is printed, and neither the link nor the disk is called.
pub fn run<S: Source, K: Sink, L: Link, D: Disk>(
    alloc: Global,
    words: &[Word],
    source: &mut S,
    sink: &mut K,
    link: &mut L,
    disk: &mut D,
) -> Status
    requires fresh { (L.state link.old).asked ≡ None }
    ensures ends { Ends words.now (S.state source.old) (S.state source.new)
        (outside (L.state link.old) (L.state link.new) (K.state sink.old) (K.state sink.new) (D.state disk.old) (D.state disk.new)) result }
    // Whatever is for no disk and for no gateway prints a text.
    ensures text { (AreOf CallsDisk words.now → ⊥) → (AreOf IsForGateway words.now → ⊥)
        → EndsInText words.now (S.state source.old) (S.state source.new) (L.state link.old) (L.state link.new) (K.state sink.old) (K.state sink.new) result }
    ensures source_uncalled { (AreOf Reads words.now → ⊥) → (AreOf IsForGateway words.now → ⊥) →
        source.new ≡ source.old }
    ensures link_uncalled { (AreOf Calls words.now → ⊥) → link.new ≡ link.old }
    // The disk is called only if a node serves or logs are audited.
    ensures disk_uncalled { (EndsOnDisk words.now (S.state source.old) (S.state source.new)
        (outside (L.state link.old) (L.state link.new) (K.state sink.old) (K.state sink.new) (D.state disk.old) (D.state disk.new)) result → ⊥) → disk.new ≡ disk.old }
{
    match plan(alloc, words, source, link) {
        Ok(Plan::Print(defined)) => defined.print(sink),
        Ok(
            Plan::Serve {
                catalog,
                site,
                log,
                turns,
            },
        ) => serve_log(&catalog, site, &log, link, disk, sink, turns),
        Ok(Plan::Audit { catalog, logs }) => match audit_logs(&catalog, &logs, disk) {
            Ok(defined) => defined.print(sink),
            Err(NoMemory) => Status::NoMemory,
        },
        Ok(Plan::Answer(gateway)) => serve_session(alloc, source, sink, link, &gateway),
        Err(PlanFault::SourceFault) => Status::SourceFault,
        Err(PlanFault::NoMemory) => Status::NoMemory,
    }
}

/// Makes the plan for the words and for what the source has.
fn plan<S: Source, L: Link>(
    alloc: Global,
    words: &[Word],
    source: &mut S,
    link: &mut L,
) -> Result<Plan, PlanFault>
    requires fresh { (L.state link.old).asked ≡ None }
    ensures plans { IfOk result
        (Plans words.now (S.state source.old) (S.state source.new) (L.state link.old) (L.state link.new)) }
    ensures no_memory { IsErrOf result plan_faults.NoMemory →
        LeavesLink words.now (S.state source.old) (S.state source.new) (L.state link.old) (L.state link.new) }
    ensures source_fault { IsErrOf result plan_faults.SourceFault → AreOf Reads words.now ×
        Rose (S.state source.old).faults (S.state source.new).faults × (L.state link.new ≡ L.state link.old) }
    ensures source_uncalled { (AreOf Reads words.now → ⊥) → source.new ≡ source.old }
    ensures link_uncalled { (AreOf Calls words.now → ⊥) → link.new ≡ link.old }
{
    let Some(command) = Command::of(alloc, words)? else {
        return Ok(Plan::Print(usage(alloc)?));
    };
    if !reads(&command) {
        return Ok(plan_of(alloc, command, &[], link)?);
    }
    match input_of(alloc, source)? {
        Some(input) => Ok(plan_of(alloc, command, &input, link)?),
        None => Ok(Plan::Print(too_long(alloc)?)),
    }
}

/// Whether the command reads its input to the end before it does anything.
fn reads(command: &Command) -> bool
    ensures { IsTrue result ↔ Reads command.now }
{
    !matches!(
        command,
        Command::Generate { .. } | Command::Soak { .. } | Command::Gateway { .. }
    )
}

/// Reads the input to its end; none where it is too long.
fn input_of<S: Source>(alloc: Global, source: &mut S) -> Result<Option<Vec<u8>>, PlanFault>
    ensures whole { IfOk result (λ found. IfSome found (λ input. (length input.items ≤ 16777216)
        × IsEnded (S.state source.new) × Took input.items (S.state source.old) (S.state source.new))) }
    ensures too_long { IfOk result (λ found. found ≡ None → ((bytes : List ℕ) × (16777216 < length bytes)
        × Took bytes (S.state source.old) (S.state source.new))) }
    ensures cause { IsErrOf result plan_faults.SourceFault →
        Rose (S.state source.old).faults (S.state source.new).faults }
{
    match read_to_end(alloc, source, MOST_BYTES) {
        Ok(input) => Ok(Some(input)),
        Err(InputFault::Failed) => Err(PlanFault::SourceFault),
        Err(InputFault::TooLong) => Ok(None),
        Err(InputFault::NoMemory) => Err(PlanFault::NoMemory),
    }
}
