//! The program.

ghost use Rattle.std.specs.Prelude.{◌≡◌, IfOk, IsErrOf, Some};
ghost use Rattle.vp_outside.specs.Causes.{Rose};
ghost use Rattle.vp_drawing.specs.Words.{part_of};
ghost use Rattle.vp_drawing.specs.Ends.{Defines, Ends, IsAsked, Reads};
ghost use Rattle.vp_drawing.specs.declared.program.RunFault.TheVariants as run_faults;

use crate::picture::picture_of;
use crate::words::{part_of, usage};
use std::alloc::Global;
use vp_base::{NoMemory, Word};
use vp_outside::{InputFault, Sink, Source, read_to_end};
use vp_pictures::Part;
use vp_status::{RunOutput, Status};

/// The most bytes that an input may have.
const MOST_BYTES: usize = 16_777_216;

/// Why there is nothing to print.
#[derive(Clone, Copy, Drop)]
enum RunFault {
    SourceFault,
    NoMemory,
}

impl From<NoMemory> for RunFault {
    ghost from_gives = { λ _ fault. fault ≡ run_faults.NoMemory };

    fn from(_: NoMemory) -> RunFault {
        RunFault::NoMemory
    }
}

/// Does all that the program does: tests the words, reads the source to its end, and prints the picture of the schedule that was read, or
/// why there is none. Before the source was read nothing is printed.
#[tactic(auto, using(crate::proofs::Ending::printed))]
pub fn run<S: Source, K: Sink>(
    alloc: Global,
    words: &[Word],
    source: &mut S,
    sink: &mut K,
) -> Status
    ensures ends { Ends words.now (S.state source.old) (S.state source.new) (K.state sink.old) (K.state sink.new) result }
    ensures uncalled { (IsAsked words.now → ⊥) → source.new ≡ source.old }
{
    match output_of(alloc, words, source) {
        Ok(defined) => defined.print(sink),
        Err(RunFault::SourceFault) => Status::SourceFault,
        Err(RunFault::NoMemory) => Status::NoMemory,
    }
}

/// Makes what is printed for the words and for what the source has.
#[tactic(auto, using(crate::proofs::Ending::defining))]
fn output_of<S: Source>(
    alloc: Global,
    words: &[Word],
    source: &mut S,
) -> Result<RunOutput, RunFault>
    ensures defined { IfOk result (λ it. Defines words.now (S.state source.old) (S.state source.new) it.status it.text.items) }
    ensures source_fault { IsErrOf result run_faults.SourceFault → IsAsked words.now × Rose (S.state source.old).faults (S.state source.new).faults }
    ensures uncalled { (IsAsked words.now → ⊥) → source.new ≡ source.old }
{
    match part_of(words) {
        None => Ok(usage(alloc)?),
        Some(part) => read_picture(alloc, part, source),
    }
}

/// Reads the source to its end, and draws the part of the schedule that it has.
#[tactic(auto, using(crate::proofs::Ending::reading))]
fn read_picture<S: Source>(alloc: Global, part: Part, source: &mut S) -> Result<RunOutput, RunFault>
    ensures defined { IfOk result (λ it. Reads part (S.state source.old) (S.state source.new) it.status it.text.items) }
    ensures source_fault { IsErrOf result run_faults.SourceFault → Rose (S.state source.old).faults (S.state source.new).faults }
{
    match read_to_end(alloc, source, MOST_BYTES) {
        Ok(input) => Ok(picture_of(alloc, &input, part)?),
        Err(InputFault::Failed) => Err(RunFault::SourceFault),
        Err(InputFault::TooLong) => Ok(RunOutput::new(
            alloc,
            Status::Limit,
            b"limit bytes 16777216\n",
        )?),
        Err(InputFault::NoMemory) => Err(RunFault::NoMemory),
    }
}
