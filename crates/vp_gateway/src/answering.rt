//! Answering one line.

ghost use Rattle.std.specs.Prelude.{◌≡◌, ◌++◌, ◌∷◌, [], ◌≤◌, length, OnOk, IfOk, IsTrue};
ghost use Rattle.vp_base.specs.Calls.{IsCall};
ghost use Rattle.vp_model.specs.Texts.Answers.{answer_text};
ghost use Rattle.vp_outside.specs.Links.{StaysBound};
ghost use Rattle.vp_gateway.specs.Causes.{RisesAt};
ghost use Rattle.vp_gateway.specs.Ends.{end_of};
ghost use Rattle.vp_gateway.specs.Lines.{line_as, bad_line};
ghost use Rattle.vp_gateway.specs.Sessions.{talk};
ghost use Rattle.vp_gateway.specs.Answering.{Says, AnswersLine};
ghost use Rattle.vp_gateway.specs.declared.asked.LineRequest.TheVariants as asked;
ghost use Rattle.vp_gateway.specs.declared.end.GateEnd.TheVariants as ends;

use crate::asked::{LineRequest, read_line};
use crate::end::GateEnd;
use std::alloc::{AllocError, Global};
use vp_base::{Answer, Call, NoMemory, SiteId};
use vp_client::{AskFault, ask};
use vp_outside::{Link, Sink, write_all};
use vp_text::print_number;
use vp_trace::print_answer;

/// Answers a line: asks the site, if the line is a call, and puts the answer to the sink.
#[tactic(auto, using(crate::proofs::OneLine::unsaid, crate::proofs::OneLine::put_whole, crate::proofs::OneLine::put_part, crate::proofs::Counting::output_rises))]
pub fn answer<K: Sink, L: Link>(
    alloc: Global,
    sink: &mut K,
    link: &mut L,
    port: u16,
    site: SiteId,
    turns: u64,
    line: &[u8],
    newline: bool,
) -> Result<(), GateEnd>
    requires short { length line.now ≤ 4097 }
    requires bound { IsTrue (L.state link.old).bound }
    ensures answers { AnswersLine port site turns (line_as newline line.now)
        (talk (K.state sink.old) (K.state sink.new) (L.state link.old) (L.state link.new)) result }
    ensures cause { RisesAt ends.WriteFault (end_of result) (K.state sink.old).faults
        (K.state sink.new).faults }
    ensures stays { StaysBound (L.state link.old) (L.state link.new) }
{
    let text = said(alloc, link, port, site, turns, line, newline)?;
    write_all(sink, &text)?;
    Ok(())
}

/// Makes the answer to a line, with its newline: that of the site if the line is a call, and else its fault.
#[tactic(auto, using(crate::proofs::OneLine::says_as, crate::proofs::OneLine::says_bad, crate::proofs::OneLine::says_long))]
fn said<L: Link>(
    alloc: Global,
    link: &mut L,
    port: u16,
    site: SiteId,
    turns: u64,
    line: &[u8],
    newline: bool,
) -> Result<Vec<u8>, GateEnd>
    requires short { length line.now ≤ 4097 }
    requires bound { IsTrue (L.state link.old).bound }
    ensures says { Says port site turns (λ text. text.items) (line_as newline line.now) (L.state link.old)
        (L.state link.new) result }
    ensures stays { StaysBound (L.state link.old) (L.state link.new) }
{
    match read_line(alloc, line, newline)? {
        LineRequest::Call(call) => asked(alloc, link, port, site, turns, &call),
        LineRequest::Bad { at } => Ok(print_bad(alloc, at)?),
        LineRequest::Long => Ok(copied(alloc, b"long\n")?),
    }
}

/// Asks the site, and makes a line of its answer: `no answer` where none is among `turns` datagrams.
#[tactic(auto, using(crate::proofs::OneLine::says_answer, crate::proofs::OneLine::says_none, crate::proofs::OneLine::forgets_answer, crate::proofs::OneLine::forgets_none))]
fn asked<L: Link>(
    alloc: Global,
    link: &mut L,
    port: u16,
    site: SiteId,
    turns: u64,
    call: &Call,
) -> Result<Vec<u8>, GateEnd>
    requires bound { IsTrue (L.state link.old).bound }
    requires call { IsCall call.now }
    ensures says { Says port site turns (λ text. text.items) (asked.Call call.now) (L.state link.old)
        (L.state link.new) result }
    ensures stays { StaysBound (L.state link.old) (L.state link.new) }
{
    match ask(alloc, link, port, site, call, turns) {
        Ok(answer) => Ok(print_said(alloc, &answer)?),
        Err(AskFault::NoAnswer { .. }) => Ok(copied(alloc, b"no answer\n")?),
        Err(AskFault::LinkFault) => Err(GateEnd::LinkFault),
        Err(AskFault::NoMemory) => Err(GateEnd::NoMemory),
    }
}

/// Prints the answer as a line.
#[tactic(auto, using(vp_text::proofs::Printing::printing))]
fn print_said(alloc: Global, answer: &Answer) -> Result<Vec<u8>, NoMemory>
    ensures { IfOk result (λ text. text.items ≡ answer_text answer.now ++ 10 ∷ []) }
{
    let mut text = Vec::new(alloc);
    print_answer(answer, &mut text)?;
    text.push(b'\n')?;
    Ok(text)
}

/// Prints the line that says at which byte a line is no call.
#[tactic(auto, using(vp_text::proofs::Printing::printing))]
fn print_bad(alloc: Global, at: usize) -> Result<Vec<u8>, NoMemory>
    ensures { IfOk result (λ text. text.items ≡ bad_line at) }
{
    let mut text = copied(alloc, b"bad at ")?;
    print_number(&mut text, at as u64)?;
    text.push(b'\n')?;
    Ok(text)
}

fn copied(alloc: Global, text: &[u8]) -> Result<Vec<u8>, AllocError>
    ensures { IfOk result (λ copy. copy.items ≡ text.now) }
{
    Vec::from_slice(alloc, text)
}
