//! The command of a client.

ghost use Rattle.std.specs.Prelude.{◌≡◌, ◌++◌, ◌∷◌, [], None, IfOk, OnErr};
ghost use Rattle.vp_base.specs.Calls.{IsCall};
ghost use Rattle.vp_model.specs.Texts.Answers.{answer_text};
ghost use Rattle.vp_top.specs.Asked.{ClientGives, ClientLeaves, Tells};
ghost use Rattle.vp_status.specs.declared.status.Status.TheVariants.{Done as IsDone};

use std::alloc::Global;
use vp_base::{Answer, Call, NoMemory, SiteId};
use vp_client::{AskFault, ask};
use vp_outside::Link;
use vp_status::{RunOutput, Status};
use vp_trace::print_answer;

/// Binds the client's own port, sends the call to the site's port, and makes the line of the answer, which may be any reply. It waits
/// for at most `turns` datagrams.
pub fn call_site<L: Link>(
    alloc: Global,
    link: &mut L,
    own: u16,
    port: u16,
    site: SiteId,
    call: &Call,
    turns: u64,
) -> Result<RunOutput, NoMemory>
    requires fresh { (L.state link.old).asked ≡ None }
    requires call { IsCall call.now }
    ensures gives { IfOk result
        (λ it. ClientGives own turns port site call.now (L.state link.old) (L.state link.new) it.status
        it.text.items) }
    ensures no_memory { OnErr result
        (ClientLeaves own turns port site call.now (L.state link.old) (L.state link.new)) }
{
    let Ok(()) = link.bind(own) else {
        return RunOutput::link_fault(alloc);
    };
    told(alloc, ask(alloc, link, port, site, call, turns))
}

/// Makes the status and the line of the answer, or of its fault.
fn told(alloc: Global, answered: Result<Answer, AskFault>) -> Result<RunOutput, NoMemory>
    ensures { IfOk result (λ it. Tells answered it.status it.text.items) }
{
    match answered {
        Ok(answer) => answer_line(alloc, &answer),
        Err(AskFault::NoAnswer { .. }) => RunOutput::new(alloc, Status::NoAnswer, b"no answer\n"),
        Err(AskFault::LinkFault) => RunOutput::link_fault(alloc),
        Err(AskFault::NoMemory) => Err(NoMemory),
    }
}

/// Makes the line of an answer.
fn answer_line(alloc: Global, answer: &Answer) -> Result<RunOutput, NoMemory>
    ensures status { IfOk result (λ it. it.status ≡ IsDone) }
    ensures text { IfOk result (λ it. it.text.items ≡ answer_text answer.now ++ 10 ∷ []) }
{
    let mut text = Vec::new(alloc);
    print_answer(answer, &mut text)?;
    text.push(b'\n')?;
    Ok(RunOutput {
        status: Status::Done,
        text,
    })
}
