//! The command that runs a procedure.

ghost use Rattle.std.specs.Prelude.{◌≡◌, ◌++◌, None, IfOk, OnErr, OnOk};
ghost use Rattle.vp_procedure.specs.Procedures.{IsProcedure};
ghost use Rattle.vp_top.specs.Procedures.{ProcedureGives, ProcedureLeaves, TellsProcedure, TellsRun, end_line, end_status, number_line};
ghost use Rattle.vp_top.specs.Program.{IsProcedureAnswer, MayRun};

use crate::plan::usage;
use std::alloc::Global;
use vp_base::{NoMemory, SiteId};
use vp_client::AskFault;
use vp_outside::Link;
use vp_proc::{End, Ended, run};
use vp_procedure::{Procedure, ProcedureFault, parse};
use vp_status::{RunOutput, Status, print_bad_line, print_limit, print_twice};
use vp_text::print_number;
use vp_trace::print_answer;

/// Reads a procedure and runs it at the site, from the client's own port: the status and the line of its end. Each answer is waited for
/// among at most `turns` datagrams.
pub fn run_procedure<L: Link>(
    alloc: Global,
    link: &mut L,
    own: u16,
    turns: u64,
    site: SiteId,
    input: &[u8],
) -> Result<RunOutput, NoMemory>
    requires fresh { (L.state link.old).asked ≡ None }
    ensures answer { IfOk result (λ it. IsProcedureAnswer own turns site input.now (L.state link.old)
        (L.state link.new) it.status it.text.items) }
    ensures no_memory { OnErr result (MayRun own turns site input.now (L.state link.old) (L.state link.new)) }
{
    match parse(alloc, input) {
        Ok(read) => match read.catalog.port(site) {
            Some(port) => run_at(alloc, link, own, turns, port, site, &read.procedure),
            None => usage(alloc),
        },
        Err(fault) => refuse(alloc, fault),
    }
}

/// Binds the client's own port and runs the procedure at the site's port.
fn run_at<L: Link>(
    alloc: Global,
    link: &mut L,
    own: u16,
    turns: u64,
    port: u16,
    site: SiteId,
    procedure: &Procedure,
) -> Result<RunOutput, NoMemory>
    requires fresh { (L.state link.old).asked ≡ None }
    requires procedure { IsProcedure procedure.now }
    ensures gives { IfOk result (λ it. ProcedureGives own turns port site procedure.now (L.state link.old)
        (L.state link.new) it.status it.text.items) }
    ensures no_memory { OnErr result
        (ProcedureLeaves own turns port site procedure.now (L.state link.old) (L.state link.new)) }
{
    let Ok(()) = link.bind(own) else {
        return RunOutput::link_fault(alloc);
    };
    told(alloc, &run(alloc, link, port, site, procedure, turns))
}

/// Makes the status and the line of a run.
fn told(alloc: Global, ran: &Result<Ended, AskFault>) -> Result<RunOutput, NoMemory>
    ensures { IfOk result (λ it. TellsRun ran.now it.status it.text.items) }
{
    match ran {
        Ok(ended) => {
            let mut text = Vec::new(alloc);
            print_end(&ended.end, &mut text)?;
            Ok(RunOutput {
                status: status_of(&ended.end),
                text,
            })
        }
        Err(AskFault::NoAnswer { .. }) => RunOutput::new(alloc, Status::NoAnswer, b"no answer\n"),
        Err(AskFault::LinkFault) => RunOutput::link_fault(alloc),
        Err(AskFault::NoMemory) => Err(NoMemory),
    }
}

fn status_of(end: &End) -> Status
    ensures { result ≡ end_status end.now }
{
    match end {
        End::Done { .. } => Status::Done,
        _ => Status::NoResult,
    }
}

/// Appends the line of an end.
fn print_end(end: &End, out: &mut Vec<u8>) -> Result<(), NoMemory>
    ensures { OnOk result (out.new.items ≡ out.old.items ++ end_line end.now) }
{
    match end {
        End::Done { number } => print_line(b"done ", *number, out),
        End::NotNumber { line } => print_line(b"notnumber ", u64::from(*line), out),
        End::Overflow { line } => print_line(b"overflow ", u64::from(*line), out),
        End::Failed { code } => print_line(b"failed ", u64::from(*code), out),
        End::Refused { answer } => {
            print_answer(answer, out)?;
            out.push(b'\n')?;
            Ok(())
        }
    }
}

/// Appends a line of a word and a number.
fn print_line(word: &[u8], number: u64, out: &mut Vec<u8>) -> Result<(), NoMemory>
    ensures { OnOk result (out.new.items ≡ out.old.items ++ number_line word.now number) }
{
    out.extend_from_slice(word)?;
    print_number(out, number)?;
    out.push(b'\n')?;
    Ok(())
}

/// Makes the status and the line for an input that is no procedure.
fn refuse(alloc: Global, fault: ProcedureFault) -> Result<RunOutput, NoMemory>
    ensures { IfOk result (λ defined. TellsProcedure fault defined.status defined.text.items) }
{
    let mut text = Vec::new(alloc);
    let status = match fault {
        ProcedureFault::BadLine { line, at } => {
            print_bad_line(line, at, &mut text)?;
            Status::BadLine
        }
        ProcedureFault::Twice { line } => {
            print_twice(line, &mut text)?;
            Status::BadLine
        }
        ProcedureFault::TooMany { limit, .. } => {
            print_limit(limit, &mut text)?;
            Status::Limit
        }
        ProcedureFault::NoMemory => return Err(NoMemory),
    };
    Ok(RunOutput { status, text })
}
