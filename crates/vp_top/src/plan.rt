//! What the program is to do for a command and its input.

ghost use Rattle.std.specs.Prelude.{◌≡◌, None, IfOk, OnErr, codes};
ghost use Rattle.vp_words.specs.Commands.{IsAllowed};
ghost use Rattle.vp_status.specs.declared.status.Status.TheVariants as status;
ghost use Rattle.vp_top.specs.Plans.{IsAuditPlan, IsFound, PlansFor};
ghost use Rattle.vp_top.specs.Program.{Calls, MayCall, TellsFault, has_all, usage_text};

use crate::asking::call_site;
use crate::merging::merged;
use crate::procedure::run_procedure;
use crate::signalling::signal_site;
use std::alloc::Global;
use vp_base::{NoMemory, SiteId, Word};
use vp_catalog::{Catalog, CatalogFault};
use vp_outside::Link;
use vp_replay::{checked, generated, logged, replayed, soaked};
use vp_status::{RunOutput, Status, print_bad_line, print_limit, print_twice};
use vp_words::{Command, Logs};

/// What the program is to do once its words are tested and its input is read.
#[derive(Drop)]
pub enum Plan {
    /// Print a text.
    Print(RunOutput),
    /// Serve a node on the log of this name.
    Serve {
        catalog: Catalog,
        site: SiteId,
        log: Word,
        turns: u64,
    },
    /// Audit the sites by their logs.
    Audit {
        catalog: Catalog,
        logs: Logs,
    },
    /// It answers a session.
    Answer(Gateway),
}

/// A gateway's own port, for how many datagrams it waits at most, and its site.
#[derive(Drop)]
pub struct Gateway {
    pub port: u16,
    pub turns: u64,
    pub site: SiteId,
}

/// The site of a command in the catalogue that its input is.
#[derive(Drop)]
enum SiteLookup {
    /// The catalogue has it, with this port.
    At { catalog: Catalog, port: u16 },
    /// The input is no catalogue, or has no such site; this is printed then.
    Nowhere(RunOutput),
}

/// Makes the plan for the command and its input. A client's call, a signal and a procedure are done already: their plan is to print the
/// result.
pub fn plan_of<L: Link>(
    alloc: Global,
    command: Command,
    input: &[u8],
    link: &mut L,
) -> Result<Plan, NoMemory>
    requires fresh { (L.state link.old).asked ≡ None }
    requires command { IsAllowed command }
    ensures plans { IfOk result (PlansFor command input.now (L.state link.old) (L.state link.new)) }
    ensures no_memory { OnErr result (MayCall command input.now (L.state link.old) (L.state link.new)) }
    ensures uncalled { (Calls command → ⊥) → link.new ≡ link.old }
{
    match command {
        Command::Replay => Ok(Plan::Print(replayed(alloc, input)?)),
        Command::Check => Ok(Plan::Print(checked(alloc, input)?)),
        Command::Generate { seed, count } => Ok(Plan::Print(generated(alloc, seed, count)?)),
        Command::Soak { seed, count } => Ok(Plan::Print(soaked(alloc, seed, count)?)),
        Command::Logs => Ok(Plan::Print(logged(alloc, input)?)),
        Command::Node { site, log, turns } => match find(alloc, input, site)? {
            SiteLookup::At { catalog, .. } => Ok(Plan::Serve {
                catalog,
                site,
                log,
                turns,
            }),
            SiteLookup::Nowhere(told) => Ok(Plan::Print(told)),
        },
        Command::Client {
            port: own,
            turns,
            site,
            call,
        } => match find(alloc, input, site)? {
            SiteLookup::At { port, .. } => Ok(Plan::Print(call_site(
                alloc, link, own, port, site, &call, turns,
            )?)),
            SiteLookup::Nowhere(told) => Ok(Plan::Print(told)),
        },
        Command::Signal { site, signal } => match find(alloc, input, site)? {
            SiteLookup::At { port, .. } => Ok(Plan::Print(signal_site(
                alloc, link, port, site, signal,
            )?)),
            SiteLookup::Nowhere(told) => Ok(Plan::Print(told)),
        },
        Command::Audit { logs } => audit_plan(alloc, input, logs),
        Command::Gateway { port, turns, site } => {
            Ok(Plan::Answer(Gateway { port, turns, site }))
        }
        Command::Merge => Ok(Plan::Print(merged(alloc, input)?)),
        Command::Proc { port, turns, site } => Ok(Plan::Print(run_procedure(
            alloc, link, port, turns, site, input,
        )?)),
    }
}

/// Reads the catalogue of an audit, which must have all its sites.
fn audit_plan(alloc: Global, input: &[u8], logs: Logs) -> Result<Plan, NoMemory>
    ensures { IfOk result (IsAuditPlan input.now logs) }
{
    match Catalog::read(alloc, input) {
        Ok(catalog) => {
            if has_all(&catalog, logs.as_slice()) {
                Ok(Plan::Audit { catalog, logs })
            } else {
                Ok(Plan::Print(usage(alloc)?))
            }
        }
        Err(fault) => Ok(Plan::Print(refused(alloc, fault)?)),
    }
}

fn has_all(catalog: &Catalog, logs: &[(SiteId, Word)]) -> bool
    ensures { result ≡ has_all catalog.now logs.now }
{
    logs.iter().all(|log| catalog.port(log.0).is_some())
}

/// Reads the catalogue and finds the site in it.
fn find(alloc: Global, input: &[u8], site: SiteId) -> Result<SiteLookup, NoMemory>
    ensures { IfOk result (IsFound input.now site) }
{
    match Catalog::read(alloc, input) {
        Ok(catalog) => match catalog.port(site) {
            Some(port) => Ok(SiteLookup::At { catalog, port }),
            None => Ok(SiteLookup::Nowhere(usage(alloc)?)),
        },
        Err(fault) => Ok(SiteLookup::Nowhere(refused(alloc, fault)?)),
    }
}

/// What is told of an input that is no catalogue.
pub fn refused(alloc: Global, fault: CatalogFault) -> Result<RunOutput, NoMemory>
    ensures { IfOk result (λ it. TellsFault fault it.status it.text.items) }
{
    let mut text = Vec::new(alloc);
    let status = match fault {
        CatalogFault::BadLine { line, at } => {
            print_bad_line(line, at, &mut text)?;
            Status::BadLine
        }
        CatalogFault::Twice { line } => {
            print_twice(line, &mut text)?;
            Status::BadLine
        }
        CatalogFault::TooMany { limit, .. } => {
            print_limit(limit, &mut text)?;
            Status::Limit
        }
        CatalogFault::NoMemory => return Err(NoMemory),
    };
    Ok(RunOutput { status, text })
}

/// Makes the status and the line for words that are no command, and for a site that the catalogue lacks.
pub fn usage(alloc: Global) -> Result<RunOutput, NoMemory>
    ensures status { IfOk result (λ it. it.status ≡ status.Usage) }
    ensures text { IfOk result (λ it. it.text.items ≡ usage_text) }
{
    RunOutput::new(
        alloc,
        Status::Usage,
        b"usage: vpdb replay|check|node|client|tick|probe|stop|generate|soak|logs|merge|audit|proc|gateway\n",
    )
}

/// Makes the status and the line for an input that is too long.
pub fn too_long(alloc: Global) -> Result<RunOutput, NoMemory>
    ensures status { IfOk result (λ it. it.status ≡ status.Limit) }
    ensures text { IfOk result (λ it. it.text.items ≡ codes "limit bytes 16777216\n") }
{
    RunOutput::new(alloc, Status::Limit, b"limit bytes 16777216\n")
}
