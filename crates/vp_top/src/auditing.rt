//! The command that reports what stopped sites hold.

ghost use Rattle.std.specs.Prelude.{◌≡◌, ◌≤◌, Some, IfOk, IfSome, IsErrOf};
ghost use Rattle.vp_audit.specs.Audited.{audit_of};
ghost use Rattle.vp_audit.specs.Lines.{report_text};
ghost use Rattle.vp_outside.specs.Causes.{Rose};
ghost use Rattle.vp_stable.specs.Halves.{Peeks};
ghost use Rattle.vp_stable.specs.declared.fault.LogFault.TheVariants as log_faults;
ghost use Rattle.vp_status.specs.Lines.{bad_log_text};
ghost use Rattle.vp_status.specs.declared.status.Status.TheVariants as status;
ghost use Rattle.vp_top.specs.Audits.{AuditGives, KeepsLogs, StopsBy};

use crate::node::print_bad_log;
use crate::report::print_report;
use std::alloc::Global;
use vp_audit::{Parts, audit, reports_are_true};
use vp_base::{Batches, NoMemory, SiteId, Word};
use vp_catalog::Catalog;
use vp_node::fold_batches;
use vp_outside::{Disk, OutFault};
use vp_stable::{Log, LogFault};
use vp_status::{RunOutput, Status};
use vp_words::Logs;

/// Reads the logs, which are attached one after the other, and makes the report on what their sites hold. No log changes.
pub fn audit_logs<D: Disk>(
    catalog: &Catalog,
    logs: &Logs,
    disk: &mut D,
) -> Result<RunOutput, NoMemory>
    ensures gives { IfOk result
        (λ it. AuditGives catalog.now logs.now (D.state disk.old) (D.state disk.new) it.status
        it.text.items) }
    ensures kept { KeepsLogs (D.state disk.old) (D.state disk.new) }
{
    reports_are_true();
    let alloc = catalog.sites().allocator();
    match read_parts(catalog, logs.as_slice(), disk) {
        Ok(parts) => reported(catalog, &parts),
        Err(LogFault::BadLog { half, at }) => bad_log(alloc, half, at),
        Err(LogFault::DiskFault) => RunOutput::new(alloc, Status::DiskFault, b"disk fault\n"),
        Err(LogFault::NoMemory) => Err(NoMemory),
    }
}

/// Reads the durable part of each site from its log.
fn read_parts<D: Disk>(
    catalog: &Catalog,
    logs: &[(SiteId, Word)],
    disk: &mut D,
) -> Result<Parts, LogFault>
    ensures stops { StopsBy catalog.now logs.now (D.state disk.old) (D.state disk.new) result }
    ensures kept { KeepsLogs (D.state disk.old) (D.state disk.new) }
{
    let alloc = catalog.sites().allocator();
    let mut parts = Parts::new(alloc);
    for log in logs {
        let batches = peek(alloc, &log.1, disk)?;
        parts.push((log.0, fold_batches(catalog, log.0, &batches)?))?;
    }
    Ok(parts)
}

/// Reads the batches of the log of this name.
fn peek<D: Disk>(alloc: Global, name: &Word, disk: &mut D) -> Result<Batches, LogFault>
    ensures read { IfSome ((D.state disk.old).logs (Some name.now)) (λ log. Peeks log result) }
    ensures fault { IsErrOf result log_faults.DiskFault → ((D.state disk.new).asked ≡ Some name.now) ×
        Rose (D.state disk.old).faults (D.state disk.new).faults }
    ensures later { (D.state disk.old).faults ≤ (D.state disk.new).faults }
    ensures kept { KeepsLogs (D.state disk.old) (D.state disk.new) }
{
    match disk.attach(name) {
        Ok(()) => Log::peek(alloc, disk),
        Err(OutFault::Failed) => Err(LogFault::DiskFault),
        Err(OutFault::NoMemory) => Err(LogFault::NoMemory),
    }
}

fn bad_log(alloc: Global, half: u8, at: u64) -> Result<RunOutput, NoMemory>
    ensures status { IfOk result (λ it. it.status ≡ status.BadLog) }
    ensures text { IfOk result (λ it. it.text.items ≡ bad_log_text half at) }
{
    let mut text = Vec::new(alloc);
    print_bad_log(half, at, &mut text)?;
    Ok(RunOutput {
        status: Status::BadLog,
        text,
    })
}

/// Makes the report on the durable parts of the sites.
fn reported(catalog: &Catalog, parts: &Parts) -> Result<RunOutput, NoMemory>
    ensures status { IfOk result (λ it. it.status ≡ status.Done) }
    ensures text { IfOk result
        (λ it. it.text.items ≡ report_text catalog.now (audit_of catalog.now parts.now)) }
{
    let report = audit(catalog, parts)?;
    let mut text = Vec::new(catalog.sites().allocator());
    print_report(catalog, &report, &mut text)?;
    Ok(RunOutput {
        status: Status::Done,
        text,
    })
}
