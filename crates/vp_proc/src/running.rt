//! Running a procedure.

ghost use Rattle.std.specs.Prelude.{IfOk, IsTrue};
ghost use Rattle.vp_outside.specs.Links.{StaysBound};
ghost use Rattle.vp_procedure.specs.Procedures.{IsProcedure};
ghost use Rattle.vp_proc.specs.Ran.{Runs};
ghost use Rattle.vp_proc.specs.Claims.{IsEvaluated};

use crate::ended::{End, Ended};
use crate::session::{Session, begun_in};
use std::alloc::Global;
use vp_base::{Call, Ops, SiteId};
use vp_client::{AskFault, ask};
use vp_outside::Link;
use vp_procedure::Procedure;

/// Runs the procedure at the site, as one transaction: it is begun, its reads and writes are asked one by one, and it is committed if
/// the result is reached, or else aborted.
pub fn run<L: Link>(
    alloc: Global,
    link: &mut L,
    port: u16,
    site: SiteId,
    procedure: &Procedure,
    turns: u64,
) -> Result<Ended, AskFault>
    requires bound { IsTrue (L.state link.old).bound }
    requires procedure { IsProcedure procedure.now }
    ensures runs { Runs port site turns procedure.now (L.state link.old) (L.state link.new) result }
    ensures evaluated { IfOk result (IsEvaluated procedure.now) }
    ensures stays { StaysBound (L.state link.old) (L.state link.new) }
{
    let answer = ask(alloc, link, port, site, &Call::Begin, turns)?;
    let Some(txn) = begun_in(&answer) else {
        return Ok(Ended {
            ops: Ops::new(alloc),
            end: End::Refused { answer },
        });
    };
    let mut session = Session::new(alloc, port, site, turns, txn);
    let end = session.play(alloc, link, procedure)?;
    Ok(Ended {
        ops: session.into_ops(),
        end,
    })
}
