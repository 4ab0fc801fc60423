//! The report on stopped sites.

ghost use Rattle.std.specs.Prelude.{◌≡◌, IfOk};
ghost use Rattle.vp_model.specs.Words.{keys};
ghost use Rattle.vp_audit.specs.Audited.{audit_of};
ghost use Rattle.vp_audit.specs.True.{IsTrueReport};

use crate::found::{Found, Parts, Report};
use crate::laws::reports_are_true;
use vp_base::{NoMemory, RecId, Sites};
use vp_catalog::Catalog;

/// Reports on each record of the catalogue, by the durable parts of the stopped sites.
#[tactic(auto, using(crate::proofs::Walked::report_more))]
pub fn audit(catalog: &Catalog, parts: &Parts) -> Result<Report, NoMemory>
    ensures report { IfOk result (λ report. report ≡ audit_of catalog.now parts.now) }
    ensures true_report { IfOk result (IsTrueReport catalog.now parts.now) }
{
    reports_are_true();
    let sites = sites_of(parts)?;
    let mut report = Report::new(catalog.sites().allocator());
    for place in 0..catalog.count() {
        let rec = RecId::new(place as u8);
        report.push(Found::of(catalog, parts, &sites, rec)?)?;
    }
    Ok(report)
}

fn sites_of(parts: &Parts) -> Result<Sites, NoMemory>
    ensures { IfOk result (λ sites. sites ≡ keys parts.now) }
{
    let sites = parts.as_slice().iter().map(|part| part.0);
    Ok(Sites::from_vec(sites.collect(parts.allocator())?))
}
