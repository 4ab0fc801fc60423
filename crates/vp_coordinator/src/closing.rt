//! Ending several transactions at once: those whose calls are late, or all where the site leaves its view.

ghost use Rattle.std.specs.Prelude.{◌≡◌, OnOk, None};
ghost use Rattle.vp_base.specs.declared.site.Ending.TheVariants as ending;
ghost use Rattle.vp_model.specs.Words.{first, for_each};
ghost use Rattle.vp_model.specs.Transactions.{close_all};
ghost use Rattle.vp_model.specs.Views.{abandon};
ghost use Rattle.vp_model.specs.Step.{time_out_calls};
ghost use Rattle.vp_coordinator.specs.Ends.{waits_at, timed_out};

use crate::coordinator::Coordinator;
use vp_base::{Ending, Live, NoMemory, SiteId};
use vp_transactions::LiveTxns;

/// The lowest of sites that ascend.
fn first_of(sites: &[SiteId]) -> Option<SiteId>
    ensures { result ≡ first sites.now }
{
    match sites {
        [] => None,
        [least, ..] => Some(*least),
    }
}

/// The lowest site that the transaction's call waits for.
fn waits_at(t: &Live) -> Option<SiteId>
    ensures { result ≡ waits_at t.now }
{
    match &t.pending {
        None => None,
        Some(pending) => first_of(pending.as_ref().missing.as_slice()),
    }
}

impl Coordinator {
    fn time_out(&mut self, id: SiteId, t: &mut Live) -> Result<(), NoMemory>
        ensures { OnOk result (self.new ≡ timed_out id t.old self.old) }
    {
        match waits_at(t) {
            None => Ok(()),
            Some(at) => self.close(id, t, Ending::TimedOut { at }),
        }
    }

    fn time_out_each(&mut self, id: SiteId, late: &mut [Live]) -> Result<(), NoMemory>
        ensures { OnOk result (self.new ≡ for_each late.old (timed_out id) self.old) }
    {
        for t in late.iter_mut() {
            self.time_out(id, t)?;
        }
        Ok(())
    }

    /// Aborts each transaction whose call was pending at the tick before, and marks the other pending calls. After want of memory what
    /// is lent may be changed in part: drop it.
    pub fn time_out_calls(&mut self, id: SiteId) -> Result<(), NoMemory>
        ensures { OnOk result (self.new ≡ time_out_calls id self.old) }
    {
        let mut late = self.transactions.late()?;
        self.time_out_each(id, &mut late)?;
        self.transactions.mark();
        Ok(())
    }

    /// Aborts these transactions, since the site leaves their view.
    fn abort_each(&mut self, id: SiteId, mut live: LiveTxns) -> Result<(), NoMemory>
        ensures { OnOk result (self.new ≡
            close_all id (λ t. ending.ViewChanged id t.view None) live self.old) }
    {
        while let Some(mut t) = live.take_first() {
            let why = Ending::ViewChanged {
                at: id,
                held: t.view,
                now: None,
            };
            self.close(id, &mut t, why)?;
        }
        Ok(())
    }

    /// Aborts each live transaction, since the site leaves its view. After want of memory what is lent may be changed in part: drop it.
    #[tactic(auto, using(crate::proofs::Ends::all_left))]
    pub fn abandon(&mut self, id: SiteId) -> Result<(), NoMemory>
        ensures { OnOk result (self.new ≡ abandon id self.old) }
    {
        let live = self.transactions.take_all();
        self.abort_each(id, live)
    }
}
