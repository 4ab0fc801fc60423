//! After a stop: the site that stopped starts again from the log that it has left.

ghost use Rattle.std.specs.Prelude.{◌≡◌, ◌==◌, false};
ghost use Rattle.std.specs.Option.{option_map_or};

use vp_base::{Effects, Event, NoMemory, SiteId};
use vp_catalog::Catalog;
use vp_cluster::Nodes;
use vp_records::Durable;
use vp_site::{Site, StartFault};
use vp_world::{LentInput, PlainStepper, Stepper};

/// Who does the steps after a stop: the sites by themselves; but the one that stopped is started by its node, from the log that the stop
/// has left. From then on that site does its steps by itself too.
#[derive(Drop)]
pub struct AfterStop {
    pub nodes: Nodes,
    /// The site that stopped, until it starts.
    pub stopped: Option<SiteId>,
}

impl AfterStop {
    /// Whether this site stopped, and has not started since.
    fn waits(&self, id: SiteId) -> bool
        ensures { result ≡ option_map_or (λ stopped. stopped == id) self.now.stopped false }
    {
        match self.stopped {
            None => false,
            Some(stopped) => stopped == id,
        }
    }
}

impl Stepper for AfterStop {
    ghost use Rattle.vp_stopping.specs.AfterStop.{MayAfterStop, DoesAfterStop};

    ghost may = { MayAfterStop };

    ghost did = { DoesAfterStop };

    fn step(
        &mut self,
        catalog: &Catalog,
        event: &Event,
        site: Site,
        input: &LentInput,
    ) -> Result<(Site, Effects), NoMemory> {
        PlainStepper.step(catalog, event, site, input)
    }

    fn crash(&mut self, _: SiteId) {}

    fn restart(
        &mut self,
        catalog: &Catalog,
        id: SiteId,
        durable: &Durable,
    ) -> Result<Site, StartFault> {
        if self.waits(id) {
            self.stopped = None;
            self.nodes.restart(catalog, id, durable)
        } else {
            PlainStepper.restart(catalog, id, durable)
        }
    }
}
