//! The nodes of all sites in one process. They do the steps of a world's sites, and what a step sends goes from node to node in
//! datagrams.

ghost use Rattle.std.specs.Prelude.{◌≡◌, IfOk, IfSome, Some, None, map};
ghost use Rattle.vp_laws.specs.ShapeLaws.{IsEvent};
ghost use Rattle.vp_cluster.specs.Hosts.{site_log};
ghost use Rattle.vp_cluster.specs.Letters.{letter_of};
ghost use Rattle.vp_cluster.specs.Ports.{LendsAt};
ghost use Rattle.vp_cluster.specs.Nodes.{Begin, StopsWith};
ghost use Rattle.vp_cluster.specs.Letter.{Letter};
ghost use Rattle.vp_cluster.specs.Stops.{is_kept};

use crate::host::{Logs, StoppedLog};
use crate::hosts::Hosts;
use crate::letter::Letter;
use crate::letters::{call_to, order_to};
use crate::sent_letters::SentLetters;
use crate::stopping::Stop;
use bytes::BytesMut;
use std::alloc::Global;
use std::marker::Model;
use vp_base::{Effects, Event, NoMemory, SiteId};
use vp_catalog::Catalog;
use vp_node::TurnEffects;
use vp_records::Durable;
use vp_site::{Site, StartFault};
use vp_wire::Body;
use vp_world::{LentInput, Stepper};

/// The hosts of the sites of a catalogue, and the letters of the messages that were sent, in order.
#[derive(Drop)]
pub struct Nodes {
    hosts: Hosts,
    letters: SentLetters,
    /// Room for the letter of a client.
    room: BytesMut,
}

impl Model for Nodes {
    ghost use Rattle.vp_cluster.specs.Ports.{AreHosts};
    ghost use Rattle.vp_cluster.specs.Nodes.{NodesValue};

    ghost Value = { NodesValue };

    ghost view = { λ n. record { catalogue = n.hosts.catalogue; hosts = n.hosts.hosts; letters = n.letters } };

    ghost invariant = { λ n. AreHosts n.hosts.catalogue n.hosts.hosts };
}

/// Makes the letter that the event brings to a site, if it brings one.
fn letter_of<'a>(
    catalog: &Catalog,
    letters: &'a SentLetters,
    room: &'a mut BytesMut,
    event: &Event,
) -> Result<Option<Letter<'a>>, NoMemory>
    requires { IsEvent event.now }
    ensures { IfOk result (λ letter. letter ≡ letter_of catalog.now letters.now event.now) }
{
    match event {
        Event::Call { site, call } => call_to(catalog, *site, call, room),
        Event::Deliver { k } => Ok(letters.letter(*k)),
        Event::Tick { site } => order_to(catalog, *site, Body::Tick, room),
        Event::Probe { site } => order_to(catalog, *site, Body::ProbeNow, room),
        _ => Ok(None),
    }
}

impl Nodes {
    /// Starts a node for each site of the catalogue, in its first life.
    pub fn begin(catalog: Catalog) -> Result<Nodes, NoMemory>
        ensures { IfOk result (Begin catalog) }
    {
        let alloc = catalog.sites().allocator();
        Ok(Nodes {
            hosts: Hosts::begin(catalog)?,
            letters: SentLetters::none(alloc),
            room: BytesMut::new(alloc),
        })
    }

    /// Copies the logs on the disks, ascending by site.
    pub fn logs(&self, alloc: Global) -> Result<Logs, NoMemory>
        ensures { IfOk result (λ logs. logs ≡ map site_log self.now.hosts) }
    {
        self.hosts.logs(alloc)
    }

    /// Does the event's step of the site, which is lent for it and stops within the append of its batch. Returns its log, and whether
    /// that has the batch; none where the step has no batch.
    pub fn stop(
        &mut self,
        event: &Event,
        site: Site,
        stop: &Stop,
    ) -> Result<Option<StoppedLog>, NoMemory>
        requires event { IsEvent event.now }
        requires lent { (letter : Letter) →
            letter_of self.old.catalogue self.old.letters event.now ≡ Some letter →
            LendsAt self.old.catalogue site letter.to self.old.hosts }
        ensures stops { IfOk result
            (λ left. (letter : Letter) →
            letter_of self.old.catalogue self.old.letters event.now ≡ Some letter →
            StopsWith letter site left self.old self.new) }
        ensures nothing { letter_of self.old.catalogue self.old.letters event.now ≡ None →
            IfOk result (λ left. (left ≡ None) × (self.new ≡ self.old)) }
        ensures kept { IfOk result (λ left. IfSome left (λ it. it.kept ≡ is_kept stop.now)) }
        ensures letters { self.new.letters ≡ self.old.letters }
        ensures same { self.new.catalogue ≡ self.old.catalogue }
    {
        match letter_of(self.hosts.catalog(), &self.letters, &mut self.room, event)? {
            None => Ok(None),
            Some(letter) => self.hosts.stop(site, &letter, stop),
        }
    }
}

impl Stepper for Nodes {
    ghost use Rattle.vp_cluster.specs.Nodes.{MayDo, Does};

    ghost may = { MayDo };

    ghost did = { Does };

    /// Brings the event's letter to the site.
    fn step(
        &mut self,
        _: &Catalog,
        event: &Event,
        site: Site,
        _: &LentInput,
    ) -> Result<(Site, Effects), NoMemory> {
        let letter = letter_of(self.hosts.catalog(), &self.letters, &mut self.room, event)?;
        let Some(letter) = letter else { unreachable!() };
        let from = letter.to;
        let (site, TurnEffects { effects, .. }) = self.hosts.handle(site, &letter)?;
        let messages = effects.messages.as_slice();
        self.letters.put_all(self.hosts.catalog(), from, messages)?;
        Ok((site, effects))
    }

    fn crash(&mut self, site: SiteId) {
        self.hosts.crash(site);
    }

    /// Starts the site from the log of its host.
    fn restart(&mut self, _: &Catalog, id: SiteId, _: &Durable) -> Result<Site, StartFault> {
        self.hosts.restart(id)
    }
}
