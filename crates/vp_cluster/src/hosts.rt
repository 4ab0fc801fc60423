//! The hosts of a cluster, each found by its port.

ghost use Rattle.std.specs.Prelude.{◌≡◌, ◌==◌, ◌<◌, IfOk, IfSome, length, map};
ghost use Rattle.std.specs.List.{position};
ghost use Rattle.vp_cluster.specs.Hosts.{Takes, Crashes, Restarts, Stops, site_log};
ghost use Rattle.vp_cluster.specs.Letter.{as_received};
ghost use Rattle.vp_cluster.specs.Stops.{is_kept};
ghost use Rattle.vp_cluster.specs.Ports.{AreBegun, AreHosts, HasHost, LendsAt, ChangesAt, ChangesOf};
ghost use Rattle.vp_node.specs.Taking.{AreFrames};
ghost use Rattle.vp_world.specs.Asked.{IfStarted};

use crate::host::{Host, Logs, SiteLog, StoppedLog};
use crate::letter::Letter;
use crate::stopping::Stop;
use std::alloc::Global;
use std::marker::Model;
use vp_base::{NoMemory, SiteId};
use vp_catalog::Catalog;
use vp_node::TurnEffects;
use vp_site::{Site, StartFault};

/// The hosts of a catalogue: one for each of its sites, found by its port.
pub struct Hosts {
    catalog: Catalog,
    items: Vec<Host>,
}

impl Drop for Hosts {
    fn drop(self) {
        let Hosts {
            catalog: _,
            items: _,
        } = self;
    }
}

impl Model for Hosts {
    ghost use Rattle.vp_cluster.specs.Ports.{AreHosts, HostsValue};

    ghost Value = { HostsValue };

    ghost view = { λ h. record { catalogue = h.catalog; hosts = h.items.items } };

    ghost invariant = { λ h. AreHosts h.catalog h.items.items };
}

/// Starts a host for each site of the catalogue, in its first life.
fn begin_all(catalog: &Catalog) -> Result<Vec<Host>, NoMemory>
    ensures { IfOk result (λ hosts. AreBegun catalog.now hosts.items) }
{
    let mut hosts = Vec::new(catalog.sites().allocator());
    for (id, port) in catalog.ports() {
        hosts.push(Host::begin(catalog, *id, *port)?)?;
    }
    Ok(hosts)
}

fn index_of(hosts: &[Host], port: u16) -> Option<usize>
    ensures place { result ≡ position (λ host. host.port == port) hosts.now }
    ensures within { IfSome result (λ i. i < length hosts.now) }
{
    hosts.iter().position(|host| host.port() == port)
}

/// Copies the logs on the disks of the hosts.
fn logs_of(alloc: Global, hosts: &[Host]) -> Result<Vec<SiteLog>, NoMemory>
    ensures { IfOk result (λ logs. logs.items ≡ map site_log hosts.now) }
{
    let mut logs = Vec::new(alloc);
    for host in hosts {
        logs.push(host.log(alloc)?)?;
    }
    Ok(logs)
}

impl Hosts {
    /// Starts a host for each site of the catalogue, in its first life.
    pub fn begin(catalog: Catalog) -> Result<Hosts, NoMemory>
        ensures begun { IfOk result (λ it. AreBegun catalog it.hosts) }
        ensures catalogue { IfOk result (λ it. it.catalogue ≡ catalog) }
        ensures hosts { IfOk result (λ it. AreHosts it.catalogue it.hosts) }
    {
        Ok(Hosts {
            items: begin_all(&catalog)?,
            catalog,
        })
    }

    /// The catalogue of the hosts.
    pub fn catalog(&self) -> &Catalog
        ensures { result.now ≡ self.now.catalogue }
    {
        &self.catalog
    }

    /// Copies the logs on the disks, ascending by site.
    pub fn logs(&self, alloc: Global) -> Result<Logs, NoMemory>
        ensures { IfOk result (λ logs. logs ≡ map site_log self.now.hosts) }
    {
        Ok(Logs::from_vec(logs_of(alloc, &self.items)?))
    }

    /// Does the turn of the letter at the host of its port, to which the site is lent.
    pub fn handle(&mut self, site: Site, letter: &Letter) -> Result<(Site, TurnEffects), NoMemory>
        requires { LendsAt self.old.catalogue site letter.now.to self.old.hosts }
        ensures takes { IfOk result
            (λ it. ChangesAt letter.now.to
            (λ host after. Takes self.old.catalogue (as_received letter.now) site host after it.0 it.1)
            self.old.hosts self.new.hosts) }
        ensures frames { IfOk result (λ it. AreFrames site.id it.1.effects) }
        ensures same { self.new.catalogue ≡ self.old.catalogue }
        ensures hosts { AreHosts self.new.catalogue self.new.hosts }
    {
        let Some(i) = index_of(&self.items, letter.to) else {
            unreachable!()
        };
        self.items[i].handle(&self.catalog, site, letter)
    }

    /// Stops the site, which is lent for the letter, within the append of its turn at the host of the letter's port.
    pub fn stop(
        &mut self,
        site: Site,
        letter: &Letter,
        stop: &Stop,
    ) -> Result<Option<StoppedLog>, NoMemory>
        requires { LendsAt self.old.catalogue site letter.now.to self.old.hosts }
        ensures stops { IfOk result
            (λ left. ChangesAt letter.now.to
            (λ host after. Stops self.old.catalogue (as_received letter.now) site host after left)
            self.old.hosts self.new.hosts) }
        ensures kept { IfOk result (λ left. IfSome left (λ it. it.kept ≡ is_kept stop.now)) }
        ensures same { self.new.catalogue ≡ self.old.catalogue }
        ensures hosts { AreHosts self.new.catalogue self.new.hosts }
    {
        let Some(i) = index_of(&self.items, letter.to) else {
            unreachable!()
        };
        self.items[i].stop(&self.catalog, site, letter, stop)
    }

    /// Crashes the host of the site.
    pub fn crash(&mut self, site: SiteId)
        ensures crashes { ChangesOf self.old.catalogue site (Crashes self.old.catalogue) self.old.hosts
            self.new.hosts }
        ensures same { self.new.catalogue ≡ self.old.catalogue }
        ensures hosts { AreHosts self.new.catalogue self.new.hosts }
    {
        let Some(port) = self.catalog.port(site) else {
            return;
        };
        if let Some(i) = index_of(&self.items, port) {
            self.items[i].crash(&self.catalog);
        }
    }

    /// Starts the site from the log of its host in its next life, and returns it.
    pub fn restart(&mut self, site: SiteId) -> Result<Site, StartFault>
        requires { HasHost self.old.catalogue site self.old.hosts }
        ensures restarts { IfStarted result
            (λ it. ChangesOf self.old.catalogue site (Restarts self.old.catalogue it) self.old.hosts
            self.new.hosts) }
        ensures same { self.new.catalogue ≡ self.old.catalogue }
        ensures hosts { AreHosts self.new.catalogue self.new.hosts }
    {
        let Some(port) = self.catalog.port(site) else {
            unreachable!()
        };
        let Some(i) = index_of(&self.items, port) else {
            unreachable!()
        };
        self.items[i].restart(&self.catalog)
    }
}
