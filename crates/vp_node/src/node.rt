//! A node, and its turns.

ghost use Rattle.std.specs.Prelude.{◌≡◌, ◌⊎◌, ◌<◌, ◌^◌, ℕ, true, IfOk, IfSome, IsTrue, IsErrOf, OnErr};
ghost use Rattle.vp_model.specs.Words.{has};
ghost use Rattle.vp_model.specs.Catalogue.{sites_of};
ghost use Rattle.vp_outside.specs.Disk.{log_of, Steps};
ghost use Rattle.vp_stable.specs.Halves.{ReadAlike, AreBadLog};
ghost use Rattle.vp_stable.specs.Moments.{LeavesOnly, LeavesOthers};
ghost use Rattle.vp_node.specs.Keeping.{KeepsShort};
ghost use Rattle.vp_node.specs.Nodes.{IsNode, IsKept, Starts, MayStart, IsSpent, Gives, Turns, Saves, MaySave, turn_of};
ghost use Rattle.vp_runs.specs.Arrivals.{IsArrival};
ghost use Rattle.vp_runs.specs.Turns.{turn_on};
ghost use Rattle.vp_node.specs.Causes.{HasNodeCause, EndsInTurn};
ghost use Rattle.vp_node.specs.declared.end.NodeEnd.TheVariants as ends;
ghost use Rattle.vp_node.specs.Taking.{AreFrames, IsStepOf};

use crate::arrivals::arrival;
use crate::end::NodeEnd;
use crate::keeping::keep;
use crate::recording::arrival_line;
use crate::sending::datagrams_of;
use crate::starting::next_life;
use crate::taking::turn_on;
use crate::turned::{TurnEffects, Turned};
use std::marker::Model;
use vp_base::SiteId;
use vp_catalog::Catalog;
use vp_outside::Disk;
use vp_runs::Arrival;
use vp_site::Site;
use vp_stable::{Log, halves_are_one_log};

/// A site that is up, with its log.
#[derive(Drop)]
pub struct Node {
    site: Site,
    log: Log,
}

impl Model for Node {
    ghost use Rattle.vp_node.specs.Nodes.{NodeValue};

    ghost Value = { NodeValue };

    ghost view = { λ n. record { site = n.site; at = n.log } };
}

impl Node {
    /// Recovers the attached log, starts the site from it, and appends the start of its life. After a fault the log may have that start
    /// or not.
    pub fn start<D: Disk>(catalog: &Catalog, id: SiteId, disk: &mut D) -> Result<Node, NodeEnd>
        requires attached { IsTrue (D.state disk.old).attached }
        requires id { has (sites_of catalog.now) id ≡ true }

        ensures started { IfOk result
            (λ node. Starts catalog.now id node (D.state disk.old) (D.state disk.new)) }
        ensures node { IfOk result (λ node. IsNode catalog.now node) }
        ensures kept { IfOk result (λ node. IsKept catalog.now node (D.state disk.new)) }
        ensures lives { IfOk result (λ node. node.site.life < 2 ^ 32) }

        // Each other result has its cause.
        ensures bad_log { (half at : ℕ) → IsErrOf result (ends.BadLog half at) →
            IfSome (log_of (D.state disk.old)) (AreBadLog half at) }
        ensures lives_spent { (life : ℕ) → IsErrOf result (ends.LivesSpent life) →
            IsSpent catalog.now id life (D.state disk.old) }
        ensures unchanged { (half at life : ℕ) → IsErrOf result (ends.BadLog half at) ⊎ IsErrOf result (ends.LivesSpent life)
            → Steps ReadAlike (D.state disk.old) (D.state disk.new) }
        ensures still { (half at life : ℕ) → IsErrOf result (ends.BadLog half at) ⊎ IsErrOf result (ends.LivesSpent life)
            → (D.state disk.old).honest → IfSome (log_of (D.state disk.old)) (λ log.
            LeavesOnly (D.state disk.old) (D.state disk.new)
            (λ image. (D.state disk.old).may_leave (D.state disk.old).asked image ⊎ ReadAlike log image)) }
        ensures fault { OnErr result (Steps (MayStart catalog.now id) (D.state disk.old) (D.state disk.new)) }

        // A crash before the first sync leaves what it might have left before the call; a later one leaves the batches, with or without
        // the start, which comes only if a life was left.
        ensures any_moment { (D.state disk.old).honest → IfSome (log_of (D.state disk.old)) (λ log.
            LeavesOnly (D.state disk.old) (D.state disk.new)
            (λ image. (D.state disk.old).may_leave (D.state disk.old).asked image ⊎ MayStart catalog.now id log image)) }

        ensures others { LeavesOthers (D.state disk.old) (D.state disk.new) }
        ensures cause { HasNodeCause (D.state disk.old).faults (D.state disk.new).faults result }
    {
        halves_are_one_log();
        let (mut log, batches) = Log::recover(catalog.sites().allocator(), disk)?;
        let (site, begun) = next_life(catalog, id, &batches)?;
        log.append(disk, &begun)?;
        Ok(Node { site, log })
    }

    /// The number of the site's life, from 1 on, which its start forced to the log.
    pub fn life(&self) -> u32
        ensures { result ≡ self.now.site.life }
    {
        self.site.life()
    }

    /// Makes a node of a site that is up and its log.
    pub fn from_parts(site: Site, log: Log) -> Node
        ensures { result ≡ record { site = site; at = log } }
    {
        Node { site, log }
    }

    /// Takes the node apart, into its site and its log.
    pub fn into_parts(self) -> (Site, Log)
        ensures { result ≡ (self.site, self.at) }
    {
        (self.site, self.log)
    }

    /// Does the turn of what came. Its records are synced before it returns, and nothing is sent here. After a fault, or if memory runs
    /// out, the node is gone, as after a crash.
    pub fn handle<D: Disk>(
        self,
        catalog: &Catalog,
        disk: &mut D,
        what: Arrival,
    ) -> Result<(Node, TurnEffects), NodeEnd>
        requires attached { IsTrue (D.state disk.old).attached }
        requires node { IsNode catalog.now self }
        requires kept { IsKept catalog.now self (D.state disk.old) }
        requires what { IsArrival what }

        ensures took { IfOk result
            (λ it. Gives catalog.now self.site.id (turn_on catalog.now self.site what) it.0 it.1) }
        ensures frames { IfOk result (λ it. AreFrames self.site.id it.1.effects) }
        ensures stepped { IfOk result (λ it. IsStepOf catalog.now self.site what it.0.site it.1.effects) }
        ensures saved { IfOk result (λ it. Steps (Saves (turn_on catalog.now self.site what) self.at it.0.at)
            (D.state disk.old) (D.state disk.new)) }
        // Whatever the disk says, after a turn with records no checkpoint is due, unless the generation is the last.
        ensures short { IfOk result
            (λ it. KeepsShort (turn_on catalog.now self.site what).batch self.at it.0.at) }
        ensures node { IfOk result (λ it. IsNode catalog.now it.0) }
        ensures kept { IfOk result (λ it. IsKept catalog.now it.0 (D.state disk.new)) }
        ensures left { (D.state disk.old).honest →
            Steps (MaySave catalog.now self (turn_on catalog.now self.site what)) (D.state disk.old)
            (D.state disk.new) }
        ensures ends { EndsInTurn result }

        // A crash at any moment of the turn leaves the batches that were there, with or without the turn's, or their checkpoint: they
        // fold to the durable part of the site before the turn, or after it.
        ensures any_moment { (D.state disk.old).honest → IfSome (log_of (D.state disk.old)) (λ log.
            LeavesOnly (D.state disk.old) (D.state disk.new)
            (MaySave catalog.now self (turn_on catalog.now self.site what) log)) }

        ensures others { LeavesOthers (D.state disk.old) (D.state disk.new) }
        ensures cause { HasNodeCause (D.state disk.old).faults (D.state disk.new).faults result }
    {
        let (site, turn_effects) = turn_on(self.site, catalog, what)?;
        let mut log = self.log;
        keep(&mut log, disk, &site, &turn_effects.effects.records)?;
        Ok((Node { site, log }, turn_effects))
    }

    /// Does the turn of one datagram, and records it. Its records are synced before it returns, and nothing is sent here. After a fault,
    /// or if memory runs out, the node is gone, as after a crash.
    pub fn turn<D: Disk>(
        self,
        catalog: &Catalog,
        disk: &mut D,
        port: u16,
        bytes: &[u8],
    ) -> Result<(Node, Turned), NodeEnd>
        requires attached { IsTrue (D.state disk.old).attached }
        requires node { IsNode catalog.now self }
        requires kept { IsKept catalog.now self (D.state disk.old) }

        ensures turned { IfOk result
            (λ it. Turns catalog.now self (record { port = port; bytes = bytes.now }) it.0 it.1) }
        ensures saved { IfOk result (λ it. Steps (Saves (turn_of catalog.now self (record { port = port; bytes = bytes.now })) self.at it.0.at)
            (D.state disk.old) (D.state disk.new)) }
        // Whatever the disk says, after a turn with records no checkpoint is due, unless the generation is the last.
        ensures short { IfOk result
            (λ it. KeepsShort (turn_of catalog.now self (record { port = port; bytes = bytes.now })).batch
            self.at it.0.at) }
        ensures node { IfOk result (λ it. IsNode catalog.now it.0) }
        ensures kept { IfOk result (λ it. IsKept catalog.now it.0 (D.state disk.new)) }
        ensures fault { (D.state disk.old).honest → OnErr result (Steps (MaySave catalog.now self (turn_of catalog.now self (record { port = port; bytes = bytes.now })))
            (D.state disk.old) (D.state disk.new)) }
        ensures ends { EndsInTurn result }

        // A crash at any moment of the turn leaves the batches that were there, with or without the turn's, or their checkpoint: they
        // fold to the durable part of the site before the turn, or after it.
        ensures any_moment { (D.state disk.old).honest → IfSome (log_of (D.state disk.old)) (λ log.
            LeavesOnly (D.state disk.old) (D.state disk.new)
            (MaySave catalog.now self (turn_of catalog.now self (record { port = port; bytes = bytes.now })) log)) }

        ensures others { LeavesOthers (D.state disk.old) (D.state disk.new) }
        ensures cause { HasNodeCause (D.state disk.old).faults (D.state disk.new).faults result }
    {
        let alloc = catalog.sites().allocator();
        let id = self.site.id();
        let what = arrival(alloc, catalog, id, port, bytes)?;
        let line = arrival_line(alloc, bytes, &what)?;
        let (node, TurnEffects { effects, stop }) = self.handle(catalog, disk, what)?;
        let datagrams = datagrams_of(catalog, id, &effects)?;
        Ok((node, Turned::new(line, datagrams, stop)?))
    }
}
