//! What comes to a site, what a site gives, and the events and lines of a schedule.

ghost use Rattle.std.specs.Prelude.{◌≡◌, [], OnOk};
ghost use Rattle.vp_base.specs.Effects.{with_entry, with_commit, with_reply, with_message, with_messages};

use crate::answer::{Answer, Reply};
use crate::entry::{Commit, LogRecord};
use crate::ids::{CallNo, SiteId, TxnId};
use crate::lists::{Batch, Commits, Messages, Replies};
use crate::memory::NoMemory;
use crate::message::{Message, Sent};
use crate::seq::CopyOf;
use crate::table::Table;
use crate::text::Name;
use crate::value::Value;
use std::alloc::Global;

/// What a client asks of a site. The calls of a transaction are numbered from 1.
#[derive(Drop)]
pub enum Call {
    /// Begins a transaction in the site's view.
    Begin,
    /// Has the site invite all sites to a new view.
    Regroup,
    /// Reads a record.
    Read {
        txn: TxnId,
        number: CallNo,
        name: Name,
    },
    /// Writes a record.
    Write {
        txn: TxnId,
        number: CallNo,
        name: Name,
        value: Value,
    },
    /// Commits the transaction.
    Commit {
        txn: TxnId,
        number: CallNo,
    },
    /// Aborts the transaction.
    Abort {
        txn: TxnId,
        number: CallNo,
    },
    /// Deletes a record: it has no value after that, until it is written again.
    Delete {
        txn: TxnId,
        number: CallNo,
        name: Name,
    },
    /// Gives the copies of a record other weights.
    Weigh {
        txn: TxnId,
        number: CallNo,
        name: Name,
        table: Table,
    },
}

/// One input of a site.
#[derive(Drop)]
pub enum Input {
    /// The call of a client at the port `from`.
    Call { from: u16, call: Call },
    /// A message from another site.
    Message { from: SiteId, message: Message },
    /// Time has passed: the site fixes the view that it invites to, closes calls that were pending at the tick before, and sends
    /// again.
    Tick,
    /// The site sends a probe to each other site, or invites to a new view where the sites heard since its last probes aren't the
    /// members.
    Probe,
}

/// An event of a schedule: what happens next.
#[derive(Drop)]
pub enum Event {
    /// A client calls a site.
    Call { site: SiteId, call: Call },
    /// The message that was sent as number `k` is delivered, where the first one of the run has number 1. It may be delivered
    /// again.
    Deliver { k: u32 },
    /// Up to `count` messages are delivered, each for the first time.
    Flow { count: u32 },
    /// A site's clock ticks.
    Tick { site: SiteId },
    /// A site probes the others.
    Probe { site: SiteId },
    /// From here on nothing is delivered between the sites `a` and `b`, until a heal.
    Cut { a: SiteId, b: SiteId },
    /// The cut between the sites `a` and `b` ends.
    Heal { a: SiteId, b: SiteId },
    /// A site crashes: it keeps only what is in its log.
    Crash { site: SiteId },
    /// A site that is down starts again from its log.
    Restart { site: SiteId },
}

/// What a step gives. The log records are synced before a message or a reply leaves the site. After want of memory only part of
/// what a method appends may be there, so drop the effects then.
#[derive(Drop)]
pub struct Effects {
    pub records: Batch,
    pub commits: Commits,
    pub messages: Messages,
    pub replies: Replies,
}

impl Effects {
    /// Makes effects that are empty.
    pub fn none(alloc: Global) -> Effects
        ensures { result ≡ record { records = []; commits = []; messages = []; replies = [] } }
    {
        Effects {
            records: Batch::new(alloc),
            commits: Commits::new(alloc),
            messages: Messages::new(alloc),
            replies: Replies::new(alloc),
        }
    }

    /// Adds a log record that is to be forced.
    pub fn force(&mut self, entry: LogRecord) -> Result<(), NoMemory>
        ensures { OnOk result (self.new ≡ with_entry entry self.old) }
    {
        self.records.push(entry)
    }

    /// Adds a committed transaction.
    pub fn commit(&mut self, commit: Commit) -> Result<(), NoMemory>
        ensures { OnOk result (self.new ≡ with_commit commit self.old) }
    {
        self.commits.push(commit)
    }

    /// Adds an answer to the client at the port.
    pub fn reply(&mut self, to: u16, answer: Answer) -> Result<(), NoMemory>
        ensures { OnOk result (self.new ≡ with_reply answer to self.old) }
    {
        self.replies.push(Reply { to, answer })
    }

    /// Adds a message from one site to another.
    pub fn send(&mut self, from: SiteId, to: SiteId, message: Message) -> Result<(), NoMemory>
        ensures { OnOk result (self.new ≡ with_message from message to self.old) }
    {
        self.messages.push(Sent { from, to, message })
    }

    /// Adds the same message to each of the sites, in order.
    pub fn send_all(
        &mut self,
        from: SiteId,
        sites: &[SiteId],
        message: &Message,
    ) -> Result<(), NoMemory>
        ensures { OnOk result (self.new ≡ with_messages from message.now sites.now self.old) }
    {
        for site in sites {
            self.send(from, *site, message.copy_of()?)?;
        }
        Ok(())
    }
}

/// What a limit of a world counts: its steps, or the messages that are sent in it.
#[derive(Clone, Copy, Debug, Drop, PartialEq, Eq)]
pub enum Counted {
    /// Steps: each event but a flow, and each delivery of a flow.
    Steps,
    /// Messages that were sent, delivered or not.
    Messages,
}

/// What the trace prints under an event.
#[derive(Drop)]
pub enum Shown {
    /// A site has done a step and given this. `first` is the number of the first of its messages.
    Step {
        commits: Commits,
        first: u32,
        messages: Messages,
        replies: Replies,
    },
    /// The event has happened, and nothing more is to be printed of it.
    Nothing,
    /// No message with that number has been sent.
    NoMessage,
    /// The site is down, so that nothing happens.
    Down {
        site: SiteId,
    },
    /// The two sites are cut off from each other, so that nothing is delivered.
    Parted {
        from: SiteId,
        to: SiteId,
    },
    /// The site that was to restart is up already.
    Up {
        site: SiteId,
    },
    /// The site has started in a new life, with this number.
    Life {
        life: u32,
    },
    /// The site can't start again: the last number of a life has been given.
    LivesSpent {
        life: u32,
    },
}

/// An event with what the trace prints under it.
pub struct Line {
    pub event: Event,
    pub shown: Shown,
}

impl Drop for Line {
    fn drop(self) {
        let Line { event: _, shown: _ } = self;
    }
}
