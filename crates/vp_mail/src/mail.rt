//! The messages between the sites.

ghost use Rattle.std.specs.Prelude.{◌≡◌, ◌≤◌, ◌<◌, ◌+◌, ◌++◌, ◌∷◌, ℕ, [], OnOk, OnErr, IfOk, IsSome, Some, slice_index_or, nat_lt, map, length, take, if◌then◌else◌, option_copied};
ghost use Rattle.vp_model.specs.Words.{first};
ghost use Rattle.vp_mail.specs.Queues.{pair_of, waiting, AreBelow, AreSites, AreSited};
ghost use Rattle.vp_mail.specs.Posted.{message_in, post_messages, first_number};

use crate::kept::PackedMessage;
use crate::queue::Queue;
use std::alloc::Global;
use std::marker::Model;
use vp_base::{LAST_SITE, MOST_MESSAGES, Messages, NoMemory, Sent, SiteId};

/// How many sites there are at most: 16.
pub const SITES: usize = LAST_SITE as usize;

/// How many pairs of a sender and a receiver there are: 256.
pub const PAIRS: usize = SITES * SITES;

/// All messages that were sent, numbered from 1, and the numbers of those that were delivered. For each pair of a sender and a
/// receiver there is a queue of its messages that were never delivered. The first numbers of all queues are next to each other in
/// memory, for a walk over the pairs.
pub struct Mail {
    sent: Vec<PackedMessage>,
    delivered: Vec<u32>,
    queues: Vec<Queue>,
    firsts: Vec<Option<u32>>,
}

impl Drop for Mail {
    fn drop(self) {
        let Mail {
            sent: _,
            delivered: _,
            queues: _,
            firsts: _,
        } = self;
    }
}

impl Model for Mail {
    ghost use Rattle.std.specs.Prelude.{◌≡◌, map};
    ghost use Rattle.vp_model.specs.Words.{first};
    ghost use Rattle.vp_mail.specs.Posted.{Posted};
    ghost use Rattle.vp_mail.specs.Queues.{IsQueued};

    ghost Value = { Posted };

    ghost view = { λ m. record { sent = m.sent.items; delivered = m.delivered.items } };

    ghost invariant = { λ m. IsQueued m.queues.items m.sent.items m.delivered.items × (m.firsts.items ≡ map first m.queues.items) };
}

/// The place of the pair's queue.
fn pair_of(from: SiteId, to: SiteId) -> usize
    ensures pair { result ≡ pair_of from to }
    ensures within { result < 256 }
    ensures sites { AreSites from to }
{
    (usize::from(from.get()) - 1) * SITES + (usize::from(to.get()) - 1)
}

fn empty_queues(alloc: Global) -> Result<Vec<Queue>, NoMemory>
    ensures count { IfOk result (λ queues. length queues.items ≡ 256) }
    ensures each { IfOk result (λ queues. (pair : ℕ) → slice_index_or queues.items pair [] ≡ []) }
{
    let mut queues = Vec::new(alloc);
    for _ in 0..PAIRS {
        queues.push(Queue::none(alloc))?;
    }
    Ok(queues)
}

/// The first message of each queue.
fn firsts_of(alloc: Global, queues: &[Queue]) -> Result<Vec<Option<u32>>, NoMemory>
    ensures { IfOk result (λ firsts. firsts.items ≡ map first queues.now) }
{
    let mut firsts = Vec::new(alloc);
    for queue in queues {
        firsts.push(queue.first())?;
    }
    Ok(firsts)
}

/// Keeps the message, and appends its number to the queue. Where memory is lacking, both stay as they are.
fn post(sent: &mut Vec<PackedMessage>, queue: &mut Queue, message: Sent) -> Result<(), NoMemory>
    requires room { length sent.old.items < 2000000 }
    requires last { AreBelow (length sent.old.items + 1) queue.old }
    ensures sent { OnOk result (sent.new.items ≡ sent.old.items ++ message ∷ []) }
    ensures queue { OnOk result (queue.new ≡ queue.old ++ (length sent.old.items + 1) ∷ []) }
    ensures err { OnErr result ((sent.new.items ≡ sent.old.items) × (queue.new ≡ queue.old)) }
{
    let number = sent.len() as u32 + 1;
    sent.push(PackedMessage::new(*sent.allocator(), message)?)?;
    if let Err(e) = queue.push(number) {
        let _ = sent.pop();
        return Err(e);
    }
    Ok(())
}

impl Mail {
    /// Makes it with no messages.
    pub fn none(alloc: Global) -> Result<Mail, NoMemory>
        ensures { IfOk result (λ mail. mail ≡ record { sent = []; delivered = [] }) }
    {
        let queues = empty_queues(alloc)?;
        let firsts = firsts_of(alloc, &queues)?;
        Ok(Mail {
            sent: Vec::new(alloc),
            delivered: Vec::new(alloc),
            queues,
            firsts,
        })
    }

    /// How many messages were sent.
    pub fn count(&self) -> usize
        ensures { result ≡ length self.now.sent }
    {
        self.sent.len()
    }

    /// The lowest number of a message of the pair that was never delivered. The pair of a sender and a receiver has the place `16 *
    /// (sender - 1) + receiver - 1`.
    pub fn first_waiting(&self, pair: usize) -> Option<u32>
        requires { pair < 256 }
        ensures first { result ≡ first (waiting pair self.now.delivered 1 self.now.sent) }
        ensures sited { AreSited self.now.sent }
    {
        self.firsts[pair]
    }

    /// The message of this number, as it was sent; `None` where there is none.
    pub fn message(&self, k: u32) -> Option<&PackedMessage>
        ensures { option_copied result ≡ message_in k self.now.sent }
    {
        if k == 0 {
            return None;
        }
        self.sent.get(k as usize - 1)
    }

    /// Delivers message `k`; it may be delivered again. Where memory is lacking, the mail stays as it is.
    pub fn deliver(&mut self, k: u32) -> Result<(), NoMemory>
        requires { IsSome (message_in k self.old.sent) }
        ensures delivered { OnOk result
            (self.new ≡ record self.old { delivered = self.old.delivered ++ k ∷ [] }) }
        ensures err { OnErr result (self.new ≡ self.old) }
    {
        let Some(sent) = self.message(k) else {
            unreachable!()
        };
        let pair = pair_of(sent.from(), sent.to());
        self.delivered.push(k)?;
        let queue = &mut self.queues[pair];
        queue.take(k);
        self.firsts[pair] = queue.first();
        Ok(())
    }

    /// The number that the first of these messages would get; `None` where there would be more than 2,000,000 in all.
    pub fn first_number(&self, messages: &[Sent]) -> Option<u32>
        ensures { result ≡ first_number messages.now self.now.sent }
    {
        let count = self.sent.len();
        if messages.len() > MOST_MESSAGES as usize - count {
            return None;
        }
        Some(count as u32 + 1)
    }

    /// Sends the messages. After want of memory the first ones are sent, but not all.
    pub fn send(&mut self, messages: Messages) -> Result<(), NoMemory>
        requires { length self.old.sent + length messages ≤ 2000000 }
        ensures sent { OnOk result (self.new ≡ post_messages messages self.old) }
        ensures err { OnErr result
            ((n : ℕ) × (n < length messages) × (self.new ≡ post_messages (take n messages) self.old)) }
    {
        for message in messages.into_vec() {
            self.post(message)?;
        }
        Ok(())
    }

    fn post(&mut self, message: Sent) -> Result<(), NoMemory>
        requires { length self.old.sent < 2000000 }
        ensures sent { OnOk result (self.new ≡ post_messages (message ∷ []) self.old) }
        ensures err { OnErr result (self.new ≡ self.old) }
    {
        let pair = pair_of(message.from, message.to);
        let queue = &mut self.queues[pair];
        post(&mut self.sent, queue, message)?;
        if self.firsts[pair].is_none() {
            self.firsts[pair] = queue.first();
        }
        Ok(())
    }
}
