//! The messages of a pair of sites that were never delivered.

ghost use Rattle.std.specs.Prelude.{◌≡◌, ◌<◌, ◌++◌, ◌∷◌, [], None, IfSome, OnOk, OnErr, map, length, slice_index_or};
ghost use Rattle.vp_model.specs.Words.{first};
ghost use Rattle.vp_mail.specs.Queues.{without, undelivered_numbers, Rises, AreBelow, IsTrimmed};

use std::alloc::Global;
use std::collections::VecDeque;
use std::marker::Model;
use vp_base::NoMemory;

/// A message of the pair, by its number.
#[derive(Clone, Copy)]
struct Numbered {
    number: u32,
    delivered: bool,
}

/// The messages by ascending number. One that is delivered is marked; it leaves the queue once all before it, or all after it, are
/// delivered too.
#[derive(Drop)]
pub struct Queue {
    messages: VecDeque<Numbered>,
}

impl Model for Queue {
    ghost use Rattle.std.specs.Prelude.{ℕ, List};
    ghost use Rattle.vp_mail.specs.Queues.{undelivered_numbers, IsTrimmed};

    ghost Value = { List ℕ };

    ghost view = { λ q. undelivered_numbers q.messages.items };

    ghost invariant = { λ q. IsTrimmed q.messages.items };
}

impl Queue {
    /// Makes an empty queue. Takes no memory.
    pub fn none(alloc: Global) -> Queue
        ensures { result ≡ [] }
    {
        Queue {
            messages: VecDeque::new(alloc),
        }
    }

    /// The lowest number of a message that waits.
    pub fn first(&self) -> Option<u32>
        ensures { result ≡ first self.now }
    {
        self.messages.front().map(|m| m.number)
    }

    /// Appends a message, whose number is the highest so far. Where memory is lacking, the queue stays as it is.
    pub fn push(&mut self, number: u32) -> Result<(), NoMemory>
        requires { AreBelow number self.old }
        ensures ok { OnOk result (self.new ≡ self.old ++ number ∷ []) }
        ensures err { OnErr result (self.new ≡ self.old) }
    {
        self.messages.push_back(Numbered {
            number,
            delivered: false,
        })?;
        Ok(())
    }

    /// Notes that the message is delivered, for the first time or again, so that it waits no more.
    pub fn take(&mut self, number: u32)
        ensures { self.new ≡ without number self.old }
    {
        if let Some(place) = place_of(&self.messages, number) {
            self.messages[place].delivered = true;
            trim(&mut self.messages);
        }
    }
}

/// The place of the message in the queue. The first one is tried first, since flows deliver in order.
fn place_of(messages: &VecDeque<Numbered>, number: u32) -> Option<usize>
    requires { Rises 0 (map (λ m. m.number) messages.now.items) }
    ensures within { IfSome result (λ place. place < length messages.now.items) }
    ensures numbered { IfSome result
        (λ place. slice_index_or (map (λ m. m.number) messages.now.items) place number ≡ number) }
    ensures absent { result ≡ None →
        without number (undelivered_numbers messages.now.items) ≡ undelivered_numbers messages.now.items }
{
    if messages.front().is_some_and(|m| m.number == number) {
        return Some(0);
    }
    messages.binary_search_by_key(&number, |m| m.number).ok()
}

/// Removes the delivered messages at the front and at the end.
fn trim(messages: &mut VecDeque<Numbered>)
    requires { Rises 0 (map (λ m. m.number) messages.old.items) }
    ensures trimmed { IsTrimmed messages.new.items }
    ensures undelivered { undelivered_numbers messages.new.items ≡ undelivered_numbers messages.old.items }
{
    while messages.front().is_some_and(|m| m.delivered) {
        messages.pop_front();
    }
    while messages.back().is_some_and(|m| m.delivered) {
        messages.pop_back();
    }
}
