//! The letters that were sent.

ghost use Rattle.std.specs.Prelude.{◌≡◌, ◌≤◌, ◌<◌, ◌+◌, ◌++◌, [], OnOk, length, drop, map, flat_map};
ghost use Rattle.std.specs.List.{AllByRecursion};
ghost use Rattle.vp_cluster.specs.Letters.{in_order, sent_from, start_in, AreInOrder};
ghost use Rattle.vp_laws.specs.ShapeLaws.{message_frame};
ghost use Rattle.vp_runs.specs.Turns.{message_datagram};
ghost use Rattle.vp_wire.specs.Grammar.{IsFrame};

use crate::letter::Letter;
use bytes::BytesMut;
use std::alloc::Global;
use std::marker::Model;
use vp_base::{NoMemory, Sent};
use vp_catalog::Catalog;
use vp_wire::encode_message;

/// A letter whose bytes are among others, from this index to that of the next letter.
#[derive(Clone, Copy)]
struct LetterSpan {
    from: u16,
    to: u16,
    start: usize,
}

/// The letters that were sent, in order. Their bytes are side by side, since a schedule may send 2,000,000 of them, most of which are
/// short.
pub struct SentLetters {
    bytes: BytesMut,
    filed: Vec<LetterSpan>,
}

impl Drop for SentLetters {
    fn drop(self) {
        let SentLetters { bytes: _, filed: _ } = self;
    }
}

impl Model for SentLetters {
    ghost use Rattle.std.specs.Prelude.{List, length};
    ghost use Rattle.vp_cluster.specs.Letter.{Letter};
    ghost use Rattle.vp_cluster.specs.Letters.{letters_in, AreInOrder};

    ghost Value = { List Letter };

    ghost view = { λ l. letters_in l.bytes.items l.filed.items };

    ghost invariant = { λ l. AreInOrder (length l.bytes.items) l.filed.items };
}

/// The index where the bytes of the letters from this one in the list on begin; they end at `end`.
fn start_in(filed: &[LetterSpan], place: usize, end: usize) -> usize
    ensures { result ≡ start_in end (drop place filed.now) }
{
    match filed.get(place) {
        Some(next) => next.start,
        None => end,
    }
}

/// The indices of the first byte of this letter in the list and of the first byte after it.
fn span(filed: &[LetterSpan], place: usize, end: usize) -> (usize, usize)
    requires order { AreInOrder end filed.now }
    requires at { place < length filed.now }
    ensures start { result.0 ≡ start_in end (drop place filed.now) }
    ensures end { result.1 ≡ start_in end (drop (place + 1) filed.now) }
    ensures within { (result.0 ≤ result.1) × (result.1 ≤ end) }
{
    (start_in(filed, place, end), start_in(filed, place + 1, end))
}

impl SentLetters {
    /// Begins with no letters.
    pub fn none(alloc: Global) -> SentLetters
        ensures { result ≡ [] }
    {
        SentLetters {
            bytes: BytesMut::new(alloc),
            filed: Vec::new(alloc),
        }
    }

    /// Adds the message's datagram, which is sent from this port, as the last letter; a message to a site that the catalogue lacks has
    /// none.
    fn put(&mut self, catalog: &Catalog, from: u16, sent: &Sent) -> Result<(), NoMemory>
        requires { IsFrame (message_frame sent.now) }
        ensures { OnOk result (self.new ≡ self.old ++ map (sent_from from) (message_datagram catalog.now sent.now)) }
    {
        let Some(to) = catalog.port(sent.to) else {
            return Ok(());
        };
        let start = self.bytes.len();
        encode_message(sent.from, sent.to, &sent.message, &mut self.bytes)?;
        self.filed.push(LetterSpan { from, to, start })?;
        Ok(())
    }

    /// Adds the datagrams of the messages, which are sent from this port, to the letters.
    pub fn put_all(
        &mut self,
        catalog: &Catalog,
        from: u16,
        messages: &[Sent],
    ) -> Result<(), NoMemory>
        requires { AllByRecursion (λ sent. IsFrame (message_frame sent)) messages.now }
        ensures { OnOk result (self.new ≡ self.old ++ map (sent_from from) (flat_map (message_datagram catalog.now) messages.now)) }
    {
        for sent in messages {
            self.put(catalog, from, sent)?;
        }
        Ok(())
    }

    /// Letter `k`, counted from 1; none where fewer were sent.
    pub fn letter(&self, k: u32) -> Option<Letter<'_>>
        ensures { result ≡ in_order k self.now }
    {
        if k == 0 {
            return None;
        }
        let filed = self.filed.get(k as usize - 1)?;
        let (start, end) = span(&self.filed, k as usize - 1, self.bytes.len());
        Some(Letter {
            from: filed.from,
            to: filed.to,
            bytes: &self.bytes[start..end],
        })
    }
}
