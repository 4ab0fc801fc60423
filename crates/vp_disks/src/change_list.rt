//! The record of a disk's changes.

ghost use Rattle.std.specs.Prelude.{◌≡◌, ◌-◌, ◌++◌, ◌∷◌, [], IfOk, OnErr, OnOk, length, take};
ghost use Rattle.vp_disks.specs.declared.changes.Change.TheVariants.{Attached, Wrote, Cut, Synced, Laid};

use std::alloc::Global;
use std::marker::Model;
use vp_base::NoMemory;

/// Where a piece is among the bytes of all: from the byte `start` up to the byte `end`.
#[derive(Clone, Copy)]
struct Span {
    start: usize,
    end: usize,
}

/// A change whose pieces are among the bytes of all.
#[derive(Clone, Copy)]
enum Entry {
    Attached(Span),
    Wrote { half: u8, at: u64, piece: Span },
    Cut { half: u8, length: u64 },
    Synced,
    Laid { first: Span, second: Span },
}

/// The calls that changed a disk, in order. The bytes of all their pieces are side by side, so that no change has an allocation of its
/// own.
pub struct ChangeList {
    bytes: Vec<u8>,
    entries: Vec<Entry>,
}

impl Drop for ChangeList {
    fn drop(self) {
        let ChangeList {
            bytes: _,
            entries: _,
        } = self;
    }
}

impl Model for ChangeList {
    ghost use Rattle.std.specs.Prelude.{All, List, length};
    ghost use Rattle.vp_disks.specs.declared.changes.Change.{Change};
    ghost use Rattle.vp_disks.specs.Entries.{changes_in, EndsBy};

    ghost Value = { List Change };

    ghost view = { λ list. changes_in list.bytes.items list.entries.items };

    ghost invariant = { λ list. All (EndsBy (length list.bytes.items)) list.entries.items };
}

/// Appends the piece to the bytes.
fn append(bytes: &mut Vec<u8>, piece: &[u8]) -> Result<Span, NoMemory>
    ensures span { IfOk result
        (λ span. span ≡ record { start = length bytes.old.items; end = length bytes.new.items }) }
    ensures ok { OnOk result (bytes.new.items ≡ bytes.old.items ++ piece.now) }
    ensures err { OnErr result (bytes.new.items ≡ bytes.old.items) }
{
    let start = bytes.len();
    bytes.extend_from_slice(piece)?;
    Ok(Span {
        start,
        end: bytes.len(),
    })
}

impl ChangeList {
    /// Begins with no changes.
    pub fn new(alloc: Global) -> ChangeList
        ensures { result ≡ [] }
    {
        ChangeList {
            bytes: Vec::new(alloc),
            entries: Vec::new(alloc),
        }
    }

    /// Takes the last change back, if there is one. Its bytes stay, and belong to no change.
    pub fn take_back(&mut self)
        ensures { self.new ≡ take (length self.old - 1) self.old }
    {
        self.entries.pop();
    }

    // The methods below add the change of their name. After an `Err` bytes may be left at the end that belong to no change.

    pub fn attached(&mut self, name: &[u8]) -> Result<(), NoMemory>
        ensures ok { OnOk result (self.new ≡ self.old ++ Attached name.now ∷ []) }
        ensures err { OnErr result (self.new ≡ self.old) }
    {
        let name = append(&mut self.bytes, name)?;
        self.entries.push(Entry::Attached(name))?;
        Ok(())
    }

    pub fn wrote(&mut self, half: u8, at: u64, piece: &[u8]) -> Result<(), NoMemory>
        ensures ok { OnOk result (self.new ≡ self.old ++ Wrote half at piece.now ∷ []) }
        ensures err { OnErr result (self.new ≡ self.old) }
    {
        let piece = append(&mut self.bytes, piece)?;
        self.entries.push(Entry::Wrote { half, at, piece })?;
        Ok(())
    }

    pub fn cut(&mut self, half: u8, length: u64) -> Result<(), NoMemory>
        ensures ok { OnOk result (self.new ≡ self.old ++ Cut half length ∷ []) }
        ensures err { OnErr result (self.new ≡ self.old) }
    {
        self.entries.push(Entry::Cut { half, length })?;
        Ok(())
    }

    pub fn synced(&mut self) -> Result<(), NoMemory>
        ensures ok { OnOk result (self.new ≡ self.old ++ Synced ∷ []) }
        ensures err { OnErr result (self.new ≡ self.old) }
    {
        self.entries.push(Entry::Synced)?;
        Ok(())
    }

    pub fn laid(&mut self, first: &[u8], second: &[u8]) -> Result<(), NoMemory>
        ensures ok { OnOk result (self.new ≡ self.old ++ Laid first.now second.now ∷ []) }
        ensures err { OnErr result (self.new ≡ self.old) }
    {
        let first = append(&mut self.bytes, first)?;
        let second = append(&mut self.bytes, second)?;
        self.entries.push(Entry::Laid { first, second })?;
        Ok(())
    }
}
