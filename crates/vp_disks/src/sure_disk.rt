//! A disk in memory that fails only for want of memory.

ghost use Rattle.std.specs.Prelude.{◌≡◌, ◌∷◌, [], ◌+◌, ◌≤◌, ◌^◌, IfOk, OnErr, OnOk, Some, length, true};
ghost use Rattle.std.specs.Io.{ReadsAtMost};
ghost use Rattle.vp_outside.specs.Disk.{half_of};
ghost use Rattle.vp_disks.specs.Changes.{asked_of, changes_of, content_of, state_after};
ghost use Rattle.vp_disks.specs.DiskLaws.{IsDisk-after};
ghost use Rattle.vp_disks.specs.Images.{LeavesImages};
ghost use Rattle.vp_disks.specs.NamedLogs.{laid_over};
ghost use Rattle.vp_disks.specs.declared.changes.Change.TheVariants.{Attached, Wrote, Cut, Synced, Laid};

use crate::change_list::ChangeList;
use crate::log_bytes::{LogBytes, NamedLog, fits, take_place};
use std::alloc::Global;
use std::marker::Model;
use vp_base::{NoMemory, Word};
use vp_outside::{Disk, Failed, OutFault, give};

/// A disk in memory that fails only for want of memory. Contracts know its logs, and it keeps a record of the calls that changed
/// them. It is made with an empty log attached, which has no name.
pub struct SureDisk {
    alloc: Global,
    unnamed: LogBytes,
    named: Vec<NamedLog>,
    place: Option<usize>,
    changes: ChangeList,
}

impl Drop for SureDisk {
    fn drop(self) {
        let SureDisk {
            alloc: _,
            unnamed: _,
            named: _,
            place: _,
            changes: _,
        } = self;
    }
}

impl Model for SureDisk {
    ghost use Rattle.std.specs.Prelude.{List, reverse};
    ghost use Rattle.vp_disks.specs.declared.changes.Change.{Change};
    ghost use Rattle.vp_disks.specs.NamedLogs.{Keeps};

    ghost Value = { List Change };

    ghost view = { λ disk. reverse disk.changes };

    ghost invariant = { λ disk. Keeps disk.unnamed disk.named.items disk.place (reverse disk.changes) };
}

impl SureDisk {
    /// Makes the disk, with an empty log attached.
    pub fn new(alloc: Global) -> SureDisk
        ensures { result ≡ [] }
    {
        SureDisk {
            alloc,
            unnamed: LogBytes::new(alloc),
            named: Vec::new(alloc),
            place: None,
            changes: ChangeList::new(alloc),
        }
    }

    /// Makes a disk whose attached log has these halves, as if they had always been there.
    pub fn holding(alloc: Global, first: Vec<u8>, second: Vec<u8>) -> Result<SureDisk, NoMemory>
        ensures { IfOk result (λ disk. disk ≡ Laid first.items second.items ∷ []) }
    {
        let mut disk = SureDisk::new(alloc);
        disk.lay(first, second)?;
        Ok(disk)
    }

    /// The bytes of a half of the attached log.
    pub fn half(&self, half: u8) -> &[u8]
        ensures { result.now ≡ half_of half (content_of (changes_of (asked_of self.now) self.now)) }
    {
        self.attached_log().half(half)
    }

    // The methods below do what the calls of a disk do, and add that to the record. They add it first, and take it back where there is
    // no memory to do it.

    pub(crate) fn attach_log(&mut self, name: &Word) -> Result<(), NoMemory>
        ensures ok { OnOk result (self.new ≡ Attached name.now ∷ self.old) }
        ensures err { OnErr result (self.new ≡ self.old) }
    {
        self.changes.attached(name.as_slice())?;
        match take_place(self.alloc, &mut self.named, name) {
            Ok(place) => {
                self.place = Some(place);
                Ok(())
            }
            Err(lack) => {
                self.changes.take_back();
                Err(lack)
            }
        }
    }

    pub(crate) fn write_piece(&mut self, half: u8, at: u64, piece: &[u8]) -> Result<(), NoMemory>
        requires { at + length piece.now ≤ 2 ^ 62 }
        ensures ok { OnOk result (self.new ≡ Wrote half at piece.now ∷ self.old) }
        ensures err { OnErr result (self.new ≡ self.old) }
    {
        self.changes.wrote(half, at, piece)?;
        let written = match self.place {
            None => self.unnamed.write_at(half, at, piece),
            Some(place) => self.named[place].log.write_at(half, at, piece),
        };
        if written.is_err() {
            self.changes.take_back();
        }
        written
    }

    pub(crate) fn cut_half(&mut self, half: u8, length: u64) -> Result<(), NoMemory>
        ensures ok { OnOk result (self.new ≡ Cut half length ∷ self.old) }
        ensures err { OnErr result (self.new ≡ self.old) }
    {
        self.changes.cut(half, length)?;
        match self.place {
            None => self.unnamed.cut(half, length),
            Some(place) => self.named[place].log.cut(half, length),
        }
        Ok(())
    }

    pub(crate) fn mark_synced(&mut self) -> Result<(), NoMemory>
        ensures ok { OnOk result (self.new ≡ Synced ∷ self.old) }
        ensures err { OnErr result (self.new ≡ self.old) }
    {
        self.changes.synced()
    }

    /// Replaces the halves of the attached log by these, as if they had always been there.
    pub fn lay(&mut self, first: Vec<u8>, second: Vec<u8>) -> Result<(), NoMemory>
        ensures ok { OnOk result (self.new ≡ Laid first.items second.items ∷ self.old) }
        ensures err { OnErr result (self.new ≡ self.old) }
    {
        self.changes.laid(&first, &second)?;
        let laid = LogBytes::of_halves(first, second);
        match self.place {
            None => self.unnamed = laid,
            Some(place) => self.named[place].log = laid,
        }
        Ok(())
    }

    pub(crate) fn lay_copy(&mut self, log: &LogBytes) -> Result<(), NoMemory>
        ensures ok { OnOk result (self.new ≡ Laid log.now.0 log.now.1 ∷ self.old) }
        ensures err { OnErr result (self.new ≡ self.old) }
    {
        let alloc = self.alloc;
        self.lay(log.half(0).to_vec(alloc)?, log.half(1).to_vec(alloc)?)
    }

    pub(crate) fn attached_log(&self) -> &LogBytes
        ensures { result.now ≡ content_of (changes_of (asked_of self.now) self.now) }
    {
        match self.place {
            None => &self.unnamed,
            Some(place) => &self.named[place].log,
        }
    }

    /// A disk with the same logs, as if they had always been there.
    pub(crate) fn laid(&self) -> Result<SureDisk, NoMemory>
        ensures { IfOk result (LeavesImages true self.now) }
    {
        let mut disk = SureDisk::new(self.alloc);
        disk.lay_copy(&self.unnamed)?;
        let Some(place) = self.place else {
            return Ok(disk);
        };
        disk.lay_named(&self.named)?;
        disk.attach_log(&self.named[place].name)?;
        Ok(disk)
    }

    /// Gives the attached log a copy of this one, and starts the record again from the logs as they are then.
    pub(crate) fn lay_alone(&mut self, log: &LogBytes) -> Result<(), NoMemory>
        ensures { OnOk result (LeavesImages true (Laid log.now.0 log.now.1 ∷ self.old) self.new) }
    {
        self.lay_copy(log)?;
        *self = self.laid()?;
        Ok(())
    }

    // Gives each named log a copy of these. Of two with one name the first one counts, so it is laid last.
    fn lay_named(&mut self, logs: &[NamedLog]) -> Result<(), NoMemory>
        ensures { OnOk result (self.new ≡ laid_over logs.now self.old) }
    {
        for kept in logs.iter().rev() {
            self.attach_log(&kept.name)?;
            self.lay_copy(&kept.log)?;
        }
        Ok(())
    }
}

impl Disk for SureDisk {
    ghost state = { λ disk. state_after disk true 0 };

    ghost is_disk = { λ disk. IsDisk-after disk true 0 };

    fn faults(&self) -> u64 {
        0
    }

    fn attach(&mut self, name: &Word) -> Result<(), OutFault> {
        Ok(self.attach_log(name)?)
    }

    fn length(&mut self, half: u8) -> Result<u64, Failed> {
        Ok(self.half(half).len() as u64)
    }

    fn read(&mut self, half: u8, at: u64, buf: &mut [u8]) -> Result<usize, Failed> {
        Ok(give(self.half(half), at, buf))
    }

    fn write_at(&mut self, half: u8, at: u64, piece: &[u8]) -> Result<(), OutFault> {
        if !fits(at, piece) {
            return Err(OutFault::NoMemory);
        }
        Ok(self.write_piece(half, at, piece)?)
    }

    fn cut(&mut self, half: u8, length: u64) -> Result<(), OutFault> {
        Ok(self.cut_half(half, length)?)
    }

    fn sync(&mut self) -> Result<(), OutFault> {
        Ok(self.mark_synced()?)
    }
}
