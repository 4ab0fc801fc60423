//! A disk in memory, with what a stop may leave of it.

ghost use Rattle.std.specs.Prelude.{◌≡◌, ◌∷◌, [], ◌+◌, ◌≤◌, ◌^◌, IfOk, IsTrue, OnErr, OnOk, length, true};
ghost use Rattle.vp_disks.specs.Changes.{asked_of, changes_of, content_of};
ghost use Rattle.vp_outside.specs.Disk.{half_of};
ghost use Rattle.vp_disks.specs.Images.{LeavesImages};
ghost use Rattle.vp_disks.specs.declared.changes.Change.TheVariants.{Attached, Wrote, Cut, Synced, Laid};

use crate::log_bytes::LogBytes;
use crate::sure_disk::SureDisk;
use std::alloc::Global;
use std::marker::Model;
use vp_base::{NoMemory, Word};

/// The disks that a stop may leave: one with all that was done, and one with each log as it was last synced. Their own records have
/// only calls that laid logs.
#[derive(Drop)]
pub struct Images {
    pub late: SureDisk,
    pub synced: SureDisk,
}

impl Images {
    ghost use Rattle.vp_disks.specs.ImagedDisks.{Mirror};

    fn laid(late: &SureDisk, synced: &SureDisk) -> Result<Images, NoMemory>
        ensures { IfOk result
            (λ images. LeavesImages true late.now images.late × LeavesImages true synced.now images.synced) }
    {
        Ok(Images {
            late: late.laid()?,
            synced: synced.laid()?,
        })
    }

    /// Changes the images as attaching the log of this name does.
    fn attach_log(&mut self, name: &Word) -> Result<(), NoMemory>
        ensures { OnOk result (Mirror (Attached name.now) self.old self.new) }
    {
        self.late.attach_log(name)?;
        self.synced.attach_log(name)?;
        Ok(())
    }

    /// Changes the images as writing the piece does.
    fn write_piece(&mut self, half: u8, at: u64, piece: &[u8]) -> Result<(), NoMemory>
        requires { at + length piece.now ≤ 2 ^ 62 }
        ensures { OnOk result (Mirror (Wrote half at piece.now) self.old self.new) }
    {
        self.late.write_piece(half, at, piece)?;
        self.late = self.late.laid()?;
        Ok(())
    }

    /// Changes the images as cutting the half does.
    fn cut_half(&mut self, half: u8, length: u64) -> Result<(), NoMemory>
        ensures { OnOk result (Mirror (Cut half length) self.old self.new) }
    {
        self.late.cut_half(half, length)?;
        self.late = self.late.laid()?;
        Ok(())
    }

    /// Changes the images as syncing the attached log does.
    fn mark_synced(&mut self) -> Result<(), NoMemory>
        ensures { OnOk result (Mirror Synced self.old self.new) }
    {
        self.synced.lay_alone(self.late.attached_log())?;
        Ok(())
    }

    /// Changes the images as laying this log does.
    fn lay(&mut self, log: &LogBytes) -> Result<(), NoMemory>
        ensures { OnOk result (Mirror (Laid log.now.0 log.now.1) self.old self.new) }
    {
        self.late.lay_alone(log)?;
        self.synced.lay_alone(log)?;
        Ok(())
    }
}

/// A disk in memory that fails only for want of memory. Each call that changes it makes its images first, so that a stop needs no
/// memory.
pub struct ImagedDisk {
    disk: SureDisk,
    images: Option<Images>,
}

impl Drop for ImagedDisk {
    fn drop(self) {
        let ImagedDisk { disk: _, images: _ } = self;
    }
}

impl Model for ImagedDisk {
    ghost use Rattle.std.specs.Prelude.{List};
    ghost use Rattle.vp_disks.specs.declared.changes.Change.{Change};
    ghost use Rattle.vp_disks.specs.ImagedDisks.{KeepsImages};

    ghost Value = { List Change };

    ghost view = { λ d. d.disk };

    ghost invariant = { λ d. KeepsImages d.disk d.images };
}

impl ImagedDisk {
    ghost use Rattle.vp_disks.specs.ImagedDisks.{AreImages};

    /// Makes a disk with an empty log attached, which has no name.
    pub fn new(alloc: Global) -> ImagedDisk
        ensures { result ≡ [] }
    {
        ImagedDisk {
            disk: SureDisk::new(alloc),
            images: None,
        }
    }

    /// The bytes of a half of the attached log.
    pub fn half(&self, half: u8) -> &[u8]
        ensures { result.now ≡ half_of half (content_of (changes_of (asked_of self.now) self.now)) }
    {
        self.disk.half(half)
    }

    /// A copy of both images.
    fn images(&self) -> Result<Images, NoMemory>
        ensures { IfOk result (AreImages self.now) }
    {
        match &self.images {
            None => Images::laid(&self.disk, &self.disk),
            Some(images) => Images::laid(&images.late, &images.synced),
        }
    }

    /// Attaches the log of this name.
    pub fn attach_log(&mut self, name: &Word) -> Result<(), NoMemory>
        ensures ok { OnOk result (self.new ≡ Attached name.now ∷ self.old) }
        ensures err { OnErr result (self.new ≡ self.old) }
    {
        let mut images = self.images()?;
        images.attach_log(name)?;
        self.disk.attach_log(name)?;
        self.images = Some(images);
        Ok(())
    }

    /// Writes the piece from the byte `at` of the half on.
    pub fn write_piece(&mut self, half: u8, at: u64, piece: &[u8]) -> Result<(), NoMemory>
        requires { at + length piece.now ≤ 2 ^ 62 }
        ensures ok { OnOk result (self.new ≡ Wrote half at piece.now ∷ self.old) }
        ensures err { OnErr result (self.new ≡ self.old) }
    {
        let mut images = self.images()?;
        images.write_piece(half, at, piece)?;
        self.disk.write_piece(half, at, piece)?;
        self.images = Some(images);
        Ok(())
    }

    /// Cuts the half to this length.
    pub fn cut_half(&mut self, half: u8, length: u64) -> Result<(), NoMemory>
        ensures ok { OnOk result (self.new ≡ Cut half length ∷ self.old) }
        ensures err { OnErr result (self.new ≡ self.old) }
    {
        let mut images = self.images()?;
        images.cut_half(half, length)?;
        self.disk.cut_half(half, length)?;
        self.images = Some(images);
        Ok(())
    }

    /// Marks both halves of the attached log as synced.
    pub fn mark_synced(&mut self) -> Result<(), NoMemory>
        ensures ok { OnOk result (self.new ≡ Synced ∷ self.old) }
        ensures err { OnErr result (self.new ≡ self.old) }
    {
        let mut images = self.images()?;
        images.mark_synced()?;
        self.disk.mark_synced()?;
        self.images = Some(images);
        Ok(())
    }

    /// Replaces the halves of the attached log by these, as synced.
    pub fn lay(&mut self, first: Vec<u8>, second: Vec<u8>) -> Result<(), NoMemory>
        ensures ok { OnOk result (self.new ≡ Laid first.items second.items ∷ self.old) }
        ensures err { OnErr result (self.new ≡ self.old) }
    {
        let laid = LogBytes::of_halves(first, second);
        let mut images = self.images()?;
        images.lay(&laid)?;
        self.disk.lay_copy(&laid)?;
        self.images = Some(images);
        Ok(())
    }

    /// Replaces the disk by one of its images: where `late`, the one with all that was done, else the one with each log as it was
    /// last synced.
    pub fn leave(&mut self, late: bool)
        ensures { LeavesImages late self.old self.new }
    {
        if let Some(images) = self.images.take() {
            let Images { late: all, synced } = images;
            self.disk = if late { all } else { synced };
        }
    }
}
