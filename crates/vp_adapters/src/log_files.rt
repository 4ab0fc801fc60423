//! A disk over files.

ghost use Rattle.std.specs.Prelude.{◌≡◌, ◌≤◌, ◌+◌, ◌^◌, length, is_some, IfOk, IsErrOf, IsSome, None, Ok, OnOk, false};
ghost use Rattle.vp_outside.specs.Causes.{HasCause};
ghost use Rattle.vp_outside.specs.Disk.{CutTo, MaybeCut, Torn, Written};
ghost use Rattle.vp_outside.specs.DiskCalls.{Changes, Syncs};
ghost use Rattle.vp_outside.specs.declared.sink.OutFault.TheVariants.{NoMemory as OutOfMemory};
ghost use Rattle.vp_adapters.specs.Files.{of_files, IsDisk-of_files};

use std::fs::{File, Files, OpenOptions};
use std::io::ErrorKind;
use std::os::unix::fs::FileExt;
use std::path::Path;
use std::{io, str};
use vp_base::{NoMemory, Word};
use vp_outside::{Disk, Failed, OutFault};

/// The length in bytes beyond which no half is written.
const LONGEST: u64 = 1 << 62;

/// Which halves may have bytes that were never synced.
#[derive(Drop)]
struct Unsynced {
    first: bool,
    second: bool,
}

impl Unsynced {
    /// What an earlier process may have left: both halves are unsynced.
    fn both() -> Unsynced {
        Unsynced {
            first: true,
            second: true,
        }
    }

    /// Notes that a half is about to change.
    fn mark(&mut self, half: u8) {
        if half == 0 {
            self.first = true;
        } else {
            self.second = true;
        }
    }
}

/// The files of a log, open.
#[derive(Drop)]
struct Halves {
    first: File,
    second: File,
}

impl Halves {
    fn half(&self, half: u8) -> &File {
        if half == 0 { &self.first } else { &self.second }
    }

    /// Syncs the halves that may have changed.
    fn sync(&self, unsynced: &mut Unsynced) -> io::Result<()> {
        if unsynced.first {
            self.first.sync_all()?;
            unsynced.first = false;
        }
        if unsynced.second {
            self.second.sync_all()?;
            unsynced.second = false;
        }
        Ok(())
    }
}

/// A disk whose log NAME is the files NAME.0 and NAME.1. Its state says nothing of what they hold. While a log is attached both files are
/// locked, and no other disk can attach a log that has one of them.
#[derive(Drop)]
pub struct LogFiles<R> {
    files: R,
    asked: Option<Word>,
    halves: Option<Halves>,
    unsynced: Unsynced,
    faults: u64,
}

impl<R: Files<File = File>> LogFiles<R> {
    /// Makes a disk over the file system, with no log attached.
    pub fn new(files: R) -> LogFiles<R>
        ensures asked { (⟦<LogFiles<R> as Disk>⟧.state result).asked ≡ None }
        ensures attached { (⟦<LogFiles<R> as Disk>⟧.state result).attached ≡ false }
        ensures faults { (⟦<LogFiles<R> as Disk>⟧.state result).faults ≡ 0 }
    {
        LogFiles {
            files,
            asked: None,
            halves: None,
            unsynced: Unsynced::both(),
            faults: 0,
        }
    }

    /// Opens and locks the files of a log, and makes those that are missing. It fails where the lock of one is taken: by another process, or
    /// by the first one where both names are of one file. Their folder is synced at each call, since the process that made them may have been
    /// stopped before it was.
    fn open(&self, first: &[u8], second: &[u8]) -> io::Result<Halves> {
        let halves = Halves {
            first: self.open_half(first)?,
            second: self.open_half(second)?,
        };
        File::open(&self.files, folder_of(text(first)?))?.sync_all()?;
        Ok(halves)
    }

    /// Opens a regular file and locks it. The lock is freed when the file is closed, and when the process ends.
    fn open_half(&self, path: &[u8]) -> io::Result<File> {
        let file = OpenOptions::new()
            .read(true)
            .write(true)
            .create(true)
            .open(&self.files, text(path)?)?;
        if !file.metadata()?.is_file() {
            return Err(io::Error::from(ErrorKind::InvalidInput));
        }
        file.try_lock()?;
        Ok(file)
    }

    /// The attached file.
    fn half(&self, half: u8) -> &File
        requires { IsSome self.now.halves }
    {
        self.halves.as_ref().unwrap().half(half)
    }
}

fn path_of(name: &Word, ending: &[u8]) -> Result<Vec<u8>, NoMemory> {
    let mut path = name.as_slice().to_vec(name.allocator())?;
    path.extend_from_slice(ending)?;
    Ok(path)
}

fn text(path: &[u8]) -> io::Result<&str> {
    str::from_utf8(path).map_err(|_| io::Error::from(ErrorKind::InvalidFilename))
}

/// The folder that a file is in.
fn folder_of(path: &str) -> Path<'_> {
    match Path::new(path).parent() {
        Some(folder) if !folder.as_str().is_empty() => folder,
        _ => Path::new("."),
    }
}

/// Writes the whole piece.
fn write_piece(file: &File, at: u64, piece: &[u8]) -> io::Result<()>
    ensures { OnOk result (at + length piece.now ≤ 2 ^ 62) }
{
    match at.checked_add(piece.len() as u64) {
        Some(end) if end <= LONGEST => file.write_all_at(piece, at),
        _ => Err(io::Error::from(ErrorKind::FileTooLarge)),
    }
}

/// Cuts the file to this length. A file that is no longer than that stays as it is.
fn cut_file(file: &File, length: u64) -> io::Result<()> {
    if file.metadata()?.len() > length {
        file.set_len(length)?;
    }
    Ok(())
}

/// Counts the call as failed, if it is.
fn counted<T>(faults: &mut u64, answer: io::Result<T>) -> Result<T, Failed>
    ensures ok { IfOk result (λ value. answer ≡ Ok value) }
    ensures cause { HasCause faults.old faults.new result }
{
    match answer {
        Ok(value) => Ok(value),
        Err(_) => {
            *faults = faults.saturating_add(1);
            Err(Failed)
        }
    }
}

impl<R: Files<File = File>> Disk for LogFiles<R> {
    ghost state = { λ d. of_files d.asked (is_some d.halves) d.faults };

    ghost is_disk = { λ d. IsDisk-of_files d.asked (is_some d.halves) d.faults };

    fn faults(&self) -> u64 {
        self.faults
    }

    /// Keeps the name, makes two paths of it, and opens the files. Only this call may run out of memory, for the paths.
    fn attach(&mut self, name: &Word) -> Result<(), OutFault> {
        let asked = name.as_slice().to_vec(name.allocator())?;
        let first = path_of(name, b".0")?;
        let second = path_of(name, b".1")?;
        self.asked = Some(Word::from_vec(asked));
        self.halves = None;
        self.halves = self.open(&first, &second).ok();
        self.unsynced = Unsynced::both();
        if self.halves.is_none() {
            self.faults = self.faults.saturating_add(1);
            return Err(OutFault::Failed);
        }
        Ok(())
    }

    fn length(&mut self, half: u8) -> Result<u64, Failed> {
        let length = self.half(half).metadata().map(|metadata| metadata.len());
        counted(&mut self.faults, length)
    }

    fn read(&mut self, half: u8, at: u64, buf: &mut [u8]) -> Result<usize, Failed> {
        let count = self.half(half).read_at(buf, at);
        counted(&mut self.faults, count)
    }

    fn write_at(&mut self, half: u8, at: u64, piece: &[u8]) -> Result<(), OutFault>
        requires attached { IsSome self.old.halves }
        ensures written { Changes half (Written at piece.now) (Torn at (length piece.now))
            (⟦<LogFiles<R> as Disk>⟧.state self.old) (⟦<LogFiles<R> as Disk>⟧.state self.new) result }
        ensures fits { OnOk result (at + length piece.now ≤ 2 ^ 62) }
        ensures no_memory { IsErrOf result OutOfMemory → ⊥ }
    {
        self.unsynced.mark(half);
        let written = write_piece(self.half(half), at, piece);
        Ok(counted(&mut self.faults, written)?)
    }

    fn cut(&mut self, half: u8, length: u64) -> Result<(), OutFault>
        requires attached { IsSome self.old.halves }
        ensures cut { Changes half (CutTo length) (MaybeCut length) (⟦<LogFiles<R> as Disk>⟧.state self.old)
            (⟦<LogFiles<R> as Disk>⟧.state self.new) result }
        ensures no_memory { IsErrOf result OutOfMemory → ⊥ }
    {
        self.unsynced.mark(half);
        let cut = cut_file(self.half(half), length);
        Ok(counted(&mut self.faults, cut)?)
    }

    fn sync(&mut self) -> Result<(), OutFault>
        requires attached { IsSome self.old.halves }
        ensures synced { Syncs (⟦<LogFiles<R> as Disk>⟧.state self.old)
            (⟦<LogFiles<R> as Disk>⟧.state self.new) result }
        ensures no_memory { IsErrOf result OutOfMemory → ⊥ }
    {
        let synced = self.halves.as_ref().unwrap().sync(&mut self.unsynced);
        Ok(counted(&mut self.faults, synced)?)
    }
}
