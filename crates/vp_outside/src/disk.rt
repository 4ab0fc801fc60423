//! Disks, which keep logs: what a read gives, and what a crash may leave.

ghost use Rattle.std.specs.Prelude.{◌≡◌, ◌+◌, ◌≤◌, ◌^◌, length, IsTrue, OnOk};
ghost use Rattle.vp_outside.specs.Disk.{DiskState, IsDisk, Written, CutTo, Torn, MaybeCut};
ghost use Rattle.vp_outside.specs.DiskCalls.{Attaches, Measures, Reads, Changes, Syncs};

use crate::sink::OutFault;
use crate::source::Failed;
use vp_base::Word;

/// A disk, which keeps logs by name. A log is two halves, 0 and 1.
///
/// A crash between two syncs may leave any bytes in each range that was written and past the old end, and a cut may have happened
/// or not. After a sync an honest disk leaves what a read gives.
pub trait Disk {
    /// Its state, as contracts see it.
    ghost state: { Self → DiskState };

    /// How often a call failed.
    fn faults(&self) -> u64
        ensures { result ≡ (state self.now).faults };

    /// Chooses the log to which the other calls apply, and makes its files where they are missing. After a failure no log is
    /// chosen.
    fn attach(&mut self, name: &Word) -> Result<(), OutFault>
        ensures { Attaches name.now (state self.old) (state self.new) result };

    /// The length of a half, in bytes.
    fn length(&mut self, half: u8) -> Result<u64, Failed>
        requires attached { IsTrue (state self.old).attached }
        requires half { half ≤ 1 }
        ensures { Measures half (state self.old) (state self.new) result };

    /// Copies the bytes of a half from `at` on to the front of the buffer, and returns how many. Where the buffer isn't empty, 0
    /// means the end of the half.
    fn read(&mut self, half: u8, at: u64, buf: &mut [u8]) -> Result<usize, Failed>
        requires attached { IsTrue (state self.old).attached }
        requires half { half ≤ 1 }
        ensures { Reads half at buf.old buf.new (state self.old) (state self.new) result };

    /// Writes over what is there, and past the end. Fails where the piece would end after 2^62. Until a sync, a crash may leave any
    /// bytes in its place.
    fn write_at(&mut self, half: u8, at: u64, piece: &[u8]) -> Result<(), OutFault>
        requires attached { IsTrue (state self.old).attached }
        requires half { half ≤ 1 }
        ensures written { Changes half (Written at piece.now) (Torn at (length piece.now)) (state self.old)
            (state self.new) result }
        ensures fits { OnOk result (at + length piece.now ≤ 2 ^ 62) };

    /// Cuts a half to a length; a shorter half stays as it is. Until a sync, a crash may leave it cut or not.
    fn cut(&mut self, half: u8, length: u64) -> Result<(), OutFault>
        requires attached { IsTrue (state self.old).attached }
        requires half { half ≤ 1 }
        ensures { Changes half (CutTo length) (MaybeCut length) (state self.old) (state self.new) result };

    /// Makes sure that a crash leaves of the log what a read gives.
    fn sync(&mut self) -> Result<(), OutFault>
        requires attached { IsTrue (state self.old).attached }
        ensures { Syncs (state self.old) (state self.new) result };

    /// Each implementation obeys the laws of disks.
    ghost is_disk: { (disk : Self) → IsDisk (state disk) };
}
