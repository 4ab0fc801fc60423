ghost use Rattle.std.specs.Prelude.{◌≤◌, IsTrue};

use std::alloc::Global;
use std::process::Abort;
use vp_base::Word;
use vp_disks::{MemDisk, SureDisk};
use vp_outside::{Disk, Failed, OutFault};

const TEXT: &[u8] = b"abcdefgh";

fn word(rt: &impl Abort, alloc: Global, text: &[u8]) -> Word {
    Word::from_vec(text.to_vec(alloc).expect(rt, "memory"))
}

/// The length of half 0 and how many of its bytes were read, through the trait.
fn measure<D: Disk>(disk: &mut D, buf: &mut [u8]) -> Result<(u64, usize), Failed>
    requires { IsTrue (D.state disk.old).attached }
{
    let length = disk.length(0)?;
    let count = disk.read(0, 0, buf)?;
    Ok((length, count))
}

/// Rows of changes of half 1: w for a write or c for a cut, the index or the length, the count and the bytes of the piece, and the count
/// and the bytes of the half after it.
const CHANGES: &[u8] = b"\
    w\0\x03abc\x03abc\
    w\x01\x01X\x03aXc\
    w\x02\x02YZ\x04aXYZ\
    w\x06\x01p\x07aXYZ\0\0p\
    w\x09\0\x09aXYZ\0\0p\0\0\
    c\x14\0\x09aXYZ\0\0p\0\0\
    c\x03\0\x03aXY\
    w\x03\x03end\x06aXYend\
    c\0\0\0\
    w\0\0\0";

/// The bytes after a count, and the rest.
fn counted(bytes: &[u8]) -> (&[u8], &[u8]) {
    match bytes {
        [] => (bytes, bytes),
        [count, following @ ..] => following.split_at(usize::from(*count).min(following.len())),
    }
}

fn change(disk: &mut SureDisk, kind: u8, at: u8, piece: &[u8]) -> Result<(), OutFault> {
    if kind == b'w' {
        disk.write_at(1, u64::from(at), piece)
    } else {
        disk.cut(1, u64::from(at))
    }
}

/// Whether half 1 has these bytes and half 0 has none.
fn has(disk: &mut SureDisk, bytes: &[u8]) -> bool {
    let length = bytes.len() as u64;
    disk.half(1) == bytes && disk.length(1) == Ok(length) && disk.length(0) == Ok(0)
}

/// How many changes leave the bytes of their rows, and so does a sync after each of them, up to the first that doesn't.
fn changes_done(disk: &mut SureDisk, rows: &[u8]) -> Result<usize, OutFault> {
    let mut rest = rows;
    for row in 0..rows.len() {
        let [kind, at, following @ ..] = rest else {
            return Ok(row);
        };
        let (piece, following) = counted(following);
        let (bytes, others) = counted(following);
        change(disk, *kind, *at, piece)?;
        let changed = has(disk, bytes);
        disk.sync()?;
        if !changed || !has(disk, bytes) {
            return Ok(row);
        }
        rest = others;
    }
    Ok(rows.len())
}

#[test]
fn a_disk_reads_what_was_written_and_not_cut(rt: HostRuntime) {
    let mut disk = SureDisk::new(rt.alloc());
    assert!(rt; changes_done(&mut disk, CHANGES) == Ok(10));
}

/// Whether a read into five bytes returns this count and leaves these bytes there.
fn reads(disk: &mut SureDisk, half: u8, at: u64, count: usize, bytes: &[u8]) -> bool
    requires { half ≤ 1 }
{
    let mut buf = [b'-'; 5];
    disk.read(half, at, &mut buf) == Ok(count) && buf.as_slice() == bytes
}

/// A disk with the text in half 0, and this in half 1.
fn sure(rt: &impl Abort, alloc: Global, second: &[u8]) -> SureDisk {
    let first = TEXT.to_vec(alloc).expect(rt, "memory");
    let second = second.to_vec(alloc).expect(rt, "memory");
    SureDisk::holding(alloc, first, second).expect(rt, "memory")
}

#[test]
fn a_disk_is_read_in_pieces(rt: HostRuntime) {
    let mut disk = sure(&rt, rt.alloc(), b"xyz");
    assert!(rt; reads(&mut disk, 0, 0, 5, b"abcde"));
    assert!(rt; reads(&mut disk, 0, 5, 3, b"fgh--"));
    assert!(rt; reads(&mut disk, 0, 8, 0, b"-----"), "the end");
    assert!(rt; reads(&mut disk, 1, 2, 1, b"z----"));
    assert!(rt; reads(&mut disk, 1, u64::MAX, 0, b"-----"));
}

#[test]
fn a_disk_is_measured(rt: HostRuntime) {
    let mut disk = sure(&rt, rt.alloc(), b"");
    assert!(rt; measure(&mut disk, &mut [0; 5]) == Ok((8, 5)));
    assert_eq!(rt; disk.faults(), 0);
}

/// Writes a piece at the front of a half of the log of that name.
fn write_to(disk: &mut MemDisk, name: &Word, half: u8, piece: &[u8]) -> Result<(), OutFault>
    requires { half ≤ 1 }
{
    disk.attach(name)?;
    disk.write_at(half, 0, piece)
}

/// Cuts half 0 of the log of that name to one byte.
fn cut_short(disk: &mut MemDisk, name: &Word) -> Result<(), OutFault> {
    disk.attach(name)?;
    disk.cut(0, 1)?;
    disk.sync()
}

/// Whether the log of that name has these halves.
fn keeps(disk: &mut MemDisk, name: &Word, first: &[u8], second: &[u8]) -> Result<bool, OutFault> {
    disk.attach(name)?;
    Ok(disk.half(0) == first && disk.half(1) == second)
}

/// What the log of that name measures.
fn measured(disk: &mut MemDisk, name: &Word) -> Result<(u64, usize), OutFault> {
    disk.attach(name)?;
    Ok(measure(disk, &mut [0; 8])?)
}

/// Whether the first log keeps what was written to it while the second is written to.
fn each_keeps(disk: &mut MemDisk, one: &Word, two: &Word) -> Result<bool, OutFault> {
    write_to(disk, one, 0, b"first")?;
    let is_empty = keeps(disk, two, b"", b"")?;
    write_to(disk, two, 0, b"other")?;
    write_to(disk, two, 1, b"half")?;
    Ok(is_empty && keeps(disk, one, b"first", b"")?)
}

/// Whether the first log is cut, and the second keeps its bytes.
fn is_cut_alone(disk: &mut MemDisk, one: &Word, two: &Word) -> Result<bool, OutFault> {
    cut_short(disk, one)?;
    let is_kept = keeps(disk, two, b"other", b"half")?;
    Ok(is_kept && keeps(disk, one, b"f", b"")?)
}

#[test]
fn each_log_keeps_its_bytes_while_another_is_attached(rt: HostRuntime) {
    let alloc = rt.alloc();
    let one = word(&rt, alloc, b"one");
    let two = word(&rt, alloc, b"two");
    let mut disk = MemDisk::new(alloc, Vec::new(alloc));
    assert!(rt; each_keeps(&mut disk, &one, &two) == Ok(true));
    assert!(rt; is_cut_alone(&mut disk, &one, &two) == Ok(true));
    assert_eq!(rt; disk.plan.calls, 13);
}

#[test]
fn a_log_of_a_name_is_measured(rt: HostRuntime) {
    let name = word(&rt, rt.alloc(), b"two");
    let mut disk = MemDisk::new(rt.alloc(), Vec::new(rt.alloc()));
    assert!(rt; write_to(&mut disk, &name, 0, b"other").is_ok());
    assert!(rt; measured(&mut disk, &name) == Ok((5, 5)));
    assert!(rt; disk.plan.calls == 5 && disk.faults() == 0);
}

/// Whether each call that reads the log of that name fails, and leaves the buffer as it was.
fn fails_to_read(disk: &mut MemDisk, name: &Word) -> Result<bool, OutFault> {
    disk.attach(name)?;
    let mut buf = [b'-'; 3];
    let length = disk.length(0);
    let read = disk.read(0, 0, &mut buf);
    Ok(length == Err(Failed) && read == Err(Failed) && buf == *b"---")
}

/// Whether each call that changes the log of that name fails.
fn fails_to_change(disk: &mut MemDisk, name: &Word) -> Result<bool, OutFault> {
    disk.attach(name)?;
    let written = disk.write_at(0, 0, b"X");
    let cut = disk.cut(0, 1);
    let synced = disk.sync();
    let failed = Err(OutFault::Failed);
    Ok(written == failed && cut == failed && synced == failed)
}

/// A disk with a log of that name, which has the text in half 0, and of which these calls fail.
fn laid(rt: &impl Abort, alloc: Global, name: &Word, failing: Vec<u64>) -> MemDisk {
    let half = TEXT.to_vec(alloc).expect(rt, "memory");
    let mut disk = MemDisk::new(alloc, failing);
    disk.lay(name, half, Vec::new(alloc)).expect(rt, "memory");
    disk
}

#[test]
fn a_planned_call_of_a_disk_fails_and_changes_nothing(rt: HostRuntime) {
    let name = word(&rt, rt.alloc(), b"one");
    let calls = Vec::from_slice(rt.alloc(), &[1, 3, 4, 6, 7, 8]).expect(&rt, "memory");
    let mut disk = laid(&rt, rt.alloc(), &name, calls);
    assert!(rt; disk.attach(&name) == Err(OutFault::Failed));
    assert!(rt; fails_to_read(&mut disk, &name) == Ok(true));
    assert!(rt; fails_to_change(&mut disk, &name) == Ok(true));
    assert!(rt; disk.faults() == 6 && disk.plan.calls == 8);
    assert!(rt; keeps(&mut disk, &name, TEXT, b"") == Ok(true));
}

/// What a read of half 0 of the log of that name leaves in three bytes.
fn three(disk: &mut MemDisk, name: &Word, at: u64) -> Result<([u8; 3], usize), OutFault> {
    disk.attach(name)?;
    let mut buf = [b'-'; 3];
    let count = disk.read(0, at, &mut buf)?;
    Ok((buf, count))
}

#[test]
fn a_log_that_is_laid_is_read(rt: HostRuntime) {
    let name = word(&rt, rt.alloc(), b"one");
    let mut disk = laid(&rt, rt.alloc(), &name, Vec::new(rt.alloc()));
    assert!(rt; three(&mut disk, &name, 6) == Ok((*b"gh-", 2)));
}

#[test]
fn a_sure_disk_has_no_memory_for_what_ends_after_the_longest_half(rt: HostRuntime) {
    let mut disk = SureDisk::new(rt.alloc());
    for at in [1 << 62, u64::MAX] {
        assert!(rt; disk.write_at(0, at, b"x") == Err(OutFault::NoMemory));
    }
}

/// The result of the write of a byte to the log of that name.
fn written(disk: &mut MemDisk, name: &Word, at: u64) -> Result<(), OutFault> {
    disk.attach(name)?;
    disk.write_at(0, at, b"x")
}

#[test]
fn a_disk_has_no_memory_for_what_ends_after_the_longest_half(rt: HostRuntime) {
    let name = word(&rt, rt.alloc(), b"one");
    let mut disk = MemDisk::new(rt.alloc(), Vec::new(rt.alloc()));
    for at in [1 << 62, u64::MAX] {
        assert!(rt; written(&mut disk, &name, at) == Err(OutFault::NoMemory));
    }
    assert!(rt; disk.faults() == 0);
    assert!(rt; keeps(&mut disk, &name, b"", b"") == Ok(true));
}
