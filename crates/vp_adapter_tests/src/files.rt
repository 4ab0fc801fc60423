//! The two files of a log, in the folder where the tests run.

ghost use Rattle.std.specs.Prelude.{◌≤◌};

use std::alloc::Global;
use std::fs;
use std::os::unix::fs::symlink;
use std::process::Abort;
use vp_adapters::LogFiles;
use vp_base::Word;
use vp_outside::{Disk, OutFault};

fn word(rt: &impl Abort, alloc: Global, text: &[u8]) -> Word {
    Word::from_vec(text.to_vec(alloc).expect(rt, "memory"))
}

/// Writes, cuts and syncs the log of that name, whose halves are empty before.
fn change<D: Disk>(disk: &mut D, name: &Word) -> Result<(), OutFault> {
    disk.attach(name)?;
    disk.cut(0, 0)?;
    disk.cut(1, 0)?;
    disk.write_at(0, 0, b"abcdefgh")?;
    disk.write_at(0, 2, b"XY")?;
    disk.cut(0, 6)?;
    disk.cut(0, 100)?;
    disk.write_at(1, 2, b"z")?;
    disk.sync()
}

/// The length of a half of the log of that name, and what a read from its second byte on leaves in eight bytes.
fn content<D: Disk>(disk: &mut D, name: &Word, half: u8) -> Result<(u64, usize, [u8; 8]), OutFault>
    requires { half ≤ 1 }
{
    let mut buf = [b'-'; 8];
    disk.attach(name)?;
    let length = disk.length(half)?;
    let count = disk.read(half, 1, &mut buf)?;
    Ok((length, count, buf))
}

#[test]
fn files_are_written_and_cut_and_synced_and_read(rt: HostRuntime) {
    let name = word(&rt, rt.alloc(), b"written");
    change(&mut LogFiles::new(&rt), &name).expect(&rt, "no fault");
    let mut again = LogFiles::new(&rt);
    assert!(rt; content(&mut again, &name, 0) == Ok((6, 5, *b"bXYef---")));
    assert!(rt; content(&mut again, &name, 1) == Ok((3, 2, *b"\0z------")));
    assert!(rt; again.faults() == 0);
    for path in ["written.0", "written.1"] {
        fs::remove_file(&rt, path).expect(&rt, "a file");
    }
}

#[test]
fn a_log_that_is_attached_is_attached_to_no_other_disk(rt: HostRuntime) {
    let name = word(&rt, rt.alloc(), b"locked");
    let mut first = LogFiles::new(&rt);
    change(&mut first, &name).expect(&rt, "no fault");
    let mut second = LogFiles::new(&rt);
    assert!(rt; second.attach(&name) == Err(OutFault::Failed) && second.faults() == 1);
    assert!(rt; content(&mut first, &name, 0) == Ok((6, 5, *b"bXYef---")));
    assert!(rt; second.attach(&name) == Err(OutFault::Failed) && second.faults() == 2);
    drop(first);
    assert!(rt; content(&mut second, &name, 1) == Ok((3, 2, *b"\0z------")));
    for path in ["locked.0", "locked.1"] {
        fs::remove_file(&rt, path).expect(&rt, "a file");
    }
}

#[test]
fn a_log_that_can_not_be_opened_is_counted(rt: HostRuntime) {
    let mut disk = LogFiles::new(&rt);
    for (count, name) in [b"no_folder/log".as_slice(), b"\xFF", b"a\0b"]
        .iter()
        .enumerate()
    {
        let name = word(&rt, rt.alloc(), name);
        assert!(rt; disk.attach(&name) == Err(OutFault::Failed));
        assert!(rt; disk.faults() == count as u64 + 1);
    }
}

#[test]
fn two_names_of_one_file_are_no_log(rt: HostRuntime) {
    let name = word(&rt, rt.alloc(), b"twice");
    let mut disk = LogFiles::new(&rt);
    change(&mut disk, &name).expect(&rt, "no fault");
    fs::remove_file(&rt, "twice.1").expect(&rt, "a file");
    fs::hard_link(&rt, "twice.0", "twice.1").expect(&rt, "a link");
    assert!(rt; disk.attach(&name) == Err(OutFault::Failed) && disk.faults() == 1);
    fs::remove_file(&rt, "twice.1").expect(&rt, "a file");
    assert!(rt; content(&mut disk, &name, 0) == Ok((6, 5, *b"bXYef---")));
    for path in ["twice.0", "twice.1"] {
        fs::remove_file(&rt, path).expect(&rt, "a file");
    }
}

#[test]
fn a_half_is_of_one_attached_log(rt: HostRuntime) {
    let name = word(&rt, rt.alloc(), b"owner");
    let other = word(&rt, rt.alloc(), b"other");
    let mut first = LogFiles::new(&rt);
    change(&mut first, &name).expect(&rt, "no fault");
    for (half, link) in [("owner.0", "other.0"), ("owner.1", "other.1")] {
        fs::hard_link(&rt, half, link).expect(&rt, "a link");
        let mut second = LogFiles::new(&rt);
        assert!(rt; second.attach(&other) == Err(OutFault::Failed) && second.faults() == 1);
        fs::remove_file(&rt, link).expect(&rt, "a link");
    }
    assert!(rt; content(&mut first, &name, 1) == Ok((3, 2, *b"\0z------")));
    for path in ["owner.0", "owner.1", "other.0"] {
        fs::remove_file(&rt, path).expect(&rt, "a file");
    }
}

#[test]
fn a_half_is_a_regular_file(rt: HostRuntime) {
    let name = word(&rt, rt.alloc(), b"device");
    for half in ["device.0", "device.1"] {
        symlink(&rt, "/dev/null", half).expect(&rt, "a link");
        let mut disk = LogFiles::new(&rt);
        assert!(rt; disk.attach(&name) == Err(OutFault::Failed) && disk.faults() == 1);
        fs::remove_file(&rt, half).expect(&rt, "a link");
    }
    fs::remove_file(&rt, "device.0").expect(&rt, "the half that was made");
}
