//! The bytes of batches.

use std::alloc::Global;
use vp_base::{Batch, LogRecord, NoMemory};
use vp_records::{BatchFault, decode_batch, encode_batch};

/// A record of each kind of the first version.
const EACH_KIND: &[u8] = b"\
    \x01\0\0\0\x03\
    \x02\0\0\0\0\0\0\0\x04\x02\
    \x03\x02\0\0\0\x01\0\0\0\x03\0\0\0\0\0\0\0\x01\x02\x02\0\x02\x31\x31\x02\x01\x7a\
    \x04\x02\0\0\0\x01\0\0\0\x03\x01\
    \x05\x02\0\0\0\x01\0\0\0\x03\0\0\0\0\0\0\0\x01\x02\x01\x01\x01\x7e\x02\x01\x03\
    \x06\x07\x02\x31\x30\0\0\0\0\0\0\0\x01\x02\
    \x07\x02\0\0\0\x01\0\0\0\x03\x10\
    \x08\0\0\0\0\0\0\0\x05\0\0\0\x03\0\0\0\0\0\0\0\x04\x02\0\x02\0\x02\x31\x30\0\0\0\0\0\0\0\0\0\x02\x01\x7a\0\0\0\0\0\0\0\x01\x02\0\0\0\0\0\0\0\x01\x02\0\0\0\x01\0\0\0\x03\0\0\0\0\0\0\0\x01\x02\x01\x01\x01\x61\0\0\0\0\0\0\0\x02\x01\0\0\0\x01\0\0\0\x01\x01\x01\x02\0\0\0\x01\0\0\0\x03\x02\x02\x10";

/// A record of each kind of the second version that has one in the first; two copies, without a value and with a table.
const EACH_LATER_KIND: &[u8] = b"\
    \x09\x02\0\0\0\x01\0\0\0\x03\0\0\0\0\0\0\0\x01\x02\x04\0\x01\0\x02\x31\x31\0\x02\0\0\x05\x02\x01\x02\x01\0\x01\x10\xff\xff\xff\x01\0\x01\x7a\x01\x01\x02\x01\x02\
    \x0a\x02\0\0\0\x01\0\0\0\x03\0\0\0\0\0\0\0\x01\x02\x02\x01\x01\0\x01\x7e\0\x07\0\x01\x01\x03\0\x02\x02\x01\x03\
    \x0b\x07\0\0\0\0\0\0\0\0\0\x01\x02\
    \x0b\x07\x01\0\x02\x31\x30\x01\x01\x01\0\x01\0\0\0\0\0\0\0\x01\x02\
    \x0c\0\0\0\0\0\0\0\x05\0\0\0\x03\0\0\0\0\0\0\0\x04\x02\0\x02\0\x01\0\x02\x31\x30\0\0\0\0\0\0\0\0\0\0\x02\0\x01\x02\x01\0\x02\x02\0\x01\0\0\0\0\0\0\0\x01\x02\0\0\0\0\0\0\0\x01\x02\0\0\0\x01\0\0\0\x03\0\0\0\0\0\0\0\x01\x02\x02\x01\x01\0\x01\x61\0\x03\x02\x01\x01\x04\0\x04\0\0\0\0\0\0\0\x02\x01\0\0\0\x01\0\0\0\x01\x01\x01\x02\0\0\0\x01\0\0\0\x03\x02\x02\x10";

// Rows of cases: the count of a row's bytes, then how many of them begin a batch, or 255 where they are one, and then the bytes.
// One list of bytes is proved faster than a list of lists.

/// The least and the greatest fields.
const LEAST_AND_GREATEST: &[u8] = b"\
    \x00\xff\
    \x05\xff\x01\0\0\0\0\
    \x05\xff\x01\xff\xff\xff\xff\
    \x0a\xff\x02\0\0\0\0\0\0\0\0\0\
    \x14\xff\x03\x02\0\0\0\x01\0\0\0\x03\0\0\0\0\0\0\0\x01\x02\0\
    \x0b\xff\x04\x02\0\0\0\x01\0\0\0\x03\0\
    \x15\xff\x05\x02\0\0\0\x01\0\0\0\x03\0\0\0\0\0\0\0\x01\x02\0\0\
    \x28\xff\x08\0\0\0\0\0\0\0\x01\0\0\0\0\0\0\0\0\0\0\0\0\0\0\0\0\0\0\0\0\0\0\0\0\0\0\0\0\0\0\0\
    \x81\xff\x08\xff\xff\xff\xff\xff\xff\xff\xff\xff\xff\xff\xff\0\0\0\0\0\0\0\x01\x02\0\x02\0\x02\x31\x30\0\0\0\0\0\0\0\0\0\xff\x01\x7a\0\0\0\0\0\0\0\x01\x02\0\0\0\0\0\0\0\x02\x02\0\0\0\x01\0\0\0\x03\0\0\0\0\0\0\0\x01\x02\x01\x01\x01\x61\x03\0\0\0\x01\0\0\0\x01\0\0\0\0\0\0\0\x01\x02\0\0\0\0\0\0\0\0\x02\x01\0\0\0\x01\0\0\0\x01\x01\x01\x02\0\0\0\x01\0\0\0\x03\x02\x02\x10";

const REFUSED: &[u8] = b"\
    \x01\x00\0\
    \x01\x00\x0d\
    \x04\x04\x01\0\0\0\
    \x06\x05\x01\0\0\0\x01\0\
    \x08\x08\x01\0\0\0\x01\x01\0\0\
    \x0a\x09\x02\0\0\0\0\0\0\0\0\x01\
    \x0a\x09\x02\0\0\0\0\0\0\0\x01\x11\
    \x14\x13\x03\x02\0\0\0\x01\0\0\0\x03\0\0\0\0\0\0\0\x01\x02\x41\
    \x1a\x17\x03\x02\0\0\0\x01\0\0\0\x03\0\0\0\0\0\0\0\x01\x02\x02\x01\x01\x31\x01\x01\x31\
    \x15\x14\x03\x02\0\0\0\x01\0\0\0\x03\0\0\0\0\0\0\0\x01\x02\x02\xff\
    \x16\x15\x03\x02\0\0\0\x01\0\0\0\x03\0\0\0\0\0\0\0\x01\x02\x01\0\0\
    \x15\x15\x03\x02\0\0\0\x01\0\0\0\x03\0\0\0\0\0\0\0\x01\x02\x40\xc0\
    \x15\x14\x03\x02\0\0\0\x01\0\0\0\x03\0\0\0\0\0\0\0\x01\x02\x40\xc1\
    \x17\x16\x03\x02\0\0\0\x01\0\0\0\x03\0\0\0\0\0\0\0\x01\x02\x01\0\x01\x20\
    \x0b\x0a\x04\x02\0\0\0\x01\0\0\0\x03\x02\
    \x02\x01\x04\0\
    \x06\x05\x04\x02\0\0\0\0\
    \x15\x14\x05\x02\0\0\0\x01\0\0\0\x03\0\0\0\0\0\0\0\x01\x02\0\x11\
    \x16\x15\x05\x02\0\0\0\x01\0\0\0\x03\0\0\0\0\0\0\0\x01\x02\0\x02\x10\
    \x17\x16\x05\x02\0\0\0\x01\0\0\0\x03\0\0\0\0\0\0\0\x01\x02\0\x02\x03\x03\
    \x16\x15\x05\x02\0\0\0\x01\0\0\0\x03\0\0\0\0\0\0\0\x01\x02\0\x01\0\
    \x1a\xff\x05\x02\0\0\0\x01\0\0\0\x03\0\0\0\0\0\0\0\x01\x02\0\0\x01\0\0\0\x01\
    \x03\x02\x06\x07\x41\
    \x0d\x0c\x06\x07\x01\x31\0\0\0\0\0\0\0\x01\0\
    \x0b\x0a\x07\x02\0\0\0\x01\0\0\0\x03\0\
    \x0b\x0a\x07\x02\0\0\0\x01\0\0\0\x03\x11\
    \x0c\x0b\x07\x02\0\0\0\x01\0\0\0\x03\x10\xff\
    \x0c\x0c\x07\x02\0\0\0\x01\0\0\0\x03\x10\x07";

/// What is refused, and some that is not, of the kinds of the second version.
const LATER: &[u8] = b"\
    \x14\x13\x09\x02\0\0\0\x01\0\0\0\x03\0\0\0\0\0\0\0\x01\x02\x41\
    \x16\x15\x09\x02\0\0\0\x01\0\0\0\x03\0\0\0\0\0\0\0\x01\x02\x01\0\x03\
    \x17\x16\x09\x02\0\0\0\x01\0\0\0\x03\0\0\0\0\0\0\0\x01\x02\x01\0\x02\0\
    \x18\x17\x09\x02\0\0\0\x01\0\0\0\x03\0\0\0\0\0\0\0\x01\x02\x01\0\x02\x01\0\
    \x18\x17\x09\x02\0\0\0\x01\0\0\0\x03\0\0\0\0\0\0\0\x01\x02\x01\0\x02\x01\x11\
    \x19\x18\x09\x02\0\0\0\x01\0\0\0\x03\0\0\0\0\0\0\0\x01\x02\x01\0\x02\x01\x01\0\
    \x19\x18\x09\x02\0\0\0\x01\0\0\0\x03\0\0\0\0\0\0\0\x01\x02\x01\0\x02\x01\x01\x11\
    \x1b\x1a\x09\x02\0\0\0\x01\0\0\0\x03\0\0\0\0\0\0\0\x01\x02\x01\0\x02\x01\x01\x10\0\0\
    \x19\x18\x09\x02\0\0\0\x01\0\0\0\x03\0\0\0\0\0\0\0\x01\x02\x01\0\x02\x01\x02\x10\
    \x1c\x1b\x09\x02\0\0\0\x01\0\0\0\x03\0\0\0\0\0\0\0\x01\x02\x01\0\x02\x01\x02\x03\0\x01\x03\
    \x1b\xff\x09\x02\0\0\0\x01\0\0\0\x03\0\0\0\0\0\0\0\x01\x02\x01\0\x02\x01\x01\x10\xff\xff\
    \x18\x17\x09\x02\0\0\0\x01\0\0\0\x03\0\0\0\0\0\0\0\x01\x02\x01\0\x01\0\0\
    \x18\x17\x09\x02\0\0\0\x01\0\0\0\x03\0\0\0\0\0\0\0\x01\x02\x01\0\x01\x04\x01\
    \x17\x16\x09\x02\0\0\0\x01\0\0\0\x03\0\0\0\0\0\0\0\x01\x02\x01\0\x01\x05\
    \x19\x18\x09\x02\0\0\0\x01\0\0\0\x03\0\0\0\0\0\0\0\x01\x02\x01\0\x01\0\x01\x20\
    \x1a\x19\x09\x02\0\0\0\x01\0\0\0\x03\0\0\0\0\0\0\0\x01\x02\x01\0\x01\0\x01\x7a\x02\
    \x17\x16\x09\x02\0\0\0\x01\0\0\0\x03\0\0\0\0\0\0\0\x01\x02\x01\0\0\x02\
    \x18\x17\x09\x02\0\0\0\x01\0\0\0\x03\0\0\0\0\0\0\0\x01\x02\x02\x05\0\0\x05\
    \x1a\xff\x09\x02\0\0\0\x01\0\0\0\x03\0\0\0\0\0\0\0\x01\x02\x02\x05\0\0\x06\0\0\
    \x03\x02\x0b\x07\x02\
    \x04\x03\x0b\x07\0\x02\
    \x0d\x0c\x0b\x07\0\0\0\0\0\0\0\0\0\0\x01\
    \x0d\xff\x0b\x07\0\0\0\0\0\0\0\0\0\0\0\
    \x18\x17\x0c\0\0\0\0\0\0\0\0\0\0\0\0\0\0\0\0\0\0\0\0\0\x01\x01\
    \x1a\x19\x0c\0\0\0\0\0\0\0\0\0\0\0\0\0\0\0\0\0\0\0\0\0\0\x01\xff\x02";

/// The code, generation, life and promise of a checkpoint of the first version, each of them 0.
const CHECKPOINT: &[u8] = b"\x08\0\0\0\0\0\0\0\0\0\0\0\0\0\0\0\0\0\0\0\0\0";

/// Rows of what comes after these.
const LISTS: &[u8] = b"\
    \x12\xff\0\0\0\0\0\0\0\0\0\0\0\0\0\0\0\0\0\0\
    \x11\x27\0\0\0\0\0\0\0\0\0\0\0\0\0\0\0\0\0\
    \x18\x2d\0\0\0\0\0\0\0\0\0\0\0\0\0\0\0\0\0\0\x01\0\0\0\x01\0\
    \x01\x16\x02\
    \x02\x17\x01\x01\
    \x03\x18\x01\0\x01\
    \x03\x18\0\x02\xff\
    \x0f\x24\0\x02\x05\x01\x31\0\0\0\0\0\0\0\x01\x02\x05\
    \x0a\x20\0\0\xff\xff\xff\xff\xff\xff\xff\xff\
    \x0b\x21\0\0\xff\xff\xff\xff\xff\xff\xff\xff\x0f\
    \x0b\x20\0\0\xff\xff\xff\xff\xff\xff\xff\xff\x10\
    \x26\x3b\0\0\0\0\0\0\0\0\0\x02\x02\0\0\0\x01\0\0\0\x03\0\0\0\0\0\0\0\x01\x02\0\x02\0\0\0\x01\0\0\0\x03\
    \x22\x37\0\0\0\0\0\0\0\0\0\x02\x02\0\0\0\x01\0\0\0\x03\0\0\0\0\0\0\0\x01\x02\0\x02\0\0\0\0\
    \x13\x28\0\0\0\0\0\0\0\0\0\x02\x10\xff\xff\xff\xff\xff\xff\xff\xff\
    \x1d\x32\0\0\0\0\0\0\0\0\0\x01\x10\xff\xff\xff\xff\xff\xff\xff\xff\0\0\0\0\0\0\0\x01\x02\x41\
    \x1c\x31\0\0\0\0\0\0\0\0\0\0\0\0\0\0\0\0\0\x01\x02\0\0\0\x01\0\0\0\x03\0\
    \x1e\x33\0\0\0\0\0\0\0\0\0\0\0\0\0\0\0\0\0\x02\x02\0\0\0\x01\0\0\0\x03\x01\x01\x01\
    \x1d\x32\0\0\0\0\0\0\0\0\0\0\0\0\0\0\0\0\0\x01\x02\0\0\0\x01\0\0\0\x03\x02\x10";

/// Whether reading the bytes has this result. What is a batch is written again as it was.
fn has_answer(alloc: Global, bytes: &[u8], answer: u8) -> Result<bool, NoMemory> {
    match decode_batch(alloc, bytes) {
        Ok(batch) => {
            let mut out = Vec::new(alloc);
            encode_batch(&batch, &mut out)?;
            Ok(answer == 255 && out.as_slice() == bytes)
        }
        Err(BatchFault::BadRecord { at }) => Ok(at == usize::from(answer)),
        Err(BatchFault::NoMemory) => Err(NoMemory),
    }
}

fn joined(alloc: Global, front: &[u8], bytes: &[u8]) -> Result<Vec<u8>, NoMemory> {
    let mut all = Vec::new(alloc);
    all.extend_from_slice(front)?;
    all.extend_from_slice(bytes)?;
    Ok(all)
}

/// How many rows have their result, each after the front, up to the first that has another one.
fn rows_answered(alloc: Global, front: &[u8], rows: &[u8]) -> Result<usize, NoMemory> {
    let mut rest = rows;
    for row in 0..rows.len() {
        let [count, answer, following @ ..] = rest else {
            return Ok(row);
        };
        let (bytes, others) = following.split_at(usize::from(*count).min(following.len()));
        let all = joined(alloc, front, bytes)?;
        if !has_answer(alloc, &all, *answer)? {
            return Ok(row);
        }
        rest = others;
    }
    Ok(rows.len())
}

#[test]
fn each_kind_is_read_and_written_again(rt: HostRuntime) {
    assert!(rt; has_answer(rt.alloc(), EACH_KIND, 255) == Ok(true));
    assert!(rt; has_answer(rt.alloc(), EACH_LATER_KIND, 255) == Ok(true));
    assert!(rt; rows_answered(rt.alloc(), b"", LEAST_AND_GREATEST) == Ok(9));
}

/// Whether the bytes are a batch of Start of life 1.
fn is_start(alloc: Global, bytes: &[u8]) -> bool {
    match decode_batch(alloc, bytes) {
        Ok(batch) => match batch.as_slice() {
            [entry] => matches!(entry, LogRecord::Start { life: 1 }),
            _ => false,
        },
        Err(_fault) => false,
    }
}

#[test]
fn a_start_is_five_bytes(rt: HostRuntime) {
    let mut made = Batch::new(rt.alloc());
    made.push(LogRecord::Start { life: 1 })
        .expect(&rt, "memory");
    let mut out = Vec::new(rt.alloc());
    encode_batch(&made, &mut out).expect(&rt, "memory");
    assert_eq!(rt; out.as_slice(), b"\x01\0\0\0\x01".as_slice());
    assert!(rt; is_start(rt.alloc(), &out));
}

#[test]
fn batches_are_refused_at_their_places(rt: HostRuntime) {
    assert!(rt; rows_answered(rt.alloc(), b"", REFUSED) == Ok(28));
    assert!(rt; rows_answered(rt.alloc(), b"", LATER) == Ok(25));
    assert!(rt; rows_answered(rt.alloc(), CHECKPOINT, LISTS) == Ok(18));
}

/// How many of the bytes begin a batch, where they are none.
fn place(alloc: Global, bytes: &[u8]) -> Result<Option<usize>, NoMemory> {
    match decode_batch(alloc, bytes) {
        Ok(_batch) => Ok(None),
        Err(BatchFault::BadRecord { at }) => Ok(Some(at)),
        Err(BatchFault::NoMemory) => Err(NoMemory),
    }
}

/// How many beginnings of the bytes are batches, and the sum of the faults' indices of the others.
fn beginnings(alloc: Global, bytes: &[u8]) -> Result<(usize, usize), NoMemory> {
    let mut batches: usize = 0;
    let mut places: usize = 0;
    for end in 0..=bytes.len() {
        match place(alloc, &bytes[..end])? {
            None => batches = batches.saturating_add(1),
            Some(at) => places = places.saturating_add(at),
        }
    }
    Ok((batches, places))
}

/// The bytes with one of them changed.
fn changed(alloc: Global, bytes: &[u8], place: usize, mask: u8) -> Result<Vec<u8>, NoMemory> {
    let mut out = Vec::new(alloc);
    for (i, byte) in bytes.iter().enumerate() {
        out.push(if i == place { *byte ^ mask } else { *byte })?;
    }
    Ok(out)
}

/// Does the same with each of the bytes changed in turn.
fn changes(alloc: Global, bytes: &[u8], mask: u8) -> Result<(usize, usize), NoMemory> {
    let mut batches: usize = 0;
    let mut places: usize = 0;
    for i in 0..bytes.len() {
        let other = changed(alloc, bytes, i, mask)?;
        match place(alloc, &other)? {
            None => batches = batches.saturating_add(1),
            Some(at) => places = places.saturating_add(at),
        }
    }
    Ok((batches, places))
}

#[test]
fn what_is_nearly_a_batch_has_its_answer(rt: HostRuntime) {
    assert!(rt; beginnings(rt.alloc(), EACH_KIND) == Ok((9, 22_400)));
    for (mask, answer) in [
        (0xff, (133, 10_028)),
        (0x01, (147, 9_024)),
        (0x80, (133, 10_045)),
    ] {
        assert!(rt;
            changes(rt.alloc(), EACH_KIND, mask) == Ok(answer),
            "{mask}"
        );
    }
}

#[test]
fn what_is_nearly_a_later_batch_has_its_answer(rt: HostRuntime) {
    assert!(rt; beginnings(rt.alloc(), EACH_LATER_KIND) == Ok((6, 30_770)));
    for (mask, answer) in [
        (0xff, (130, 15_658)),
        (0x01, (146, 14_369)),
        (0x80, (131, 15_641)),
    ] {
        assert!(rt;
            changes(rt.alloc(), EACH_LATER_KIND, mask) == Ok(answer),
            "{mask}"
        );
    }
}
