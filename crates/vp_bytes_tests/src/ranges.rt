//! Fields that are read, or refused at a byte.

ghost use Rattle.std.specs.Prelude.{◌≡◌, ◌≤◌, ◌+◌, IfSome};
ghost use Rattle.vp_base.specs.Identifiers.{IsTxn};
ghost use Rattle.vp_base.specs.Reading.{txn_of};
ghost use Rattle.vp_bytes.specs.Ranges.{last_rank, next_rank};

use bytes::BytesMut;
use std::alloc::Global;
use vp_base::{Decision, LineFault, NoMemory, SiteId, Sites, TxnId};
use vp_bytes::{
    put_decisions, read_ascending_txn, read_decisions, read_sites, read_txn, read_txn_between,
    read_u16_within, read_u32_within, read_view,
};
use vp_contents::{Version, read_copies, read_doubts};
use vp_text::{Cursor, Unexpected};

// Rows of cases: the count of a row's bytes, then its result, and then the bytes. The result is how many bytes are left at the fault, or,
// where the field is read, 128 and how many come after it. One list of bytes is proved faster than a list of lists.

const VIEWS: &[u8] = b"\
    \x09\x80\0\0\0\0\0\0\0\0\0\
    \x09\x80\0\0\0\0\0\0\0\x01\x10\
    \x0a\x81\0\0\0\0\0\0\0\x01\x10\x07\
    \x00\x00\
    \x08\x00\0\0\0\0\0\0\0\x01\
    \x09\x01\0\0\0\0\0\0\0\0\x01\
    \x0a\x02\0\0\0\0\0\0\0\x01\x11\x07";

const TXNS: &[u8] = b"\
    \x09\x80\x01\0\0\0\x01\xff\xff\xff\xff\
    \x09\x09\0\0\0\0\x01\0\0\0\x01\
    \x09\x09\x11\0\0\0\x01\0\0\0\x01\
    \x09\x05\x10\0\0\0\0\0\0\0\x01\
    \x04\x00\x10\0\0\0\
    \x09\x01\x10\0\0\0\x01\0\0\0\0";

const SITES: &[u8] = b"\
    \x01\x80\0\
    \x03\x01\x02\x01\x01\
    \x01\x01\x11";

const SOME_SITES: &[u8] = b"\
    \x01\x01\0";

const NUMBERS_OF_16_BITS: &[u8] = b"\
    \x02\x80\x01\x02\
    \x02\x80\x03\x04\
    \x03\x81\x02\0\x09\
    \x02\x01\x01\x01\
    \x03\x02\x03\x05\0\
    \x02\x02\0\x09\
    \x02\x02\x04\0\
    \x01\x00\x01\
    \x00\x00";

const NUMBERS_OF_32_BITS: &[u8] = b"\
    \x04\x80\x01\x02\x03\x04\
    \x04\x80\x01\x03\x02\x01\
    \x04\x80\x01\x02\xff\xff\
    \x05\x81\x01\x03\0\0\xaa\
    \x04\x01\x01\x02\x03\x03\
    \x04\x01\x01\x03\x02\x02\
    \x04\x02\x01\x02\x02\xff\
    \x04\x02\x01\x03\x03\0\
    \x04\x03\x01\x01\xff\xff\
    \x04\x03\x01\x04\0\0\
    \x04\x04\0\xff\xff\xff\
    \x04\x04\x02\0\0\0\
    \x02\x00\x01\x02\
    \x03\x01\x01\x03\xff\
    \x01\x01\x02";

const TXNS_BETWEEN_TWO: &[u8] = b"\
    \x09\x80\x02\0\0\0\x05\0\0\0\x07\
    \x09\x80\x04\0\0\0\x01\0\0\0\x03\
    \x09\x80\x03\0\0\0\x01\0\0\0\x01\
    \x09\x80\x03\xff\xff\xff\xff\xff\xff\xff\xff\
    \x09\x80\x02\0\0\0\x05\0\0\0\x08\
    \x09\x80\x02\0\0\0\x06\0\0\0\x01\
    \x0a\x81\x04\0\0\0\x01\0\0\0\x01\x01\
    \x09\x01\x02\0\0\0\x05\0\0\0\x06\
    \x09\x01\x04\0\0\0\x01\0\0\0\x04\
    \x09\x05\x02\0\0\0\x04\0\0\0\x09\
    \x09\x05\x04\0\0\0\x02\0\0\0\x01\
    \x09\x09\x01\0\0\0\x09\0\0\0\x09\
    \x09\x09\x05\0\0\0\x01\0\0\0\x01\
    \x09\x05\x03\0\0\0\0\0\0\0\x01\
    \x09\x01\x03\0\0\0\x01\0\0\0\0\
    \x09\x01\x02\0\0\0\x06\0\0\0\0\
    \x01\x00\x04\
    \x08\x00\x02\0\0\0\x05\0\0\0\
    \x01\x01\0\
    \x00\x00";

const TXNS_BETWEEN_ONE: &[u8] = b"\
    \x09\x80\x02\0\0\0\x05\0\0\0\x07\
    \x09\x01\x02\0\0\0\x05\0\0\0\x08\
    \x09\x05\x02\0\0\0\x06\0\0\0\x07\
    \x09\x09\x03\0\0\0\x05\0\0\0\x07\
    \x09\x01\x02\0\0\0\x05\0\0\0\x06";

const SOME_COPIES: &[u8] = b"\
    \x02\x80\0\0\
    \x0f\x80\0\x01\xff\x02ab\0\0\0\0\0\0\0\x01\x02\
    \x1b\x81\0\x02\0\x01a\0\0\0\0\0\0\0\0\0\x01\x01a\0\0\0\0\0\0\0\0\0!\
    \x1a\x80\0\x02\xfe\x01a\0\0\0\0\0\0\0\0\0\xff\x01a\0\0\0\0\0\0\0\0\0\
    \x1a\x18\0\x02\xff\x01a\0\0\0\0\0\0\0\0\0\xff\x01a\0\0\0\0\0\0\0\0\0\
    \x1a\x0c\0\x02\x07\x01a\0\0\0\0\0\0\0\0\0\x07\x01a\0\0\0\0\0\0\0\0\0\
    \x1a\x0c\0\x02\x07\x01a\0\0\0\0\0\0\0\0\0\x06\x01a\0\0\0\0\0\0\0\0\0\
    \x0e\x0c\x01\0\x01\x01a\0\0\0\0\0\0\0\0\0\
    \x26\x0c\x01\0\0\x01a\0\0\0\0\0\0\0\0\0\x01\x01a\0\0\0\0\0\0\0\0\0\x03\x01a\0\0\0\0\0\0\0\0\0\
    \x02\x01\x01\x01\
    \x02\x02\x02\0\
    \x04\x01\0\x01\x05\0\
    \x05\x01\0\x01\x05\x01\x20\
    \x0e\x01\0\x01\x05\x01a\0\0\0\0\0\0\0\0\x01\
    \x01\x00\x01\
    \x01\x01\x02\
    \x00\x00";

const SOME_DOUBTS: &[u8] = b"\
    \x08\x80\0\0\0\0\0\0\0\0\
    \x1e\x80\0\0\0\0\0\0\0\x01\x10\xff\xff\xff\xff\xff\xff\xff\xff\0\0\0\0\0\0\0\x01\x02\x01\x03\x01x\
    \x1a\x01\0\0\0\0\0\0\0\x01\x01\0\0\0\x01\0\0\0\x01\0\0\0\0\0\0\0\0\x01\
    \x1f\x01\0\0\0\0\0\0\0\x01\x01\0\0\0\x01\0\0\0\x01\0\0\0\0\0\0\0\0\0\x02\x09\x01a\x09\
    \x05\x00\0\0\0\0\0\
    \x00\x00";

const ASCENDING_DOUBTS: &[u8] = b"\
    \x2e\x80\0\0\0\0\0\0\0\x02\x01\0\0\0\x01\0\0\0\x01\0\0\0\0\0\0\0\0\0\0\x01\0\0\0\x01\0\0\0\x02\0\0\0\0\0\0\0\0\0\0\
    \x2f\x81\0\0\0\0\0\0\0\x02\x10\xff\xff\xff\xff\xff\xff\xff\xfe\0\0\0\0\0\0\0\0\0\0\x10\xff\xff\xff\xff\xff\xff\xff\xff\0\0\0\0\0\0\0\0\0\0!\
    \x1b\x0b\0\0\0\0\0\0\0\x02\x10\xff\xff\xff\xff\xff\xff\xff\xff\0\0\0\0\0\0\0\0\0\0\
    \x2e\x0b\0\0\0\0\0\0\0\x02\x01\0\0\0\x01\0\0\0\x01\0\0\0\0\0\0\0\0\0\0\x01\0\0\0\x01\0\0\0\x01\0\0\0\0\0\0\0\0\0\0\
    \x2e\x0b\0\0\0\0\0\0\0\x02\x02\0\0\0\x03\0\0\0\x04\0\0\0\0\0\0\0\0\0\0\x02\0\0\0\x03\0\0\0\x03\0\0\0\0\0\0\0\0\0\0\
    \x2e\x0f\0\0\0\0\0\0\0\x02\x02\0\0\0\x03\0\0\0\x04\0\0\0\0\0\0\0\0\0\0\x02\0\0\0\x02\0\0\0\x09\0\0\0\0\0\0\0\0\0\0\
    \x2e\x13\0\0\0\0\0\0\0\x02\x02\0\0\0\x03\0\0\0\x04\0\0\0\0\0\0\0\0\0\0\x01\0\0\0\x09\0\0\0\x09\0\0\0\0\0\0\0\0\0\0\
    \x24\x05\0\0\0\0\0\0\0\x02\x02\0\0\0\x03\xff\xff\xff\xff\0\0\0\0\0\0\0\0\0\0\x02\0\0\0\x03\xff\xff\xff\xff\
    \x24\x09\0\0\0\0\0\0\0\x02\x02\xff\xff\xff\xff\xff\xff\xff\xff\0\0\0\0\0\0\0\0\0\0\x02\xff\xff\xff\xff\xff\xff\xff\xff\
    \x20\x01\0\0\0\0\0\0\0\x02\x02\xff\xff\xff\xff\xff\xff\xff\xff\0\0\0\0\0\0\0\0\0\0\x03\0\0\0\0";

/// A great count leaves room for its last transaction.
const MANY_DOUBTS: &[u8] = b"\
    \x09\x01\xff\xff\xff\xff\xff\xff\xff\xff\x10\
    \x09\x00\xff\xff\xff\xff\xff\xff\xff\xff\x0f\
    \x0d\x00\xff\xff\xff\xfe\0\0\0\0\x0f\xff\xff\xff\xff\
    \x11\x00\xff\xff\xff\xff\xff\xff\xff\xff\x0f\0\0\0\x01\0\0\0\x01\
    \x11\x00\xff\xff\xff\xff\xff\xff\xff\xff\x0f\xff\xff\xff\xfe\0\0\0\x01\
    \x11\x01\xff\xff\xff\xff\xff\xff\xff\xff\x0f\xff\xff\xff\xfe\0\0\0\x02\
    \x11\x05\xff\xff\xff\xff\xff\xff\xff\xff\x0f\xff\xff\xff\xff\0\0\0\x01\
    \x0d\x01\xff\xff\xff\xff\xff\xff\xff\xff\x0f\xff\xff\xff\xff\
    \x25\x00\xff\xff\xff\xff\xff\xff\xff\xff\x0f\xff\xff\xff\xfe\0\0\0\x01\0\0\0\0\0\0\0\0\0\0\x0f\xff\xff\xff\xfe\0\0\0\x02\xff\
    \x24\x01\xff\xff\xff\xff\xff\xff\xff\xff\x0f\xff\xff\xff\xfe\0\0\0\x01\0\0\0\0\0\0\0\0\0\0\x0f\xff\xff\xff\xfe\0\0\0\x01\
    \x24\x01\xff\xff\xff\xff\xff\xff\xff\xff\x0f\xff\xff\xff\xfe\0\0\0\x01\0\0\0\0\0\0\0\0\0\0\x0f\xff\xff\xff\xfe\0\0\0\x03";

const SOME_DECISIONS: &[u8] = b"\
    \x08\x80\0\0\0\0\0\0\0\0\
    \x14\x80\0\0\0\0\0\0\0\x01\x10\xff\xff\xff\xff\xff\xff\xff\xff\x02\x02\x10\
    \x1e\x80\0\0\0\0\0\0\0\x02\x10\xff\xff\xff\xff\xff\xff\xff\xfe\x01\x01\x10\xff\xff\xff\xff\xff\xff\xff\xff\x01\x01\
    \x21\x81\0\0\0\0\0\0\0\x02\x01\0\0\0\x01\0\0\0\x01\x01\x01\x01\0\0\0\x01\0\0\0\x02\x03\x01\x02\x03!\
    \x13\x03\0\0\0\0\0\0\0\x02\x10\xff\xff\xff\xff\xff\xff\xff\xff\x01\x01\
    \x1e\x03\0\0\0\0\0\0\0\x02\x01\0\0\0\x01\0\0\0\x02\x01\x01\x01\0\0\0\x01\0\0\0\x02\x01\x01\
    \x1e\x03\0\0\0\0\0\0\0\x02\x01\0\0\0\x01\0\0\0\x02\x01\x01\x01\0\0\0\x01\0\0\0\x01\x01\x01\
    \x12\x01\0\0\0\0\0\0\0\x01\x01\0\0\0\x01\0\0\0\x01\0\
    \x14\x01\0\0\0\0\0\0\0\x01\x01\0\0\0\x01\0\0\0\x01\x02\x03\x03\
    \x09\x01\xff\xff\xff\xff\xff\xff\xff\xff\x10\
    \x09\x01\0\0\0\0\0\0\0\x01\0\
    \x00\x00";

/// The field that is read.
#[derive(Clone, Copy, Drop)]
enum Field {
    View,
    Txn,
    U16,
    U32,
    TxnBetweenTwo,
    TxnBetweenOne,
    Sites,
    SomeSites,
    Copies,
    Doubts,
    Decisions,
}

/// The fault of a field that needs no memory.
fn fault<T: Drop>(read: Result<T, Unexpected>) -> Option<LineFault> {
    match read {
        Ok(_value) => None,
        Err(e) => Some(LineFault::Unexpected(e)),
    }
}

/// The fault of a field that needs memory.
fn line_fault<T: Drop>(read: Result<T, LineFault>) -> Option<LineFault> {
    match read {
        Ok(_value) => None,
        Err(fault) => Some(fault),
    }
}

fn txn(site: u8, life: u32, seq: u32) -> TxnId
    requires { (1 ≤ site) × (site ≤ 16) }
    ensures { result ≡ txn_of site life seq }
{
    TxnId {
        site: SiteId::of(site),
        life,
        seq,
    }
}

/// Reads the field.
fn read(alloc: Global, cursor: &mut Cursor, field: Field) -> Option<LineFault> {
    let low = txn(2, 5, 7);
    match field {
        Field::View => fault(read_view(cursor)),
        Field::Txn => fault(read_txn(cursor)),
        Field::U16 => fault(read_u16_within(cursor, 258, 772)),
        Field::U32 => fault(read_u32_within(cursor, 0x01020304, 0x01030201)),
        Field::TxnBetweenTwo => fault(read_txn_between(cursor, &low, &txn(4, 1, 3))),
        Field::TxnBetweenOne => fault(read_txn_between(cursor, &low, &low)),
        Field::Sites => line_fault(read_sites(alloc, cursor, 0)),
        Field::SomeSites => line_fault(read_sites(alloc, cursor, 1)),
        Field::Copies => line_fault(read_copies(alloc, cursor, Version::First)),
        Field::Doubts => line_fault(read_doubts(alloc, cursor, Version::First)),
        Field::Decisions => line_fault(read_decisions(alloc, cursor)),
    }
}

/// The result of a row, if there is memory.
fn answer(alloc: Global, field: Field, bytes: &[u8]) -> Option<usize> {
    let mut cursor = Cursor::new(bytes);
    match read(alloc, &mut cursor, field) {
        None => Some(cursor.rest().len().saturating_add(128)),
        Some(LineFault::Unexpected(e)) => Some(e.left),
        Some(LineFault::NoMemory) => None,
    }
}

/// How many rows have their result, up to the first that has another one.
fn rows_answered(alloc: Global, field: Field, rows: &[u8]) -> usize {
    let mut rest = rows;
    for row in 0..rows.len() {
        let [count, expected, following @ ..] = rest else {
            return row;
        };
        let (bytes, others) = following.split_at(usize::from(*count).min(following.len()));
        if answer(alloc, field, bytes) != Some(usize::from(*expected)) {
            return row;
        }
        rest = others;
    }
    rows.len()
}

#[test]
fn views_and_transactions_are_refused_at_their_places(rt: HostRuntime) {
    assert!(rt; rows_answered(rt.alloc(), Field::View, VIEWS) == 7);
    assert!(rt; rows_answered(rt.alloc(), Field::Txn, TXNS) == 6);
}

#[test]
fn numbers_between_two_are_refused_at_their_places(rt: HostRuntime) {
    assert!(rt; rows_answered(rt.alloc(), Field::U16, NUMBERS_OF_16_BITS) == 9);
    assert!(rt; rows_answered(rt.alloc(), Field::U32, NUMBERS_OF_32_BITS) == 15);
}

#[test]
fn transactions_between_two_are_refused_at_their_places(rt: HostRuntime) {
    assert!(rt; rows_answered(rt.alloc(), Field::TxnBetweenTwo, TXNS_BETWEEN_TWO) == 20);
    assert!(rt; rows_answered(rt.alloc(), Field::TxnBetweenOne, TXNS_BETWEEN_ONE) == 5);
}

#[test]
fn no_site_is_read_only_where_none_may_stand(rt: HostRuntime) {
    assert!(rt; rows_answered(rt.alloc(), Field::Sites, SITES) == 3);
    assert!(rt; rows_answered(rt.alloc(), Field::SomeSites, SOME_SITES) == 1);
}

#[test]
fn copies_and_decisions_are_refused_at_their_places(rt: HostRuntime) {
    assert!(rt; rows_answered(rt.alloc(), Field::Copies, SOME_COPIES) == 17);
    assert!(rt; rows_answered(rt.alloc(), Field::Decisions, SOME_DECISIONS) == 12);
}

#[test]
fn transactions_in_doubt_are_refused_at_their_places(rt: HostRuntime) {
    assert!(rt; rows_answered(rt.alloc(), Field::Doubts, SOME_DOUBTS) == 6);
    assert!(rt; rows_answered(rt.alloc(), Field::Doubts, ASCENDING_DOUBTS) == 10);
    assert!(rt; rows_answered(rt.alloc(), Field::Doubts, MANY_DOUBTS) == 11);
}

const DECISIONS: &[u8] =
    b"\0\0\0\0\0\0\0\x02\x01\0\0\0\x02\0\0\0\x03\x02\x01\x10\x01\0\0\0\x02\0\0\0\x04\x01\x07";

/// Writes two decisions, which wait for two sites and for one.
fn put_two_decisions(out: &mut BytesMut, alloc: Global) -> Result<(), NoMemory> {
    let sites = vec![in alloc; SiteId::of(1), SiteId::of(16)]?;
    let others = vec![in alloc; SiteId::of(7)]?;
    let first = Decision {
        txn: txn(1, 2, 3),
        waiting: Sites::from_vec(sites),
    };
    let last = Decision {
        txn: txn(1, 2, 4),
        waiting: Sites::from_vec(others),
    };
    put_decisions(out, &[first, last])
}

#[test]
fn decisions_have_their_bytes(rt: HostRuntime) {
    let mut out = BytesMut::new(rt.alloc());
    put_two_decisions(&mut out, rt.alloc()).expect(&rt, "memory");
    assert!(rt; out.as_slice() == DECISIONS);
    assert!(rt; answer(rt.alloc(), Field::Decisions, DECISIONS) == Some(128));
}

/// How many bytes are left at the fault of a transaction that must be above the last one and be followed by so many others.
fn ascending_left(bytes: &[u8], last: Option<TxnId>, following: u64) -> Option<usize>
    requires last { IfSome last IsTxn }
    requires room { next_rank last + following ≤ last_rank }
{
    match read_ascending_txn(&mut Cursor::new(bytes), last, following) {
        Ok(_txn) => None,
        Err(e) => Some(e.left),
    }
}

#[test]
#[tactic(auto, unfolding(vp_bytes::specs::Ranges::rank))]
fn the_next_transaction_leaves_room_for_those_after_it(rt: HostRuntime) {
    let top = b"\x10\xff\xff\xff\xff\xff\xff\xff\xff";
    assert!(rt; ascending_left(top, None, 0).is_none());
    assert!(rt; ascending_left(top, None, 1) == Some(1));
}

#[test]
#[tactic(auto, unfolding(vp_bytes::specs::Ranges::rank))]
fn after_the_last_of_a_life_comes_the_next_life(rt: HostRuntime) {
    let same = ascending_left(b"\x01\0\0\0\x01\0\0\0\x01", Some(txn(1, 1, u32::MAX)), 0);
    assert!(rt; same == Some(5));
    let next = ascending_left(b"\x01\0\0\0\x02\0\0\0\x01", Some(txn(1, 1, u32::MAX)), 0);
    assert!(rt; next.is_none());
}

#[test]
#[tactic(auto, unfolding(vp_bytes::specs::Ranges::rank))]
fn after_the_last_of_a_site_comes_the_next_site(rt: HostRuntime) {
    let last = txn(1, u32::MAX, u32::MAX);
    let same = ascending_left(b"\x01\0\0\0\x02\0\0\0\x01", Some(last), 0);
    assert!(rt; same == Some(9));
    let last = txn(1, u32::MAX, u32::MAX);
    let next = ascending_left(b"\x02\0\0\0\x01\0\0\0\x01", Some(last), 0);
    assert!(rt; next.is_none());
}
