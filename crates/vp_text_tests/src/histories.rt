//! Histories that are made, read, printed, refused and checked.

use std::alloc::Global;
use std::process::Abort;
use vp_base::{
    Commit, CopyOf, Name, Names, Op, Ops, RecId, Seq, SiteId, Tables, TxnId, Value, ViewId,
};
use vp_onecopy::{
    History, HistoryFault, Map, PlayFault, Verdict, check, order, play, print_history, read_history,
};

fn value(rt: &impl Abort, alloc: Global, text: &[u8]) -> Value {
    Value::read(alloc, text).expect(rt, "a value")
}

fn read(rt: &impl Abort, alloc: Global, rec: u8, text: &[u8]) -> Op {
    Op::Read {
        rec: RecId::new(rec),
        value: Some(value(rt, alloc, text)),
    }
}

fn write(rt: &impl Abort, alloc: Global, rec: u8, text: &[u8]) -> Op {
    Op::Write {
        rec: RecId::new(rec),
        value: Some(value(rt, alloc, text)),
    }
}

fn commit(alloc: Global, seq: u32, view: ViewId, ops: Vec<Op>) -> Commit {
    Commit {
        txn: TxnId {
            site: SiteId::of(1),
            life: 1,
            seq,
        },
        view,
        ops: Ops::from_vec(ops),
        tables: Tables::new(alloc),
    }
}

/// The values 10 and 20.
fn two_values(rt: &impl Abort, alloc: Global) -> Seq<Value> {
    let values = vec![in alloc; value(rt, alloc, b"10"), value(rt, alloc, b"20")].expect(
        rt, "memory",
    );
    Seq::from_vec(values)
}

/// Whether the content is this value.
fn has_value(content: &Option<Value>, word: &[u8]) -> bool {
    match content {
        None => false,
        Some(value) => value.is(word),
    }
}

/// Whether the second operation differs: it read 20, where 21 is kept.
fn differs(played: Result<(), PlayFault>) -> bool {
    match played {
        Err(PlayFault::Differs { op, kept, read }) => {
            op == 2 && has_value(&kept, b"21") && has_value(&read, b"20")
        }
        Ok(()) | Err(PlayFault::NoMemory) => false,
    }
}

/// Whether a write of record 1 and then a read of another value differ, on a copy of two records.
fn plays_to_a_difference(rt: &impl Abort, alloc: Global, copy: &mut Map) -> bool {
    let rec = RecId::new(1);
    let written = Some(value(rt, alloc, b"21"));
    let read = Some(value(rt, alloc, b"20"));
    let mut ops = Ops::new(alloc);
    ops.push(Op::Write {
        rec,
        value: written,
    })
    .expect(rt, "memory");
    ops.push(Op::Read { rec, value: read }).expect(rt, "memory");
    copy.as_slice().len() == 2 && differs(play(copy, &ops))
}

#[test]
fn a_read_has_the_value_that_was_written(rt: HostRuntime) {
    let values = two_values(&rt, rt.alloc());
    let mut copy = Map::starting(rt.alloc(), values.as_slice()).expect(&rt, "memory");
    assert!(rt; plays_to_a_difference(&rt, rt.alloc(), &mut copy));
    let left = copy.copy_of().expect(&rt, "memory");
    assert!(rt; matches!(left.as_slice(), [first, ..] if has_value(first, b"10")));
}

/// Makes a journal whose second transaction commits in the opening view, after a commit in the next view.
fn journal(rt: &impl Abort, alloc: Global) -> Vec<Commit> {
    let opening = ViewId { number: 0, site: 0 };
    let next = ViewId { number: 1, site: 1 };
    let mut journal = Vec::new(alloc);
    let ops = vec![in alloc; read(rt, alloc, 0, b"10"), write(rt, alloc, 0, b"11")].expect(
        rt, "memory",
    );
    journal
        .push(commit(alloc, 1, opening, ops))
        .expect(rt, "memory");
    let ops = vec![in alloc; read(rt, alloc, 0, b"11")].expect(rt, "memory");
    journal
        .push(commit(alloc, 3, next, ops))
        .expect(rt, "memory");
    let ops = vec![in alloc; write(rt, alloc, 1, b"21")].expect(rt, "memory");
    journal
        .push(commit(alloc, 2, opening, ops))
        .expect(rt, "memory");
    journal
}

/// The names `x` and `y`.
fn names(rt: &impl Abort, alloc: Global) -> Names {
    let mut names = Names::new(alloc);
    for text in [b"x", b"y"] {
        let name = Name::read(alloc, text).expect(rt, "a name");
        names.push(name).expect(rt, "memory");
    }
    names
}

fn history(rt: &impl Abort, alloc: Global) -> History {
    History {
        names: names(rt, alloc),
        start: two_values(rt, alloc),
        commits: order(alloc, &journal(rt, alloc)).expect(rt, "memory"),
    }
}

fn printed(rt: &impl Abort, alloc: Global, history: &History) -> Vec<u8> {
    let mut out = Vec::new(alloc);
    print_history(history, &mut out).expect(rt, "memory");
    out
}

#[test]
fn a_late_commit_stands_in_its_view(rt: HostRuntime) {
    let lines =
        b"history\nstart x 10\nstart y 20\ncommit 1.1.1 0@0 r x 10 w x 11\ncommit 1.1.2 0@0 w y 21\ncommit 1.1.3 1@1 r x 11\nend 3\n";
    let printed = printed(&rt, rt.alloc(), &history(&rt, rt.alloc()));
    assert_eq!(rt; printed.as_slice(), lines.as_slice());
}

fn fault(alloc: Global, text: &[u8]) -> Option<HistoryFault> {
    match read_history(alloc, text) {
        Ok(_history) => None,
        Err(e) => Some(e),
    }
}

fn bad(line: usize, at: usize) -> Option<HistoryFault> {
    Some(HistoryFault::BadLine { line, at })
}

#[test]
fn histories_are_refused_at_their_places(rt: HostRuntime) {
    let cases: [(&[u8], Option<HistoryFault>); 12] = [
        (b"", bad(1, 1)),
        (
            b"history\nstart x 10\ncommit 1.1.1 0@0 r y 10\n",
            bad(3, 20),
        ),
        (
            b"history\nstart x 10\nstart x 11\n",
            Some(HistoryFault::Twice { line: 3 }),
        ),
        (
            b"history\nstart x 10\ncommit 1.1.1 1@2\ncommit 2.1.1 0@0\n",
            bad(4, 14),
        ),
        (b"history\nstart x 10\nend 1\n", bad(3, 5)),
        (b"history\nstart x 10\nend 0\nx", bad(4, 1)),
        (b"history\nstart x 10\ncommit 1.1.1 0@0 a y\n", bad(3, 20)),
        (b"history\nstart x 10\ncommit 1.1.1 0@0 d x 1\n", bad(3, 22)),
        (b"1 tick\n\nhistory\nstart x 10\nend 0", bad(5, 6)),
        (b"1 tick\nhistor", bad(2, 7)),
        (
            b"history\nstart ab 1\nstart abcd 2\ncommit 1.1.1 0@0 r abc 1\n",
            bad(4, 23),
        ),
        (b"history\ncommit 1.1.1 5@2 r x 1\n", bad(2, 17)),
    ];
    for (text, at) in cases {
        assert_eq!(rt; fault(rt.alloc(), text), at);
    }
}

fn verdict(rt: &impl Abort, alloc: Global, text: &[u8]) -> Verdict {
    let history = read_history(alloc, text).expect(rt, "a history");
    let start = Map::starting(alloc, history.start.as_slice()).expect(rt, "memory");
    check(&start, history.commits.as_slice()).expect(rt, "memory")
}

/// Whether the first operation of transaction 2 differs: it read 10 of record 0, where 11 is kept.
fn is_difference(verdict: &Verdict) -> bool {
    match verdict {
        Verdict::Serial { .. } => false,
        Verdict::Differs {
            txn,
            op,
            rec,
            kept,
            read,
        } => (txn.seq, *op, rec.get()) == (2, 1, 0)
            && has_value(kept, b"11")
            && has_value(read, b"10"),
    }
}

#[test]
fn the_first_difference_is_told(rt: HostRuntime) {
    let serial = b"history\nstart x 10\ncommit 1.1.1 0@0 w x 11\ncommit 1.1.2 0@0 r x 11\nend 2\n";
    assert!(rt; matches!(verdict(&rt, rt.alloc(), serial), Verdict::Serial { .. }));
    let differs = b"history\nstart x 10\ncommit 1.1.1 0@0 w x 11\ncommit 1.1.2 0@0 r x 10\nend 2\n";
    assert!(rt; is_difference(&verdict(&rt, rt.alloc(), differs)));
}

#[test]
fn what_was_read_is_printed(rt: HostRuntime) {
    let lines =
        b"history\nstart x 10\nstart y 20\ncommit 1.1.1 0@0 r x 10 w y 21\ncommit 16.2.3 7@3\nend 2\n";
    let history = read_history(rt.alloc(), lines).expect(&rt, "a history");
    let printed = printed(&rt, rt.alloc(), &history);
    assert_eq!(rt; printed.as_slice(), lines.as_slice());
}

/// Whether all is serial, and the first record is left with this value.
fn is_serial_to(verdict: &Verdict, word: &[u8]) -> bool {
    match verdict {
        Verdict::Serial { map } => match map.as_slice().first() {
            Some(content) => has_value(content, word),
            None => false,
        },
        Verdict::Differs { .. } => false,
    }
}

#[test]
fn an_absent_record_is_read_and_written_again(rt: HostRuntime) {
    let lines =
        b"history\nstart x 10\ncommit 1.1.1 0@0 d x a x\ncommit 1.1.2 0@0 a x w x 5\nend 2\n";
    let history = read_history(rt.alloc(), lines).expect(&rt, "a history");
    let printed = printed(&rt, rt.alloc(), &history);
    assert_eq!(rt; printed.as_slice(), lines.as_slice());
    assert!(rt; is_serial_to(&verdict(&rt, rt.alloc(), lines), b"5"));
}

/// Whether a read of a value or of none differs from what is kept.
fn is_absent_difference(verdict: &Verdict, is_kept: bool, is_read: bool) -> bool {
    match verdict {
        Verdict::Serial { .. } => false,
        Verdict::Differs { kept, read, .. } => kept.is_some() == is_kept
            && read.is_some() == is_read,
    }
}

#[test]
fn a_deleted_value_is_not_read(rt: HostRuntime) {
    let deleted = b"history\nstart x 10\ncommit 1.1.1 0@0 d x\ncommit 1.1.2 0@0 r x 10\nend 2\n";
    assert!(rt; is_absent_difference(&verdict(&rt, rt.alloc(), deleted), false, true));
    let kept = b"history\nstart x 10\ncommit 1.1.1 0@0 a x\nend 1\n";
    assert!(rt; is_absent_difference(&verdict(&rt, rt.alloc(), kept), true, false));
}
