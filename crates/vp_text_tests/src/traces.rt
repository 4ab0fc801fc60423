//! Each kind of message, of event and of what an event shows, as the lines of a trace.

use std::alloc::Global;
use std::process::Abort;
use vp_base::{
    Answer, Boxed, Call, CallNo, Change, Commit, Commits, Event, Message, Messages, OPENING,
    Obstacle, Ops, Owner, Put, RecId, Replies, Reply, Sent, Seq, Shown, SiteId, Stored, Tables,
    TxnId, Value, ViewId,
};
use vp_catalog::Catalog;
use vp_trace::{LentLine, print_line};

const VIEW: ViewId = ViewId { number: 1, site: 2 };

fn txn() -> TxnId {
    TxnId {
        site: SiteId::of(2),
        life: 1,
        seq: 3,
    }
}

fn number(rt: &impl Abort) -> CallNo {
    CallNo::new(4).expect(rt, "a number")
}

fn value(rt: &impl Abort, alloc: Global) -> Value {
    Value::read(alloc, b"11").expect(rt, "a value")
}

fn boxed<T: Drop>(rt: &impl Abort, alloc: Global, value: T) -> Boxed<T> {
    Boxed::new(alloc, value).expect(rt, "memory")
}

/// The list of this item alone.
fn only<T: Drop>(rt: &impl Abort, alloc: Global, item: T) -> Seq<T> {
    let mut list = Seq::new(alloc);
    list.push(item).expect(rt, "memory");
    list
}

fn of_views(rt: &impl Abort, alloc: Global, kind: u8) -> Message {
    let (id, view, rec) = (VIEW, VIEW, RecId::new(0));
    match kind {
        0 => Message::Invite { id },
        1 => Message::Accept { id },
        2 => Message::Stale {
            id,
            promise: OPENING,
        },
        3 => {
            let mut members = only(rt, alloc, SiteId::of(1));
            members.push(SiteId::of(2)).expect(rt, "memory");
            Message::ViewCommit { id, members }
        }
        4 => Message::Probe { view },
        5 => Message::RefreshRequest { view, rec },
        _ => {
            let stored = Stored {
                value: Some(value(rt, alloc)),
                table: None,
                date: OPENING,
            };
            let stored = boxed(rt, alloc, stored);
            Message::RefreshAnswer { view, rec, stored }
        }
    }
}

fn obstacle(kind: u8) -> Obstacle {
    match kind {
        11 => Obstacle::Held {
            owner: Owner::Refresh,
        },
        12 => Obstacle::Held {
            owner: Owner::Txn(txn()),
        },
        13 => Obstacle::OtherView { now: Some(VIEW) },
        _ => Obstacle::OtherView { now: None },
    }
}

fn of_calls(rt: &impl Abort, alloc: Global, kind: u8) -> Message {
    let (txn, view, number, rec) = (txn(), OPENING, number(rt), RecId::new(0));
    match kind {
        7 => Message::ReadRequest {
            txn,
            view,
            number,
            rec,
        },
        8 => Message::ReadAnswer {
            txn,
            number,
            value: Some(boxed(rt, alloc, value(rt, alloc))),
        },
        9 => Message::WriteRequest {
            txn,
            view,
            number,
            rec,
        },
        10 => Message::WriteAnswer { txn, number },
        _ => Message::Refuse {
            txn,
            number,
            why: obstacle(kind),
        },
    }
}

fn prepare(rt: &impl Abort, alloc: Global) -> Message {
    let reads = only(rt, alloc, RecId::new(0));
    let change = Change {
        put: Put::Value {
            value: value(rt, alloc),
        },
        table: None,
    };
    let writes = only(rt, alloc, (RecId::new(0), change));
    Message::Prepare {
        txn: txn(),
        view: OPENING,
        number: number(rt),
        reads: boxed(rt, alloc, reads),
        writes: boxed(rt, alloc, writes),
    }
}

fn of_ends(rt: &impl Abort, alloc: Global, kind: u8) -> Message {
    let txn = txn();
    match kind {
        15 => prepare(rt, alloc),
        16 => Message::Vote { txn },
        17 => Message::Outcome { txn, commit: true },
        18 => Message::Outcome { txn, commit: false },
        19 => Message::Ack { txn },
        _ => Message::Inquire { txn },
    }
}

fn messages(rt: &impl Abort, alloc: Global, kind: u8) -> Messages {
    let message = match kind {
        ..=6 => of_views(rt, alloc, kind),
        ..=14 => of_calls(rt, alloc, kind),
        _ => of_ends(rt, alloc, kind),
    };
    let (from, to) = (SiteId::of(1), SiteId::of(2));
    only(rt, alloc, Sent { from, to, message })
}

/// A message of a kind.
fn sent(rt: &impl Abort, alloc: Global, kind: u8) -> Shown {
    Shown::Step {
        commits: Commits::new(alloc),
        first: 7,
        messages: messages(rt, alloc, kind),
        replies: Replies::new(alloc),
    }
}

fn commits(rt: &impl Abort, alloc: Global) -> Commits {
    let commit = Commit {
        txn: txn(),
        view: OPENING,
        ops: Ops::new(alloc),
        tables: Tables::new(alloc),
    };
    only(rt, alloc, commit)
}

fn replies(rt: &impl Abort, alloc: Global) -> Replies {
    let reply = Reply {
        to: 0,
        answer: Answer::Unknown { txn: txn() },
    };
    only(rt, alloc, reply)
}

/// A commit, a message and a reply.
fn step(rt: &impl Abort, alloc: Global) -> Shown {
    Shown::Step {
        commits: commits(rt, alloc),
        first: 7,
        messages: messages(rt, alloc, 19),
        replies: replies(rt, alloc),
    }
}

fn shown(rt: &impl Abort, alloc: Global, kind: u8) -> Shown {
    let (from, site) = (SiteId::of(1), SiteId::of(2));
    match kind {
        ..=20 => sent(rt, alloc, kind),
        21 => step(rt, alloc),
        22 => Shown::Nothing,
        23 => Shown::NoMessage,
        24 => Shown::Down { site },
        25 => Shown::Parted { from, to: site },
        26 => Shown::Up { site },
        27 => Shown::Life { life: 5 },
        _ => Shown::LivesSpent { life: 5 },
    }
}

fn event(kind: u8) -> Event {
    let (other, site) = (SiteId::of(1), SiteId::of(2));
    match kind {
        0 => Event::Call {
            site,
            call: Call::Begin,
        },
        1 => Event::Deliver { k: 9 },
        2 => Event::Flow { count: 6 },
        3 => Event::Tick { site },
        4 => Event::Probe { site },
        5 => Event::Cut { a: other, b: site },
        6 => Event::Heal { a: site, b: other },
        7 => Event::Crash { site },
        _ => Event::Restart { site },
    }
}

const PRINTED: &str = "\
1 call 2 begin
 sent 7 1>2 invite 1@2
2 deliver 9
 sent 7 1>2 accept 1@2
3 flow 6
 sent 7 1>2 stale 1@2 0@0
4 tick 2
 sent 7 1>2 view 1@2 1,2
5 probe 2
 sent 7 1>2 probe 1@2
6 cut 1 2
 sent 7 1>2 refresh-request 1@2 x
7 heal 2 1
 sent 7 1>2 refresh-answer 1@2 x 11 0@0
8 crash 2
 sent 7 1>2 read-request 2.1.3 0@0 4 x
9 restart 2
 sent 7 1>2 read-answer 2.1.3 4 11
10 call 2 begin
 sent 7 1>2 write-request 2.1.3 0@0 4 x
11 deliver 9
 sent 7 1>2 write-answer 2.1.3 4
12 flow 6
 sent 7 1>2 refuse 2.1.3 4 held refresh
13 tick 2
 sent 7 1>2 refuse 2.1.3 4 held 2.1.3
14 probe 2
 sent 7 1>2 refuse 2.1.3 4 view 1@2
15 cut 1 2
 sent 7 1>2 refuse 2.1.3 4 view none
16 heal 2 1
 sent 7 1>2 prepare 2.1.3 0@0 4 r x w x 11
17 crash 2
 sent 7 1>2 vote 2.1.3
18 restart 2
 sent 7 1>2 outcome 2.1.3 commit
19 call 2 begin
 sent 7 1>2 outcome 2.1.3 abort
20 deliver 9
 sent 7 1>2 ack 2.1.3
21 flow 6
 sent 7 1>2 inquire 2.1.3
22 tick 2
 commit 2.1.3 0@0
 sent 7 1>2 ack 2.1.3
 reply unknown 2.1.3
23 probe 2
24 cut 1 2
 nomessage
25 heal 2 1
 down 2
26 crash 2
 cut 1 2
27 restart 2
 up 2
28 call 2 begin
 life 5
29 deliver 9
 lives spent 5
";

#[test]
fn lines_are_printed(rt: HostRuntime) {
    let text = b"site 1 7001\nsite 2 7002\nrecord x 10 1:1 2:1\n";
    let catalog = Catalog::read(rt.alloc(), text).expect(&rt, "a catalogue");
    let mut out = Vec::new(rt.alloc());
    for kind in 0..29u8 {
        let (happens, gives) = (event(kind % 9), shown(&rt, rt.alloc(), kind));
        let line = LentLine {
            event: &happens,
            shown: &gives,
        };
        print_line(u32::from(kind) + 1, &line, &catalog, &mut out).expect(&rt, "memory");
    }
    assert_eq!(rt; out.as_slice(), PRINTED.as_bytes());
}
