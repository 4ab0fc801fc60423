//! Runs of the program over sources and sinks in memory.

use crate::{answers, is_printed, run_alone, words};
use std::alloc::Global;
use std::process::Abort;
use vp_outside::{TextSink, TextSource};
use vp_status::Status;
use vp_top::MOST_BYTES;

const HEAD: &str = "site 1 7001\nrecord x 10 1:1\nevents\n";

const TWO_TRANSACTIONS: &str = "\
site 1 7001
record x 10 1:1
events
call 1 begin
call 1 1.1.1 1 read x
call 1 1.1.1 2 write x 11
call 1 1.1.1 3 commit
call 1 begin
call 1 1.1.2 1 read x
call 1 1.1.2 2 commit
";

const TWO_TRANSACTIONS_PRINTED: &str = "\
1 call 1 begin
 reply begun 1.1.1 0@0
2 call 1 1.1.1 1 read x
 reply value 1.1.1 1 10
3 call 1 1.1.1 2 write x 11
 reply written 1.1.1 2
4 call 1 1.1.1 3 commit
 commit 1.1.1 0@0
 reply committed 1.1.1 3
5 call 1 begin
 reply begun 1.1.2 0@0
6 call 1 1.1.2 1 read x
 reply value 1.1.2 1 11
7 call 1 1.1.2 2 commit
 commit 1.1.2 0@0
 reply committed 1.1.2 2
history
start x 10
commit 1.1.1 0@0 r x 10 w x 11
commit 1.1.2 0@0 r x 11
end 2
";

const NO_SUCH_CALL: &str = "\
site 12 7001
record x 10 12:2
record y 5 12:65535
events
call 12 begin
call 12 12.1.9 1 commit
call 12 12.1.1 2 read x
call 12 12.1.1 1 read z
call 12 12.1.1 1 write y 11
call 12 12.1.1 1 write y 11
call 12 12.1.1 2 abort
";

const NO_SUCH_CALL_PRINTED: &str = "\
1 call 12 begin
 reply begun 12.1.1 0@0
2 call 12 12.1.9 1 commit
 reply unknown 12.1.9
3 call 12 12.1.1 2 read x
 reply skipped 12.1.1 expected 1
4 call 12 12.1.1 1 read z
 reply norecord 12.1.1 1
5 call 12 12.1.1 1 write y 11
 reply written 12.1.1 1
6 call 12 12.1.1 1 write y 11
 reply written 12.1.1 1
7 call 12 12.1.1 2 abort
 reply aborted 12.1.1 2
history
start x 10
start y 5
end 0
";

const OTHER_CALLS: &str = "\
site 1 7001
record x 10 1:1
events
call 1 begin
call 1 1.1.9 1 commit
call 1 1.1.1 2 read x
call 1 1.1.1 1 read z
call 1 1.1.1 1 write x 11
call 1 1.1.1 1 write x 11
call 1 1.1.1 2 abort
";

const OTHER_CALLS_PRINTED: &str = "\
1 call 1 begin
 reply begun 1.1.1 0@0
2 call 1 1.1.9 1 commit
 reply unknown 1.1.9
3 call 1 1.1.1 2 read x
 reply skipped 1.1.1 expected 1
4 call 1 1.1.1 1 read z
 reply norecord 1.1.1 1
5 call 1 1.1.1 1 write x 11
 reply written 1.1.1 1
6 call 1 1.1.1 1 write x 11
 reply written 1.1.1 1
7 call 1 1.1.1 2 abort
 reply aborted 1.1.1 2
history
start x 10
end 0
";

const A_LOCK_OF_ANOTHER: &str = "\
site 1 7001
record x 10 1:1
events
call 1 begin
call 1 begin
call 1 1.1.1 1 write x 11
call 1 1.1.2 1 read x
call 1 1.1.2 2 commit
call 1 1.1.3 1 commit
";

/// The call that is refused first ends the second transaction, so the next call is answered the same.
const A_LOCK_OF_ANOTHER_PRINTED: &str = "\
1 call 1 begin
 reply begun 1.1.1 0@0
2 call 1 begin
 reply begun 1.1.2 0@0
3 call 1 1.1.1 1 write x 11
 reply written 1.1.1 1
4 call 1 1.1.2 1 read x
 reply lockheld 1.1.2 1 x at 1 by 1.1.1
5 call 1 1.1.2 2 commit
 reply lockheld 1.1.2 2 x at 1 by 1.1.1
6 call 1 1.1.3 1 commit
 reply unknown 1.1.3
history
start x 10
end 0
";

const A_CALL_BEHIND_AN_ABORT: &str = "\
site 1 7001
record x 10 1:1
events
call 1 begin
call 1 1.1.1 1 abort
call 1 1.1.1 2 read x
";

const A_CALL_BEHIND_AN_ABORT_PRINTED: &str = "\
1 call 1 begin
 reply begun 1.1.1 0@0
2 call 1 1.1.1 1 abort
 reply aborted 1.1.1 1
3 call 1 1.1.1 2 read x
 reply aborted 1.1.1 2
history
start x 10
end 0
";

pub(crate) const USAGE: &str =
    "usage: vpdb replay|check|node|client|tick|probe|stop|generate|soak|logs|merge|audit|proc|gateway\n";

/// What `#` is replaced by in the inputs below.
const HEAD_OF_THREE: &str =
    "site 1 7001\nsite 2 7002\nsite 3 7003\nrecord x 10 1:1 2:1 3:1\nevents\n";

/// Command lines, their inputs, and their results.
const ANSWERED: [(&str, &str, Status, &str); 34] = [
    ("replay", HEAD, Status::Done, "history\nstart x 10\nend 0\n"),
    (
        "replay",
        TWO_TRANSACTIONS,
        Status::Done,
        TWO_TRANSACTIONS_PRINTED,
    ),
    ("replay", NO_SUCH_CALL, Status::Done, NO_SUCH_CALL_PRINTED),
    ("replay", OTHER_CALLS, Status::Done, OTHER_CALLS_PRINTED),
    (
        "replay",
        A_LOCK_OF_ANOTHER,
        Status::Done,
        A_LOCK_OF_ANOTHER_PRINTED,
    ),
    (
        "replay",
        A_CALL_BEHIND_AN_ABORT,
        Status::Done,
        A_CALL_BEHIND_AN_ABORT_PRINTED,
    ),
    // Other texts are no schedules.
    ("replay", "", Status::BadLine, "bad line 1 at 1\n"),
    (
        "replay",
        "site 1 7001\nrecord x 10 1:1\n",
        Status::BadLine,
        "bad line 3 at 1\n",
    ),
    (
        "replay",
        "site 1 7001\nsite 2 7001\nevents\n",
        Status::BadLine,
        "twice line 2\n",
    ),
    (
        "replay",
        "site 1 7001\nrecord x 10 1:1\nrecord x 1 1:1\nevents\n",
        Status::BadLine,
        "twice line 3\n",
    ),
    (
        "replay",
        "#call 9 begin\n",
        Status::BadLine,
        "bad line 6 at 6\n",
    ),
    (
        "replay",
        "#call 1 1.1.1 1 read aaaaaaaaaaaaaaaaa\n",
        Status::BadLine,
        "bad line 6 at 37\n",
    ),
    (
        "replay",
        "#call 1 beg",
        Status::BadLine,
        "bad line 6 at 11\n",
    ),
    ("replay", "#flew 1\n", Status::BadLine, "bad line 6 at 3\n"),
    (
        "replay",
        "#call 1 1.1.1 1 weigh x 1:3 1:4\n",
        Status::BadLine,
        "bad line 6 at 29\n",
    ),
    // Histories have their verdict, also after a trace, and other texts are no histories.
    (
        "check",
        TWO_TRANSACTIONS_PRINTED,
        Status::Done,
        "serial 2\nx 11\n",
    ),
    (
        "check",
        "history\nstart x 10\ncommit 1.1.1 0@0 w x 11\ncommit 1.1.2 0@0 r x 10\nend 2\n",
        Status::Differs,
        "differs 1.1.2 1 x kept 11 read 10\n",
    ),
    (
        "check",
        "history\nstart x 10\ncommit 1.1.1 0@0 d x a x\ncommit 1.1.2 0@0 a x w x 5\nend 2\n",
        Status::Done,
        "serial 2\nx 5\n",
    ),
    (
        "check",
        "history\nstart x 10\nstart y 5\ncommit 1.1.1 0@0 d x\nend 1\n",
        Status::Done,
        "serial 1\nx\ny 5\n",
    ),
    (
        "check",
        "history\nstart x 10\ncommit 1.1.1 0@0 d x\ncommit 1.1.2 0@0 r x 10\nend 2\n",
        Status::Differs,
        "differs 1.1.2 1 x absent read 10\n",
    ),
    (
        "check",
        "history\nstart x 10\ncommit 1.1.1 0@0 w x 11 a x\nend 1\n",
        Status::Differs,
        "differs 1.1.1 2 x kept 11 absent\n",
    ),
    ("check", "", Status::BadLine, "bad line 1 at 1\n"),
    (
        "check",
        "history\nstart x 10\ncommit 1.1.1 0@0 r y 10\n",
        Status::BadLine,
        "bad line 3 at 20\n",
    ),
    (
        "check",
        "history\nstart x 10\nstart x 11\n",
        Status::BadLine,
        "twice line 3\n",
    ),
    (
        "check",
        "history\nstart x 10\ncommit 1.1.1 1@2\ncommit 2.1.1 0@0\n",
        Status::BadLine,
        "bad line 4 at 14\n",
    ),
    (
        "check",
        "history\nstart x 10\nend 1\n",
        Status::BadLine,
        "bad line 3 at 5\n",
    ),
    // Other words are no command, and a site that the catalogue lacks has no node.
    ("", "", Status::Usage, USAGE),
    ("replay - --", "", Status::Usage, USAGE),
    ("replay --help", "", Status::Usage, USAGE),
    ("Replay", "", Status::Usage, USAGE),
    ("generate 1 2400 1", "", Status::Usage, USAGE),
    ("generate 1 2401", "", Status::Usage, USAGE),
    ("merge 1", "", Status::Usage, USAGE),
    (
        "node 2 a 1",
        "site 1 7001\nrecord x 10 1:1\n",
        Status::Usage,
        USAGE,
    ),
];

#[test]
fn command_lines_are_answered(rt: HostRuntime) {
    for (line, input, status, text) in &ANSWERED {
        let input = input
            .replace(rt.alloc(), '#', HEAD_OF_THREE)
            .expect(&rt, "memory");
        assert!(rt;
            answers(rt.alloc(), line, &input, *status, text).expect(&rt, "memory"),
            "{line} on {input}"
        );
    }
}

/// The line once for each number from 1 up to the end, with the number instead of `#`, and the next one instead of `+`.
fn numbered(rt: &impl Abort, alloc: Global, line: &str, end: u32) -> String {
    let mut lines = String::new(alloc);
    for number in 1..end {
        let next = number + 1;
        let number = format!(in alloc; "{number}").expect(rt, "memory");
        let next = format!(in alloc; "{next}").expect(rt, "memory");
        let line = line.replace(alloc, '#', &number).expect(rt, "memory");
        let line = line.replace(alloc, '+', &next).expect(rt, "memory");
        lines.push_str(&line).expect(rt, "memory");
    }
    lines
}

#[test]
fn a_transaction_has_64_operations(rt: HostRuntime) {
    let alloc = rt.alloc();
    let calls = numbered(&rt, alloc, "call 1 1.1.1 # read x\n", 66);
    let schedule = format!(in alloc; "{HEAD}call 1 begin\n{calls}call 1 1.1.1 65 commit\n").expect(
        &rt, "memory",
    );
    let values = numbered(
        &rt,
        alloc,
        "+ call 1 1.1.1 # read x\n reply value 1.1.1 # 10\n",
        65,
    );
    let reads = " r x 10".repeat(alloc, 64).expect(&rt, "memory");
    let printed = format!(in alloc;
        "\
1 call 1 begin
 reply begun 1.1.1 0@0
{values}66 call 1 1.1.1 65 read x
 reply toomanyops 1.1.1 65
67 call 1 1.1.1 65 commit
 commit 1.1.1 0@0
 reply committed 1.1.1 65
history
start x 10
commit 1.1.1 0@0{reads}
end 1
"
    )
    .expect(&rt, "memory");
    assert!(rt; is_printed(alloc, &schedule, &printed).expect(&rt, "memory"));
}

#[test]
fn a_transaction_has_15360_bytes_of_values(rt: HostRuntime) {
    let alloc = rt.alloc();
    let value = "v".repeat(alloc, 1024).expect(&rt, "memory");
    let call = format!(in alloc; "call 1 1.1.1 # write r# {value}\n").expect(&rt, "memory");
    let done = format!(in alloc; "+ {call} reply written 1.1.1 #\n").expect(&rt, "memory");
    let records = numbered(&rt, alloc, "record r# 10 1:1\n", 17);
    let calls = numbered(&rt, alloc, &call, 16);
    let written = numbered(&rt, alloc, &done, 16);
    let starts = numbered(&rt, alloc, "start r# 10\n", 17);
    let schedule = format!(in alloc;
        "\
site 1 7001
{records}events
call 1 begin
{calls}call 1 1.1.1 16 write r16 v
call 1 1.1.1 16 delete r16
"
    )
    .expect(&rt, "memory");
    let printed = format!(in alloc;
        "\
1 call 1 begin
 reply begun 1.1.1 0@0
{written}17 call 1 1.1.1 16 write r16 v
 reply toomanyops 1.1.1 16
18 call 1 1.1.1 16 delete r16
 reply deleted 1.1.1 16
history
{starts}end 0
"
    )
    .expect(&rt, "memory");
    assert!(rt; is_printed(alloc, &schedule, &printed).expect(&rt, "memory"));
}

#[test]
fn a_site_has_1024_live_transactions(rt: HostRuntime) {
    let alloc = rt.alloc();
    let calls = "call 1 begin\n".repeat(alloc, 1025).expect(&rt, "memory");
    let schedule = format!(in alloc; "{HEAD}{calls}").expect(&rt, "memory");
    let begun = numbered(&rt, alloc, "# call 1 begin\n reply begun 1.1.# 0@0\n", 1025);
    let printed = format!(in alloc;
        "\
{begun}1025 call 1 begin
 reply toomanylive 1024
history
start x 10
end 0
"
    )
    .expect(&rt, "memory");
    assert!(rt; is_printed(alloc, &schedule, &printed).expect(&rt, "memory"));
}

#[test]
fn too_many_records_events_and_bytes_are_refused(rt: HostRuntime) {
    let alloc = rt.alloc();
    let lines = numbered(&rt, alloc, "record r# 10 1:1\n", 258);
    let records = format!(in alloc; "site 1 7001\n{lines}events\n").expect(&rt, "memory");
    let lines = "tick 1\n".repeat(alloc, 100_001).expect(&rt, "memory");
    let events = format!(in alloc; "{HEAD}{lines}").expect(&rt, "memory");
    let bytes = "a".repeat(alloc, MOST_BYTES + 1).expect(&rt, "memory");
    for (input, text) in [
        (records.as_str(), "limit records 256\n"),
        (events.as_str(), "limit events 100000\n"),
        (bytes.as_str(), "limit bytes 16777216\n"),
    ] {
        assert!(rt;
            answers(alloc, "replay", input, Status::Limit, text).expect(&rt, "memory"),
            "{text}"
        );
    }
}

/// A replay whose call of the source and whose call of the sink with these numbers fail; no call has number 0. The sink takes 5 bytes a
/// call.
fn failing(rt: &impl Abort, alloc: Global, source_call: u64, sink_call: u64) -> (Status, TextSink) {
    let text = Vec::from_slice(alloc, HEAD.as_bytes()).expect(rt, "memory");
    let words = words(alloc, "replay --").expect(rt, "memory");
    let mut source = TextSource::new(text, vec![in alloc; source_call].expect(rt, "memory"));
    let mut sink = TextSink::new(alloc, vec![in alloc; sink_call].expect(rt, "memory"));
    sink.most = 5;
    let status = run_alone(alloc, &words, &mut source, &mut sink);
    (status, sink)
}

#[test]
fn failures_are_told(rt: HostRuntime) {
    for (source_call, sink_call, status, text) in [
        (2, 0, Status::SourceFault, ""),
        (0, 2, Status::SinkFault, "histo"),
    ] {
        let (end, sink) = failing(&rt, rt.alloc(), source_call, sink_call);
        assert!(rt; end == status && sink.bytes() == text.as_bytes(), "{text}");
    }
}
