//! Recordings of nodes, and the schedules that are put together of them.

use crate::answers;
use std::alloc::Global;
use std::process::Abort;
use vp_status::Status;

const ONE: &str = "site 1 7001\nrecord x 10 1:1\n";

const TWO: &str = "site 1 7001\nsite 2 7002\nrecord x 10 1:1 2:1\n";

/// Two nodes do a write of the first one.
const A_WRITE: &str = "\
node 2
start 1
in 56020701020100000001000000010000000000000000000000000100
out 560208020101000000010000000100000001
in 56020a010201000000010000000100000000000000000000000002000100010002313100
out 56020b0201010000000100000001
in 56020c010201000000010000000101
out 56020d0201010000000100000001
in 5602240002
end
node 1
start 1
in 560220000101
out 560221010001010000000100000001000000000000000000
in 56022000010401000000010000000100000001017800023131
out 56020701020100000001000000010000000000000000000000000100
in 560208020101000000010000000100000001
out 56022101000301000000010000000100000001
stray 560208010201000000010000000100000001
in 56022000010501000000010000000100000002
out 56020a010201000000010000000100000000000000000000000002000100010002313100
in 56020b0201010000000100000001
out 56020c010201000000010000000101
out 56022101000401000000010000000100000002
in 56020d0201010000000100000001
link fault
";

/// A node makes a view in its second life, which was killed within its last turn; in its first one it did nothing.
const A_VIEW: &str = "\
node 2
start 1
in 5602010102000000000000000101
out 5602020201000000000000000101
in 5602040102000000000000000101020102
out 56020f020100000000000000010100
end
node 1
start 1
bad 3
node 1
start 2
in 560220000102
out 5602010102000000000000000101
out 560221010006000000000000000101
in 5602020201000000000000000101
in 5602220001
out 5602040102000000000000000101020102
";

/// A catalogue, recordings, and what `merge` gives for them: of a schedule the lines after its catalogue.
const MERGES: [(&str, &str, Status, &str); 15] = [
    (ONE, "", Status::Done, "events\n"),
    (
        ONE,
        "node 1\nstart 1\nin 560220000101\nout 560221010001010000000100000001000000000000000000\nend\n",
        Status::Done,
        "events\ncall 1 begin\n",
    ),
    (
        TWO,
        A_WRITE,
        Status::Done,
        "events\ncall 1 begin\ncall 1 1.1.1 1 write x 11\ndeliver 1\ndeliver 2\ncall 1 1.1.1 2 commit\n\
        deliver 3\ndeliver 4\ndeliver 5\ndeliver 6\n",
    ),
    (
        TWO,
        A_VIEW,
        Status::Done,
        "events\ncrash 1\nrestart 1\ncall 1 regroup\ndeliver 1\ndeliver 2\ntick 1\ndeliver 3\n",
    ),
    // A life without turns asks nothing, and a stop has no event of its own.
    (
        ONE,
        "node 1\nstart 4\nnode 1\nstart 5\nin 5602240001\nend\n",
        Status::Done,
        "events\ncrash 1\nrestart 1\ncrash 1\nrestart 1\ncrash 1\nrestart 1\ncrash 1\nrestart 1\n",
    ),
    // A datagram of the first version may come, but none is sent.
    (
        ONE,
        "node 1\nstart 1\nin 560120000101\nout 560221010001010000000100000001000000000000000000\nend\n",
        Status::Done,
        "events\ncall 1 begin\n",
    ),
    (
        ONE,
        "node 1\nstart 1\nin 560120000101\nout 560121010001010000000100000001000000000000000000\nend\n",
        Status::TurnDiffers,
        "differs 1 1\n",
    ),
    // A kill may take the datagrams of the last turn from the recording, but not those of another one, nor an end's.
    (
        ONE,
        "node 1\nstart 1\nin 560220000101\n",
        Status::Done,
        "events\ncall 1 begin\n",
    ),
    (
        ONE,
        "node 1\nstart 1\nin 560220000101\nend\n",
        Status::TurnDiffers,
        "differs 1 1\n",
    ),
    (
        ONE,
        "node 1\nstart 1\nin 5602220001\nin 560220000101\nin 5602220001\n",
        Status::TurnDiffers,
        "differs 1 2\n",
    ),
    // A message to the site waits for the step that sends it; one to another site is no input, and doesn't wait.
    (
        TWO,
        "node 2\nstart 1\nin 5602220002\nin 56020b0102010000000100000001\nend\n",
        Status::Unsent,
        "unsent 2 2\n",
    ),
    (
        TWO,
        "node 2\nstart 1\nin 56020b0201010000000100000001\nend\n",
        Status::TurnDiffers,
        "differs 2 1\n",
    ),
    (
        ONE,
        "node 1\nstart 1\nout 5602220001\n",
        Status::BadLine,
        "bad line 6 at 1\n",
    ),
    (ONE, "node 2\n", Status::BadLine, "bad line 4 at 6\n"),
    (
        "site 1 7001\nrecord x 10 1:1\nrecord x 10 1:1\n",
        "",
        Status::BadLine,
        "twice line 3\n",
    ),
];

/// Whether `merge` gives this.
fn merges(rt: &impl Abort, alloc: Global, row: (&str, &str, Status, &str)) -> bool {
    let (head, lines, status, text) = row;
    let input = format!(in alloc; "{head}recordings\n{lines}").expect(rt, "memory");
    let front = if status == Status::Done { head } else { "" };
    let text = format!(in alloc; "{front}{text}").expect(rt, "memory");
    answers(alloc, "merge", &input, status, &text).expect(rt, "memory")
}

#[test]
fn recordings_are_merged(rt: HostRuntime) {
    for row in MERGES {
        assert!(rt; merges(&rt, rt.alloc(), row), "{}", row.1);
    }
}
