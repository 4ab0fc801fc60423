//! What schedules leave in the logs of their sites.

use vp_status::Status;
use vp_top_tests::answers;

const HEAD: &str = "site 1 7001\nrecord x 10 1:1\nevents\n";

const COMMIT: &str = "\
site 1 7001
record x 10 1:1
events
call 1 begin
call 1 1.1.1 1 write x 11
call 1 1.1.1 2 commit
";

const VIEW: &str = "\
site 1 7001
site 2 7002
record x 10 1:1 2:1
events
call 1 regroup
deliver 1
";

/// A promise of view 1@1, and a closed gate.
const PROMISE: &str = "01000000000000000a0200000000000000010100";

/// A checkpoint of life 5001 with that promise and the copy of x, and a closed gate.
const CHECKPOINT: &str =
    "0100000000000000380c0000000000000001000013890000000000000001010001000100023130000000000000000000000000000000000000000000000000000000";

#[test]
fn logs_are_told(rt: HostRuntime) {
    let alloc = rt.alloc();
    for (input, lines) in [
        (HEAD, "log 1 010000000000000005010000000100 -\n"),
        (
            "site 1 7001\nrecord x 10 1:1\nevents\ncrash 1\nrestart 1\n",
            "log 1 0100000000000000050100000001010000000000000005010000000200 -\n",
        ),
        (
            COMMIT,
            "log 1 010000000000000005010000000101000000000000001c0a01000000010000000100000000000000000001000100023131000000 -\n",
        ),
        (
            VIEW,
            "log 1 010000000000000005010000000101000000000000000a0200000000000000010100 -\n\
             log 2 010000000000000005010000000101000000000000000a0200000000000000010100 -\n",
        ),
    ] {
        assert!(rt;
            answers(alloc, "logs", input, Status::Done, lines).expect(&rt, "memory"),
            "{input}"
        );
    }
}

#[test]
fn other_texts_leave_no_logs(rt: HostRuntime) {
    let alloc = rt.alloc();
    for (input, text) in [
        ("", "bad line 1 at 1\n"),
        ("site 1 7001\n", "bad line 2 at 1\n"),
        (
            "site 1 7001\nrecord x 10 1:1\nrecord x 1 1:1\nevents\n",
            "twice line 3\n",
        ),
    ] {
        assert!(rt;
            answers(alloc, "logs", input, Status::BadLine, text).expect(&rt, "memory"),
            "{input}"
        );
    }
}

#[test]
fn a_long_log_gets_a_checkpoint(rt: HostRuntime) {
    let alloc = rt.alloc();
    let lives = "crash 1\nrestart 1\n"
        .repeat(alloc, 5000)
        .expect(&rt, "memory");
    let schedule = format!(in alloc; "{HEAD}{lives}call 1 regroup\n").expect(&rt, "memory");
    let mut log = String::new(alloc);
    for life in 1..5002u32 {
        let batch = format!(in alloc; "01000000000000000501{life:08x}").expect(&rt, "memory");
        log.push_str(&batch).expect(&rt, "memory");
    }
    let line = format!(in alloc; "log 1 {log}{PROMISE} {CHECKPOINT}\n").expect(&rt, "memory");
    assert!(rt; answers(alloc, "logs", &schedule, Status::Done, &line).expect(&rt, "memory"));
}
