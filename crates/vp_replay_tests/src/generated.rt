//! Schedules of the generator, and soaks.

use vp_replay::generate;
use vp_status::Status;
use vp_top_tests::answers;

/// The catalogue of each schedule that is generated, and the first event of seed 1.
const ONE_EVENT: &str = "\
site 1 7001
site 2 7002
site 3 7003
site 4 7004
site 5 7005
record r0 100 1:1 2:1 3:1
record r1 100 2:1 3:1 4:1
record r2 100 3:1 4:1 5:1
record r3 100 1:1 4:1 5:1
record r4 100 1:1 2:1 5:1
record r5 100 1:1 2:1 3:1
record r6 100 2:1 3:1 4:1
record r7 100 3:1 4:1 5:1
record r8 100 1:1 4:1 5:1
record r9 100 1:1 2:1 5:1
record r10 100 1:1 2:1 3:1
record r11 100 2:1 3:1 4:1
record r12 100 3:1 4:1 5:1
record r13 100 1:1 4:1 5:1
record r14 100 1:1 2:1 5:1
record r15 100 1:1 2:1 3:1
record r16 100 2:1 3:1 4:1
record r17 100 3:1 4:1 5:1
record r18 100 1:1 4:1 5:1
record r19 100 1:1 2:1 5:1
record r20 100 1:1 2:1 3:1
record r21 100 2:1 3:1 4:1
record r22 100 3:1 4:1 5:1
record r23 100 1:1 4:1 5:1
record r24 100 1:1 2:1 5:1
record r25 100 1:1 2:1 3:1
record r26 100 2:1 3:1 4:1
record r27 100 3:1 4:1 5:1
record r28 100 1:1 4:1 5:1
record r29 100 1:1 2:1 5:1
record r30 100 1:1 2:1 3:1
record r31 100 2:1 3:1 4:1
record r32 100 3:1 4:1 5:1
record r33 100 1:1 4:1 5:1
record r34 100 1:1 2:1 5:1
record r35 100 1:1 2:1 3:1
record r36 100 2:1 3:1 4:1
record r37 100 3:1 4:1 5:1
record r38 100 1:1 4:1 5:1
record r39 100 1:1 2:1 5:1
events
call 4 begin
";

#[test]
fn schedules_are_generated_and_soaks_are_counted(rt: HostRuntime) {
    for (line, text) in [
        ("generate 1 1", ONE_EVENT),
        (
            "soak 1 0",
            "events 0\nmessages 0\nbegun 0\ncommitted 0\nrefused 0\nserial 0\n",
        ),
        (
            "soak 1 1",
            "events 1\nmessages 0\nbegun 1\ncommitted 0\nrefused 0\nserial 0\n",
        ),
        (
            "soak 1 2",
            "events 2\nmessages 0\nbegun 2\ncommitted 0\nrefused 0\nserial 0\n",
        ),
        (
            "soak 7 1500",
            "events 1500\nmessages 821\nbegun 25\ncommitted 0\nrefused 359\nserial 0\n",
        ),
        (
            "soak 755 2400",
            "events 2400\nmessages 1702\nbegun 44\ncommitted 2\nrefused 602\nserial 2\n",
        ),
    ] {
        assert!(rt;
            answers(rt.alloc(), line, "", Status::Done, text).expect(&rt, "memory"),
            "{line}"
        );
    }
}

#[test]
fn a_schedule_is_appended(rt: HostRuntime) {
    let alloc = rt.alloc();
    let mut text = Vec::from_slice(alloc, b"before\n").expect(&rt, "memory");
    let end = match generate(1, 2, &mut text) {
        Ok(end) => end.is_none(),
        Err(_) => false,
    };
    let wanted = format!(in alloc; "before\n{ONE_EVENT}call 1 begin\n").expect(&rt, "memory");
    assert!(rt; end && text.as_slice() == wanted.as_bytes());
}
