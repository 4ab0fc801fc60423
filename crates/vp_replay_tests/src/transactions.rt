//! Worked schedules of transactions over several sites, byte for byte.

use vp_top_tests::is_printed;

const A_HELD_LOCK_IS_NAMED: &str = "\
site 1 7001
site 2 7002
site 3 7003
record x 10 1:1 2:1 3:1
events
call 1 begin
call 2 begin
call 1 1.1.1 1 write x 11
flow 4
call 2 2.1.1 1 read x
call 1 1.1.1 2 commit
flow 9
call 2 begin
call 2 2.1.2 1 read x
call 2 2.1.2 2 commit
";

const A_HELD_LOCK_IS_NAMED_PRINTED: &str = "\
1 call 1 begin
 reply begun 1.1.1 0@0
2 call 2 begin
 reply begun 2.1.1 0@0
3 call 1 1.1.1 1 write x 11
 sent 1 1>2 write-request 1.1.1 0@0 1 x
 sent 2 1>3 write-request 1.1.1 0@0 1 x
4 flow 4
4 deliver 1
 sent 3 2>1 write-answer 1.1.1 1
4 deliver 2
 sent 4 3>1 write-answer 1.1.1 1
4 deliver 3
4 deliver 4
 reply written 1.1.1 1
5 call 2 2.1.1 1 read x
 reply lockheld 2.1.1 1 x at 2 by 1.1.1
6 call 1 1.1.1 2 commit
 sent 5 1>2 prepare 1.1.1 0@0 2 w x 11
 sent 6 1>3 prepare 1.1.1 0@0 2 w x 11
7 flow 9
7 deliver 5
 sent 7 2>1 vote 1.1.1
7 deliver 6
 sent 8 3>1 vote 1.1.1
7 deliver 7
7 deliver 8
 commit 1.1.1 0@0
 sent 9 1>2 outcome 1.1.1 commit
 sent 10 1>3 outcome 1.1.1 commit
 reply committed 1.1.1 2
7 deliver 9
 sent 11 2>1 ack 1.1.1
7 deliver 10
 sent 12 3>1 ack 1.1.1
7 deliver 11
7 deliver 12
8 call 2 begin
 reply begun 2.1.2 0@0
9 call 2 2.1.2 1 read x
 reply value 2.1.2 1 11
10 call 2 2.1.2 2 commit
 commit 2.1.2 0@0
 reply committed 2.1.2 2
history
start x 10
commit 1.1.1 0@0 w x 11
commit 2.1.2 0@0 r x 11
end 2
";

const MESSAGES_COME_TWICE_AND_OUT_OF_ORDER: &str = "\
site 1 7001
site 2 7002
record x 10 1:1 2:1
events
call 1 begin
call 1 1.1.1 1 write x 11
deliver 1
deliver 1
deliver 3
deliver 2
call 1 1.1.1 2 commit
deliver 4
deliver 4
deliver 6
deliver 5
deliver 7
deliver 7
deliver 1
deliver 4
call 1 1.1.1 2 commit
";

const MESSAGES_COME_TWICE_AND_OUT_OF_ORDER_PRINTED: &str = "\
1 call 1 begin
 reply begun 1.1.1 0@0
2 call 1 1.1.1 1 write x 11
 sent 1 1>2 write-request 1.1.1 0@0 1 x
3 deliver 1
 sent 2 2>1 write-answer 1.1.1 1
4 deliver 1
 sent 3 2>1 write-answer 1.1.1 1
5 deliver 3
 reply written 1.1.1 1
6 deliver 2
7 call 1 1.1.1 2 commit
 sent 4 1>2 prepare 1.1.1 0@0 2 w x 11
8 deliver 4
 sent 5 2>1 vote 1.1.1
9 deliver 4
 sent 6 2>1 vote 1.1.1
10 deliver 6
 commit 1.1.1 0@0
 sent 7 1>2 outcome 1.1.1 commit
 reply committed 1.1.1 2
11 deliver 5
12 deliver 7
 sent 8 2>1 ack 1.1.1
13 deliver 7
 sent 9 2>1 ack 1.1.1
14 deliver 1
15 deliver 4
16 call 1 1.1.1 2 commit
 reply committed 1.1.1 2
history
start x 10
commit 1.1.1 0@0 w x 11
end 1
";

const A_VOTE_IS_LOST: &str = "\
site 1 7001
site 2 7002
site 3 7003
record x 10 1:1 2:1 3:1
events
call 1 begin
call 1 1.1.1 1 write x 11
flow 4
call 1 1.1.1 2 commit
deliver 5
tick 1
tick 1
tick 2
deliver 10
deliver 11
call 2 begin
call 2 2.1.1 1 read x
";

const A_VOTE_IS_LOST_PRINTED: &str = "\
1 call 1 begin
 reply begun 1.1.1 0@0
2 call 1 1.1.1 1 write x 11
 sent 1 1>2 write-request 1.1.1 0@0 1 x
 sent 2 1>3 write-request 1.1.1 0@0 1 x
3 flow 4
3 deliver 1
 sent 3 2>1 write-answer 1.1.1 1
3 deliver 2
 sent 4 3>1 write-answer 1.1.1 1
3 deliver 3
3 deliver 4
 reply written 1.1.1 1
4 call 1 1.1.1 2 commit
 sent 5 1>2 prepare 1.1.1 0@0 2 w x 11
 sent 6 1>3 prepare 1.1.1 0@0 2 w x 11
5 deliver 5
 sent 7 2>1 vote 1.1.1
6 tick 1
7 tick 1
 sent 8 1>2 outcome 1.1.1 abort
 sent 9 1>3 outcome 1.1.1 abort
 reply timedout 1.1.1 2 at 2
8 tick 2
 sent 10 2>1 inquire 1.1.1
9 deliver 10
 sent 11 1>2 outcome 1.1.1 abort
10 deliver 11
11 call 2 begin
 reply begun 2.1.1 0@0
12 call 2 2.1.1 1 read x
 reply value 2.1.1 1 10
history
start x 10
end 0
";

const A_COMMIT_COMES_LATE: &str = "\
site 1 7001
site 2 7002
site 3 7003
record x 10 1:1 2:1 3:1
record y 5 2:1
events
call 1 begin
call 1 1.1.1 1 write x 11
flow 4
call 1 1.1.1 2 commit
deliver 5
deliver 6
call 2 regroup
deliver 10
deliver 11
tick 2
deliver 12
deliver 13
call 2 begin
call 2 2.1.1 1 read y
call 2 2.1.1 2 commit
call 2 begin
call 2 2.1.2 1 read x
deliver 7
deliver 8
deliver 16
deliver 17
tick 2
deliver 20
deliver 21
call 2 begin
call 2 2.1.3 1 read x
call 2 2.1.3 2 commit
";

const A_COMMIT_COMES_LATE_PRINTED: &str = "\
1 call 1 begin
 reply begun 1.1.1 0@0
2 call 1 1.1.1 1 write x 11
 sent 1 1>2 write-request 1.1.1 0@0 1 x
 sent 2 1>3 write-request 1.1.1 0@0 1 x
3 flow 4
3 deliver 1
 sent 3 2>1 write-answer 1.1.1 1
3 deliver 2
 sent 4 3>1 write-answer 1.1.1 1
3 deliver 3
3 deliver 4
 reply written 1.1.1 1
4 call 1 1.1.1 2 commit
 sent 5 1>2 prepare 1.1.1 0@0 2 w x 11
 sent 6 1>3 prepare 1.1.1 0@0 2 w x 11
5 deliver 5
 sent 7 2>1 vote 1.1.1
6 deliver 6
 sent 8 3>1 vote 1.1.1
7 call 2 regroup
 sent 9 2>1 invite 1@2
 sent 10 2>3 invite 1@2
 reply inviting 1@2
8 deliver 10
 sent 11 3>2 accept 1@2
9 deliver 11
10 tick 2
 sent 12 2>3 view 1@2 2,3
 sent 13 2>3 refresh-request 1@2 x
 sent 14 2>1 inquire 1.1.1
11 deliver 12
 sent 15 3>2 refresh-request 1@2 x
12 deliver 13
13 call 2 begin
 reply begun 2.1.1 1@2
14 call 2 2.1.1 1 read y
 reply value 2.1.1 1 5
15 call 2 2.1.1 2 commit
 commit 2.1.1 1@2
 reply committed 2.1.1 2
16 call 2 begin
 reply begun 2.1.2 1@2
17 call 2 2.1.2 1 read x
 reply lockheld 2.1.2 1 x at 2 by 1.1.1
18 deliver 7
19 deliver 8
 commit 1.1.1 0@0
 sent 16 1>2 outcome 1.1.1 commit
 sent 17 1>3 outcome 1.1.1 commit
 reply committed 1.1.1 2
20 deliver 16
 sent 18 2>1 ack 1.1.1
21 deliver 17
 sent 19 3>1 ack 1.1.1
22 tick 2
 sent 20 2>3 refresh-request 1@2 x
23 deliver 20
 sent 21 3>2 refresh-answer 1@2 x 11 0@0
24 deliver 21
25 call 2 begin
 reply begun 2.1.3 1@2
26 call 2 2.1.3 1 read x
 reply value 2.1.3 1 11
27 call 2 2.1.3 2 commit
 commit 2.1.3 1@2
 reply committed 2.1.3 2
history
start x 10
start y 5
commit 1.1.1 0@0 w x 11
commit 2.1.1 1@2 r y 5
commit 2.1.3 1@2 r x 11
end 3
";

const A_SITE_CRASHES_AFTER_ITS_DECISION: &str = "\
site 1 7001
site 2 7002
record x 10 1:1 2:1
events
call 1 begin
call 1 1.1.1 1 write x 11
deliver 1
deliver 2
call 1 1.1.1 2 commit
deliver 3
deliver 4
crash 1
restart 1
tick 1
deliver 7
deliver 8
call 2 begin
call 2 2.1.1 1 read x
call 2 2.1.1 2 commit
";

const A_SITE_CRASHES_AFTER_ITS_DECISION_PRINTED: &str = "\
1 call 1 begin
 reply begun 1.1.1 0@0
2 call 1 1.1.1 1 write x 11
 sent 1 1>2 write-request 1.1.1 0@0 1 x
3 deliver 1
 sent 2 2>1 write-answer 1.1.1 1
4 deliver 2
 reply written 1.1.1 1
5 call 1 1.1.1 2 commit
 sent 3 1>2 prepare 1.1.1 0@0 2 w x 11
6 deliver 3
 sent 4 2>1 vote 1.1.1
7 deliver 4
 commit 1.1.1 0@0
 sent 5 1>2 outcome 1.1.1 commit
 reply committed 1.1.1 2
8 crash 1
9 restart 1
 life 2
10 tick 1
 sent 6 1>2 invite 1@1
 sent 7 1>2 outcome 1.1.1 commit
11 deliver 7
 sent 8 2>1 ack 1.1.1
12 deliver 8
13 call 2 begin
 reply begun 2.1.1 0@0
14 call 2 2.1.1 1 read x
 reply value 2.1.1 1 11
15 call 2 2.1.1 2 commit
 commit 2.1.1 0@0
 reply committed 2.1.1 2
history
start x 10
commit 1.1.1 0@0 w x 11
commit 2.1.1 0@0 r x 11
end 2
";

const A_SITE_CRASHES_BEFORE_ITS_DECISION: &str = "\
site 1 7001
site 2 7002
record x 10 1:1 2:1
events
call 1 begin
call 1 1.1.1 1 write x 11
deliver 1
deliver 2
call 1 1.1.1 2 commit
deliver 3
crash 1
restart 1
tick 2
deliver 5
deliver 6
deliver 4
call 2 begin
call 2 2.1.1 1 read x
";

const A_SITE_CRASHES_BEFORE_ITS_DECISION_PRINTED: &str = "\
1 call 1 begin
 reply begun 1.1.1 0@0
2 call 1 1.1.1 1 write x 11
 sent 1 1>2 write-request 1.1.1 0@0 1 x
3 deliver 1
 sent 2 2>1 write-answer 1.1.1 1
4 deliver 2
 reply written 1.1.1 1
5 call 1 1.1.1 2 commit
 sent 3 1>2 prepare 1.1.1 0@0 2 w x 11
6 deliver 3
 sent 4 2>1 vote 1.1.1
7 crash 1
8 restart 1
 life 2
9 tick 2
 sent 5 2>1 inquire 1.1.1
10 deliver 5
 sent 6 1>2 outcome 1.1.1 abort
11 deliver 6
12 deliver 4
13 call 2 begin
 reply begun 2.1.1 0@0
14 call 2 2.1.1 1 read x
 reply value 2.1.1 1 10
history
start x 10
end 0
";

const AN_INQUIRY_COMES_AFTER_THE_ACKNOWLEDGEMENT: &str = "\
site 1 7001
site 2 7002
record x 10 1:1 2:1
events
call 1 begin
call 1 1.1.1 1 write x 11
deliver 1
deliver 2
call 1 1.1.1 2 commit
deliver 3
tick 2
deliver 4
deliver 6
deliver 7
deliver 5
deliver 8
call 2 begin
call 2 2.1.1 1 read x
";

const AN_INQUIRY_COMES_AFTER_THE_ACKNOWLEDGEMENT_PRINTED: &str = "\
1 call 1 begin
 reply begun 1.1.1 0@0
2 call 1 1.1.1 1 write x 11
 sent 1 1>2 write-request 1.1.1 0@0 1 x
3 deliver 1
 sent 2 2>1 write-answer 1.1.1 1
4 deliver 2
 reply written 1.1.1 1
5 call 1 1.1.1 2 commit
 sent 3 1>2 prepare 1.1.1 0@0 2 w x 11
6 deliver 3
 sent 4 2>1 vote 1.1.1
7 tick 2
 sent 5 2>1 inquire 1.1.1
8 deliver 4
 commit 1.1.1 0@0
 sent 6 1>2 outcome 1.1.1 commit
 reply committed 1.1.1 2
9 deliver 6
 sent 7 2>1 ack 1.1.1
10 deliver 7
11 deliver 5
 sent 8 1>2 outcome 1.1.1 abort
12 deliver 8
13 call 2 begin
 reply begun 2.1.1 0@0
14 call 2 2.1.1 1 read x
 reply value 2.1.1 1 11
history
start x 10
commit 1.1.1 0@0 w x 11
end 1
";

const AN_INQUIRY_COMES_BEFORE_THE_DECISION: &str = "\
site 1 7001
site 2 7002
record x 10 1:1 2:1
events
call 1 begin
call 1 1.1.1 1 write x 11
deliver 1
deliver 2
call 1 1.1.1 2 commit
deliver 3
tick 2
deliver 5
deliver 4
deliver 6
deliver 7
deliver 5
deliver 8
call 2 begin
call 2 2.1.1 1 read x
";

const AN_INQUIRY_COMES_BEFORE_THE_DECISION_PRINTED: &str = "\
1 call 1 begin
 reply begun 1.1.1 0@0
2 call 1 1.1.1 1 write x 11
 sent 1 1>2 write-request 1.1.1 0@0 1 x
3 deliver 1
 sent 2 2>1 write-answer 1.1.1 1
4 deliver 2
 reply written 1.1.1 1
5 call 1 1.1.1 2 commit
 sent 3 1>2 prepare 1.1.1 0@0 2 w x 11
6 deliver 3
 sent 4 2>1 vote 1.1.1
7 tick 2
 sent 5 2>1 inquire 1.1.1
8 deliver 5
9 deliver 4
 commit 1.1.1 0@0
 sent 6 1>2 outcome 1.1.1 commit
 reply committed 1.1.1 2
10 deliver 6
 sent 7 2>1 ack 1.1.1
11 deliver 7
12 deliver 5
 sent 8 1>2 outcome 1.1.1 abort
13 deliver 8
14 call 2 begin
 reply begun 2.1.1 0@0
15 call 2 2.1.1 1 read x
 reply value 2.1.1 1 11
history
start x 10
commit 1.1.1 0@0 w x 11
end 1
";

const CALLS_ARE_REFUSED: &str = "\
site 1 7001
site 2 7002
record x 10 1:1 2:1
events
call 1 begin
call 1 1.1.9 1 commit
call 1 1.1.1 2 read x
call 1 1.1.1 1 read z
call 1 1.1.1 1 write x 11
call 1 1.1.1 1 write x 11
deliver 1
deliver 2
call 1 1.1.1 1 write x 11
call 1 1.1.1 2 abort
";

const CALLS_ARE_REFUSED_PRINTED: &str = "\
1 call 1 begin
 reply begun 1.1.1 0@0
2 call 1 1.1.9 1 commit
 reply unknown 1.1.9
3 call 1 1.1.1 2 read x
 reply skipped 1.1.1 expected 1
4 call 1 1.1.1 1 read z
 reply norecord 1.1.1 1
5 call 1 1.1.1 1 write x 11
 sent 1 1>2 write-request 1.1.1 0@0 1 x
6 call 1 1.1.1 1 write x 11
 reply busy 1.1.1 1
7 deliver 1
 sent 2 2>1 write-answer 1.1.1 1
8 deliver 2
 reply written 1.1.1 1
9 call 1 1.1.1 1 write x 11
 reply written 1.1.1 1
10 call 1 1.1.1 2 abort
 sent 3 1>2 outcome 1.1.1 abort
 reply aborted 1.1.1 2
history
start x 10
end 0
";

const A_RECORD_IS_READ_AT_ANOTHER_SITE: &str = "\
site 1 7001
site 2 7002
site 3 7003
record y 5 2:1 3:1
events
call 1 begin
call 1 1.1.1 1 read y
deliver 1
deliver 2
call 1 1.1.1 2 commit
flow 9
";

const A_RECORD_IS_READ_AT_ANOTHER_SITE_PRINTED: &str = "\
1 call 1 begin
 reply begun 1.1.1 0@0
2 call 1 1.1.1 1 read y
 sent 1 1>2 read-request 1.1.1 0@0 1 y
3 deliver 1
 sent 2 2>1 read-answer 1.1.1 1 5
4 deliver 2
 reply value 1.1.1 1 5
5 call 1 1.1.1 2 commit
 sent 3 1>2 prepare 1.1.1 0@0 2 r y
6 flow 9
6 deliver 3
 sent 4 2>1 vote 1.1.1
6 deliver 4
 commit 1.1.1 0@0
 sent 5 1>2 outcome 1.1.1 commit
 reply committed 1.1.1 2
6 deliver 5
 sent 6 2>1 ack 1.1.1
6 deliver 6
history
start y 5
commit 1.1.1 0@0 r y 5
end 1
";

/// The worked schedules of transactions, and what is printed for each.
const WORKED: [(&str, &str, &str); 10] = [
    (
        "a held lock is named",
        A_HELD_LOCK_IS_NAMED,
        A_HELD_LOCK_IS_NAMED_PRINTED,
    ),
    (
        "messages come twice and out of order",
        MESSAGES_COME_TWICE_AND_OUT_OF_ORDER,
        MESSAGES_COME_TWICE_AND_OUT_OF_ORDER_PRINTED,
    ),
    ("a vote is lost", A_VOTE_IS_LOST, A_VOTE_IS_LOST_PRINTED),
    (
        "a commit comes late",
        A_COMMIT_COMES_LATE,
        A_COMMIT_COMES_LATE_PRINTED,
    ),
    (
        "a site crashes after its decision",
        A_SITE_CRASHES_AFTER_ITS_DECISION,
        A_SITE_CRASHES_AFTER_ITS_DECISION_PRINTED,
    ),
    (
        "a site crashes before its decision",
        A_SITE_CRASHES_BEFORE_ITS_DECISION,
        A_SITE_CRASHES_BEFORE_ITS_DECISION_PRINTED,
    ),
    (
        "an inquiry comes after the acknowledgement",
        AN_INQUIRY_COMES_AFTER_THE_ACKNOWLEDGEMENT,
        AN_INQUIRY_COMES_AFTER_THE_ACKNOWLEDGEMENT_PRINTED,
    ),
    (
        "an inquiry comes before the decision",
        AN_INQUIRY_COMES_BEFORE_THE_DECISION,
        AN_INQUIRY_COMES_BEFORE_THE_DECISION_PRINTED,
    ),
    (
        "calls are refused",
        CALLS_ARE_REFUSED,
        CALLS_ARE_REFUSED_PRINTED,
    ),
    (
        "a record is read at another site",
        A_RECORD_IS_READ_AT_ANOTHER_SITE,
        A_RECORD_IS_READ_AT_ANOTHER_SITE_PRINTED,
    ),
];

#[test]
fn transactions_go_as_worked_out(rt: HostRuntime) {
    for (name, schedule, printed) in WORKED {
        assert!(rt;
            is_printed(rt.alloc(), schedule, printed).expect(&rt, "memory"),
            "{name}"
        );
    }
}
