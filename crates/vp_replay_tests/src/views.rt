//! Worked schedules of several sites that change their views, byte for byte.

use vp_top_tests::is_printed;

const TWO_OF_THREE_SITES_GO_ON: &str = "\
site 1 7001
site 2 7002
site 3 7003
record x 10 1:1 2:1 3:1
events
cut 1 3
cut 2 3
call 1 regroup
deliver 1
deliver 2
deliver 3
tick 1
deliver 4
flow 9
call 1 begin
call 1 1.1.1 1 read x
call 3 regroup
tick 3
call 3 begin
call 3 3.1.1 1 read x
";

const TWO_OF_THREE_SITES_GO_ON_PRINTED: &str = "\
1 cut 1 3
2 cut 2 3
3 call 1 regroup
 sent 1 1>2 invite 1@1
 sent 2 1>3 invite 1@1
 reply inviting 1@1
4 deliver 1
 sent 3 2>1 accept 1@1
5 deliver 2
 cut 1 3
6 deliver 3
7 tick 1
 sent 4 1>2 view 1@1 1,2
 sent 5 1>2 refresh-request 1@1 x
8 deliver 4
 sent 6 2>1 refresh-request 1@1 x
9 flow 9
9 deliver 5
 sent 7 2>1 refresh-answer 1@1 x 10 0@0
9 deliver 6
 sent 8 1>2 refresh-answer 1@1 x 10 0@0
9 deliver 7
9 deliver 8
10 call 1 begin
 reply begun 1.1.1 1@1
11 call 1 1.1.1 1 read x
 reply value 1.1.1 1 10
12 call 3 regroup
 sent 9 3>1 invite 1@3
 sent 10 3>2 invite 1@3
 reply inviting 1@3
13 tick 3
14 call 3 begin
 reply begun 3.1.1 1@3
15 call 3 3.1.1 1 read x
 reply inaccessible 3.1.1 1 x 1 of 3
history
start x 10
end 0
";

const HALF_OF_THE_WEIGHT_IS_NOT_ENOUGH: &str = "\
site 1 7001
site 2 7002
site 3 7003
record y 5 1:2 2:1 3:1
events
call 1 regroup
tick 1
call 1 begin
call 1 1.1.1 1 read y
call 1 regroup
deliver 3
deliver 5
tick 1
deliver 6
deliver 7
deliver 9
call 1 begin
call 1 1.1.2 1 read y
call 1 1.1.1 1 read y
";

const HALF_OF_THE_WEIGHT_IS_NOT_ENOUGH_PRINTED: &str = "\
1 call 1 regroup
 sent 1 1>2 invite 1@1
 sent 2 1>3 invite 1@1
 reply inviting 1@1
2 tick 1
3 call 1 begin
 reply begun 1.1.1 1@1
4 call 1 1.1.1 1 read y
 reply inaccessible 1.1.1 1 y 2 of 4
5 call 1 regroup
 sent 3 1>2 invite 2@1
 sent 4 1>3 invite 2@1
 reply inviting 2@1
6 deliver 3
 sent 5 2>1 accept 2@1
7 deliver 5
8 tick 1
 sent 6 1>2 view 2@1 1,2
 sent 7 1>2 refresh-request 2@1 y
9 deliver 6
 sent 8 2>1 refresh-request 2@1 y
10 deliver 7
 sent 9 2>1 refresh-answer 2@1 y 5 0@0
11 deliver 9
12 call 1 begin
 reply begun 1.1.2 2@1
13 call 1 1.1.2 1 read y
 reply value 1.1.2 1 5
14 call 1 1.1.1 1 read y
 reply viewchanged 1.1.1 1 at 1 held 1@1 now none
history
start y 5
end 0
";

const THE_VIEW_CHANGES_BEFORE_THE_VOTE: &str = "\
site 1 7001
site 2 7002
site 3 7003
record x 10 1:1 2:1 3:1
events
call 1 begin
call 1 1.1.1 1 write x 11
flow 4
call 3 regroup
tick 3
call 1 1.1.1 2 commit
deliver 8
deliver 9
";

const THE_VIEW_CHANGES_BEFORE_THE_VOTE_PRINTED: &str = "\
1 call 1 begin
 reply begun 1.1.1 0@0
2 call 1 1.1.1 1 write x 11
 sent 1 1>2 write-request 1.1.1 0@0 1 x
 sent 2 1>3 write-request 1.1.1 0@0 1 x
3 flow 4
3 deliver 1
 sent 3 2>1 write-answer 1.1.1 1
3 deliver 2
 sent 4 3>1 write-answer 1.1.1 1
3 deliver 3
3 deliver 4
 reply written 1.1.1 1
4 call 3 regroup
 sent 5 3>1 invite 1@3
 sent 6 3>2 invite 1@3
 reply inviting 1@3
5 tick 3
6 call 1 1.1.1 2 commit
 sent 7 1>2 prepare 1.1.1 0@0 2 w x 11
 sent 8 1>3 prepare 1.1.1 0@0 2 w x 11
7 deliver 8
 sent 9 3>1 refuse 1.1.1 2 view 1@3
8 deliver 9
 sent 10 1>2 outcome 1.1.1 abort
 sent 11 1>3 outcome 1.1.1 abort
 reply viewchanged 1.1.1 2 at 3 held 0@0 now 1@3
history
start x 10
end 0
";

const AN_OLD_VIEW_READS_ON: &str = "\
site 1 7001
site 2 7002
site 3 7003
record x 10 1:1 2:1 3:1
events
call 2 regroup
deliver 2
deliver 3
tick 2
deliver 4
deliver 5
deliver 6
deliver 7
deliver 8
call 2 begin
call 2 2.1.1 1 write x 12
deliver 9
deliver 10
call 2 2.1.1 2 commit
deliver 11
deliver 12
call 1 begin
call 1 1.1.1 1 read x
call 1 1.1.1 2 commit
";

const AN_OLD_VIEW_READS_ON_PRINTED: &str = "\
1 call 2 regroup
 sent 1 2>1 invite 1@2
 sent 2 2>3 invite 1@2
 reply inviting 1@2
2 deliver 2
 sent 3 3>2 accept 1@2
3 deliver 3
4 tick 2
 sent 4 2>3 view 1@2 2,3
 sent 5 2>3 refresh-request 1@2 x
5 deliver 4
 sent 6 3>2 refresh-request 1@2 x
6 deliver 5
 sent 7 3>2 refresh-answer 1@2 x 10 0@0
7 deliver 6
 sent 8 2>3 refresh-answer 1@2 x 10 0@0
8 deliver 7
9 deliver 8
10 call 2 begin
 reply begun 2.1.1 1@2
11 call 2 2.1.1 1 write x 12
 sent 9 2>3 write-request 2.1.1 1@2 1 x
12 deliver 9
 sent 10 3>2 write-answer 2.1.1 1
13 deliver 10
 reply written 2.1.1 1
14 call 2 2.1.1 2 commit
 sent 11 2>3 prepare 2.1.1 1@2 2 w x 12
15 deliver 11
 sent 12 3>2 vote 2.1.1
16 deliver 12
 commit 2.1.1 1@2
 sent 13 2>3 outcome 2.1.1 commit
 reply committed 2.1.1 2
17 call 1 begin
 reply begun 1.1.1 0@0
18 call 1 1.1.1 1 read x
 reply value 1.1.1 1 10
19 call 1 1.1.1 2 commit
 commit 1.1.1 0@0
 reply committed 1.1.1 2
history
start x 10
commit 1.1.1 0@0 r x 10
commit 2.1.1 1@2 w x 12
end 2
";

const A_VIEW_COMES_AGAIN_AFTER_A_RESTART: &str = "\
site 1 7001
site 2 7002
site 3 7003
record x 10 1:1 2:1 3:1
events
call 2 regroup
deliver 2
deliver 3
tick 2
deliver 4
crash 3
restart 3
deliver 4
call 3 begin
";

const A_VIEW_COMES_AGAIN_AFTER_A_RESTART_PRINTED: &str = "\
1 call 2 regroup
 sent 1 2>1 invite 1@2
 sent 2 2>3 invite 1@2
 reply inviting 1@2
2 deliver 2
 sent 3 3>2 accept 1@2
3 deliver 3
4 tick 2
 sent 4 2>3 view 1@2 2,3
 sent 5 2>3 refresh-request 1@2 x
5 deliver 4
 sent 6 3>2 refresh-request 1@2 x
6 crash 3
7 restart 3
 life 2
8 deliver 4
9 call 3 begin
 reply noview 1@2
history
start x 10
end 0
";

const TWO_SITES_INVITE: &str = "\
site 1 7001
site 2 7002
record x 10 1:1 2:1
events
call 1 regroup
call 2 regroup
deliver 1
deliver 2
deliver 3
deliver 4
tick 2
deliver 5
call 1 begin
";

const TWO_SITES_INVITE_PRINTED: &str = "\
1 call 1 regroup
 sent 1 1>2 invite 1@1
 reply inviting 1@1
2 call 2 regroup
 sent 2 2>1 invite 1@2
 reply inviting 1@2
3 deliver 1
 sent 3 2>1 stale 1@1 1@2
4 deliver 2
 sent 4 1>2 accept 1@2
5 deliver 3
6 deliver 4
7 tick 2
 sent 5 2>1 view 1@2 1,2
 sent 6 2>1 refresh-request 1@2 x
8 deliver 5
 sent 7 1>2 refresh-request 1@2 x
9 call 1 begin
 reply begun 1.1.1 1@2
history
start x 10
end 0
";

const THE_MONITOR_WANTS_A_VIEW: &str = "\
site 1 7001
site 2 7002
site 3 7003
record x 10 1:1 2:1 3:1
events
probe 1
deliver 1
probe 2
deliver 3
probe 1
";

const THE_MONITOR_WANTS_A_VIEW_PRINTED: &str = "\
1 probe 1
 sent 1 1>2 probe 0@0
 sent 2 1>3 probe 0@0
2 deliver 1
3 probe 2
 sent 3 2>1 probe 0@0
 sent 4 2>3 probe 0@0
4 deliver 3
5 probe 1
 sent 5 1>2 invite 1@1
 sent 6 1>3 invite 1@1
history
start x 10
end 0
";

/// The worked schedules of views, and what is printed for each.
const WORKED: [(&str, &str, &str); 7] = [
    (
        "two of three sites go on",
        TWO_OF_THREE_SITES_GO_ON,
        TWO_OF_THREE_SITES_GO_ON_PRINTED,
    ),
    (
        "half of the weight is not enough",
        HALF_OF_THE_WEIGHT_IS_NOT_ENOUGH,
        HALF_OF_THE_WEIGHT_IS_NOT_ENOUGH_PRINTED,
    ),
    (
        "the view changes before the vote",
        THE_VIEW_CHANGES_BEFORE_THE_VOTE,
        THE_VIEW_CHANGES_BEFORE_THE_VOTE_PRINTED,
    ),
    (
        "an old view reads on",
        AN_OLD_VIEW_READS_ON,
        AN_OLD_VIEW_READS_ON_PRINTED,
    ),
    (
        "a view comes again after a restart",
        A_VIEW_COMES_AGAIN_AFTER_A_RESTART,
        A_VIEW_COMES_AGAIN_AFTER_A_RESTART_PRINTED,
    ),
    (
        "two sites invite",
        TWO_SITES_INVITE,
        TWO_SITES_INVITE_PRINTED,
    ),
    (
        "the monitor wants a view",
        THE_MONITOR_WANTS_A_VIEW,
        THE_MONITOR_WANTS_A_VIEW_PRINTED,
    ),
];

#[test]
fn views_change_as_worked_out(rt: HostRuntime) {
    for (name, schedule, printed) in WORKED {
        assert!(rt;
            is_printed(rt.alloc(), schedule, printed).expect(&rt, "memory"),
            "{name}"
        );
    }
}
