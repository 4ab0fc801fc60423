//! Worked schedules of records without a value, byte for byte.

use vp_top_tests::is_printed;

const A_RECORD_IS_DELETED: &str = "\
site 1 7001
record x 10 1:1
events
call 1 begin
call 1 1.1.1 1 delete x
call 1 1.1.1 2 read x
call 1 1.1.1 3 commit
call 1 begin
call 1 1.1.2 1 read x
call 1 1.1.2 2 write x 5
call 1 1.1.2 3 commit
";

const A_RECORD_IS_DELETED_PRINTED: &str = "\
1 call 1 begin
 reply begun 1.1.1 0@0
2 call 1 1.1.1 1 delete x
 reply deleted 1.1.1 1
3 call 1 1.1.1 2 read x
 reply absent 1.1.1 2
4 call 1 1.1.1 3 commit
 commit 1.1.1 0@0
 reply committed 1.1.1 3
5 call 1 begin
 reply begun 1.1.2 0@0
6 call 1 1.1.2 1 read x
 reply absent 1.1.2 1
7 call 1 1.1.2 2 write x 5
 reply written 1.1.2 2
8 call 1 1.1.2 3 commit
 commit 1.1.2 0@0
 reply committed 1.1.2 3
history
start x 10
commit 1.1.1 0@0 d x a x
commit 1.1.2 0@0 a x w x 5
end 2
";

const A_DELETED_RECORD_IS_REFRESHED: &str = "\
site 1 7001
site 2 7002
site 3 7003
record x 10 1:1 2:1 3:1
record y 5 2:1
events
call 1 begin
call 1 1.1.1 1 delete x
flow 4
call 1 1.1.1 2 read x
call 1 1.1.1 3 delete y
flow 4
call 1 1.1.1 4 read y
call 1 1.1.1 5 commit
flow 20
call 3 begin
call 3 3.1.1 1 read x
call 3 3.1.1 2 read y
flow 4
call 3 3.1.1 3 write y 7
flow 4
call 3 3.1.1 4 delete y
call 3 3.1.1 5 commit
flow 20
call 2 regroup
flow 20
tick 2
flow 40
call 3 begin
call 3 3.1.2 1 delete z
call 3 3.1.2 1 read x
call 3 3.1.2 2 write x 4
flow 10
call 3 3.1.2 3 commit
flow 20
";

const A_DELETED_RECORD_IS_REFRESHED_PRINTED: &str = "\
1 call 1 begin
 reply begun 1.1.1 0@0
2 call 1 1.1.1 1 delete x
 sent 1 1>2 write-request 1.1.1 0@0 1 x
 sent 2 1>3 write-request 1.1.1 0@0 1 x
3 flow 4
3 deliver 1
 sent 3 2>1 write-answer 1.1.1 1
3 deliver 2
 sent 4 3>1 write-answer 1.1.1 1
3 deliver 3
3 deliver 4
 reply deleted 1.1.1 1
4 call 1 1.1.1 2 read x
 reply absent 1.1.1 2
5 call 1 1.1.1 3 delete y
 sent 5 1>2 write-request 1.1.1 0@0 3 y
6 flow 4
6 deliver 5
 sent 6 2>1 write-answer 1.1.1 3
6 deliver 6
 reply deleted 1.1.1 3
7 call 1 1.1.1 4 read y
 reply absent 1.1.1 4
8 call 1 1.1.1 5 commit
 sent 7 1>2 prepare 1.1.1 0@0 5 d x d y
 sent 8 1>3 prepare 1.1.1 0@0 5 d x
9 flow 20
9 deliver 7
 sent 9 2>1 vote 1.1.1
9 deliver 8
 sent 10 3>1 vote 1.1.1
9 deliver 9
9 deliver 10
 commit 1.1.1 0@0
 sent 11 1>2 outcome 1.1.1 commit
 sent 12 1>3 outcome 1.1.1 commit
 reply committed 1.1.1 5
9 deliver 11
 sent 13 2>1 ack 1.1.1
9 deliver 12
 sent 14 3>1 ack 1.1.1
9 deliver 13
9 deliver 14
10 call 3 begin
 reply begun 3.1.1 0@0
11 call 3 3.1.1 1 read x
 reply absent 3.1.1 1
12 call 3 3.1.1 2 read y
 sent 15 3>2 read-request 3.1.1 0@0 2 y
13 flow 4
13 deliver 15
 sent 16 2>3 read-absent 3.1.1 2
13 deliver 16
 reply absent 3.1.1 2
14 call 3 3.1.1 3 write y 7
 sent 17 3>2 write-request 3.1.1 0@0 3 y
15 flow 4
15 deliver 17
 sent 18 2>3 write-answer 3.1.1 3
15 deliver 18
 reply written 3.1.1 3
16 call 3 3.1.1 4 delete y
 reply deleted 3.1.1 4
17 call 3 3.1.1 5 commit
 sent 19 3>2 prepare 3.1.1 0@0 5 r y d y
18 flow 20
18 deliver 19
 sent 20 2>3 vote 3.1.1
18 deliver 20
 commit 3.1.1 0@0
 sent 21 3>2 outcome 3.1.1 commit
 reply committed 3.1.1 5
18 deliver 21
 sent 22 2>3 ack 3.1.1
18 deliver 22
19 call 2 regroup
 sent 23 2>1 invite 1@2
 sent 24 2>3 invite 1@2
 reply inviting 1@2
20 flow 20
20 deliver 23
 sent 25 1>2 accept 1@2
20 deliver 24
 sent 26 3>2 accept 1@2
20 deliver 25
20 deliver 26
21 tick 2
 sent 27 2>1 view 1@2 1,2,3
 sent 28 2>3 view 1@2 1,2,3
 sent 29 2>1 refresh-request 1@2 x
 sent 30 2>3 refresh-request 1@2 x
22 flow 40
22 deliver 27
 sent 31 1>2 refresh-request 1@2 x
 sent 32 1>3 refresh-request 1@2 x
22 deliver 28
 sent 33 3>1 refresh-request 1@2 x
 sent 34 3>2 refresh-request 1@2 x
22 deliver 29
 sent 35 1>2 refresh-absent 1@2 x 0@0
22 deliver 30
 sent 36 3>2 refresh-absent 1@2 x 0@0
22 deliver 31
 sent 37 2>1 refresh-absent 1@2 x 0@0
22 deliver 32
 sent 38 3>1 refresh-absent 1@2 x 0@0
22 deliver 33
 sent 39 1>3 refresh-absent 1@2 x 0@0
22 deliver 34
 sent 40 2>3 refresh-absent 1@2 x 0@0
22 deliver 35
22 deliver 36
22 deliver 37
22 deliver 38
22 deliver 39
22 deliver 40
23 call 3 begin
 reply begun 3.1.2 1@2
24 call 3 3.1.2 1 delete z
 reply norecord 3.1.2 1
25 call 3 3.1.2 1 read x
 reply absent 3.1.2 1
26 call 3 3.1.2 2 write x 4
 sent 41 3>1 write-request 3.1.2 1@2 2 x
 sent 42 3>2 write-request 3.1.2 1@2 2 x
27 flow 10
27 deliver 41
 sent 43 1>3 write-answer 3.1.2 2
27 deliver 42
 sent 44 2>3 write-answer 3.1.2 2
27 deliver 43
27 deliver 44
 reply written 3.1.2 2
28 call 3 3.1.2 3 commit
 sent 45 3>1 prepare 3.1.2 1@2 3 w x 4
 sent 46 3>2 prepare 3.1.2 1@2 3 w x 4
29 flow 20
29 deliver 45
 sent 47 1>3 vote 3.1.2
29 deliver 46
 sent 48 2>3 vote 3.1.2
29 deliver 47
29 deliver 48
 commit 3.1.2 1@2
 sent 49 3>1 outcome 3.1.2 commit
 sent 50 3>2 outcome 3.1.2 commit
 reply committed 3.1.2 3
29 deliver 49
 sent 51 1>3 ack 3.1.2
29 deliver 50
 sent 52 2>3 ack 3.1.2
29 deliver 51
29 deliver 52
history
start x 10
start y 5
commit 1.1.1 0@0 d x a x d y a y
commit 3.1.1 0@0 a x a y w y 7 d y
commit 3.1.2 1@2 a x w x 4
end 3
";

#[test]
fn a_record_is_deleted(rt: HostRuntime) {
    let printed = is_printed(rt.alloc(), A_RECORD_IS_DELETED, A_RECORD_IS_DELETED_PRINTED);
    assert!(rt; printed.expect(&rt, "memory"));
}

#[test]
fn a_deleted_record_is_refreshed(rt: HostRuntime) {
    let printed = is_printed(
        rt.alloc(),
        A_DELETED_RECORD_IS_REFRESHED,
        A_DELETED_RECORD_IS_REFRESHED_PRINTED,
    );
    assert!(rt; printed.expect(&rt, "memory"));
}
