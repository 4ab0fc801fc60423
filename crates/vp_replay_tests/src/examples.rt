//! The schedules of docs/examples, and the replays of them that are there, byte for byte.

use vp_top_tests::is_printed;

const PARTITION: &str = "\
site 1 7001
site 2 7002
record x 10 1:2 2:1
events
cut 1 2
call 1 regroup
tick 1
call 1 begin
call 1 1.1.1 1 write x 11
call 1 1.1.1 2 commit
";

const PARTITION_PRINTED: &str = "\
1 cut 1 2
2 call 1 regroup
 sent 1 1>2 invite 1@1
 reply inviting 1@1
3 tick 1
4 call 1 begin
 reply begun 1.1.1 1@1
5 call 1 1.1.1 1 write x 11
 reply written 1.1.1 1
6 call 1 1.1.1 2 commit
 commit 1.1.1 1@1
 reply committed 1.1.1 2
history
start x 10
commit 1.1.1 1@1 w x 11
end 1
";

const DOUBT: &str = "\
site 1 7001
site 2 7002
site 3 7003
record x 10 1:1 2:1 3:1
record y 20 2:1 3:1
events
call 1 begin
call 1 1.1.1 1 write x 11
flow 9
call 1 1.1.1 2 commit
deliver 5
deliver 6
crash 1
call 2 regroup
flow 9
tick 2
flow 20
tick 2
tick 3
flow 20
call 2 begin
call 2 2.1.1 1 read y
call 2 2.1.1 2 read x
call 3 begin
call 3 3.1.1 1 read x
restart 1
tick 2
tick 3
flow 20
call 2 begin
call 2 2.1.2 1 read x
tick 2
tick 3
flow 20
call 2 begin
call 2 2.1.3 1 read x
";

const DOUBT_PRINTED: &str = "\
1 call 1 begin
 reply begun 1.1.1 0@0
2 call 1 1.1.1 1 write x 11
 sent 1 1>2 write-request 1.1.1 0@0 1 x
 sent 2 1>3 write-request 1.1.1 0@0 1 x
3 flow 9
3 deliver 1
 sent 3 2>1 write-answer 1.1.1 1
3 deliver 2
 sent 4 3>1 write-answer 1.1.1 1
3 deliver 3
3 deliver 4
 reply written 1.1.1 1
4 call 1 1.1.1 2 commit
 sent 5 1>2 prepare 1.1.1 0@0 2 w x 11
 sent 6 1>3 prepare 1.1.1 0@0 2 w x 11
5 deliver 5
 sent 7 2>1 vote 1.1.1
6 deliver 6
 sent 8 3>1 vote 1.1.1
7 crash 1
8 call 2 regroup
 sent 9 2>1 invite 1@2
 sent 10 2>3 invite 1@2
 reply inviting 1@2
9 flow 9
9 deliver 10
 sent 11 3>2 accept 1@2
9 deliver 11
10 tick 2
 sent 12 2>3 view 1@2 2,3
 sent 13 2>3 refresh-request 1@2 x
 sent 14 2>3 refresh-request 1@2 y
 sent 15 2>1 inquire 1.1.1
11 flow 20
11 deliver 12
 sent 16 3>2 refresh-request 1@2 x
 sent 17 3>2 refresh-request 1@2 y
11 deliver 13
11 deliver 14
 sent 18 3>2 refresh-answer 1@2 y 20 0@0
11 deliver 16
11 deliver 17
 sent 19 2>3 refresh-answer 1@2 y 20 0@0
11 deliver 18
11 deliver 19
12 tick 2
 sent 20 2>3 refresh-request 1@2 x
 sent 21 2>1 inquire 1.1.1
13 tick 3
 sent 22 3>2 refresh-request 1@2 x
 sent 23 3>1 inquire 1.1.1
14 flow 20
14 deliver 20
14 deliver 22
15 call 2 begin
 reply begun 2.1.1 1@2
16 call 2 2.1.1 1 read y
 reply value 2.1.1 1 20
17 call 2 2.1.1 2 read x
 reply lockheld 2.1.1 2 x at 2 by 1.1.1
18 call 3 begin
 reply begun 3.1.1 1@2
19 call 3 3.1.1 1 read x
 reply lockheld 3.1.1 1 x at 3 by 1.1.1
20 restart 1
 life 2
21 tick 2
 sent 24 2>3 refresh-request 1@2 x
 sent 25 2>1 inquire 1.1.1
22 tick 3
 sent 26 3>2 refresh-request 1@2 x
 sent 27 3>1 inquire 1.1.1
23 flow 20
23 deliver 7
23 deliver 8
23 deliver 9
 sent 28 1>2 accept 1@2
23 deliver 15
 sent 29 1>2 outcome 1.1.1 abort
23 deliver 21
 sent 30 1>2 outcome 1.1.1 abort
23 deliver 23
 sent 31 1>3 outcome 1.1.1 abort
23 deliver 24
23 deliver 25
 sent 32 1>2 outcome 1.1.1 abort
23 deliver 26
23 deliver 27
 sent 33 1>3 outcome 1.1.1 abort
23 deliver 28
23 deliver 29
23 deliver 30
23 deliver 31
23 deliver 32
23 deliver 33
24 call 2 begin
 reply begun 2.1.2 1@2
25 call 2 2.1.2 1 read x
 reply lockheld 2.1.2 1 x at 2 by refresh
26 tick 2
 sent 34 2>3 refresh-request 1@2 x
27 tick 3
 sent 35 3>2 refresh-request 1@2 x
28 flow 20
28 deliver 34
 sent 36 3>2 refresh-answer 1@2 x 10 0@0
28 deliver 35
 sent 37 2>3 refresh-answer 1@2 x 10 0@0
28 deliver 36
28 deliver 37
29 call 2 begin
 reply begun 2.1.3 1@2
30 call 2 2.1.3 1 read x
 reply value 2.1.3 1 10
history
start x 10
start y 20
end 0
";

const BANKS: &str = "\
site 1 7001
site 2 7002
site 3 7003
record north 100 1:1 2:1 3:1
record south 100 1:1 2:1 3:1
events
call 1 begin
call 1 1.1.1 1 read north
call 1 1.1.1 2 read south
call 1 1.1.1 3 write north 70
flow 9
call 1 1.1.1 4 write south 130
flow 9
call 1 1.1.1 5 commit
flow 20
cut 1 3
cut 2 3
call 1 regroup
flow 9
tick 1
flow 20
tick 1
tick 2
flow 20
call 2 begin
call 2 2.1.1 1 read north
call 2 2.1.1 2 write north 60
flow 9
call 2 2.1.1 3 commit
flow 20
call 3 begin
call 3 3.1.1 1 read north
call 3 3.1.1 2 write north 0
tick 3
tick 3
call 3 regroup
tick 3
call 3 begin
call 3 3.1.2 1 read north
heal 1 3
heal 2 3
call 3 regroup
flow 40
tick 3
flow 40
call 3 begin
call 3 3.1.3 1 read north
call 3 3.1.3 2 read south
call 3 3.1.3 3 commit
";

const BANKS_PRINTED: &str = "\
1 call 1 begin
 reply begun 1.1.1 0@0
2 call 1 1.1.1 1 read north
 reply value 1.1.1 1 100
3 call 1 1.1.1 2 read south
 reply value 1.1.1 2 100
4 call 1 1.1.1 3 write north 70
 sent 1 1>2 write-request 1.1.1 0@0 3 north
 sent 2 1>3 write-request 1.1.1 0@0 3 north
5 flow 9
5 deliver 1
 sent 3 2>1 write-answer 1.1.1 3
5 deliver 2
 sent 4 3>1 write-answer 1.1.1 3
5 deliver 3
5 deliver 4
 reply written 1.1.1 3
6 call 1 1.1.1 4 write south 130
 sent 5 1>2 write-request 1.1.1 0@0 4 south
 sent 6 1>3 write-request 1.1.1 0@0 4 south
7 flow 9
7 deliver 5
 sent 7 2>1 write-answer 1.1.1 4
7 deliver 6
 sent 8 3>1 write-answer 1.1.1 4
7 deliver 7
7 deliver 8
 reply written 1.1.1 4
8 call 1 1.1.1 5 commit
 sent 9 1>2 prepare 1.1.1 0@0 5 w north 70 w south 130
 sent 10 1>3 prepare 1.1.1 0@0 5 w north 70 w south 130
9 flow 20
9 deliver 9
 sent 11 2>1 vote 1.1.1
9 deliver 10
 sent 12 3>1 vote 1.1.1
9 deliver 11
9 deliver 12
 commit 1.1.1 0@0
 sent 13 1>2 outcome 1.1.1 commit
 sent 14 1>3 outcome 1.1.1 commit
 reply committed 1.1.1 5
9 deliver 13
 sent 15 2>1 ack 1.1.1
9 deliver 14
 sent 16 3>1 ack 1.1.1
9 deliver 15
9 deliver 16
10 cut 1 3
11 cut 2 3
12 call 1 regroup
 sent 17 1>2 invite 1@1
 sent 18 1>3 invite 1@1
 reply inviting 1@1
13 flow 9
13 deliver 17
 sent 19 2>1 accept 1@1
13 deliver 19
14 tick 1
 sent 20 1>2 view 1@1 1,2
 sent 21 1>2 refresh-request 1@1 north
 sent 22 1>2 refresh-request 1@1 south
15 flow 20
15 deliver 20
 sent 23 2>1 refresh-request 1@1 north
 sent 24 2>1 refresh-request 1@1 south
15 deliver 21
 sent 25 2>1 refresh-answer 1@1 north 70 0@0
15 deliver 22
 sent 26 2>1 refresh-answer 1@1 south 130 0@0
15 deliver 23
 sent 27 1>2 refresh-answer 1@1 north 70 0@0
15 deliver 24
 sent 28 1>2 refresh-answer 1@1 south 130 0@0
15 deliver 25
15 deliver 26
15 deliver 27
15 deliver 28
16 tick 1
17 tick 2
18 flow 20
19 call 2 begin
 reply begun 2.1.1 1@1
20 call 2 2.1.1 1 read north
 reply value 2.1.1 1 70
21 call 2 2.1.1 2 write north 60
 sent 29 2>1 write-request 2.1.1 1@1 2 north
22 flow 9
22 deliver 29
 sent 30 1>2 write-answer 2.1.1 2
22 deliver 30
 reply written 2.1.1 2
23 call 2 2.1.1 3 commit
 sent 31 2>1 prepare 2.1.1 1@1 3 w north 60
24 flow 20
24 deliver 31
 sent 32 1>2 vote 2.1.1
24 deliver 32
 commit 2.1.1 1@1
 sent 33 2>1 outcome 2.1.1 commit
 reply committed 2.1.1 3
24 deliver 33
 sent 34 1>2 ack 2.1.1
24 deliver 34
25 call 3 begin
 reply begun 3.1.1 0@0
26 call 3 3.1.1 1 read north
 reply value 3.1.1 1 70
27 call 3 3.1.1 2 write north 0
 sent 35 3>1 write-request 3.1.1 0@0 2 north
 sent 36 3>2 write-request 3.1.1 0@0 2 north
28 tick 3
29 tick 3
 sent 37 3>1 outcome 3.1.1 abort
 sent 38 3>2 outcome 3.1.1 abort
 reply timedout 3.1.1 2 at 1
30 call 3 regroup
 sent 39 3>1 invite 1@3
 sent 40 3>2 invite 1@3
 reply inviting 1@3
31 tick 3
32 call 3 begin
 reply begun 3.1.2 1@3
33 call 3 3.1.2 1 read north
 reply inaccessible 3.1.2 1 north 1 of 3
34 heal 1 3
35 heal 2 3
36 call 3 regroup
 sent 41 3>1 invite 2@3
 sent 42 3>2 invite 2@3
 reply inviting 2@3
37 flow 40
37 deliver 18
 sent 43 3>1 stale 1@1 2@3
37 deliver 35
 sent 44 1>3 refuse 3.1.1 2 view 1@1
37 deliver 36
 sent 45 2>3 refuse 3.1.1 2 view 1@1
37 deliver 37
37 deliver 38
37 deliver 39
 sent 46 1>3 accept 1@3
37 deliver 40
 sent 47 2>3 accept 1@3
37 deliver 41
 sent 48 1>3 accept 2@3
37 deliver 42
 sent 49 2>3 accept 2@3
37 deliver 43
37 deliver 44
37 deliver 45
37 deliver 46
37 deliver 47
37 deliver 48
37 deliver 49
38 tick 3
 sent 50 3>1 view 2@3 1,2,3
 sent 51 3>2 view 2@3 1,2,3
 sent 52 3>1 refresh-request 2@3 north
 sent 53 3>2 refresh-request 2@3 north
 sent 54 3>1 refresh-request 2@3 south
 sent 55 3>2 refresh-request 2@3 south
39 flow 40
39 deliver 50
 sent 56 1>2 refresh-request 2@3 north
 sent 57 1>3 refresh-request 2@3 north
 sent 58 1>2 refresh-request 2@3 south
 sent 59 1>3 refresh-request 2@3 south
39 deliver 51
 sent 60 2>1 refresh-request 2@3 north
 sent 61 2>3 refresh-request 2@3 north
 sent 62 2>1 refresh-request 2@3 south
 sent 63 2>3 refresh-request 2@3 south
39 deliver 52
 sent 64 1>3 refresh-answer 2@3 north 60 1@1
39 deliver 53
 sent 65 2>3 refresh-answer 2@3 north 60 1@1
39 deliver 54
 sent 66 1>3 refresh-answer 2@3 south 130 0@0
39 deliver 55
 sent 67 2>3 refresh-answer 2@3 south 130 0@0
39 deliver 56
 sent 68 2>1 refresh-answer 2@3 north 60 1@1
39 deliver 57
 sent 69 3>1 refresh-answer 2@3 north 70 0@0
39 deliver 58
 sent 70 2>1 refresh-answer 2@3 south 130 0@0
39 deliver 59
 sent 71 3>1 refresh-answer 2@3 south 130 0@0
39 deliver 60
 sent 72 1>2 refresh-answer 2@3 north 60 1@1
39 deliver 61
 sent 73 3>2 refresh-answer 2@3 north 70 0@0
39 deliver 62
 sent 74 1>2 refresh-answer 2@3 south 130 0@0
39 deliver 63
 sent 75 3>2 refresh-answer 2@3 south 130 0@0
39 deliver 64
39 deliver 65
39 deliver 66
39 deliver 67
39 deliver 68
39 deliver 69
39 deliver 70
39 deliver 71
39 deliver 72
39 deliver 73
39 deliver 74
39 deliver 75
40 call 3 begin
 reply begun 3.1.3 2@3
41 call 3 3.1.3 1 read north
 reply value 3.1.3 1 60
42 call 3 3.1.3 2 read south
 reply value 3.1.3 2 130
43 call 3 3.1.3 3 commit
 commit 3.1.3 2@3
 reply committed 3.1.3 3
history
start north 100
start south 100
commit 1.1.1 0@0 r north 100 r south 100 w north 70 w south 130
commit 2.1.1 1@1 r north 70 w north 60
commit 3.1.3 2@3 r north 60 r south 130
end 3
";

const WEIGHTS: &str = "\
site 1 7001
site 2 7002
site 3 7003
record x 10 1:1 2:1 3:1
events
cut 1 3
cut 2 3
call 1 regroup
flow 9
tick 1
flow 9
call 1 begin
call 1 1.1.1 1 write x 11
flow 9
call 1 1.1.1 2 commit
flow 9
cut 1 2
heal 2 3
call 3 regroup
flow 9
tick 3
flow 9
call 3 begin
call 3 3.1.1 1 weigh x 1:1 2:1 3:5
flow 9
call 3 3.1.1 2 commit
flow 9
cut 2 3
call 3 regroup
tick 3
call 3 begin
call 3 3.1.2 1 write x 12
call 3 3.1.2 2 commit
call 1 begin
call 1 1.1.2 1 read x
call 1 1.1.2 2 commit
heal 1 2
call 2 regroup
flow 9
tick 2
flow 9
call 1 begin
call 1 1.1.3 1 read x
heal 1 3
heal 2 3
call 3 regroup
flow 20
tick 3
flow 30
call 1 begin
call 1 1.1.4 1 read x
call 1 1.1.4 2 commit
flow 9
";

const WEIGHTS_PRINTED: &str = "\
1 cut 1 3
2 cut 2 3
3 call 1 regroup
 sent 1 1>2 invite 1@1
 sent 2 1>3 invite 1@1
 reply inviting 1@1
4 flow 9
4 deliver 1
 sent 3 2>1 accept 1@1
4 deliver 3
5 tick 1
 sent 4 1>2 view 1@1 1,2
 sent 5 1>2 refresh-request 1@1 x
6 flow 9
6 deliver 4
 sent 6 2>1 refresh-request 1@1 x
6 deliver 5
 sent 7 2>1 refresh-answer 1@1 x 10 0@0
6 deliver 6
 sent 8 1>2 refresh-answer 1@1 x 10 0@0
6 deliver 7
6 deliver 8
7 call 1 begin
 reply begun 1.1.1 1@1
8 call 1 1.1.1 1 write x 11
 sent 9 1>2 write-request 1.1.1 1@1 1 x
9 flow 9
9 deliver 9
 sent 10 2>1 write-answer 1.1.1 1
9 deliver 10
 reply written 1.1.1 1
10 call 1 1.1.1 2 commit
 sent 11 1>2 prepare 1.1.1 1@1 2 w x 11
11 flow 9
11 deliver 11
 sent 12 2>1 vote 1.1.1
11 deliver 12
 commit 1.1.1 1@1
 sent 13 1>2 outcome 1.1.1 commit
 reply committed 1.1.1 2
11 deliver 13
 sent 14 2>1 ack 1.1.1
11 deliver 14
12 cut 1 2
13 heal 2 3
14 call 3 regroup
 sent 15 3>1 invite 1@3
 sent 16 3>2 invite 1@3
 reply inviting 1@3
15 flow 9
15 deliver 16
 sent 17 2>3 accept 1@3
15 deliver 17
16 tick 3
 sent 18 3>2 view 1@3 2,3
 sent 19 3>2 refresh-request 1@3 x
17 flow 9
17 deliver 18
 sent 20 2>3 refresh-request 1@3 x
17 deliver 19
 sent 21 2>3 refresh-answer 1@3 x 11 1@1
17 deliver 20
 sent 22 3>2 refresh-answer 1@3 x 10 0@0
17 deliver 21
17 deliver 22
18 call 3 begin
 reply begun 3.1.1 1@3
19 call 3 3.1.1 1 weigh x 1:1 2:1 3:5
 sent 23 3>2 write-request 3.1.1 1@3 1 x
20 flow 9
20 deliver 23
 sent 24 2>3 write-answer 3.1.1 1
20 deliver 24
 reply weighed 3.1.1 1
21 call 3 3.1.1 2 commit
 sent 25 3>2 prepare 3.1.1 1@3 2 t x 1:1 2:1 3:5
22 flow 9
22 deliver 25
 sent 26 2>3 vote 3.1.1
22 deliver 26
 commit 3.1.1 1@3
 sent 27 3>2 outcome 3.1.1 commit
 reply committed 3.1.1 2
22 deliver 27
 sent 28 2>3 ack 3.1.1
22 deliver 28
23 cut 2 3
24 call 3 regroup
 sent 29 3>1 invite 2@3
 sent 30 3>2 invite 2@3
 reply inviting 2@3
25 tick 3
26 call 3 begin
 reply begun 3.1.2 2@3
27 call 3 3.1.2 1 write x 12
 reply written 3.1.2 1
28 call 3 3.1.2 2 commit
 commit 3.1.2 2@3
 reply committed 3.1.2 2
29 call 1 begin
 reply begun 1.1.2 1@1
30 call 1 1.1.2 1 read x
 reply value 1.1.2 1 11
31 call 1 1.1.2 2 commit
 commit 1.1.2 1@1
 reply committed 1.1.2 2
32 heal 1 2
33 call 2 regroup
 sent 31 2>1 invite 2@2
 sent 32 2>3 invite 2@2
 reply inviting 2@2
34 flow 9
34 deliver 31
 sent 33 1>2 accept 2@2
34 deliver 33
35 tick 2
 sent 34 2>1 view 2@2 1,2
 sent 35 2>1 refresh-request 2@2 x
36 flow 9
36 deliver 34
 sent 36 1>2 refresh-request 2@2 x
36 deliver 35
 sent 37 1>2 refresh-answer 2@2 x 11 1@1
36 deliver 36
 sent 38 2>1 refresh-answer 2@2 x 11 1@3 1:1 2:1 3:5
36 deliver 37
36 deliver 38
37 call 1 begin
 reply begun 1.1.3 2@2
38 call 1 1.1.3 1 read x
 reply inaccessible 1.1.3 1 x 2 of 7
39 heal 1 3
40 heal 2 3
41 call 3 regroup
 sent 39 3>1 invite 3@3
 sent 40 3>2 invite 3@3
 reply inviting 3@3
42 flow 20
42 deliver 2
 sent 41 3>1 stale 1@1 3@3
42 deliver 15
 sent 42 1>3 stale 1@3 2@2
42 deliver 29
 sent 43 1>3 accept 2@3
42 deliver 30
 sent 44 2>3 accept 2@3
42 deliver 32
 sent 45 3>2 stale 2@2 3@3
42 deliver 39
 sent 46 1>3 accept 3@3
42 deliver 40
 sent 47 2>3 accept 3@3
42 deliver 41
42 deliver 42
42 deliver 43
42 deliver 44
42 deliver 45
42 deliver 46
42 deliver 47
43 tick 3
 sent 48 3>1 view 3@3 1,2,3
 sent 49 3>2 view 3@3 1,2,3
 sent 50 3>1 refresh-request 3@3 x
 sent 51 3>2 refresh-request 3@3 x
44 flow 30
44 deliver 48
 sent 52 1>2 refresh-request 3@3 x
 sent 53 1>3 refresh-request 3@3 x
44 deliver 49
 sent 54 2>1 refresh-request 3@3 x
 sent 55 2>3 refresh-request 3@3 x
44 deliver 50
 sent 56 1>3 refresh-answer 3@3 x 11 1@1
44 deliver 51
 sent 57 2>3 refresh-answer 3@3 x 11 1@3 1:1 2:1 3:5
44 deliver 52
 sent 58 2>1 refresh-answer 3@3 x 11 1@3 1:1 2:1 3:5
44 deliver 53
 sent 59 3>1 refresh-answer 3@3 x 12 2@3 1:1 2:1 3:5
44 deliver 54
 sent 60 1>2 refresh-answer 3@3 x 11 1@1
44 deliver 55
 sent 61 3>2 refresh-answer 3@3 x 12 2@3 1:1 2:1 3:5
44 deliver 56
44 deliver 57
44 deliver 58
44 deliver 59
44 deliver 60
44 deliver 61
45 call 1 begin
 reply begun 1.1.4 3@3
46 call 1 1.1.4 1 read x
 reply value 1.1.4 1 12
47 call 1 1.1.4 2 commit
 commit 1.1.4 3@3
 reply committed 1.1.4 2
48 flow 9
history
start x 10
commit 1.1.1 1@1 w x 11
commit 1.1.2 1@1 r x 11
commit 3.1.1 1@3
commit 3.1.2 2@3 w x 12
commit 1.1.4 3@3 r x 12
end 5
";

/// Each example, and what is printed for it.
const EXAMPLES: [(&str, &str, &str); 4] = [
    ("a partition", PARTITION, PARTITION_PRINTED),
    ("a coordinator that stops in doubt", DOUBT, DOUBT_PRINTED),
    ("two banks and a partition", BANKS, BANKS_PRINTED),
    ("weights that change", WEIGHTS, WEIGHTS_PRINTED),
];

#[test]
fn examples_are_replayed_as_they_are_kept(rt: HostRuntime) {
    for (name, schedule, printed) in EXAMPLES {
        assert!(rt;
            is_printed(rt.alloc(), schedule, printed).expect(&rt, "memory"),
            "{name}"
        );
    }
}
