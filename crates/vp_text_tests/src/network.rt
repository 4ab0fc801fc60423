//! The words of the commands that use a network.

use crate::command_lines::told_in;

/// Lines of words with `|` between them, and the command that they are.
const COMMANDS: &str = "\
node|1|a|5=node 1 5 a
node|16|a|0=node 16 0 a
node|1||5=node 1 5\x20
node|2|a b|1=node 2 1 a b
node|2|a-b|1=node 2 1 a-b
node|3|é|1=node 3 1 é
node|3|0|1=node 3 1 0
node|10|node|18446744073709551615=node 10 18446744073709551615 node
node|--|1|a|5=node 1 5 a
node|1|--|a|5=node 1 5 a
node|1|a|--|5=node 1 5 a
node|1|a|5|--=node 1 5 a
node|--|1|-a|5=node 1 5 -a
node|1|--|-|5=node 1 5 -
node|1|--|--|5=node 1 5 --
node|1|--|--help|5=node 1 5 --help
node|--|1|--|5=node 1 5 --
client|7001|1|1|begin=client 7001 1 1 begin
client|1|0|16|regroup=client 1 0 16 regroup
client|65535|18446744073709551615|2|1.1.1 1 read x=client 65535 18446744073709551615 2 1.1.1 1 read x
client|7001|1|1|1.1.1 2 write x -5=client 7001 1 1 1.1.1 2 write x -5
client|7001|1|1|1.1.1 3 commit=client 7001 1 1 1.1.1 3 commit
client|7001|1|1|16.4294967295.1 4294967295 abort=client 7001 1 1 16.4294967295.1 4294967295 abort
client|--|7001|1|1|begin=client 7001 1 1 begin
client|7001|1|--|1|begin=client 7001 1 1 begin
client|7001|1|1|--|begin=client 7001 1 1 begin
client|7001|1|1|begin|--=client 7001 1 1 begin
tick|1=tick 1
tick|16=tick 16
tick|--|3=tick 3
tick|3|--=tick 3
probe|1=probe 1
probe|16=probe 16
probe|--|3=probe 3
probe|3|--=probe 3
stop|1=stop 1
stop|16=stop 16
stop|--|3=stop 3
stop|3|--=stop 3
audit|1|a=audit 1 a
audit|16|=audit 16\x20
audit|1|a|2|b=audit 1 a 2 b
audit|2|a|10|a=audit 2 a 10 a
audit|--|1|-a|3|--=audit 1 -a 3 --
audit|1|--|a=audit 1 a
audit|1|a|2|b|--=audit 1 a 2 b
audit|1|a|2|b|3|c|4|d|5|e|6|f|7|g|8|h|9|i|10|j|11|k|12|l|13|m|14|n|15|o|16|p=audit 1 a 2 b 3 c 4 d 5 e 6 f 7 g 8 h 9 i 10 j 11 k 12 l 13 m 14 n 15 o 16 p
gateway|7001|1|1=gateway 7001 1 1
gateway|1|0|16=gateway 1 0 16
gateway|65535|18446744073709551615|2=gateway 65535 18446744073709551615 2
gateway|--|7001|1|1=gateway 7001 1 1
gateway|7001|--|1|1=gateway 7001 1 1
gateway|7001|1|1|--=gateway 7001 1 1
proc|7001|1|1=proc 7001 1 1
proc|1|0|16=proc 1 0 16
proc|65535|18446744073709551615|2=proc 65535 18446744073709551615 2
proc|--|7001|1|1=proc 7001 1 1
proc|7001|--|1|1=proc 7001 1 1
proc|7001|1|1|--=proc 7001 1 1
";

#[test]
fn network_commands_are_read(rt: HostRuntime) {
    for row in COMMANDS.lines() {
        let (line, command) = row.split_once('=').unwrap_or((row, ""));
        assert_eq!(rt;
            told_in(&rt, rt.alloc(), line, '|').as_slice(),
            command.as_bytes(),
            "{line}"
        );
    }
}

/// Lines of words with `|` between them that are no command.
const NO_COMMANDS: &str = "\
node
node|1
node|1|a
node|1|a|5|6
node|0|a|5
node|17|a|5
node|01|a|5
node|257|a|5
node|one|a|5
node||a|5
node|+1|a|5
node|1 |a|5
node|1|-a|5
node|1|-|5
node|1|--log|5
node|-|a|5
node|1|a|-
node|1|a|-5
node|--|1|a|--|5
node|1|--|-a|--|5
node|1|--|-a
node|1|a|05
node|1|a|
node|1|a|5\x20
node|1|a|18446744073709551616
node|1|a|36893488147419103233
node|1|a|5|--help
node|--help
Node|1|a|5
\x20node|1|a|5
client
client|7001
client|7001|1
client|7001|1|1
client|7001|1|1|begin|more
client|0|1|1|begin
client|65536|1|1|begin
client|07001|1|1|begin
client|-1|1|1|begin
client|port|1|1|begin
client|72537|1|1|begin
client|7001|01|1|begin
client|7001|18446744073709551616|1|begin
client|7001|-|1|begin
client|7001||1|begin
client|7001|1|0|begin
client|7001|1|17|begin
client|7001|1|01|begin
client|7001|1|x|begin
client|7001|1|1|
client|7001|1|1|beg
client|7001|1|1|begin\x20
client|7001|1|1| begin
client|7001|1|1|begin begin
client|7001|1|1|Begin
client|7001|1|1|1.1.1 1 read
client|7001|1|1|1.1.1 1 read\x20
client|7001|1|1|1.1.1 1 read X
client|7001|1|1|1.1.1 0 read x
client|7001|1|1|1.1.1 01 read x
client|7001|1|1|1.0.1 1 read x
client|7001|1|1|17.1.1 1 read x
client|7001|1|1|1.1.1 1 write x
client|7001|1|1|1.1.1 1 read x 5
client|7001|1|1|1.1.1 4294967296 commit
client|7001|1|1|1.1.1|1|read|x
client|7001|1|1|call 1 begin
client|7001|1|1|-
client|7001|1|1|-begin
client|7001|1|1|--|-begin
client|7001|1|1|begin|--|--
client|7001|-|1|1|begin
tick
tick|0
tick|17
tick|01
tick|1|2
tick|-
tick|-1
tick|--
tick|--|-
tick|--|--|1
tick|1|--|--
tick|
tick|1\x20
tick|one
tick|4294967297
tick|--help
probe
probe|0
probe|17
probe|01
probe|1|2
probe|-
probe|-1
probe|--
probe|--|-
probe|--|--|1
probe|1|--|--
probe|
probe|1\x20
probe|one
probe|4294967297
probe|--help
stop
stop|0
stop|17
stop|01
stop|1|2
stop|-
stop|-1
stop|--
stop|--|-
stop|--|--|1
stop|1|--|--
stop|
stop|1\x20
stop|one
stop|4294967297
stop|--help
audit
audit|--
audit|1
audit|1|a|2
audit|0|a
audit|17|a
audit|01|a
audit|1|a|1|b
audit|2|a|1|b
audit|a|1
audit||a
audit|1|-a
audit|1|-
audit|1|--|a|--
audit|--help
audit|1|a|2|b|3|c|4|d|5|e|6|f|7|g|8|h|9|i|10|j|11|k|12|l|13|m|14|n|15|o|16|p|16|q
gateway
gateway|7001
gateway|7001|1
gateway|7001|1|1|begin
gateway|0|1|1
gateway|65536|1|1
gateway|07001|1|1
gateway|72537|1|1
gateway|7001|01|1
gateway|7001|18446744073709551616|1
gateway|7001|1|0
gateway|7001|1|17
gateway|7001|1|257
gateway|7001||1
gateway|7001|-|1
gateway|7001|1|1|--|--
gateway|--help
proc
proc|7001
proc|7001|1
proc|7001|1|1|begin
proc|0|1|1
proc|65536|1|1
proc|07001|1|1
proc|72537|1|1
proc|7001|01|1
proc|7001|18446744073709551616|1
proc|7001|1|0
proc|7001|1|17
proc|7001|1|257
proc|7001||1
proc|7001|-|1
proc|7001|1|1|--|--
proc|--help
Gateway|7001|1|1
ticks|1
Tick|1
signal|1
-|tick|1
--|tick|1
";

#[test]
fn other_words_use_no_network(rt: HostRuntime) {
    for line in NO_COMMANDS.lines() {
        assert!(rt; told_in(&rt, rt.alloc(), line, '|').is_empty(), "{line}");
    }
}
