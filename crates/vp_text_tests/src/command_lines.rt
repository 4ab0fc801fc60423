//! Words of command lines, and the command that each list of them is.

use std::alloc::{AllocError, Global};
use std::process::Abort;
use vp_base::Word;
use vp_trace::print_call;
use vp_words::{Command, Signal};

/// The text of the command of the words; empty where they are none.
pub(crate) fn told(rt: &impl Abort, alloc: Global, texts: &[&[u8]]) -> Vec<u8> {
    let mut words = Vec::new(alloc);
    for text in texts {
        let bytes = Vec::from_slice(alloc, text).expect(rt, "memory");
        words.push(Word::from_vec(bytes)).expect(rt, "memory");
    }
    match Command::of(alloc, &words).expect(rt, "memory") {
        Some(command) => text_of(rt, alloc, &command),
        None => Vec::new(alloc),
    }
}

fn name_of(signal: Signal) -> &'static str {
    match signal {
        Signal::Tick => "tick",
        Signal::Probe => "probe",
        Signal::Stop => "stop",
    }
}

/// What the command's text begins with: all of it but a log and a call.
fn front(alloc: Global, command: &Command) -> Result<String, AllocError> {
    match command {
        Command::Replay => format!(in alloc; "replay"),
        Command::Check => format!(in alloc; "check"),
        Command::Node { site, turns, .. } => format!(in alloc; "node {} {turns} ", site.get()),
        Command::Client {
            port,
            turns,
            site,
            ..
        } => format!(in alloc; "client {port} {turns} {} ", site.get()),
        Command::Signal { site, signal } => {
            format!(in alloc; "{} {}", name_of(*signal), site.get())
        }
        Command::Generate { seed, count } => format!(in alloc; "generate {seed} {count}"),
        Command::Soak { seed, count } => format!(in alloc; "soak {seed} {count}"),
        Command::Logs => format!(in alloc; "logs"),
        Command::Audit { .. } => format!(in alloc; "audit"),
        Command::Gateway { port, turns, site } => {
            format!(in alloc; "gateway {port} {turns} {}", site.get())
        }
        Command::Merge => format!(in alloc; "merge"),
        Command::Proc { port, turns, site } => {
            format!(in alloc; "proc {port} {turns} {}", site.get())
        }
    }
}

fn text_of(rt: &impl Abort, alloc: Global, command: &Command) -> Vec<u8> {
    let front = front(alloc, command).expect(rt, "memory");
    let mut out = Vec::from_slice(alloc, front.as_bytes()).expect(rt, "memory");
    match command {
        Command::Node { log, .. } => out.extend_from_slice(log.as_slice()).expect(rt, "memory"),
        Command::Client { call, .. } => print_call(call, &mut out).expect(rt, "memory"),
        Command::Audit { logs } => {
            for (site, log) in logs.as_slice() {
                let pair = format!(in alloc; " {} ", site.get()).expect(rt, "memory");
                out.extend_from_slice(pair.as_bytes()).expect(rt, "memory");
                out.extend_from_slice(log.as_slice()).expect(rt, "memory");
            }
        }
        Command::Replay
        | Command::Check
        | Command::Signal { .. }
        | Command::Generate { .. }
        | Command::Soak { .. }
        | Command::Logs
        | Command::Gateway { .. }
        | Command::Merge
        | Command::Proc { .. } => {}
    }
    out
}

/// The text of the command of the words between separators.
pub(crate) fn told_in(rt: &impl Abort, alloc: Global, line: &str, separator: char) -> Vec<u8> {
    let mut texts = Vec::new(alloc);
    for text in line.split(separator) {
        texts.push(text.as_bytes()).expect(rt, "memory");
    }
    told(rt, alloc, &texts)
}

/// Lines of words, and the command that they are.
const COMMANDS: &str = "\
replay=replay
replay --=replay
check=check
check --=check
generate 1 2=generate 1 2
generate -- 1 2=generate 1 2
generate 1 -- 2=generate 1 2
generate 1 2 --=generate 1 2
generate 2147483647 2400=generate 2147483647 2400
soak 1 2=soak 1 2
soak -- 1 2=soak 1 2
soak 1 -- 2=soak 1 2
soak 1 2 --=soak 1 2
soak 0 0=soak 0 0
logs=logs
logs --=logs
merge=merge
merge --=merge
";

#[test]
fn commands_are_read(rt: HostRuntime) {
    for row in COMMANDS.lines() {
        let (line, command) = row.split_once('=').unwrap_or((row, ""));
        assert_eq!(rt;
            told_in(&rt, rt.alloc(), line, ' ').as_slice(),
            command.as_bytes(),
            "{line}"
        );
    }
}

/// Lines of words that are no command.
const NO_COMMANDS: &str = "\
--
-- replay
help
help replay
--help
-h
--version
-V
Replay
replays
\x20replay
replay\x20
replay x
replay check
replay -- x
replay -- --
replay --help
replay -h
replay --version
replay -- --help
replay -
check x
check -- --
check --help
generate
generate --
generate 1
generate 1 --
generate 1 2 3
generate 1 2 -- 3
generate -- -- 1 2
generate -- 1 -- 2
generate 1 2 -- --
generate 01 2
generate 1 02
generate 00 2
generate 1 2401
generate 2147483648 2
generate 4294967297 2
generate 18446744073709551617 2
generate +1 2
generate -1 2
generate 1 -2
generate -- -1 2
generate - 2
generate 1 -
generate  2
generate 1\x20
generate one 2
generate 1 2 --help
soak
soak 1
soak 1 2 3
soak 1 2401
soak 1 2 --version
Logs
log
logss
\x20logs
logs\x20
logs x
logs logs
logs 1
logs 1 2
logs -
logs -- x
logs -- --
logs --help
logs -h
logs -- --help
merge x
merge -
merge -- x
-- logs
replay logs
";

#[test]
fn other_words_are_no_command(rt: HostRuntime) {
    assert!(rt; told(&rt, rt.alloc(), &[]).is_empty());
    assert!(rt; told(&rt, rt.alloc(), &[b""]).is_empty());
    assert!(rt; told(&rt, rt.alloc(), &[b"", b""]).is_empty());
    for line in NO_COMMANDS.lines() {
        assert!(rt; told_in(&rt, rt.alloc(), line, ' ').is_empty(), "{line}");
    }
}

#[test]
fn words_are_text(rt: HostRuntime) {
    let cases: [&[&[u8]]; 7] = [
        &[b"\xff"],
        &[b"replay", b"\xc3"],
        &[b"check", b"--", b"\xff"],
        &[b"generate", b"1", b"2\x80"],
        &[b"soak", b"1", b"-\xc3"],
        &[b"node", b"1", b"log\xff", b"5"],
        &[b"logs", b"--", b"\xc3"],
    ];
    for texts in cases {
        assert!(rt; told(&rt, rt.alloc(), texts).is_empty(), "{texts:?}");
    }
}
