//! Processes whose standard streams are closed.

use crate::ports::{LINK_FAULT, TRIES, free_port};
use crate::program::{Program, own};
use std::{fs, io};

/// The file to which a process writes its status.
const SAID: &str = "closed.status";

/// The files of the node's log.
const FIRST: &str = "closed.0";

const SECOND: &str = "closed.1";

/// The first file of a log after the start of life 1. The second one is empty.
const STARTED: &[u8] = b"\x01\0\0\0\0\0\0\0\x05\x01\0\0\0\x01\0";

/// A log that isn't there, or is empty.
const NO_LOG: &[u8] = b"";

/// Words, and what is read after a catalogue; and, if only the standard error is closed, the status, what is printed and the log that is
/// left.
const RUNS: [(&str, &str, u8, &str, &[u8]); 3] = [
    ("node 1 closed 0", "", 0, "start 1\nend\n", STARTED),
    ("client $PORT 0 1 begin", "", 11, "no answer\n", NO_LOG),
    (
        "replay",
        "events\n",
        0,
        "history\nstart x 10\nend 0\n",
        NO_LOG,
    ),
];

/// Runs a process of the words, some of whose streams a shell closes. If its port was taken meanwhile, another one is chosen.
fn run_closed(
    program: Program,
    words: &str,
    closed: &str,
    following: &str,
) -> io::Result<(Option<u8>, Vec<u8>)> {
    let rt = program.rt;
    let text = format!(in rt.alloc(); "{words} {closed}")?;
    for _ in 0..TRIES {
        let (own, others) = (free_port(rt)?, free_port(rt)?);
        let input = format!(in rt.alloc(); "site 1 {others}\nrecord x 10 1:1\n{following}")?;
        let process = program.start_by_shell(SAID, &text, own, &input)?;
        let end = program.end(SAID, process)?;
        if end.0 != Some(LINK_FAULT) {
            return Ok(end);
        }
        remove_log(rt);
    }
    Err(io::Error::from(io::ErrorKind::AddrInUse))
}

fn remove_log(rt: HostRuntime) {
    let _ = fs::remove_file(&rt, FIRST);
    let _ = fs::remove_file(&rt, SECOND);
}

/// Whether a file has these bytes. One that isn't there has none.
fn has(rt: HostRuntime, file: &str, bytes: &[u8]) -> bool {
    match fs::read(&rt, file) {
        Ok(kept) => kept.as_slice() == bytes,
        Err(_) => bytes.is_empty(),
    }
}

/// The first words and streams, closed as a shell says it, with which a process doesn't end as it must: with a closed input by status 4,
/// with a closed output by status 5, and nothing printed or written to a log, one that is there or none; with a closed standard error as
/// ever. `by_words` is the word after which this program, started again, does what the others say.
pub fn first_unheld(
    rt: HostRuntime,
    by_words: &'static str,
) -> io::Result<Option<(&'static str, &'static str)>> {
    let program = Program { rt, by_words };
    for (words, following, status, text, log) in &RUNS {
        remove_log(rt);
        for (closed, status, text, log) in &[
            ("<&-", 4, "", NO_LOG),
            ("2>&-", *status, *text, *log),
            (">&-", 5, "", *log),
        ] {
            let (ended, printed) = run_closed(program, words, closed, following)?;
            let leaves = has(rt, FIRST, log) && has(rt, SECOND, NO_LOG);
            if !(ended == Some(*status) && own(&printed) == text.as_bytes() && leaves) {
                return Ok(Some((words, closed)));
            }
        }
    }
    remove_log(rt);
    Ok(None)
}
