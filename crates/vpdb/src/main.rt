//! The program: holds the standard streams that are closed, makes the real objects, calls `run`, and exits with its status.
#![tactic(auto)]

use std::process::ExitCode;
use vp_adapters::{ClosedStreams, LogFiles, Socket, words_after};
use vp_base::NoMemory;
use vp_outside::{Reading, Writing};
use vp_status::Status;
use vp_top::run;

fn main(rt: HostRuntime) -> ExitCode {
    ExitCode::from(status(rt).code())
}

/// Runs the program. It does nothing if standard output is closed: a node would else start a life of its site, and a client make its
/// call, before it became known that nothing can be printed.
fn status(rt: HostRuntime) -> Status {
    let Ok(closed) = ClosedStreams::hold(&rt) else {
        return Status::SinkFault;
    };
    if closed.output.is_some() {
        return Status::SinkFault;
    }
    match words_after(&rt, 1) {
        Ok(words) => run(
            rt.alloc(),
            &words,
            &mut Reading::new(rt.stdin()),
            &mut Writing::new(rt.stdout()),
            &mut Socket::new(&rt),
            &mut LogFiles::new(&rt),
        ),
        Err(NoMemory) => Status::NoMemory,
    }
}
