//! The program: holds the standard streams that are closed, makes the real objects, calls `run`, and exits with its status.
#![tactic(auto)]

use std::process::ExitCode;
use vp_adapters::{ClosedStreams, words_after};
use vp_base::NoMemory;
use vp_drawing::run;
use vp_outside::{Reading, Writing};
use vp_status::Status;

fn main(rt: HostRuntime) -> ExitCode {
    ExitCode::from(status(rt).code())
}

/// Runs the program. It does nothing if standard output is closed.
fn status(rt: HostRuntime) -> Status {
    let Ok(closed) = ClosedStreams::hold(&rt) else {
        return Status::SinkFault;
    };
    if closed.output.is_some() {
        return Status::SinkFault;
    }
    match words_after(&rt, 1) {
        Ok(words) => run(
            rt.alloc(),
            &words,
            &mut Reading::new(rt.stdin()),
            &mut Writing::new(rt.stdout()),
        ),
        Err(NoMemory) => Status::NoMemory,
    }
}
