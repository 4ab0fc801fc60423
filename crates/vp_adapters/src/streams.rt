//! Standard streams that are closed.

ghost use Rattle.std.specs.Prelude.{◌≡◌, IfOk, IfSome, pos};
ghost use Rattle.std.specs.Fd.{file_raw_fd};

use std::fs::{File, Files};
use std::io;
use std::os::fd::AsRawFd;

/// The standard streams that were closed when they were held. The system gives the lowest free descriptor to whatever is opened next: so
/// each is held by a folder that is open for reading, which refuses reads and writes, and no log and no socket gets its descriptor.
#[derive(Drop)]
pub struct ClosedStreams {
    pub input: Option<File>,
    pub output: Option<File>,
    pub error: Option<File>,
}

impl ClosedStreams {
    /// Holds the closed streams; call it before anything is opened. It fails if `/` can't be opened; then it isn't known which are
    /// closed.
    pub fn hold<R: Files<File = File>>(files: &R) -> io::Result<ClosedStreams>
        ensures input { IfOk result (λ closed. IfSome closed.input (λ file. file_raw_fd file ≡ pos 0)) }
        ensures output { IfOk result (λ closed. IfSome closed.output (λ file. file_raw_fd file ≡ pos 1)) }
        ensures error { IfOk result (λ closed. IfSome closed.error (λ file. file_raw_fd file ≡ pos 2)) }
    {
        let mut closed = ClosedStreams {
            input: None,
            output: None,
            error: None,
        };
        for _ in 0..3 {
            let file = File::open(files, "/")?;
            match file.as_raw_fd() {
                0 => closed.input = Some(file),
                1 => closed.output = Some(file),
                2 => closed.error = Some(file),
                _ => break,
            }
        }
        Ok(closed)
    }
}
