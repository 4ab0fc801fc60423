//! How a run of the program ends.

ghost use Rattle.std.specs.Prelude.{◌≡◌, IfOk};
ghost use Rattle.vp_status.specs.Codes.{code_of};
ghost use Rattle.vp_status.specs.Lines.{link_fault_text};
ghost use Rattle.vp_status.specs.Printing.{Prints};
ghost use Rattle.vp_status.specs.declared.status.Status.TheVariants.{LinkFault as LinkFailed};

use std::alloc::Global;
use vp_base::NoMemory;
use vp_outside::{OutFault, Sink, write_all};

/// How a run ends; its number is the exit status of the process.
#[derive(Clone, Copy, Debug, PartialEq, Eq)]
pub enum Status {
    /// All was done.
    Done = 0,
    /// The input isn't in its grammar.
    BadLine = 1,
    /// The words are no command, or name a site that the catalogue lacks.
    Usage = 2,
    /// Memory ran out. What was printed is a prefix of what is defined.
    NoMemory = 3,
    /// The source failed, and nothing was printed.
    SourceFault = 4,
    /// The sink failed. What was printed is a prefix of what is defined.
    SinkFault = 5,
    /// The link failed: the port wasn't bound, no datagram was received, or the one frame of a command wasn't sent.
    LinkFault = 6,
    /// The disk failed.
    DiskFault = 7,
    /// The log is damaged.
    BadLog = 8,
    /// The input has more than 16,777,216 bytes, 256 records or 100,000 events, or the next step would make more than 100,000 steps or
    /// 2,000,000 messages.
    Limit = 9,
    /// A history has a read of another value than its one copy kept.
    Differs = 10,
    /// As many datagrams came as were to be waited for, and none was the answer.
    NoAnswer = 11,
    /// The life in the log is the last one.
    LivesSpent = 12,
    /// No further turn of the recordings can be done: the next one of each site takes a message that no step has sent.
    Unsent = 14,
    /// A turn of the recordings takes what is no input of its site, or its step gives other datagrams than are recorded.
    TurnDiffers = 15,
    /// A procedure ended without a result.
    NoResult = 16,
}

impl Status {
    /// The exit status of the process.
    pub fn code(self) -> u8
        ensures { result ≡ code_of self }
    {
        self as u8
    }
}

/// What is defined for a run: its status, and all that it prints.
#[derive(Drop)]
pub struct RunOutput {
    pub status: Status,
    pub text: Vec<u8>,
}

impl RunOutput {
    /// Makes this status, with a copy of this text.
    pub fn new(alloc: Global, status: Status, text: &[u8]) -> Result<RunOutput, NoMemory>
        ensures status { IfOk result (λ it. it.status ≡ status) }
        ensures text { IfOk result (λ it. it.text.items ≡ text.now) }
    {
        Ok(RunOutput {
            status,
            text: Vec::from_slice(alloc, text)?,
        })
    }

    /// Makes the status and the line of a link that failed.
    pub fn link_fault(alloc: Global) -> Result<RunOutput, NoMemory>
        ensures status { IfOk result (λ it. it.status ≡ LinkFailed) }
        ensures text { IfOk result (λ it. it.text.items ≡ link_fault_text) }
    {
        RunOutput::new(alloc, Status::LinkFault, b"link fault\n")
    }

    /// Prints the text, and returns its status, or that of the fault that cut it short.
    pub fn print<K: Sink>(&self, sink: &mut K) -> Status
        ensures { Prints self.now.status self.now.text.items (K.state sink.old) (K.state sink.new) result }
    {
        match write_all(sink, &self.text) {
            Ok(()) => self.status,
            Err(OutFault::Failed) => Status::SinkFault,
            Err(OutFault::NoMemory) => Status::NoMemory,
        }
    }
}
