//! What a line asks.

ghost use Rattle.std.specs.Prelude.{◌≡◌, ◌≤◌, length, IfOk};
ghost use Rattle.vp_gateway.specs.Lines.{line_as, AsksCall};

use std::alloc::Global;
use vp_base::{Call, NameFault, NoMemory};
use vp_schedule::read_call;

/// The most bytes of a line that is read, without its newline.
pub const MOST_LINE: usize = 4096;

/// What a line asks.
#[derive(Drop)]
pub enum LineRequest {
    /// This call.
    Call(Call),
    /// Nothing: it is no call, since no call goes on after the bytes before byte `at`, counted from 1.
    Bad { at: usize },
    /// Nothing: it is longer than 4,096 bytes.
    Long,
}

/// Reads what a line asks. No more than 4,097 bytes of a line are given, which is enough to see that it is too long. A line whose newline
/// hasn't come is no call.
#[tactic(auto, using(crate::proofs::Reading::long_as, crate::proofs::Reading::call_as, crate::proofs::Reading::unended_as, crate::proofs::Reading::bad_as))]
pub fn read_line(alloc: Global, line: &[u8], newline: bool) -> Result<LineRequest, NoMemory>
    requires { length line.now ≤ 4097 }
    ensures read { IfOk result (λ asked. asked ≡ line_as newline line.now) }
    ensures call { IfOk result AsksCall }
{
    if line.len() > MOST_LINE {
        return Ok(LineRequest::Long);
    }
    match read_call(alloc, line) {
        Ok(call) => {
            if newline {
                Ok(LineRequest::Call(call))
            } else {
                Ok(LineRequest::Bad { at: line.len() + 1 })
            }
        }
        Err(NameFault::BadName { at }) => Ok(LineRequest::Bad { at: at + 1 }),
        Err(NameFault::NoMemory) => Err(NoMemory),
    }
}
