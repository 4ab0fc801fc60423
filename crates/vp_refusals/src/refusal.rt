//! The refusal of an input.

ghost use Rattle.std.specs.Prelude.{IfOk};
ghost use Rattle.vp_refusals.specs.PlayAnswers.{Tells};

use std::alloc::Global;
use vp_base::NoMemory;
use vp_schedule::ScheduleFault;
use vp_status::{RunOutput, Status, print_bad_line, print_limit, print_twice};

/// Makes the status and the line for an input that is no schedule.
pub fn refuse(alloc: Global, fault: ScheduleFault) -> Result<RunOutput, NoMemory>
    ensures { IfOk result (λ defined. Tells fault defined.status defined.text.items) }
{
    let mut text = Vec::new(alloc);
    match fault {
        ScheduleFault::BadLine { line, at } => {
            print_bad_line(line, at, &mut text)?;
            Ok(RunOutput {
                status: Status::BadLine,
                text,
            })
        }
        ScheduleFault::Twice { line } => {
            print_twice(line, &mut text)?;
            Ok(RunOutput {
                status: Status::BadLine,
                text,
            })
        }
        ScheduleFault::TooMany { limit, .. } => {
            print_limit(limit, &mut text)?;
            Ok(RunOutput {
                status: Status::Limit,
                text,
            })
        }
        ScheduleFault::NoMemory => Err(NoMemory),
    }
}
