//! From an input to the status and the text that are printed for it.

ghost use Rattle.std.specs.Prelude.{IfOk};
ghost use Rattle.vp_schedule.specs.Document.{IsSchedule};
ghost use Rattle.vp_drawing.specs.Answers.{IsDrawn, Shows};

use crate::drawing::draw_schedule;
use crate::end::{DrawingEnd, print_limit};
use std::alloc::Global;
use vp_base::NoMemory;
use vp_pictures::Part;
use vp_refusals::refuse;
use vp_schedule::{Schedule, read};
use vp_status::{RunOutput, Status};

/// Draws the part of the schedule in the input: the status and the text that are printed for it.
pub fn picture_of(alloc: Global, input: &[u8], part: Part) -> Result<RunOutput, NoMemory>
    ensures { IfOk result (λ it. IsDrawn part input.now it.status it.text.items) }
{
    match read(alloc, input) {
        Ok(schedule) => print_picture(alloc, &schedule, part),
        Err(fault) => refuse(alloc, fault),
    }
}

/// Draws the part of a schedule, or makes the line of the limit that it exceeds.
#[tactic(auto, using(crate::proofs::Ending::shows_done))]
fn print_picture(alloc: Global, schedule: &Schedule, part: Part) -> Result<RunOutput, NoMemory>
    requires { IsSchedule schedule.now }
    ensures { IfOk result (λ it. Shows part schedule.now it.status it.text.items) }
{
    let mut text = Vec::new(alloc);
    match draw_schedule(schedule, part) {
        Ok(sheet) => {
            sheet.print(&schedule.catalog, &mut text)?;
            Ok(RunOutput {
                status: Status::Done,
                text,
            })
        }
        Err(DrawingEnd::Limit { what }) => {
            print_limit(what, &mut text)?;
            Ok(RunOutput {
                status: Status::Limit,
                text,
            })
        }
        Err(DrawingEnd::NoMemory) => Err(NoMemory),
    }
}
