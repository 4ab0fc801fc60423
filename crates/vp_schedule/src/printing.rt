//! Printing a schedule.

ghost use Rattle.std.specs.Prelude.{◌++◌, flat_map};
ghost use Rattle.vp_text.specs.Printing.{Appends};
ghost use Rattle.vp_model.specs.Texts.Schedule.{event_line, schedule_text};

use crate::schedule::Schedule;
use vp_base::{Event, NoMemory};
use vp_trace::print_event;

#[tactic(auto, using(vp_text::proofs::Printing::printing))]
fn print_event_line(event: &Event, out: &mut Vec<u8>) -> Result<(), NoMemory>
    ensures { Appends result out.old.items (event_line event.now) out.new.items }
{
    print_event(event, out)?;
    out.push(b'\n')?;
    Ok(())
}

#[tactic(auto, using(vp_text::proofs::Printing::printing))]
fn print_event_lines(events: &[Event], out: &mut Vec<u8>) -> Result<(), NoMemory>
    ensures { Appends result out.old.items (flat_map event_line events.now) out.new.items }
{
    for event in events {
        print_event_line(event, out)?;
    }
    Ok(())
}

/// Appends the lines of the schedule. After an error a beginning of them may have been appended.
#[tactic(auto, using(vp_text::proofs::Printing::printing))]
pub fn print(schedule: &Schedule, out: &mut Vec<u8>) -> Result<(), NoMemory>
    ensures { Appends result out.old.items (schedule_text schedule.now) out.new.items }
{
    schedule.catalog.print(out)?;
    out.extend_from_slice(b"events\n")?;
    print_event_lines(schedule.events.as_slice(), out)
}
