//! Worked schedules, and the texts of what stopped runs become.

use std::alloc::Global;
use vp_base::{Commits, NoMemory, Seq};
use vp_catalog::Catalog;
use vp_onecopy::{History, order, print_history};
use vp_schedule::{Schedule, print};

/// A lock that is held is named.
pub const HELD_LOCK: &str = "\
site 1 7001
site 2 7002
site 3 7003
record x 10 1:1 2:1 3:1
events
call 1 begin
call 2 begin
call 1 1.1.1 1 write x 11
flow 4
call 2 2.1.1 1 read x
call 1 1.1.1 2 commit
flow 9
call 2 begin
call 2 2.1.2 1 read x
call 2 2.1.2 2 commit
";

/// A commit that comes late.
pub const LATE_COMMIT: &str = "\
site 1 7001
site 2 7002
site 3 7003
record x 10 1:1 2:1 3:1
record y 5 2:1
events
call 1 begin
call 1 1.1.1 1 write x 11
flow 4
call 1 1.1.1 2 commit
deliver 5
deliver 6
call 2 regroup
deliver 10
deliver 11
tick 2
deliver 12
deliver 13
call 2 begin
call 2 2.1.1 1 read y
call 2 2.1.1 2 commit
call 2 begin
call 2 2.1.2 1 read x
deliver 7
deliver 8
deliver 16
deliver 17
tick 2
deliver 20
deliver 21
call 2 begin
call 2 2.1.3 1 read x
call 2 2.1.3 2 commit
";

/// A coordinator that crashes after its decision.
pub const DECISION: &str = "\
site 1 7001
site 2 7002
record x 10 1:1 2:1
events
call 1 begin
call 1 1.1.1 1 write x 11
deliver 1
deliver 2
call 1 1.1.1 2 commit
deliver 3
deliver 4
crash 1
restart 1
tick 1
deliver 7
deliver 8
call 2 begin
call 2 2.1.1 1 read x
call 2 2.1.1 2 commit
";

/// The text of the schedule.
pub fn schedule_text(alloc: Global, schedule: &Schedule) -> Result<Vec<u8>, NoMemory> {
    let mut text = Vec::new(alloc);
    print(schedule, &mut text)?;
    Ok(text)
}

/// The text of the history of these commits over the catalogue.
pub fn history_text(
    alloc: Global,
    catalog: &Catalog,
    commits: &Commits,
) -> Result<Vec<u8>, NoMemory> {
    let history = History {
        names: catalog.names()?,
        start: Seq::from_vec(catalog.starts()?),
        commits: order(alloc, commits.as_slice())?,
    };
    let mut text = Vec::new(alloc);
    print_history(&history, &mut text)?;
    Ok(text)
}
