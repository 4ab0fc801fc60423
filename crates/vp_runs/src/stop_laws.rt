//! The law of stops, as the contract of a function that does nothing.

ghost use Rattle.vp_runs.specs.StopLaws.{StoppedRunsAreSchedules};

/// A run that is stopped within a step has the sites, messages and journal of the schedule that it becomes; only which messages count
/// as delivered may differ.
pub fn stopped_runs_are_schedules()
    ensures { StoppedRunsAreSchedules }
{}
