//! Worked schedules that are stopped within a step: they become exactly these.

ghost use Rattle.std.specs.Prelude.{◌≡◌, [], None, Some, option_map, true, false};
ghost use Rattle.vp_model.specs.World.{journal_of};
ghost use Rattle.vp_runs.specs.Stopped.{stopped};
ghost use Rattle.vp_runs.specs.WorkedStops as worked;

/// The coordinator stops before its decision is in its log: it crashes instead of the step, and the vote that came then is lost.
pub fn a_stop_before_the_decision()
    ensures events { option_map (λ s. s.events) (stopped 7 false worked.decided_schedule) ≡
        Some worked.without_decision }
    ensures journal { option_map journal_of (stopped 7 false worked.decided_schedule) ≡ Some [] }
{}

/// It stops once its decision is there: it crashes after the step, whose message nobody gets, and later numbers are one more.
pub fn a_stop_after_the_decision()
    ensures events { option_map (λ s. s.events) (stopped 7 true worked.decided_schedule) ≡ Some worked.with_decision }
    ensures journal { option_map journal_of (stopped 7 true worked.decided_schedule) ≡ Some worked.one_commit }
{}

/// There is nothing to stop in: before the first step, after the last one, in a step that forces no record, and in a restart.
pub fn a_step_that_appends_nothing()
    ensures none { stopped 0 true worked.decided_schedule ≡ None }
    ensures following { stopped 15 true worked.decided_schedule ≡ None }
    ensures unforced { stopped 2 true worked.decided_schedule ≡ None }
    ensures restart { stopped 2 true worked.restart_schedule ≡ None }
{}
