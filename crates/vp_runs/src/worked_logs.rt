//! Worked schedules: what each leaves in the logs is exactly this.

ghost use Rattle.std.specs.Prelude.{◌≡◌, ◌∷◌, ◌++◌, [], length, codes};
ghost use Rattle.vp_model.specs.Types.call;
ghost use Rattle.vp_model.specs.Types.event;
ghost use Rattle.vp_runs.specs.Kept.{kept};
ghost use Rattle.vp_runs.specs.WorkedLogs as worked;

/// Each life begins with a batch, and nothing else is there where nothing was done.
pub fn lives_begin()
    ensures first { worked.half_text (kept worked.unused_schedule 1) ≡ codes "010000000000000005010000000100" }
    ensures again { worked.half_text (kept worked.again 1) ≡
        codes "0100000000000000050100000001010000000000000005010000000200" }
{}

/// Events that are no steps, steps that force nothing, and steps of other sites append no batch.
pub fn nothing_is_forced()
    ensures one { kept worked.idle 1 ≡ worked.start_batch 1 ∷ worked.start_batch 2 ∷ [] }
    ensures two { kept worked.idle 2 ≡ worked.start_batch 1 ∷ worked.start_batch 2 ∷ worked.promise_batch 1 ∷ [] }
{}

/// A vote, the decision, its outcome and the acknowledgement are a batch each, at the site that forces them.
pub fn a_decision_of_two_sites()
    ensures one { kept worked.decision 1 ≡ worked.left_at_one }
    ensures two { kept worked.decision 2 ≡ worked.left_at_two }
{}

/// A restart makes no checkpoint, though one is due then; the next step that forces a record makes it.
pub fn a_checkpoint_after_a_restart()
    ensures none { length (kept (worked.over worked.many worked.filling_events) 1) ≡ 18 }
    ensures one { kept (worked.over worked.many (worked.filling_events ++ event.Call 1 call.Regroup ∷ [])) 1 ≡
        worked.saved_log }
{}
