//! Worked recoveries: their events lead to exactly this.

ghost use Rattle.vp_progress.specs.Worked as worked;

/// A site is in doubt, its coordinator is down and cut off; 18 events that mend leave both in one view, and nothing locked or in doubt.
pub fn a_doubt_is_mended()
    ensures before { worked.IsInDoubt }
    ensures mending { worked.IsMending }
    ensures after { worked.IsMended }
{}

/// Three sites crash, two of them in doubt about a write that has committed; what the procedure does to them mends, leaves all three in one
/// view with nothing locked or in doubt, and the write at each.
pub fn three_recover()
    ensures before { worked.AreInDoubt }
    ensures down { worked.AreDown }
    ensures mending { worked.AreMending }
    ensures after { worked.AreMended }
    ensures kept { worked.HaveValue }
{}
