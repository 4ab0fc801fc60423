//! What a limit leaves of a run.

ghost use Rattle.vp_laws.specs.LimitedTraces.{LimitsCutTraces};

/// What a limit leaves of a trace are its first lines; where no limit is reached, a trace and a generated schedule are whole.
pub fn limits_cut_traces()
    ensures { LimitsCutTraces }
{}
