//! What follows of a run alone, as the contract of a function that does nothing.

ghost use Rattle.vp_proc.specs.Claims.{RunsAreEvaluations};

/// What a procedure was told is its evaluation on each one copy on which its reads are as they were told: its operations begin with those
/// that were told, the next call is that of the next operation, and where an end is reached it is the end of the evaluation.
pub fn runs_are_evaluations()
    ensures { RunsAreEvaluations }
{}
