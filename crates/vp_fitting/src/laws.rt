//! Functions that do nothing, with the laws as their contracts.

ghost use Rattle.vp_fitting.specs.Laws.{FittingRecordingsMerge, MergesMatch, UnsentIsNeverSent};

/// What is put together of recordings does all that they ask, and gives what they say.
pub fn merged_schedules_fit()
    ensures { MergesMatch }
{}

/// Where no turn can be done any more, the message that the next one takes is sent in no schedule that fits.
pub fn what_is_unsent_is_never_sent()
    ensures { UnsentIsNeverSent }
{}

/// Recordings that some schedule matches are put together, unless a limit ends it.
pub fn fitting_recordings_merge()
    ensures { FittingRecordingsMerge }
{}
