//! Laws of logs as bytes: functions that do nothing, whose contracts are the laws.

ghost use Rattle.vp_stable.specs.Laws.{BatchesAreOne, PlacesAreOne, BadLogsHaveNoBatches, BadPlacesAreOne};
ghost use Rattle.vp_stable.specs.Halves.{DueIsOfTheBatches, NoneIsDueAfterOne, HalvesAreOneLog, BadHalvesHaveNoBatches};

use vp_records::spellings_are_of_one_batch;

/// Bytes are a log of only one list of batches, with only one place of its closed gate.
pub fn bytes_are_one_log()
    ensures batches { BatchesAreOne }
    ensures places { PlacesAreOne }
{
    spellings_are_of_one_batch();
}

/// Bytes that are not a log because of one gate are not a log at all, and only because of that gate.
pub fn bytes_are_bad_at_one_gate()
    ensures batches { BadLogsHaveNoBatches }
    ensures places { BadPlacesAreOne }
{}

/// Two halves hold only one list of batches, or are not a log.
pub fn halves_are_one_log()
    ensures batches { HalvesAreOneLog }
    ensures bad { BadHalvesHaveNoBatches }
{}

/// Whether a checkpoint is due for a log depends only on its batches, and none is due right after a checkpoint.
pub fn a_checkpoint_is_due_of_batches()
    ensures batches { DueIsOfTheBatches }
    ensures following { NoneIsDueAfterOne }
{}
