//! Laws of batches and their encodings: functions that do nothing, whose contracts are the laws.

ghost use Rattle.std.specs.Prelude.{◌≡◌, List, Result, ℕ};
ghost use Rattle.vp_text.specs.Meaning.{Answers};
ghost use Rattle.vp_base.specs.declared.entry.LogRecord.{LogRecord};
ghost use Rattle.vp_records.specs.declared.fault.BatchFault.{BatchFault};
ghost use Rattle.vp_records.specs.Batches.{IsBatch, IsBatchBytes, batch_bytes};
ghost use Rattle.vp_records.specs.Laws.{IsDecoded, batch_place};

/// A batch that was encoded is decoded to the same batch.
pub fn encoded_is_decoded()
    ensures { (batch : List LogRecord) (answer : Result (List LogRecord) BatchFault) → IsBatch batch
        → Answers IsBatchBytes (λ b. b) batch_place (batch_bytes batch) answer → IsDecoded batch answer }
{}

/// No two batches have the same encoding.
pub fn spellings_are_of_one_batch()
    ensures { (a b : List LogRecord) (bytes : List ℕ) → IsBatchBytes a bytes → IsBatchBytes b bytes → a ≡ b }
{}
