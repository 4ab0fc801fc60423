//! The kinds of log records.

ghost use Rattle.vp_records.specs.Kinds.{record_kind};

use vp_bytes::HasCode;

/// A kind of log record. What each says is at the variant of `LogRecord` with its name.
#[derive(Clone, Copy, Drop)]
pub enum RecordKind {
    Start,
    Promise,
    Yes,
    Outcome,
    Commit,
    Copy,
    Acked,
    Checkpoint,
    YesOfValues,
    CommitOfValues,
    CopyOfValue,
    CheckpointOfValues,
}

impl HasCode for RecordKind {
    ghost kind = { record_kind };

    fn of(code: u8) -> Option<RecordKind> {
        match code {
            1 => Some(RecordKind::Start),
            2 => Some(RecordKind::Promise),
            3 => Some(RecordKind::YesOfValues),
            4 => Some(RecordKind::Outcome),
            5 => Some(RecordKind::CommitOfValues),
            6 => Some(RecordKind::CopyOfValue),
            7 => Some(RecordKind::Acked),
            8 => Some(RecordKind::CheckpointOfValues),
            9 => Some(RecordKind::Yes),
            10 => Some(RecordKind::Commit),
            11 => Some(RecordKind::Copy),
            12 => Some(RecordKind::Checkpoint),
            _ => None,
        }
    }
}
