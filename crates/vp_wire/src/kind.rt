//! The kinds of messages, calls, answers and frames, and the byte of each in a frame.

ghost use Rattle.std.specs.Prelude.{◌≡◌};
ghost use Rattle.vp_wire.specs.Kinds.{answer_code, answer_kind, answer_kinds, call_code, call_kind, call_kinds, kind_of_code, later_answers, later_calls, frame_code, frame_kind, kind_of_answer, kind_of_body, kind_of_call, kind_of_message, message_code, message_kind, other_kinds};

use crate::frame::Body;
use vp_base::{Answer, Call, Message};
use vp_bytes::HasCode;
use vp_contents::Version;

/// A kind of message, as the variants of `Message` are. Its number is its byte in a frame.
#[derive(Clone, Copy, Drop)]
pub enum MessageKind {
    Invite = 1,
    Accept = 2,
    Stale = 3,
    ViewCommit = 4,
    ReadRequest = 5,
    ReadAnswer = 6,
    WriteRequest = 7,
    WriteAnswer = 8,
    Refuse = 9,
    Prepare = 10,
    Vote = 11,
    Outcome = 12,
    Ack = 13,
    Inquire = 14,
    RefreshRequest = 15,
    RefreshAnswer = 16,
    Probe = 17,
}

impl MessageKind {
    const ALL: [MessageKind; 17] = [
        MessageKind::Invite,
        MessageKind::Accept,
        MessageKind::Stale,
        MessageKind::ViewCommit,
        MessageKind::ReadRequest,
        MessageKind::ReadAnswer,
        MessageKind::WriteRequest,
        MessageKind::WriteAnswer,
        MessageKind::Refuse,
        MessageKind::Prepare,
        MessageKind::Vote,
        MessageKind::Outcome,
        MessageKind::Ack,
        MessageKind::Inquire,
        MessageKind::RefreshRequest,
        MessageKind::RefreshAnswer,
        MessageKind::Probe,
    ];

    /// The kind of this message.
    pub fn of_message(message: &Message) -> MessageKind
        ensures { result ≡ kind_of_message message.now }
    {
        match message {
            Message::Invite { .. } => MessageKind::Invite,
            Message::Accept { .. } => MessageKind::Accept,
            Message::Stale { .. } => MessageKind::Stale,
            Message::ViewCommit { .. } => MessageKind::ViewCommit,
            Message::ReadRequest { .. } => MessageKind::ReadRequest,
            Message::ReadAnswer { .. } => MessageKind::ReadAnswer,
            Message::WriteRequest { .. } => MessageKind::WriteRequest,
            Message::WriteAnswer { .. } => MessageKind::WriteAnswer,
            Message::Refuse { .. } => MessageKind::Refuse,
            Message::Prepare { .. } => MessageKind::Prepare,
            Message::Vote { .. } => MessageKind::Vote,
            Message::Outcome { .. } => MessageKind::Outcome,
            Message::Ack { .. } => MessageKind::Ack,
            Message::Inquire { .. } => MessageKind::Inquire,
            Message::RefreshRequest { .. } => MessageKind::RefreshRequest,
            Message::RefreshAnswer { .. } => MessageKind::RefreshAnswer,
            Message::Probe { .. } => MessageKind::Probe,
        }
    }

    /// Its byte in a frame.
    pub fn code(self) -> u8
        ensures { result ≡ message_code self }
    {
        self as u8
    }
}

impl HasCode for MessageKind {
    ghost kind = { message_kind };

    fn of(code: u8) -> Option<MessageKind> {
        MessageKind::ALL
            .iter()
            .copied()
            .find(|kind| kind.code() == code)
    }
}

/// A kind of call, as the variants of `Call` are. Its number is its byte in a frame.
#[derive(Clone, Copy, Drop)]
pub enum CallKind {
    Begin = 1,
    Regroup = 2,
    Read = 3,
    Write = 4,
    Commit = 5,
    Abort = 6,
    Delete = 7,
    Weigh = 8,
}

impl CallKind {
    /// The kinds of both versions.
    const BOTH: [CallKind; 6] = [
        CallKind::Begin,
        CallKind::Regroup,
        CallKind::Read,
        CallKind::Write,
        CallKind::Commit,
        CallKind::Abort,
    ];

    /// The kinds of the second version alone.
    const LATER: [CallKind; 2] = [CallKind::Delete, CallKind::Weigh];

    /// The kind of this call.
    pub fn of_call(call: &Call) -> CallKind
        ensures { result ≡ kind_of_call call.now }
    {
        match call {
            Call::Begin => CallKind::Begin,
            Call::Regroup => CallKind::Regroup,
            Call::Read { .. } => CallKind::Read,
            Call::Write { .. } => CallKind::Write,
            Call::Commit { .. } => CallKind::Commit,
            Call::Abort { .. } => CallKind::Abort,
            Call::Delete { .. } => CallKind::Delete,
            Call::Weigh { .. } => CallKind::Weigh,
        }
    }

    /// Its byte in a frame.
    pub fn code(self) -> u8
        ensures { result ≡ call_code self }
    {
        self as u8
    }

    /// The kind with this code in the version, or `None` where no kind has it there.
    pub fn of(version: Version, code: u8) -> Option<CallKind>
        ensures { result ≡ call_kind version code }
    {
        match CallKind::in_both(code) {
            Some(kind) => Some(kind),
            None => match version {
                Version::First => None,
                Version::Second => CallKind::later(code),
            },
        }
    }

    fn in_both(code: u8) -> Option<CallKind>
        ensures { result ≡ kind_of_code call_code call_kinds code }
    {
        CallKind::BOTH
            .iter()
            .copied()
            .find(|kind| kind.code() == code)
    }

    fn later(code: u8) -> Option<CallKind>
        ensures { result ≡ kind_of_code call_code later_calls code }
    {
        CallKind::LATER
            .iter()
            .copied()
            .find(|kind| kind.code() == code)
    }
}

/// A kind of answer, as the variants of `Answer` are. Its number is its byte in a frame.
#[derive(Clone, Copy, Drop)]
pub enum AnswerKind {
    Begun = 1,
    Value = 2,
    Written = 3,
    Committed = 4,
    Aborted = 5,
    Inviting = 6,
    NoView = 7,
    Unknown = 8,
    Skipped = 9,
    Busy = 10,
    NoRecord = 11,
    TooManyOps = 12,
    Inaccessible = 13,
    LockHeld = 14,
    ViewChanged = 15,
    TimedOut = 16,
    Spent = 17,
    TooManyLive = 18,
    Absent = 19,
    Deleted = 20,
    Weighed = 21,
    BadTable = 22,
}

impl AnswerKind {
    /// The kinds of both versions.
    const BOTH: [AnswerKind; 18] = [
        AnswerKind::Begun,
        AnswerKind::Value,
        AnswerKind::Written,
        AnswerKind::Committed,
        AnswerKind::Aborted,
        AnswerKind::Inviting,
        AnswerKind::NoView,
        AnswerKind::Unknown,
        AnswerKind::Skipped,
        AnswerKind::Busy,
        AnswerKind::NoRecord,
        AnswerKind::TooManyOps,
        AnswerKind::Inaccessible,
        AnswerKind::LockHeld,
        AnswerKind::ViewChanged,
        AnswerKind::TimedOut,
        AnswerKind::Spent,
        AnswerKind::TooManyLive,
    ];

    /// The kinds of the second version alone.
    const LATER: [AnswerKind; 4] = [
        AnswerKind::Absent,
        AnswerKind::Deleted,
        AnswerKind::Weighed,
        AnswerKind::BadTable,
    ];

    /// The kind of this answer.
    pub fn of_answer(answer: &Answer) -> AnswerKind
        ensures { result ≡ kind_of_answer answer.now }
    {
        match answer {
            Answer::Begun { .. } => AnswerKind::Begun,
            Answer::Value { .. } => AnswerKind::Value,
            Answer::Written { .. } => AnswerKind::Written,
            Answer::Committed { .. } => AnswerKind::Committed,
            Answer::Aborted { .. } => AnswerKind::Aborted,
            Answer::Inviting { .. } => AnswerKind::Inviting,
            Answer::NoView { .. } => AnswerKind::NoView,
            Answer::Unknown { .. } => AnswerKind::Unknown,
            Answer::Skipped { .. } => AnswerKind::Skipped,
            Answer::Busy { .. } => AnswerKind::Busy,
            Answer::NoRecord { .. } => AnswerKind::NoRecord,
            Answer::TooManyOps { .. } => AnswerKind::TooManyOps,
            Answer::Inaccessible { .. } => AnswerKind::Inaccessible,
            Answer::LockHeld { .. } => AnswerKind::LockHeld,
            Answer::ViewChanged { .. } => AnswerKind::ViewChanged,
            Answer::TimedOut { .. } => AnswerKind::TimedOut,
            Answer::Spent { .. } => AnswerKind::Spent,
            Answer::TooManyLive => AnswerKind::TooManyLive,
            Answer::Absent { .. } => AnswerKind::Absent,
            Answer::Deleted { .. } => AnswerKind::Deleted,
            Answer::Weighed { .. } => AnswerKind::Weighed,
            Answer::BadTable { .. } => AnswerKind::BadTable,
        }
    }

    /// Its byte in a frame.
    pub fn code(self) -> u8
        ensures { result ≡ answer_code self }
    {
        self as u8
    }

    /// The kind with this code in the version, or `None` where no kind has it there.
    pub fn of(version: Version, code: u8) -> Option<AnswerKind>
        ensures { result ≡ answer_kind version code }
    {
        match AnswerKind::in_both(code) {
            Some(kind) => Some(kind),
            None => match version {
                Version::First => None,
                Version::Second => AnswerKind::later(code),
            },
        }
    }

    fn in_both(code: u8) -> Option<AnswerKind>
        ensures { result ≡ kind_of_code answer_code answer_kinds code }
    {
        AnswerKind::BOTH
            .iter()
            .copied()
            .find(|kind| kind.code() == code)
    }

    fn later(code: u8) -> Option<AnswerKind>
        ensures { result ≡ kind_of_code answer_code later_answers code }
    {
        AnswerKind::LATER
            .iter()
            .copied()
            .find(|kind| kind.code() == code)
    }
}

/// A kind of frame.
#[derive(Clone, Copy, Drop)]
pub enum FrameKind {
    /// A message, of this kind.
    Message(MessageKind),
    /// A client's call.
    Call,
    /// An answer to a client.
    Reply,
    /// An order to tick.
    Tick,
    /// An order to probe the other sites.
    ProbeNow,
    /// An order to stop.
    Stop,
}

impl FrameKind {
    /// The kinds of frames that hold no message.
    const OTHERS: [FrameKind; 5] = [
        FrameKind::Call,
        FrameKind::Reply,
        FrameKind::Tick,
        FrameKind::ProbeNow,
        FrameKind::Stop,
    ];

    /// The kind of a frame with this body.
    pub fn of_body(body: &Body) -> FrameKind
        ensures { result ≡ kind_of_body body.now }
    {
        match body {
            Body::Message(message) => FrameKind::Message(MessageKind::of_message(message)),
            Body::Call(_) => FrameKind::Call,
            Body::Reply(_) => FrameKind::Reply,
            Body::Tick => FrameKind::Tick,
            Body::ProbeNow => FrameKind::ProbeNow,
            Body::Stop => FrameKind::Stop,
        }
    }

    /// Its byte in a frame.
    pub fn code(self) -> u8
        ensures { result ≡ frame_code self }
    {
        match self {
            FrameKind::Message(kind) => kind.code(),
            FrameKind::Call => 32,
            FrameKind::Reply => 33,
            FrameKind::Tick => 34,
            FrameKind::ProbeNow => 35,
            FrameKind::Stop => 36,
        }
    }

    /// The kind with this code, where it isn't the code of a message.
    fn other_of(code: u8) -> Option<FrameKind>
        ensures { result ≡ kind_of_code frame_code other_kinds code }
    {
        FrameKind::OTHERS
            .iter()
            .copied()
            .find(|kind| kind.code() == code)
    }
}

impl HasCode for FrameKind {
    ghost kind = { frame_kind };

    fn of(code: u8) -> Option<FrameKind> {
        match MessageKind::of(code) {
            Some(kind) => Some(FrameKind::Message(kind)),
            None => FrameKind::other_of(code),
        }
    }
}
