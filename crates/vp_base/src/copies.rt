//! Copies of the shared types: each `copy_of` gives an equal value of its own, or fails for want of memory.

use crate::answer::{Answer, Reply};
use crate::entry::{Change, Commit, Decision, Doubt, LogRecord, Op, Owner, Put, Stored, View};
use crate::event::{Call, Effects, Event, Input, Line, Shown};
use crate::ids::{CallNo, RecId, SiteId, TxnId, ViewId};
use crate::memory::NoMemory;
use crate::message::{Message, Obstacle, Sent};
use crate::seq::CopyOf;
use crate::site::{Ending, Finished, Live, Lock, Part, Pending, Refreshing};
use crate::text::Name;

impl CopyOf for SiteId {
    fn copy_of(&self) -> Result<SiteId, NoMemory> {
        Ok(*self)
    }
}

impl CopyOf for CallNo {
    fn copy_of(&self) -> Result<CallNo, NoMemory> {
        Ok(*self)
    }
}

impl CopyOf for RecId {
    fn copy_of(&self) -> Result<RecId, NoMemory> {
        Ok(*self)
    }
}

impl CopyOf for ViewId {
    fn copy_of(&self) -> Result<ViewId, NoMemory> {
        Ok(*self)
    }
}

impl CopyOf for TxnId {
    fn copy_of(&self) -> Result<TxnId, NoMemory> {
        Ok(*self)
    }
}

impl CopyOf for Owner {
    fn copy_of(&self) -> Result<Owner, NoMemory> {
        Ok(*self)
    }
}

impl CopyOf for Part {
    fn copy_of(&self) -> Result<Part, NoMemory> {
        Ok(*self)
    }
}

impl CopyOf for u16 {
    fn copy_of(&self) -> Result<u16, NoMemory> {
        Ok(*self)
    }
}

impl CopyOf for u32 {
    fn copy_of(&self) -> Result<u32, NoMemory> {
        Ok(*self)
    }
}

impl<A: CopyOf> CopyOf for Option<A> {
    fn copy_of(&self) -> Result<Option<A>, NoMemory> {
        Ok(match self {
            Some(a) => Some(a.copy_of()?),
            None => None,
        })
    }
}

impl CopyOf for Put {
    fn copy_of(&self) -> Result<Put, NoMemory> {
        Ok(match *self {
            Put::Keep => Put::Keep,
            Put::Absent => Put::Absent,
            Put::Value { ref value } => Put::Value {
                value: value.copy_of()?,
            },
        })
    }
}

impl CopyOf for Change {
    fn copy_of(&self) -> Result<Change, NoMemory> {
        Ok(Change {
            put: self.put.copy_of()?,
            table: self.table.copy_of()?,
        })
    }
}

impl<A: CopyOf, B: CopyOf> CopyOf for (A, B) {
    fn copy_of(&self) -> Result<(A, B), NoMemory> {
        Ok((self.0.copy_of()?, self.1.copy_of()?))
    }
}

impl CopyOf for Doubt {
    fn copy_of(&self) -> Result<Doubt, NoMemory> {
        Ok(Doubt {
            txn: self.txn,
            view: self.view,
            writes: self.writes.copy_of()?,
        })
    }
}

impl CopyOf for Decision {
    fn copy_of(&self) -> Result<Decision, NoMemory> {
        Ok(Decision {
            txn: self.txn,
            waiting: self.waiting.copy_of()?,
        })
    }
}

impl CopyOf for View {
    fn copy_of(&self) -> Result<View, NoMemory> {
        Ok(View {
            id: self.id,
            members: self.members.copy_of()?,
        })
    }
}

impl CopyOf for Stored {
    fn copy_of(&self) -> Result<Stored, NoMemory> {
        Ok(Stored {
            value: self.value.copy_of()?,
            table: self.table.copy_of()?,
            date: self.date,
        })
    }
}

impl CopyOf for Commit {
    fn copy_of(&self) -> Result<Commit, NoMemory> {
        Ok(Commit {
            txn: self.txn,
            view: self.view,
            ops: self.ops.copy_of()?,
            tables: self.tables.copy_of()?,
        })
    }
}

impl CopyOf for Sent {
    fn copy_of(&self) -> Result<Sent, NoMemory> {
        Ok(Sent {
            from: self.from,
            to: self.to,
            message: self.message.copy_of()?,
        })
    }
}

impl CopyOf for Reply {
    fn copy_of(&self) -> Result<Reply, NoMemory> {
        Ok(Reply {
            to: self.to,
            answer: self.answer.copy_of()?,
        })
    }
}

impl CopyOf for Effects {
    fn copy_of(&self) -> Result<Effects, NoMemory> {
        Ok(Effects {
            records: self.records.copy_of()?,
            commits: self.commits.copy_of()?,
            messages: self.messages.copy_of()?,
            replies: self.replies.copy_of()?,
        })
    }
}

impl CopyOf for Line {
    fn copy_of(&self) -> Result<Line, NoMemory> {
        Ok(Line {
            event: self.event.copy_of()?,
            shown: self.shown.copy_of()?,
        })
    }
}

impl CopyOf for Lock {
    fn copy_of(&self) -> Result<Lock, NoMemory> {
        Ok(Lock {
            rec: self.rec,
            exclusive: self.exclusive,
            owner: self.owner,
        })
    }
}

impl CopyOf for Refreshing {
    fn copy_of(&self) -> Result<Refreshing, NoMemory> {
        Ok(Refreshing {
            rec: self.rec,
            answers: self.answers.copy_of()?,
        })
    }
}

impl CopyOf for Pending {
    fn copy_of(&self) -> Result<Pending, NoMemory> {
        Ok(Pending {
            number: self.number,
            port: self.port,
            call: self.call.copy_of()?,
            missing: self.missing.copy_of()?,
            marked: self.marked,
        })
    }
}

impl CopyOf for Finished {
    fn copy_of(&self) -> Result<Finished, NoMemory> {
        Ok(Finished {
            txn: self.txn,
            answers: self.answers.copy_of()?,
            ending: self.ending.copy_of()?,
        })
    }
}

impl CopyOf for Op {
    fn copy_of(&self) -> Result<Op, NoMemory> {
        Ok(match *self {
            Op::Read { rec, ref value } => Op::Read {
                rec,
                value: value.copy_of()?,
            },
            Op::Write { rec, ref value } => Op::Write {
                rec,
                value: value.copy_of()?,
            },
        })
    }
}

impl CopyOf for LogRecord {
    fn copy_of(&self) -> Result<LogRecord, NoMemory> {
        Ok(match *self {
            LogRecord::Start { life } => LogRecord::Start { life },
            LogRecord::Promise { view } => LogRecord::Promise { view },
            LogRecord::Yes {
                txn,
                view,
                ref writes,
            } => LogRecord::Yes {
                txn,
                view,
                writes: writes.copy_of()?,
            },
            LogRecord::Outcome { txn, commit } => LogRecord::Outcome { txn, commit },
            LogRecord::Commit {
                txn,
                view,
                ref writes,
                ref waiting,
            } => LogRecord::Commit {
                txn,
                view,
                writes: writes.copy_of()?,
                waiting: waiting.copy_of()?,
            },
            LogRecord::Copy { rec, ref stored } => LogRecord::Copy {
                rec,
                stored: stored.copy_of()?,
            },
            LogRecord::Acked { txn, site } => LogRecord::Acked { txn, site },
            LogRecord::Checkpoint {
                generation,
                life,
                promise,
                ref copies,
                ref doubts,
                ref decisions,
            } => LogRecord::Checkpoint {
                generation,
                life,
                promise,
                copies: copies.copy_of()?,
                doubts: doubts.copy_of()?,
                decisions: decisions.copy_of()?,
            },
            LogRecord::YesOfValues {
                txn,
                view,
                ref writes,
            } => LogRecord::YesOfValues {
                txn,
                view,
                writes: writes.copy_of()?,
            },
            LogRecord::CommitOfValues {
                txn,
                view,
                ref writes,
                ref waiting,
            } => LogRecord::CommitOfValues {
                txn,
                view,
                writes: writes.copy_of()?,
                waiting: waiting.copy_of()?,
            },
            LogRecord::CopyOfValue { rec, ref stored } => LogRecord::CopyOfValue {
                rec,
                stored: stored.copy_of()?,
            },
            LogRecord::CheckpointOfValues {
                generation,
                life,
                promise,
                ref copies,
                ref doubts,
                ref decisions,
            } => LogRecord::CheckpointOfValues {
                generation,
                life,
                promise,
                copies: copies.copy_of()?,
                doubts: doubts.copy_of()?,
                decisions: decisions.copy_of()?,
            },
        })
    }
}

impl CopyOf for Obstacle {
    fn copy_of(&self) -> Result<Obstacle, NoMemory> {
        Ok(match *self {
            Obstacle::Held { owner } => Obstacle::Held { owner },
            Obstacle::OtherView { now } => Obstacle::OtherView { now },
            Obstacle::Barred { inside, total } => Obstacle::Barred { inside, total },
        })
    }
}

impl CopyOf for Message {
    fn copy_of(&self) -> Result<Message, NoMemory> {
        Ok(match *self {
            Message::Invite { id } => Message::Invite { id },
            Message::Accept { id } => Message::Accept { id },
            Message::Stale { id, promise } => Message::Stale { id, promise },
            Message::ViewCommit { id, ref members } => Message::ViewCommit {
                id,
                members: members.copy_of()?,
            },
            Message::ReadRequest {
                txn,
                view,
                number,
                rec,
            } => Message::ReadRequest {
                txn,
                view,
                number,
                rec,
            },
            Message::ReadAnswer {
                txn,
                number,
                ref value,
            } => Message::ReadAnswer {
                txn,
                number,
                value: value.copy_of()?,
            },
            Message::WriteRequest {
                txn,
                view,
                number,
                rec,
            } => Message::WriteRequest {
                txn,
                view,
                number,
                rec,
            },
            Message::WriteAnswer { txn, number } => Message::WriteAnswer { txn, number },
            Message::Refuse {
                txn,
                number,
                ref why,
            } => Message::Refuse {
                txn,
                number,
                why: why.copy_of()?,
            },
            Message::Prepare {
                txn,
                view,
                number,
                ref reads,
                ref writes,
            } => Message::Prepare {
                txn,
                view,
                number,
                reads: reads.copy_of()?,
                writes: writes.copy_of()?,
            },
            Message::Vote { txn } => Message::Vote { txn },
            Message::Outcome { txn, commit } => Message::Outcome { txn, commit },
            Message::Ack { txn } => Message::Ack { txn },
            Message::Inquire { txn } => Message::Inquire { txn },
            Message::RefreshRequest { view, rec } => Message::RefreshRequest { view, rec },
            Message::RefreshAnswer {
                view,
                rec,
                ref stored,
            } => Message::RefreshAnswer {
                view,
                rec,
                stored: stored.copy_of()?,
            },
            Message::Probe { view } => Message::Probe { view },
        })
    }
}

impl CopyOf for Answer {
    fn copy_of(&self) -> Result<Answer, NoMemory> {
        Ok(match *self {
            Answer::Begun { txn, view } => Answer::Begun { txn, view },
            Answer::Value {
                txn,
                number,
                ref value,
            } => Answer::Value {
                txn,
                number,
                value: value.copy_of()?,
            },
            Answer::Written { txn, number } => Answer::Written { txn, number },
            Answer::Committed { txn, number } => Answer::Committed { txn, number },
            Answer::Aborted { txn, number } => Answer::Aborted { txn, number },
            Answer::Inviting { view } => Answer::Inviting { view },
            Answer::NoView { promise } => Answer::NoView { promise },
            Answer::Unknown { txn } => Answer::Unknown { txn },
            Answer::Skipped { txn, expected } => Answer::Skipped { txn, expected },
            Answer::Busy { txn, number } => Answer::Busy { txn, number },
            Answer::NoRecord { txn, number } => Answer::NoRecord { txn, number },
            Answer::TooManyOps { txn, number } => Answer::TooManyOps { txn, number },
            Answer::Inaccessible {
                txn,
                number,
                ref name,
                inside,
                total,
            } => Answer::Inaccessible {
                txn,
                number,
                name: name.duplicate(),
                inside,
                total,
            },
            Answer::LockHeld {
                txn,
                number,
                ref name,
                at,
                owner,
            } => Answer::LockHeld {
                txn,
                number,
                name: name.duplicate(),
                at,
                owner,
            },
            Answer::ViewChanged {
                txn,
                number,
                at,
                held,
                now,
            } => Answer::ViewChanged {
                txn,
                number,
                at,
                held,
                now,
            },
            Answer::TimedOut { txn, number, at } => Answer::TimedOut { txn, number, at },
            Answer::Spent { number } => Answer::Spent { number },
            Answer::TooManyLive => Answer::TooManyLive,
            Answer::Absent { txn, number } => Answer::Absent { txn, number },
            Answer::Deleted { txn, number } => Answer::Deleted { txn, number },
            Answer::Weighed { txn, number } => Answer::Weighed { txn, number },
            Answer::BadTable { txn, number } => Answer::BadTable { txn, number },
        })
    }
}

impl CopyOf for Call {
    fn copy_of(&self) -> Result<Call, NoMemory> {
        Ok(match *self {
            Call::Begin => Call::Begin,
            Call::Regroup => Call::Regroup,
            Call::Read {
                txn,
                number,
                ref name,
            } => Call::Read {
                txn,
                number,
                name: name.duplicate(),
            },
            Call::Write {
                txn,
                number,
                ref name,
                ref value,
            } => Call::Write {
                txn,
                number,
                name: name.duplicate(),
                value: value.copy_of()?,
            },
            Call::Commit { txn, number } => Call::Commit { txn, number },
            Call::Abort { txn, number } => Call::Abort { txn, number },
            Call::Delete {
                txn,
                number,
                ref name,
            } => Call::Delete {
                txn,
                number,
                name: name.duplicate(),
            },
            Call::Weigh {
                txn,
                number,
                ref name,
                ref table,
            } => Call::Weigh {
                txn,
                number,
                name: name.duplicate(),
                table: table.copy_of()?,
            },
        })
    }
}

impl CopyOf for Input {
    fn copy_of(&self) -> Result<Input, NoMemory> {
        Ok(match *self {
            Input::Call { from, ref call } => Input::Call {
                from,
                call: call.copy_of()?,
            },
            Input::Message { from, ref message } => Input::Message {
                from,
                message: message.copy_of()?,
            },
            Input::Tick => Input::Tick,
            Input::Probe => Input::Probe,
        })
    }
}

impl CopyOf for Event {
    fn copy_of(&self) -> Result<Event, NoMemory> {
        Ok(match *self {
            Event::Call { site, ref call } => Event::Call {
                site,
                call: call.copy_of()?,
            },
            Event::Deliver { k } => Event::Deliver { k },
            Event::Flow { count } => Event::Flow { count },
            Event::Tick { site } => Event::Tick { site },
            Event::Probe { site } => Event::Probe { site },
            Event::Cut { a, b } => Event::Cut { a, b },
            Event::Heal { a, b } => Event::Heal { a, b },
            Event::Crash { site } => Event::Crash { site },
            Event::Restart { site } => Event::Restart { site },
        })
    }
}

impl CopyOf for Shown {
    fn copy_of(&self) -> Result<Shown, NoMemory> {
        Ok(match *self {
            Shown::Step {
                ref commits,
                first,
                ref messages,
                ref replies,
            } => Shown::Step {
                commits: commits.copy_of()?,
                first,
                messages: messages.copy_of()?,
                replies: replies.copy_of()?,
            },
            Shown::Nothing => Shown::Nothing,
            Shown::NoMessage => Shown::NoMessage,
            Shown::Down { site } => Shown::Down { site },
            Shown::Parted { from, to } => Shown::Parted { from, to },
            Shown::Up { site } => Shown::Up { site },
            Shown::Life { life } => Shown::Life { life },
            Shown::LivesSpent { life } => Shown::LivesSpent { life },
        })
    }
}

impl CopyOf for Ending {
    fn copy_of(&self) -> Result<Ending, NoMemory> {
        Ok(match *self {
            Ending::Committed => Ending::Committed,
            Ending::Aborted => Ending::Aborted,
            Ending::LockHeld {
                ref name,
                at,
                owner,
            } => Ending::LockHeld {
                name: name.duplicate(),
                at,
                owner,
            },
            Ending::ViewChanged { at, held, now } => Ending::ViewChanged { at, held, now },
            Ending::TimedOut { at } => Ending::TimedOut { at },
            Ending::Inaccessible {
                ref name,
                inside,
                total,
            } => Ending::Inaccessible {
                name: name.duplicate(),
                inside,
                total,
            },
        })
    }
}
