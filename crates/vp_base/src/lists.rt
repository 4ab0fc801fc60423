//! The lists that sites, logs and schedules share.

use crate::answer::Reply;
use crate::entry::{Change, Commit, Decision, Doubt, LogRecord, Op, Stored};
use crate::event::Event;
use crate::ids::{RecId, SiteId, TxnId};
use crate::message::Sent;
use crate::seq::Seq;
use crate::table::Table;
use crate::text::Name;

/// Sites, ascending.
pub type Sites = Seq<SiteId>;
/// The operations of a transaction, in the order in which they were done.
pub type Ops = Seq<Op>;
/// Committed transactions, in the order in which they were committed.
pub type Commits = Seq<Commit>;
/// Messages, in the order in which they are sent.
pub type Messages = Seq<Sent>;
/// Replies, in the order in which they are given.
pub type Replies = Seq<Reply>;
/// Log records, in the order in which they are appended.
pub type Batch = Seq<LogRecord>;
/// The events of a schedule, in order.
pub type Events = Seq<Event>;
/// Names of records, in catalogue order.
pub type Names = Seq<Name>;
/// Transactions, ascending.
pub type Txns = Seq<TxnId>;
/// Records, ascending; 64 at most.
pub type Recs = Seq<RecId>;
/// Records with the tables that a transaction gave them, ascending by record; 64 at most.
pub type Tables = Seq<(RecId, Table)>;
/// The last change of each changed record, ascending by record; 64 at most.
pub type Writes = Seq<(RecId, Change)>;
/// Copies, ascending by record.
pub type Copies = Seq<(RecId, Stored)>;
/// Transactions in doubt, ascending.
pub type InDoubt = Seq<Doubt>;
/// Decisions, ascending by transaction.
pub type Decisions = Seq<Decision>;
/// Batches of log records, in the order in which they were appended.
pub type Batches = Seq<Batch>;
/// One word of a command line, as bytes. The program's name is not one of them.
pub type Word = Seq<u8>;
