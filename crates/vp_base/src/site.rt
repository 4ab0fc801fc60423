//! The items of the lists in a site's state.

use crate::answer::Answer;
use crate::boxed::Boxed;
use crate::entry::{Owner, Stored};
use crate::event::Call;
use crate::ids::{CallNo, RecId, SiteId, TxnId, ViewId};
use crate::lists::{Ops, Sites, Tables};
use crate::seq::Seq;
use crate::text::Name;

/// A lock on a record. It is exclusive or shared.
#[derive(Drop)]
pub struct Lock {
    pub rec: RecId,
    pub exclusive: bool,
    pub owner: Owner,
}

/// What a site keeps of another site's transaction that has not voted here yet, or has voted but writes nothing here.
#[derive(Clone, Copy, Drop)]
pub struct Part {
    pub txn: TxnId,
    pub view: ViewId,
    pub voted: bool,
}

/// A copy under refresh, with the copies that other sites have sent, ascending by site.
pub struct Refreshing {
    pub rec: RecId,
    pub answers: Seq<(SiteId, Stored)>,
}

impl Drop for Refreshing {
    fn drop(self) {
        let Refreshing { rec: _, answers: _ } = self;
    }
}

/// A call that is not answered yet: the sites that it waits for, and whether a tick has come since it began to wait.
pub struct Pending {
    pub number: CallNo,
    pub port: u16,
    pub call: Call,
    pub missing: Sites,
    pub marked: bool,
}

impl Drop for Pending {
    fn drop(self) {
        let Pending {
            number: _,
            port: _,
            call: _,
            missing: _,
            marked: _,
        } = self;
    }
}

/// A live transaction of this site. Its answers are in the order of its calls, so that the Nth is the answer to call N. A remote
/// read is a pair of a site and a record.
pub struct Live {
    pub txn: TxnId,
    pub view: ViewId,
    pub ops: Ops,
    pub tables: Tables,
    pub remote: Seq<(SiteId, RecId)>,
    pub parts: Sites,
    pub answers: Seq<Answer>,
    pub pending: Option<Boxed<Pending>>,
}

impl Drop for Live {
    fn drop(self) {
        let Live {
            txn: _,
            view: _,
            ops: _,
            tables: _,
            remote: _,
            parts: _,
            answers: _,
            pending: _,
        } = self;
    }
}

/// What a client of a site would call next: the site's newest live transaction, the number of its next call, from 1, and whether an
/// earlier call is not answered yet.
#[derive(Clone, Copy, Drop, PartialEq, Eq)]
pub struct Newest {
    pub txn: TxnId,
    pub next: usize,
    pub pending: bool,
}

/// How a transaction ended.
#[derive(Drop)]
pub enum Ending {
    /// It was committed.
    Committed,
    /// Its client aborted it.
    Aborted,
    /// It was aborted, since another held a lock that it needed.
    LockHeld {
        name: Name,
        at: SiteId,
        owner: Owner,
    },
    /// It was aborted, since a site left the view in which it began.
    ViewChanged {
        at: SiteId,
        held: ViewId,
        now: Option<ViewId>,
    },
    /// It was aborted, since its call was still pending a tick later.
    TimedOut {
        at: SiteId,
    },
    /// A site that was asked may not use the record in its view.
    Inaccessible {
        name: Name,
        inside: u32,
        total: u32,
    },
}

/// A transaction of this site that has ended, with the answers that it was given, for calls that come again.
pub struct Finished {
    pub txn: TxnId,
    pub answers: Seq<Answer>,
    pub ending: Ending,
}

impl Drop for Finished {
    fn drop(self) {
        let Finished {
            txn: _,
            answers: _,
            ending: _,
        } = self;
    }
}
