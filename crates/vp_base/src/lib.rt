//! The types that sites, logs, clients and schedules share.
//!
//! A contract sees an identifier as a number, a name as its bytes, and a list type as a list. Names, values, views and transactions
//! are read from text, with the exact place of a fault; `proofs/` has the laws of their texts.
#![tactic(auto)]

mod answer;
mod bars;
mod boxed;
mod copies;
mod entry;
mod event;
mod fault;
mod ids;
mod limits;
mod lists;
mod memory;
mod message;
mod numbers;
mod places;
mod seq;
mod site;
mod table;
mod text;
mod txn_text;
mod value;
mod view_text;

pub use answer::{Answer, Reply};
pub use bars::Bars;
pub use boxed::Boxed;
pub use entry::{Change, Commit, Decision, Doubt, LogRecord, Op, Owner, Put, Stored, View};
pub use event::{Call, Counted, Effects, Event, Input, Line, Shown};
pub use fault::{BadName, LineFault, NameFault};
pub use ids::{CallNo, OPENING, RecId, SiteId, TxnId, ViewId};
pub use limits::{
    LAST_SITE, MOST_EVENTS, MOST_FINISHED, MOST_LIVE, MOST_MESSAGES, MOST_OPS, MOST_RECORDS,
    MOST_STEPS,
};
pub use lists::{
    Batch, Batches, Commits, Copies, Decisions, Events, InDoubt, Messages, Names, Ops, Recs,
    Replies, Sites, Tables, Txns, Word, Writes,
};
pub use memory::NoMemory;
pub use message::{Message, Obstacle, Sent};
pub use numbers::only_its_own_bytes_read_as_a_number;
pub use places::{parse_place, place};
pub use seq::{CopyOf, Seq};
pub use site::{Ending, Finished, Live, Lock, Newest, Part, Pending, Refreshing};
pub use table::{Table, has_site, weight_inside, weight_total};
pub use text::Name;
pub use value::Value;
