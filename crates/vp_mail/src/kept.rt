//! The form in which the mail keeps a message.

ghost use Rattle.std.specs.Prelude.{◌≡◌, IfOk};
ghost use Rattle.vp_mail.specs.Keeping.{brief_of, sent_as};

use std::alloc::Global;
use std::marker::Model;
use vp_base::{Boxed, CallNo, CopyOf, Message, NoMemory, RecId, Sent, SiteId, TxnId, ViewId};

/// What a message says of its transaction that says little else.
#[derive(Clone, Copy, Drop)]
enum Brief {
    WriteAnswer { number: CallNo },
    Vote,
    Outcome { commit: bool },
    Ack,
}

/// What is kept for a message. The fields of a request's view are kept one by one, since a `ViewId` would take 16 bytes for its 9.
#[derive(Drop)]
enum Form {
    RefreshRequest {
        from: SiteId,
        to: SiteId,
        rec: RecId,
        view_site: u8,
        view_number: u64,
    },
    Brief {
        from: SiteId,
        to: SiteId,
        txn: TxnId,
        brief: Brief,
    },
    Other {
        sent: Boxed<Sent>,
    },
}

/// A message that was sent. A site asks each other holder of a copy that it has to refresh, again with each tick, so most messages
/// of a large world are refresh requests: those and brief ones are kept here in 24 bytes, and any other message in a box.
#[derive(Drop)]
pub struct PackedMessage {
    form: Form,
}

impl Model for PackedMessage {
    ghost use Rattle.vp_model.specs.Types.{Sent as SentMessage};
    ghost use Rattle.vp_mail.specs.Keeping.{sent_as};

    ghost Value = { SentMessage };

    ghost view = { λ k. sent_as k.form };
}

impl Brief {
    /// The message that says this of the transaction.
    fn of(self, txn: TxnId) -> Message
        ensures { result ≡ brief_of txn self }
    {
        match self {
            Brief::WriteAnswer { number } => Message::WriteAnswer { txn, number },
            Brief::Vote => Message::Vote { txn },
            Brief::Outcome { commit } => Message::Outcome { txn, commit },
            Brief::Ack => Message::Ack { txn },
        }
    }
}

/// What is kept for this message.
fn form_of(alloc: Global, sent: Sent) -> Result<Form, NoMemory>
    ensures { IfOk result (λ form. sent_as form ≡ sent) }
{
    let from = sent.from;
    let to = sent.to;
    let brief = |txn: TxnId, brief: Brief| Form::Brief {
        from,
        to,
        txn,
        brief,
    };
    match sent.into_message() {
        Message::WriteAnswer { txn, number } => Ok(brief(txn, Brief::WriteAnswer { number })),
        Message::Vote { txn } => Ok(brief(txn, Brief::Vote)),
        Message::Outcome { txn, commit } => Ok(brief(txn, Brief::Outcome { commit })),
        Message::Ack { txn } => Ok(brief(txn, Brief::Ack)),
        Message::RefreshRequest { view, rec } => Ok(Form::RefreshRequest {
            from,
            to,
            rec,
            view_site: view.site,
            view_number: view.number,
        }),
        message => Ok(Form::Other {
            sent: Boxed::new(alloc, Sent { from, to, message })?,
        }),
    }
}

impl PackedMessage {
    /// Keeps the message. The only error is want of memory; the message is dropped then.
    pub fn new(alloc: Global, sent: Sent) -> Result<PackedMessage, NoMemory>
        ensures { IfOk result (λ kept. kept ≡ sent) }
    {
        Ok(PackedMessage {
            form: form_of(alloc, sent)?,
        })
    }

    /// The site that sent the message.
    pub fn from(&self) -> SiteId
        ensures { result ≡ self.now.from }
    {
        match &self.form {
            Form::RefreshRequest { from, .. } => *from,
            Form::Brief { from, .. } => *from,
            Form::Other { sent } => sent.as_ref().from,
        }
    }

    /// The site that the message is for.
    pub fn to(&self) -> SiteId
        ensures { result ≡ self.now.to }
    {
        match &self.form {
            Form::RefreshRequest { to, .. } => *to,
            Form::Brief { to, .. } => *to,
            Form::Other { sent } => sent.as_ref().to,
        }
    }

    /// Makes the message again, as it was sent.
    pub fn message(&self) -> Result<Message, NoMemory>
        ensures { IfOk result (λ message. message ≡ self.now.message) }
    {
        match &self.form {
            Form::RefreshRequest {
                rec,
                view_site,
                view_number,
                ..
            } => {
                let view = ViewId {
                    number: *view_number,
                    site: *view_site,
                };
                Ok(Message::RefreshRequest { view, rec: *rec })
            }
            Form::Brief { txn, brief, .. } => Ok(brief.of(*txn)),
            Form::Other { sent } => sent.as_ref().message.copy_of(),
        }
    }
}
