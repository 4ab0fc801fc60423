//! What a row of the coordinator changes.

ghost use Rattle.std.specs.Prelude.{◌≡◌, [], OnOk, IfOk};
ghost use Rattle.vp_model.specs.Step.{resend};
ghost use Rattle.vp_model.specs.Generated.{newest};
ghost use Rattle.vp_coordinator.specs.Lent.{no_effects};

use crate::here::Here;
use std::alloc::Global;
use std::marker::Model;
use std::mem;
use vp_base::{Bars, CopyOf, Decisions, Effects, Newest, NoMemory, SiteId};
use vp_locks::Locks;
use vp_records::Durable;
use vp_transactions::Transactions;

/// What a row changes: the transactions that its site began in its current life, the locks, the copies and the bars there, and the
/// effects of the step.
#[derive(Drop)]
pub struct Coordinator {
    pub transactions: Transactions,
    pub here: Here,
    pub effects: Effects,
}

impl Model for Coordinator {
    ghost use Rattle.vp_model.specs.Site.{Lent as LentState};

    ghost Value = { LentState };

    ghost view = { λ l. record { coordinator = l.transactions; here = l.here; effects = l.effects } };
}

impl Coordinator {
    /// What a site has that starts a life with this durable part and these locks: its decisions and copies, no transactions, no bars
    /// and no effects.
    pub fn restore(alloc: Global, durable: Durable, locks: Locks) -> Result<Coordinator, NoMemory>
        ensures { IfOk result (λ lent. lent ≡ record {
          coordinator = record { seq = 0; live = []; finished = []; decisions = durable.decisions };
          here = record { locks = locks; copies = durable.copies; bars = [] };
          effects = no_effects;
        }) }
    {
        let mut transactions = Transactions::new(alloc);
        transactions.decisions = durable.decisions().copy_of()?;
        let here = Here {
            locks,
            copies: durable.into_copies(),
            bars: Bars::new(alloc),
        };
        Ok(Coordinator {
            transactions,
            here,
            effects: Effects::none(alloc),
        })
    }

    /// Sends each decision again to the sites that have not acknowledged it. After want of memory the effects may be changed in
    /// part: drop them.
    pub fn resend(&mut self, id: SiteId) -> Result<(), NoMemory>
        ensures { OnOk result (self.new ≡ resend id self.old.decisions self.old) }
    {
        self.transactions.resend(id, &mut self.effects)?;
        Ok(())
    }

    /// Takes the effects of a step, and leaves none.
    pub fn take_effects(&mut self) -> Effects
        ensures effects { result ≡ self.old.effects }
        ensures left { self.new ≡ record self.old { effects = no_effects } }
    {
        let none = Effects::none(self.allocator());
        mem::replace(&mut self.effects, none)
    }

    /// The allocator of what is lent.
    pub fn allocator(&self) -> Global {
        self.transactions.allocator()
    }

    /// What a client would call next on the live transaction that began last.
    pub fn newest(&self) -> Option<Newest>
        ensures { result ≡ newest self.now.live }
    {
        self.transactions.live.newest()
    }

    /// Copies the decisions that some site has not acknowledged.
    pub fn decisions(&self) -> Result<Decisions, NoMemory>
        ensures { IfOk result (λ decisions. decisions ≡ self.now.decisions) }
    {
        self.transactions.decisions.list()
    }
}
