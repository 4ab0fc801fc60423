//! Decisions that some site has not acknowledged.

ghost use Rattle.std.specs.Prelude.{◌≡◌, [], IfOk, OnOk, OnErr};
ghost use Rattle.vp_model.specs.Answers.{is_decided, waits_for};
ghost use Rattle.vp_model.specs.Durable.{acknowledged, with_decision};

use crate::{awaited, listed};
use std::alloc::Global;
use std::marker::Model;
use vp_base::{CopyOf, Decision, Decisions, NoMemory, SiteId, Sites, TxnId};
use vp_tables::Table;

/// How the decisions are kept.
#[derive(Drop)]
enum Form {
    ByTxn(Table<Decision>),
    Listed(Decisions),
}

/// Decisions, as a list. Where each comes after those before it and waits for some site, as log records make them, they are in a
/// table, in which one is found without a walk over the others. A checkpoint may hold any list; that is kept as it is.
pub struct DecisionTable {
    form: Form,
}

impl Drop for DecisionTable {
    fn drop(self) {
        let DecisionTable { form: _ } = self;
    }
}

impl Model for DecisionTable {
    ghost use Rattle.std.specs.Prelude.{List};
    ghost use Rattle.vp_base.specs.declared.entry.Decision.{Decision};
    ghost use Rattle.vp_records.specs.Decided.{decisions_in, IsForm};

    ghost Value = { List Decision };

    ghost view = { λ d. decisions_in d.form };

    ghost invariant = { λ d. IsForm d.form };
}

impl CopyOf for DecisionTable {
    fn copy_of(&self) -> Result<DecisionTable, NoMemory> {
        let form = match &self.form {
            Form::ByTxn(table) => Form::ByTxn(table.copy_of()?),
            Form::Listed(list) => Form::Listed(list.copy_of()?),
        };
        Ok(DecisionTable { form })
    }
}

impl DecisionTable {
    /// No decisions. Takes no memory.
    pub fn new(alloc: Global) -> DecisionTable
        ensures { result ≡ [] }
    {
        DecisionTable {
            form: Form::ByTxn(Table::new(alloc)),
        }
    }

    /// The decisions of this list, kept as it is. Takes no memory.
    pub fn listed(items: Decisions) -> DecisionTable
        ensures { result ≡ items }
    {
        DecisionTable {
            form: Form::Listed(items),
        }
    }

    /// Copies of these decisions, in a table where that can be.
    pub fn copied(items: &Decisions) -> Result<DecisionTable, NoMemory>
        ensures { IfOk result (λ d. d ≡ items.now) }
    {
        let form = match awaited::table_of(items.allocator(), items.as_slice())? {
            Some(table) => Form::ByTxn(table),
            None => Form::Listed(items.copy_of()?),
        };
        Ok(DecisionTable { form })
    }

    /// Copies the decisions to a list.
    pub fn list(&self) -> Result<Decisions, NoMemory>
        ensures { IfOk result (λ list. list ≡ self.now) }
    {
        match &self.form {
            Form::ByTxn(table) => table.to_list(),
            Form::Listed(list) => list.copy_of(),
        }
    }

    /// Whether a decision on the transaction waits for the site.
    pub fn waits_for(&self, txn: &TxnId, site: SiteId) -> bool
        ensures { result ≡ waits_for txn.now site self.now }
    {
        match &self.form {
            Form::ByTxn(table) => awaited::waits_for(table, txn, site),
            Form::Listed(list) => listed::waits_for(list.as_slice(), txn, site),
        }
    }

    /// Whether there is a decision on the transaction.
    pub fn is_decided(&self, txn: &TxnId) -> bool
        ensures { result ≡ is_decided txn.now self.now }
    {
        match &self.form {
            Form::ByTxn(table) => table.has(txn),
            Form::Listed(list) => listed::is_decided(list.as_slice(), txn),
        }
    }

    /// Keeps the decision on the transaction until each of the sites has acknowledged it; where there are none, keeps nothing.
    /// Where memory is lacking, the decisions stay as they are.
    pub fn keep(&mut self, txn: &TxnId, waiting: Sites) -> Result<(), NoMemory>
        ensures ok { OnOk result (self.new ≡ with_decision txn.now waiting self.old) }
        ensures err { OnErr result (self.new ≡ self.old) }
    {
        if waiting.as_slice().is_empty() {
            return Ok(());
        }
        let decision = Decision { txn: *txn, waiting };
        match &mut self.form {
            Form::ByTxn(table) => table.put(decision),
            Form::Listed(list) => listed::put_among(list, decision),
        }
    }

    /// Notes that the site has acknowledged the decision on the transaction. A decision that waits for no site any more is removed.
    pub fn acknowledge(&mut self, txn: &TxnId, site: SiteId)
        ensures { self.new ≡ acknowledged txn.now site self.old }
    {
        match &mut self.form {
            Form::ByTxn(table) => awaited::acknowledge(table, txn, site),
            Form::Listed(list) => listed::acknowledge(list, txn, site),
        }
    }
}
