//! The transactions in doubt, and their locks.

ghost use Rattle.std.specs.Prelude.{◌≡◌, ◌++◌, IfOk, OnOk, flat_map};
ghost use Rattle.vp_model.specs.Words.{for_each, has, keys, put_txn};
ghost use Rattle.vp_model.specs.Durable.{doubt_of, put_doubt, without_doubt};
ghost use Rattle.vp_model.specs.Views.{has_doubt};
ghost use Rattle.vp_model.specs.Step.{locks_in_doubt};
ghost use Rattle.vp_participant.specs.Doubts.{is_written, AreNamed};

use std::alloc::Global;
use std::marker::Model;
use vp_base::{Change, CopyOf, Doubt, InDoubt, NoMemory, Owner, Part, RecId, TxnId, Writes};
use vp_lists::{copy_all, is_same_txn, put, take_txn};
use vp_locks::Locks;
use vp_tables::Table;

/// The transactions in doubt, in the order in which a log has them, with an index of their names. A contract sees the list.
pub struct DoubtList {
    items: Vec<Doubt>,
    names: Table<TxnId>,
}

impl Drop for DoubtList {
    fn drop(self) {
        let DoubtList { items: _, names: _ } = self;
    }
}

impl Model for DoubtList {
    ghost use Rattle.std.specs.Prelude.{List};
    ghost use Rattle.vp_base.specs.declared.entry.Doubt.{Doubt};
    ghost use Rattle.vp_participant.specs.Doubts.{AreNamed};

    ghost Value = { List Doubt };

    ghost view = { λ d. d.items.items };

    ghost invariant = { λ d. AreNamed d.names d.items.items };
}

/// The names of the transactions.
fn names_of(alloc: Global, doubts: &[Doubt]) -> Result<Table<TxnId>, NoMemory>
    ensures { IfOk result (λ names. AreNamed names doubts.now) }
{
    let mut names = Table::new(alloc);
    for doubt in doubts {
        names.put(doubt.txn)?;
    }
    Ok(names)
}

fn has_write(writes: &[(RecId, Change)], rec: RecId) -> bool
    ensures { result ≡ has (keys writes.now) rec }
{
    writes.iter().map(|write| write.0).any(|other| other == rec)
}

impl DoubtList {
    /// Copies those of a log.
    pub fn copied(alloc: Global, doubts: &InDoubt) -> Result<DoubtList, NoMemory>
        ensures { IfOk result (λ list. list ≡ doubts.now) }
    {
        let items = copy_all(alloc, doubts.as_slice())?;
        Ok(DoubtList {
            names: names_of(alloc, &items)?,
            items,
        })
    }

    /// Whether the transaction is in doubt.
    pub fn has(&self, txn: &TxnId) -> bool
        ensures { result ≡ has_doubt txn.now self.now }
    {
        self.names.has(txn)
    }

    /// Whether a transaction in doubt writes the record.
    pub fn writes(&self, rec: RecId) -> bool
        ensures { result ≡ is_written self.now rec }
    {
        self.items
            .iter()
            .any(|doubt| has_write(doubt.writes.as_slice(), rec))
    }

    /// Adds the transaction of the part to those in doubt, with its writes.
    pub fn add(&mut self, part: &Part, writes: &Writes) -> Result<(), NoMemory>
        ensures { OnOk result
            (self.new ≡
            put_doubt (record { txn = part.now.txn; view = part.now.view; writes = writes.now }) self.old) }
    {
        let doubt = Doubt {
            txn: part.txn,
            view: part.view,
            writes: writes.copy_of()?,
        };
        let is_known = self.names.has(&part.txn);
        self.names.put(part.txn)?;
        if let Err(e) = put(&mut self.items, doubt) {
            if !is_known {
                self.names.remove(&part.txn);
            }
            return Err(e);
        }
        Ok(())
    }

    /// Removes the transaction from those in doubt and returns what was kept of it.
    pub fn take(&mut self, txn: &TxnId) -> Option<Doubt>
        ensures taken { result ≡ doubt_of txn.now self.old }
        ensures rest { self.new ≡ without_doubt txn.now self.old }
    {
        self.names.remove(txn);
        let doubt = take_txn(&mut self.items, txn);
        self.items.retain(|other| !is_same_txn(&other.txn, txn));
        doubt
    }

    /// Copies them.
    pub fn list(&self) -> Result<InDoubt, NoMemory>
        ensures { IfOk result (λ doubts. doubts ≡ self.now) }
    {
        let items = copy_all(*self.items.allocator(), &self.items)?;
        Ok(InDoubt::from_vec(items))
    }

    /// Adds their names to the list, which stays in order.
    pub fn add_names(&self, txns: &mut Vec<TxnId>) -> Result<(), NoMemory>
        ensures { OnOk result (txns.new.items ≡ for_each self.now (λ d. put_txn d.txn) txns.old.items) }
    {
        add_doubted(txns, &self.items)
    }
}

/// Takes an exclusive lock on each record that the transaction writes.
fn lock_writes(locks: &mut Locks, doubt: &Doubt) -> Result<(), NoMemory>
    ensures { OnOk result (locks.new ≡ locks.old ++ locks_in_doubt doubt.now) }
{
    for write in doubt.writes.as_slice() {
        locks.add(write.0, true, &Owner::Txn(doubt.txn))?;
    }
    Ok(())
}

/// Takes the exclusive locks of each transaction in doubt, whoever else has a lock on the record.
pub fn lock_doubts(locks: &mut Locks, doubts: &[Doubt]) -> Result<(), NoMemory>
    ensures { OnOk result (locks.new ≡ locks.old ++ flat_map locks_in_doubt doubts.now) }
{
    for doubt in doubts {
        lock_writes(locks, doubt)?;
    }
    Ok(())
}

/// Adds the transactions in doubt to the list, which stays in order.
fn add_doubted(txns: &mut Vec<TxnId>, doubts: &[Doubt]) -> Result<(), NoMemory>
    ensures { OnOk result (txns.new.items ≡ for_each doubts.now (λ d. put_txn d.txn) txns.old.items) }
{
    for doubt in doubts {
        put(txns, doubt.txn)?;
    }
    Ok(())
}
