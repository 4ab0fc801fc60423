//! Items in the order of their transactions.

ghost use Rattle.std.specs.Prelude.{◌≡◌, [], OnOk, OnErr, IfOk, find, filter, map, not, option_copied};
ghost use Rattle.std.specs.List.{list_any};
ghost use Rattle.vp_model.specs.Words.{change_first, put, same_txn, txn_before};
ghost use Rattle.vp_tables.specs.Keys.{AreAscending};

use crate::key::{TxnKey, key_of};
use std::alloc::Global;
use std::collections::BTreeMap;
use std::marker::Model;
use std::mem;
use vp_base::{CopyOf, Decision, NoMemory, Part, Seq, TxnId};

/// An item that belongs to one transaction.
pub trait HasTxn {
    ghost use Rattle.vp_base.specs.declared.ids.TxnId.{TxnId};

    ghost txn: { Self → TxnId };

    /// The transaction of the item.
    fn name(&self) -> TxnId
        ensures { result ≡ txn self.now };
}

impl HasTxn for TxnId {
    ghost txn = { λ t. t };

    fn name(&self) -> TxnId {
        *self
    }
}

impl HasTxn for Part {
    ghost txn = { λ p. p.txn };

    fn name(&self) -> TxnId {
        self.txn
    }
}

impl HasTxn for Decision {
    ghost txn = { λ d. d.txn };

    fn name(&self) -> TxnId {
        self.txn
    }
}

/// Items in the order of their transactions, at most one for each.
#[derive(Drop)]
pub struct Table<T: HasTxn> {
    tree: BTreeMap<TxnKey, T>,
    alloc: Global,
}

impl<T: HasTxn> Model for Table<T> {
    ghost use Rattle.std.specs.Prelude.{List};
    ghost use Rattle.std.specs.BTreeMap.{IsOrdered};
    ghost use Rattle.std.specs.Map.{values_of};
    ghost use Rattle.vp_tables.specs.Keys.{key_cmp, AreKeyed};

    ghost Value = { List T };

    ghost view = { λ t. values_of t.tree.entries };

    ghost invariant = { λ t. AreKeyed T.txn t.tree.entries × IsOrdered key_cmp t.tree };
}

impl<T: HasTxn + Drop> Table<T> {
    /// Makes an empty table, which takes no memory.
    pub fn new(alloc: Global) -> Table<T>
        ensures { result ≡ [] }
    {
        Table {
            tree: BTreeMap::new(alloc),
            alloc,
        }
    }

    /// The allocator from which the table takes its memory.
    pub fn allocator(&self) -> Global {
        self.alloc
    }

    /// Whether the transaction has an item.
    pub fn has(&self, txn: &TxnId) -> bool
        ensures { result ≡ list_any (λ t. same_txn (T.txn t) txn.now) self.now }
    {
        self.tree.contains_key(&key_of(txn))
    }

    /// Finds the item of the transaction.
    pub fn get(&self, txn: &TxnId) -> Option<&T>
        ensures found { option_copied result ≡ find (λ t. same_txn (T.txn t) txn.now) self.now }
        ensures ascending { AreAscending T.txn self.now }
    {
        self.tree.get(&key_of(txn))
    }

    /// Puts the item in its place, where it replaces one of the same transaction. Where memory is lacking, the table stays as it
    /// is.
    pub fn put(&mut self, item: T) -> Result<(), NoMemory>
        ensures ok { OnOk result
            (self.new ≡
            put (λ a b. same_txn (T.txn a) (T.txn b)) (λ a b. txn_before (T.txn a) (T.txn b)) item self.old) }
        ensures err { OnErr result (self.new ≡ self.old) }
    {
        self.tree.insert(key_of(&item.name()), item)?;
        Ok(())
    }

    /// Replaces the item of the same transaction, and returns the old one. Where there is none, the new item is dropped.
    pub fn replace(&mut self, item: T) -> Option<T>
        ensures taken { result ≡ find (λ t. same_txn (T.txn t) (T.txn item)) self.old }
        ensures rest { self.new ≡ change_first (λ t. same_txn (T.txn t) (T.txn item)) (λ _. item) self.old }
        ensures ascending { AreAscending T.txn self.old }
    {
        let Some(place) = self.tree.get_mut(&key_of(&item.name())) else {
            return None;
        };
        Some(mem::replace(place, item))
    }

    /// Removes the item of the transaction, if there is one.
    pub fn remove(&mut self, txn: &TxnId)
        ensures { self.new ≡ filter (λ t. not (same_txn (T.txn t) txn.now)) self.old }
    {
        self.tree.remove(&key_of(txn));
    }

    /// Removes all items.
    pub fn clear(&mut self)
        ensures { self.new ≡ [] }
    {
        *self = Table::new(self.alloc);
    }

    /// The transactions of the items, ascending, in a list of their own.
    pub fn names(&self) -> Result<Vec<TxnId>, NoMemory>
        ensures { IfOk result (λ names. names.items ≡ map T.txn self.now) }
    {
        Ok(
            self.tree
                .values()
                .map(|item| item.name())
                .collect(self.alloc)?,
        )
    }
}

impl<T: HasTxn + CopyOf> Table<T> {
    /// Copies the items to a list of their own.
    pub fn to_list(&self) -> Result<Seq<T>, NoMemory>
        ensures { IfOk result (λ items. items ≡ self.now) }
    {
        let mut items = Seq::from_vec(Vec::with_capacity(self.alloc, self.tree.len())?);
        for item in self.tree.values() {
            items.push(item.copy_of()?)?;
        }
        Ok(items)
    }
}

impl<T: HasTxn + CopyOf> CopyOf for Table<T> {
    fn copy_of(&self) -> Result<Table<T>, NoMemory> {
        let mut copy = Table::new(self.alloc);
        for item in self.tree.values() {
            copy.put(item.copy_of()?)?;
        }
        Ok(copy)
    }
}
