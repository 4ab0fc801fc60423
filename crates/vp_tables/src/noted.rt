//! Transactions that were noted.

ghost use Rattle.std.specs.Prelude.{◌≡◌, ◌++◌, ◌∷◌, [], OnOk, IfOk, if◌then◌else◌};
ghost use Rattle.vp_model.specs.Words.{has_txn};

use crate::key::{TxnKey, key_of};
use indexmap::IndexMap;
use std::alloc::Global;
use std::marker::Model;
use vp_base::{CopyOf, NoMemory, TxnId};

/// Transactions in the order in which they were noted, each one once.
#[derive(Drop)]
pub struct TxnSet {
    keyed: IndexMap<TxnKey, TxnId>,
    alloc: Global,
}

impl Model for TxnSet {
    ghost use Rattle.std.specs.Prelude.{List};
    ghost use Rattle.std.specs.Map.{values_of};
    ghost use Rattle.vp_base.specs.declared.ids.TxnId.{TxnId};
    ghost use Rattle.vp_tables.specs.Keys.{AreKeyed};

    ghost Value = { List TxnId };

    ghost view = { λ n. values_of n.keyed.entries };

    ghost invariant = { λ n. AreKeyed (λ t. t) n.keyed.entries };
}

impl TxnSet {
    /// Makes an empty list, which takes no memory.
    pub fn new(alloc: Global) -> TxnSet
        ensures { result ≡ [] }
    {
        TxnSet {
            keyed: IndexMap::new(alloc),
            alloc,
        }
    }

    /// Whether the transaction was noted.
    pub fn has(&self, txn: &TxnId) -> bool
        ensures { result ≡ has_txn self.now txn.now }
    {
        self.keyed.contains_key(&key_of(txn))
    }

    /// Appends the transaction, unless it is there already. Where memory is lacking, the list stays as it is.
    pub fn note(&mut self, txn: &TxnId) -> Result<(), NoMemory>
        ensures { OnOk result
            (self.new ≡ (if has_txn self.old txn.now then self.old else self.old ++ txn.now ∷ [])) }
    {
        if !self.has(txn) {
            self.keyed.insert(key_of(txn), *txn)?;
        }
        Ok(())
    }

    /// Removes all of them.
    pub fn clear(&mut self)
        ensures { self.new ≡ [] }
    {
        *self = TxnSet::new(self.alloc);
    }
}
