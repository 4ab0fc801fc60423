//! Lists that are kept in ascending order.

ghost use Rattle.std.specs.Prelude.{◌≡◌, ◌≤◌, ◌<◌, OnOk, OnErr, IsTrue, if◌then◌else◌, length, set};
ghost use Rattle.std.specs.List.{insert};
ghost use Rattle.vp_model.specs.Words.{put};

use crate::order::{is_same_txn, txn_comes_before, view_comes_before};
use std::mem;
use vp_base::{Decision, Doubt, NoMemory, Part, RecId, Refreshing, Seq, SiteId, TxnId, ViewId};

/// An item of an ordered list: two items have the same key, or one comes before the other.
pub trait HasKey {
    ghost use Rattle.std.specs.Prelude.{Bool};

    ghost same: { Self → Self → Bool };

    ghost before: { Self → Self → Bool };

    /// Whether both have the same key.
    fn is_same(&self, other: &Self) -> bool
        ensures { result ≡ same self.now other.now };

    /// Whether this item's key comes before the other's.
    fn comes_before(&self, other: &Self) -> bool
        ensures { result ≡ before self.now other.now };
}

/// Finds where the item belongs, and whether an item with its key is there.
#[tactic(auto, using(crate::proofs::Places::placed))]
fn place_of<T: HasKey>(items: &[T], item: &T) -> (usize, bool)
    ensures within { result.0 ≤ length items.now }
    ensures there { IsTrue result.1 → result.0 < length items.now }
    ensures place { put T.same T.before item.now items.now ≡
        (if result.1 then set items.now result.0 item.now else insert items.now result.0 item.now) }
{
    for (i, other) in items.iter().enumerate() {
        if item.is_same(other) {
            return (i, true);
        }
        if item.comes_before(other) {
            return (i, false);
        }
    }
    (items.len(), false)
}

/// Puts the item in its place, where it replaces one with the same key. Where memory is lacking, the items stay as they are.
pub fn put<T: HasKey + Drop>(items: &mut Vec<T>, item: T) -> Result<(), NoMemory>
    ensures ok { OnOk result (items.new.items ≡ put T.same T.before item items.old.items) }
    ensures err { OnErr result (items.new.items ≡ items.old.items) }
{
    let (place, is_there) = place_of(items, &item);
    if is_there {
        items[place] = item;
    } else {
        items.insert(place, item)?;
    }
    Ok(())
}

/// Does the same in a list of the shared types. Where memory is lacking, the list may be empty afterwards.
pub fn put_in<T: HasKey + Drop>(list: &mut Seq<T>, item: T) -> Result<(), NoMemory>
    ensures { OnOk result (list.new ≡ put T.same T.before item list.old) }
{
    let none = Seq::new(list.allocator());
    let mut items = mem::replace(list, none).into_vec();
    put(&mut items, item)?;
    *list = Seq::from_vec(items);
    Ok(())
}

impl HasKey for SiteId {
    ghost use Rattle.std.specs.Prelude.{nat_eq, nat_lt};

    ghost same = { nat_eq };

    ghost before = { nat_lt };

    fn is_same(&self, other: &SiteId) -> bool {
        self.get() == other.get()
    }

    fn comes_before(&self, other: &SiteId) -> bool {
        self.get() < other.get()
    }
}

impl HasKey for RecId {
    ghost use Rattle.std.specs.Prelude.{nat_eq, nat_lt};

    ghost same = { nat_eq };

    ghost before = { nat_lt };

    fn is_same(&self, other: &RecId) -> bool {
        self.get() == other.get()
    }

    fn comes_before(&self, other: &RecId) -> bool {
        self.get() < other.get()
    }
}

impl HasKey for ViewId {
    ghost use Rattle.vp_model.specs.Words.{same_view, view_before};

    ghost same = { same_view };

    ghost before = { view_before };

    fn is_same(&self, other: &ViewId) -> bool {
        *self == *other
    }

    fn comes_before(&self, other: &ViewId) -> bool {
        view_comes_before(self, other)
    }
}

impl HasKey for TxnId {
    ghost use Rattle.vp_model.specs.Words.{same_txn, txn_before};

    ghost same = { same_txn };

    ghost before = { txn_before };

    fn is_same(&self, other: &TxnId) -> bool {
        is_same_txn(self, other)
    }

    fn comes_before(&self, other: &TxnId) -> bool {
        txn_comes_before(self, other)
    }
}

impl HasKey for Part {
    ghost use Rattle.vp_model.specs.Words.{same_txn, txn_before};

    ghost same = { λ a b. same_txn a.txn b.txn };

    ghost before = { λ a b. txn_before a.txn b.txn };

    fn is_same(&self, other: &Part) -> bool {
        is_same_txn(&self.txn, &other.txn)
    }

    fn comes_before(&self, other: &Part) -> bool {
        txn_comes_before(&self.txn, &other.txn)
    }
}

impl HasKey for Refreshing {
    ghost use Rattle.std.specs.Prelude.{nat_eq, nat_lt};

    ghost same = { λ a b. nat_eq a.rec b.rec };

    ghost before = { λ a b. nat_lt a.rec b.rec };

    fn is_same(&self, other: &Refreshing) -> bool {
        self.rec.is_same(&other.rec)
    }

    fn comes_before(&self, other: &Refreshing) -> bool {
        self.rec.comes_before(&other.rec)
    }
}

impl<K: HasKey, V> HasKey for (K, V) {
    ghost same = { λ a b. K.same a.0 b.0 };

    ghost before = { λ a b. K.before a.0 b.0 };

    fn is_same(&self, other: &(K, V)) -> bool {
        self.0.is_same(&other.0)
    }

    fn comes_before(&self, other: &(K, V)) -> bool {
        self.0.comes_before(&other.0)
    }
}

impl HasKey for Doubt {
    ghost use Rattle.vp_model.specs.Words.{same_txn, txn_before};

    ghost same = { λ a b. same_txn a.txn b.txn };

    ghost before = { λ a b. txn_before a.txn b.txn };

    fn is_same(&self, other: &Doubt) -> bool {
        is_same_txn(&self.txn, &other.txn)
    }

    fn comes_before(&self, other: &Doubt) -> bool {
        txn_comes_before(&self.txn, &other.txn)
    }
}

impl HasKey for Decision {
    ghost use Rattle.vp_model.specs.Words.{same_txn, txn_before};

    ghost same = { λ a b. same_txn a.txn b.txn };

    ghost before = { λ a b. txn_before a.txn b.txn };

    fn is_same(&self, other: &Decision) -> bool {
        is_same_txn(&self.txn, &other.txn)
    }

    fn comes_before(&self, other: &Decision) -> bool {
        txn_comes_before(&self.txn, &other.txn)
    }
}
