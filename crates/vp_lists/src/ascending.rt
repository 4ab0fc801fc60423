//! Lists that ascend by record, in which an item is found by halving.

ghost use Rattle.std.specs.Prelude.{◌≡◌, ◌==◌, OnOk, OnErr, nat_lt, not, filter, map};
ghost use Rattle.std.specs.List.{position};
ghost use Rattle.std.specs.List.Sorted.{IsStrictlyIncreasing};
ghost use Rattle.vp_model.specs.Words.{put};
ghost use Rattle.vp_lists.specs.Ascending.{IsPlace};

use vp_base::{NoMemory, RecId};

/// An item that belongs to one record.
pub trait OfRec {
    ghost use Rattle.std.specs.Prelude.{ℕ};

    ghost rec: { Self → ℕ };

    /// The record of the item.
    fn rec_of(&self) -> RecId
        ensures { result ≡ rec self.now };
}

impl<V> OfRec for (RecId, V) {
    ghost rec = { λ pair. pair.0 };

    fn rec_of(&self) -> RecId {
        self.0
    }
}

/// The place of the record's item among those that ascend; where there is none, as an error, the place where it belongs.
fn search<T: OfRec>(items: &[T], rec: RecId) -> Result<usize, usize>
    requires { IsStrictlyIncreasing (map T.rec items.now) }
    ensures { IsPlace T.rec rec items.now result }
{
    items.binary_search_by_key(&rec.get(), |item| item.rec_of().get())
}

/// The place of the record's item among those that ascend.
pub fn place_among<T: OfRec>(items: &[T], rec: RecId) -> Option<usize>
    requires { IsStrictlyIncreasing (map T.rec items.now) }
    ensures { result ≡ position (λ item. T.rec item == rec) items.now }
{
    search(items, rec).ok()
}

/// Puts the item in its place among those that ascend, where it replaces one of its record. Where memory is lacking, nothing changes.
pub fn put_among<T: OfRec + Drop>(items: &mut Vec<T>, item: T) -> Result<(), NoMemory>
    requires { IsStrictlyIncreasing (map T.rec items.old.items) }
    ensures ok { OnOk result
        (items.new.items ≡
        put (λ a b. T.rec a == T.rec b) (λ a b. nat_lt (T.rec a) (T.rec b)) item items.old.items) }
    ensures err { OnErr result (items.new.items ≡ items.old.items) }
    ensures ascending { IsStrictlyIncreasing (map T.rec items.new.items) }
{
    match search(items, item.rec_of()) {
        Ok(place) => items[place] = item,
        Err(place) => items.insert(place, item)?,
    }
    Ok(())
}

/// Removes the record's item from those that ascend, if there is one.
pub fn remove_among<T: OfRec + Drop>(items: &mut Vec<T>, rec: RecId)
    requires { IsStrictlyIncreasing (map T.rec items.old.items) }
    ensures rest { items.new.items ≡ filter (λ item. not (T.rec item == rec)) items.old.items }
    ensures ascending { IsStrictlyIncreasing (map T.rec items.new.items) }
{
    if let Some(place) = place_among(items, rec) {
        items.remove(place);
    }
}
