//! The live transactions of a site.

ghost use Rattle.std.specs.Prelude.{◌≡◌, ◌++◌, ◌∷◌, [], true, false, OnOk, OnErr, IfOk, IfSome, if◌then◌else◌, filter, map, drop, length, slice_get, slice_index_or};
ghost use Rattle.std.specs.List.{position};
ghost use Rattle.std.specs.Option.{option_map_or};
ghost use Rattle.vp_model.specs.Words.{opening, same_txn, change_first, without_first};
ghost use Rattle.vp_model.specs.Transactions.{live_of};
ghost use Rattle.vp_model.specs.Calls.{begun};
ghost use Rattle.vp_model.specs.Answers.{is_live};
ghost use Rattle.vp_model.specs.Step.{is_marked_call, mark};
ghost use Rattle.vp_model.specs.Generated.{newest_of, newest};
ghost use Rattle.vp_transactions.specs.Order.{numbers, AreBelow, AreRising, AreLive, IsPlace};
ghost use Rattle.vp_transactions.specs.Waiting.{waits, all_wait, standing_for};

use crate::slots::Slots;
use std::alloc::Global;
use std::marker::Model;
use std::mem;
use vp_base::{
    Boxed, CopyOf, Live, Newest, NoMemory, Ops, Pending, Seq, Sites, Tables, TxnId, ViewId,
};
use vp_lists::is_same_txn;

/// The live transactions, in the order in which they began. Their numbers ascend, so that one is found by halving; the place where
/// one was found last is looked at first. Each call of theirs that is not answered yet waits for at least one site.
pub struct LiveTxns {
    items: Slots<Live>,
    last: usize,
}

impl Drop for LiveTxns {
    fn drop(self) {
        let LiveTxns { items: _, last: _ } = self;
    }
}

impl Model for LiveTxns {
    ghost use Rattle.std.specs.Prelude.{List};
    ghost use Rattle.vp_base.specs.declared.site.Live.{Live};
    ghost use Rattle.vp_transactions.specs.Order.{AreLive};

    ghost Value = { List Live };

    ghost view = { λ a. a.items };

    ghost invariant = { λ a. AreLive a.items };
}

impl LiveTxns {
    /// Makes an empty table. Takes no memory.
    pub fn new(alloc: Global) -> LiveTxns
        ensures { result ≡ [] }
    {
        LiveTxns {
            items: Slots::new(alloc),
            last: 0,
        }
    }

    /// The allocator from which the table takes its memory.
    pub fn allocator(&self) -> Global {
        self.items.allocator()
    }

    /// How many live transactions there are.
    pub fn len(&self) -> usize
        ensures { result ≡ length self.now }
    {
        self.items.len()
    }

    /// Whether the transaction is live.
    pub fn has(&self, txn: &TxnId) -> bool
        ensures { result ≡ is_live txn.now self.now }
    {
        is_there(&self.items, self.last, txn)
    }

    /// Appends a transaction that begins; its number must be above those of the live ones. Where memory is lacking, nothing
    /// changes.
    pub fn begin(&mut self, txn: &TxnId, view: ViewId) -> Result<(), NoMemory>
        requires { AreBelow txn.now.seq self.old }
        ensures ok { OnOk result (self.new ≡ self.old ++ begun txn.now view ∷ []) }
        ensures err { OnErr result (self.new ≡ self.old) }
    {
        let t = new_live(self.items.allocator(), txn, view);
        self.items.push(t)
    }

    /// Takes the transaction out, if it is live, and leaves an empty one of its name in its place.
    pub fn take_up(&mut self, txn: &TxnId) -> Option<Live>
        ensures lifted { result ≡ live_of txn.now self.old }
        ensures back { option_map_or (λ t. change_first (λ u. same_txn u.txn t.txn) (λ u. t) self.new) result
            self.new ≡ self.old }
        ensures waiting { IfSome result (λ t. waits t ≡ true) }
        ensures emptied { self.new ≡
            change_first (λ u. same_txn u.txn txn.now) (λ u. begun txn.now opening) self.old }
    {
        lift(&mut self.items, &mut self.last, txn)
    }

    /// Puts the transaction back in its place, and leaves in `t` what was there.
    pub fn put(&mut self, t: &mut Live)
        requires { waits t.old ≡ true }
        ensures live { self.new ≡ change_first (λ u. same_txn u.txn t.old.txn) (λ u. t.old) self.old }
        ensures left { t.new ≡ standing_for t.old self.old }
    {
        exchange(&mut self.items, self.last, t)
    }

    /// Removes the transaction, if it is there.
    pub fn remove(&mut self, txn: &TxnId)
        ensures { self.new ≡ without_first (λ u. same_txn u.txn txn.now) self.old }
    {
        drop_txn(&mut self.items, self.last, txn)
    }

    /// Removes the first transaction and returns it.
    pub fn take_first(&mut self) -> Option<Live>
        ensures taken { result ≡ slice_get self.old 0 }
        ensures rest { self.new ≡ drop 1 self.old }
    {
        self.items.remove(0)
    }

    /// Copies the transactions whose calls were pending at the tick before.
    pub fn late(&self) -> Result<Vec<Live>, NoMemory>
        ensures late { IfOk result (λ late. late.items ≡ filter (λ t. is_marked_call t.pending) self.now) }
        ensures waiting { all_wait self.now ≡ true }
    {
        late_in(&self.items)
    }

    /// Marks the pending calls, so that the next tick finds them late.
    pub fn mark(&mut self)
        ensures { self.new ≡ map mark self.old }
    {
        mark_each(&mut self.items)
    }

    /// What a client would call next on the transaction that began last.
    pub fn newest(&self) -> Option<Newest>
        ensures { result ≡ newest self.now }
    {
        newest_in(&self.items)
    }
}

/// The number of the transaction at the place; 0 where there is none.
fn number_at(live: &Slots<Live>, place: usize) -> u32
    ensures { result ≡ slice_index_or (numbers live.now) place 0 }
{
    match live.get(place) {
        None => 0,
        Some(t) => t.txn.seq,
    }
}

/// The place where a transaction of this number is, or where it would be inserted.
fn place_for(live: &Slots<Live>, number: u32) -> usize
    requires { AreRising (numbers live.now) }
    ensures { IsPlace number (numbers live.now) result }
{
    let mut low = 0;
    let mut high = live.len();
    while low < high {
        let middle = low + (high - low) / 2;
        if number_at(live, middle) < number {
            low = middle + 1;
        } else {
            high = middle;
        }
    }
    low
}

/// The place that the transaction's number leads to, if that transaction is there.
fn place_by_number(live: &Slots<Live>, txn: &TxnId) -> Option<usize>
    requires { AreRising (numbers live.now) }
    ensures { result ≡ position (λ t. same_txn t.txn txn.now) live.now }
{
    let place = place_for(live, txn.seq);
    match live.get(place) {
        None => None,
        Some(t) => is_same_txn(&t.txn, txn).then_some(place),
    }
}

/// Whether the transaction is at the place.
fn stands_at(live: &Slots<Live>, place: usize, txn: &TxnId) -> bool
    ensures { result ≡ option_map_or (λ t. same_txn t.txn txn.now) (slice_get live.now place) false }
{
    match live.get(place) {
        None => false,
        Some(t) => is_same_txn(&t.txn, txn),
    }
}

/// The place of the transaction; the likely one is looked at first.
fn place_of(live: &Slots<Live>, likely: usize, txn: &TxnId) -> Option<usize>
    requires { AreRising (numbers live.now) }
    ensures { result ≡ position (λ t. same_txn t.txn txn.now) live.now }
{
    if stands_at(live, likely, txn) {
        Some(likely)
    } else {
        place_by_number(live, txn)
    }
}

fn is_there(live: &Slots<Live>, likely: usize, txn: &TxnId) -> bool
    requires { AreLive live.now }
    ensures { result ≡ is_live txn.now live.now }
{
    place_of(live, likely, txn).is_some()
}

/// Replaces the transaction of this name and returns the old one; where there is none, `t` is dropped. The place is kept in `last`.
fn replace(live: &mut Slots<Live>, last: &mut usize, name: &TxnId, t: Live) -> Option<Live>
    requires { AreLive live.old }
    ensures taken { result ≡ live_of name.now live.old }
    ensures named { IfSome result (λ t. t.txn ≡ name.now) }
    ensures rest { live.new ≡ change_first (λ u. same_txn u.txn name.now) (λ u. t) live.old }
{
    match place_of(live, *last, name) {
        None => None,
        Some(place) => {
            *last = place;
            Some(mem::replace(live.item_mut(place), t))
        }
    }
}

/// Makes a transaction without operations.
fn new_live(alloc: Global, txn: &TxnId, view: ViewId) -> Live
    ensures { result ≡ begun txn.now view }
{
    Live {
        txn: *txn,
        view,
        ops: Ops::new(alloc),
        tables: Tables::new(alloc),
        remote: Seq::new(alloc),
        parts: Sites::new(alloc),
        answers: Seq::new(alloc),
        pending: None,
    }
}

fn lift(live: &mut Slots<Live>, last: &mut usize, txn: &TxnId) -> Option<Live>
    requires { AreLive live.old }
    ensures lifted { result ≡ live_of txn.now live.old }
    ensures back { option_map_or (λ t. change_first (λ u. same_txn u.txn t.txn) (λ u. t) live.new) result
        live.new ≡ live.old }
    ensures waiting { IfSome result (λ t. waits t ≡ true) }
    ensures rest { AreLive live.new }
    ensures emptied { live.new ≡
        change_first (λ u. same_txn u.txn txn.now) (λ u. begun txn.now opening) live.old }
{
    let empty = new_live(live.allocator(), txn, ViewId { number: 0, site: 0 });
    replace(live, last, txn, empty)
}

/// Exchanges the transaction with the one of its name in the table, where there is one.
fn exchange(live: &mut Slots<Live>, likely: usize, t: &mut Live)
    requires { AreLive live.old }
    ensures live { live.new ≡ change_first (λ u. same_txn u.txn t.old.txn) (λ u. t.old) live.old }
    ensures left { t.new ≡ standing_for t.old live.old }
{
    if let Some(place) = place_of(live, likely, &t.txn) {
        mem::swap(live.item_mut(place), t);
    }
}

fn drop_txn(live: &mut Slots<Live>, likely: usize, txn: &TxnId)
    requires { AreLive live.old }
    ensures dropped { live.new ≡ without_first (λ u. same_txn u.txn txn.now) live.old }
    ensures rest { AreLive live.new }
{
    if let Some(place) = place_of(live, likely, txn) {
        let _ = live.remove(place);
    }
}

/// Whether the transaction's call was pending at the tick before.
fn is_late(t: &Live) -> bool
    ensures { result ≡ is_marked_call t.now.pending }
{
    match &t.pending {
        None => false,
        Some(pending) => pending.as_ref().marked,
    }
}

fn copy_of_pending(pending: &Option<Boxed<Pending>>) -> Result<Option<Boxed<Pending>>, NoMemory>
    ensures { IfOk result (λ copy. copy ≡ pending.now) }
{
    match pending {
        None => Ok(None),
        Some(pending) => Ok(Some(pending.copy_of()?)),
    }
}

fn copy_of_live(t: &Live) -> Result<Live, NoMemory>
    ensures { IfOk result (λ copy. copy ≡ t.now) }
{
    Ok(Live {
        txn: t.txn,
        view: t.view,
        ops: t.ops.copy_of()?,
        tables: t.tables.copy_of()?,
        remote: t.remote.copy_of()?,
        parts: t.parts.copy_of()?,
        answers: t.answers.copy_of()?,
        pending: copy_of_pending(&t.pending)?,
    })
}

/// Adds a copy of the transaction to the late ones, where it is late.
fn add_late(late: &mut Vec<Live>, t: &Live) -> Result<(), NoMemory>
    ensures { OnOk result
        (late.new.items ≡ late.old.items ++ (if is_marked_call t.now.pending then t.now ∷ [] else [])) }
{
    if is_late(t) {
        late.push(copy_of_live(t)?)?;
    }
    Ok(())
}

fn late_in(live: &Slots<Live>) -> Result<Vec<Live>, NoMemory>
    ensures { IfOk result (λ late. late.items ≡ filter (λ t. is_marked_call t.pending) live.now) }
{
    let mut late = Vec::new(live.allocator());
    for place in 0..live.len() {
        if let Some(t) = live.get(place) {
            add_late(&mut late, t)?;
        }
    }
    Ok(late)
}

fn mark_one(t: &mut Live)
    ensures { t.new ≡ mark t.old }
{
    if let Some(pending) = &mut t.pending {
        pending.as_mut().marked = true;
    }
}

fn mark_each(live: &mut Slots<Live>)
    ensures { live.new ≡ map mark live.old }
{
    for place in 0..live.len() {
        mark_one(live.item_mut(place));
    }
}

fn newest_of(t: &Live) -> Newest
    ensures { result ≡ newest_of t.now }
{
    Newest {
        txn: t.txn,
        next: t.answers.as_slice().len() + 1,
        pending: t.pending.is_some(),
    }
}

#[tactic(auto, using(crate::proofs::Waiting::newest_is_last))]
fn newest_in(live: &Slots<Live>) -> Option<Newest>
    ensures { result ≡ newest live.now }
{
    match live.last() {
        None => None,
        Some(t) => Some(newest_of(t)),
    }
}
