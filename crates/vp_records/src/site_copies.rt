//! The copies of a site, which are found by record.

ghost use Rattle.std.specs.Prelude.{◌≡◌, ◌==◌, ◌<◌, IsTrue, IfOk, OnErr, OnOk, IfSome, option_copied, is_some, length};
ghost use Rattle.std.specs.List.{position};
ghost use Rattle.std.specs.List.Sorted.{IsStrictlyIncreasing};
ghost use Rattle.vp_model.specs.Words.{keys, value_at, change_at, replace_at};
ghost use Rattle.vp_model.specs.Durable.{changed, with_new_table, with_put, with_writes};
ghost use Rattle.vp_records.specs.ReadyWrites.{CanSettle, settled};

use std::alloc::Global;
use std::marker::Model;
use std::mem;
use vp_base::{Change, Copies, CopyOf, NoMemory, Put, RecId, Stored, Table, Value, ViewId};
use vp_lists::{copy_all, place_among, replace_at, write_copies};

/// Writes that need no more memory to be done: the changes, or all copies as they are after them.
#[derive(Drop)]
pub(crate) enum ReadyWrites {
    Changes(Vec<(RecId, Change)>),
    Copies(Vec<(RecId, Stored)>),
}

/// The copies of a site. Where their records ascend, which is tested once, a copy is found by halving and changed in its place; else
/// by a walk, and in a list of its own.
#[derive(Drop)]
pub struct SiteCopies {
    copies: Vec<(RecId, Stored)>,
    ascending: bool,
}

impl Model for SiteCopies {
    ghost use Rattle.std.specs.Prelude.{ℕ, List, IsTrue};
    ghost use Rattle.std.specs.List.Sorted.{IsStrictlyIncreasing};
    ghost use Rattle.vp_model.specs.Types.{Stored};
    ghost use Rattle.vp_model.specs.Words.{keys};

    ghost Value = { List (ℕ × Stored) };

    ghost view = { λ c. c.copies.items };

    ghost invariant = { λ c. IsTrue c.ascending → IsStrictlyIncreasing (keys c.copies.items) };
}

impl CopyOf for SiteCopies {
    fn copy_of(&self) -> Result<SiteCopies, NoMemory> {
        Ok(SiteCopies {
            copies: copy_all(self.allocator(), &self.copies)?,
            ascending: self.ascending,
        })
    }
}

impl SiteCopies {
    /// Takes the copies, and tests whether their records ascend.
    pub fn new(copies: Copies) -> SiteCopies
        ensures { result ≡ copies }
    {
        let copies = copies.into_vec();
        SiteCopies {
            ascending: ascends(&copies),
            copies,
        }
    }

    /// The allocator from which the copies take their memory.
    fn allocator(&self) -> Global {
        *self.copies.allocator()
    }

    /// The copies, in the order in which they were given.
    pub fn as_slice(&self) -> &[(RecId, Stored)]
        ensures { result.now ≡ self.now }
    {
        &self.copies
    }

    /// Copies them to a list.
    pub fn to_list(&self) -> Result<Copies, NoMemory>
        ensures { IfOk result (λ copies. copies ≡ self.now) }
    {
        Ok(Copies::from_vec(copy_all(self.allocator(), &self.copies)?))
    }

    /// The place of the record's first copy.
    fn place_of(&self, rec: RecId) -> Option<usize>
        ensures place { result ≡ position (λ copy. copy.0 == rec) self.now }
        ensures within { IfSome result (λ place. place < length self.now) }
    {
        if self.ascending {
            place_among(&self.copies, rec)
        } else {
            self.copies.iter().position(|copy| copy.0 == rec)
        }
    }

    /// Whether there is a copy of the record.
    pub fn has(&self, rec: RecId) -> bool
        ensures { result ≡ is_some (value_at rec self.now) }
    {
        self.get(rec).is_some()
    }

    /// The copy of the record.
    pub fn get(&self, rec: RecId) -> Option<&Stored>
        ensures { option_copied result ≡ value_at rec self.now }
    {
        match self.place_of(rec) {
            None => None,
            Some(place) => Some(&self.copies[place].1),
        }
    }

    /// Replaces the copy of the record, if there is one. Where memory is lacking, nothing changes.
    pub fn replace(&mut self, rec: RecId, stored: Stored) -> Result<(), NoMemory>
        ensures ok { OnOk result (self.new ≡ replace_at rec stored self.old) }
        ensures err { OnErr result (self.new ≡ self.old) }
    {
        if !self.ascending {
            let mut copies = copy_all(self.allocator(), &self.copies)?;
            replace_at(&mut copies, rec, &stored)?;
            *self = SiteCopies::new(Copies::from_vec(copies));
        } else if let Some(place) = self.place_of(rec) {
            self.copies[place].1 = stored;
        }
        Ok(())
    }

    /// Makes ready what a transaction of the view `date` changed.
    pub(crate) fn prepare(
        &self,
        date: &ViewId,
        writes: &[(RecId, Change)],
    ) -> Result<ReadyWrites, NoMemory>
        ensures can { IfOk result (CanSettle self.now) }
        ensures ready { IfOk result
            (λ ready. settled date.now ready self.now ≡ with_writes date.now writes.now self.now) }
    {
        if self.ascending {
            return Ok(ReadyWrites::Changes(copy_all(self.allocator(), writes)?));
        }
        let mut copies = copy_all(self.allocator(), &self.copies)?;
        write_copies(&mut copies, date, writes)?;
        Ok(ReadyWrites::Copies(copies))
    }

    /// Does the writes that are ready.
    pub(crate) fn settle(&mut self, date: &ViewId, ready: ReadyWrites)
        requires { CanSettle self.old ready }
        ensures { self.new ≡ settled date.now ready self.old }
    {
        match ready {
            ReadyWrites::Copies(copies) => *self = SiteCopies::new(Copies::from_vec(copies)),
            ReadyWrites::Changes(changes) => {
                for (rec, change) in changes {
                    self.change(rec, date, change);
                }
            }
        }
    }

    /// Does to the copy of the record, if there is one, what a transaction of the view `date` made of the record.
    fn change(&mut self, rec: RecId, date: &ViewId, change: Change)
        requires { IsStrictlyIncreasing (keys self.old) }
        ensures { self.new ≡ change_at rec (changed date.now change) self.old }
    {
        if let Some(place) = place_among(&self.copies, rec) {
            change_copy(&mut self.copies[place].1, date, change);
        }
    }

    /// Stores what a transaction of the view `date` changed. A record without a copy is passed over. Where memory is lacking, nothing
    /// changes.
    pub fn write(&mut self, date: &ViewId, writes: &[(RecId, Change)]) -> Result<(), NoMemory>
        ensures ok { OnOk result (self.new ≡ with_writes date.now writes.now self.old) }
        ensures err { OnErr result (self.new ≡ self.old) }
    {
        let ready = self.prepare(date, writes)?;
        self.settle(date, ready);
        Ok(())
    }
}

/// Makes of the content what the put says.
fn put_content(content: &mut Option<Value>, put: Put)
    ensures { content.new ≡ with_put put content.old }
{
    match put {
        Put::Keep => {}
        Put::Absent => *content = None,
        Put::Value { value } => *content = Some(value),
    }
}

/// Puts the table where one is given.
fn put_table(table: &mut Option<Table>, given: Option<Table>)
    ensures { table.new ≡ with_new_table given table.old }
{
    if given.is_some() {
        *table = given;
    }
}

/// Makes of the copy what a transaction of the view changed.
fn change_copy(stored: &mut Stored, date: &ViewId, mut change: Change)
    ensures { stored.new ≡ changed date.now change stored.old }
{
    put_content(&mut stored.value, mem::replace(&mut change.put, Put::Keep));
    put_table(&mut stored.table, change.table.take());
    stored.date = *date;
}

fn ascends(copies: &[(RecId, Stored)]) -> bool
    ensures { IsTrue result → IsStrictlyIncreasing (keys copies.now) }
{
    copies.is_sorted_by(|a, b| a.0.get() < b.0.get())
}
