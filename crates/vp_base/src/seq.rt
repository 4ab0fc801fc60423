//! Lists. A contract sees one as its items.

ghost use Rattle.std.specs.Prelude.{◌≡◌, ◌++◌, ◌∷◌, [], OnOk, OnErr, IfOk, take};

use crate::memory::NoMemory;
use std::alloc::Global;
use std::marker::Model;

/// What can be copied, where memory allows.
pub trait CopyOf: Drop {
    /// Makes an equal value of its own. The only error is want of memory.
    fn copy_of(&self) -> Result<Self, NoMemory>
        ensures { IfOk result (λ copy. copy ≡ self.now) };
}

/// A list. It is made from a `Vec` and is turned back into it without taking memory.
#[derive(Drop)]
pub struct Seq<T> {
    items: Vec<T>,
}

impl<T> Model for Seq<T> {
    ghost use Rattle.std.specs.Prelude.{List};

    ghost Value = { List T };

    ghost view = { λ a. a.items.items };
}

impl<T: Drop> Seq<T> {
    /// Makes an empty list, which takes no memory.
    pub fn new(alloc: Global) -> Seq<T>
        ensures { result ≡ [] }
    {
        Seq {
            items: Vec::new(alloc),
        }
    }

    /// Appends the item. Where memory is lacking, the list stays as it is, and the item is dropped.
    pub fn push(&mut self, item: T) -> Result<(), NoMemory>
        ensures ok { OnOk result (self.new ≡ self.old ++ item ∷ []) }
        ensures err { OnErr result (self.new ≡ self.old) }
    {
        self.items.push(item)?;
        Ok(())
    }

    /// Makes a list of the items without copying them.
    pub fn from_vec(items: Vec<T>) -> Seq<T>
        ensures { result ≡ items.items }
    {
        Seq { items }
    }

    /// Gives the items without copying them.
    pub fn into_vec(self) -> Vec<T>
        ensures { result.items ≡ self }
    {
        self.items
    }

    /// The items, for reading.
    pub fn as_slice(&self) -> &[T]
        ensures { result.now ≡ self.now }
    {
        &self.items
    }

    /// The allocator from which the list takes its memory.
    pub fn allocator(&self) -> Global {
        *self.items.allocator()
    }
}

impl<T: CopyOf> CopyOf for Seq<T> {
    fn copy_of(&self) -> Result<Seq<T>, NoMemory> {
        let room = Vec::with_capacity(self.allocator(), self.items.len())?;
        let mut copy = Seq::from_vec(room);
        for item in &self.items {
            copy.push(item.copy_of()?)?;
        }
        Ok(copy)
    }
}
