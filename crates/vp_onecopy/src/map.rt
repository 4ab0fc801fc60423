//! The one copy, and a history.

ghost use Rattle.std.specs.Prelude.{◌≡◌, ◌<◌, Some, map, length, slice_set, IfOk};
ghost use Rattle.vp_onecopy.specs.History.{empty};

use std::alloc::Global;
use std::marker::Model;
use vp_base::{Commits, CopyOf, Names, NoMemory, RecId, Seq, Value};

/// One content for each record, in catalogue order: a value, or none.
#[derive(Drop)]
pub struct Map {
    values: Vec<Option<Value>>,
}

impl Model for Map {
    ghost use Rattle.std.specs.Prelude.{List, Option, ℕ};

    ghost Value = { List (Option (List ℕ)) };

    ghost view = { λ m. m.values.items };
}

impl Map {
    /// Makes a copy on which each record has one of these values, in catalogue order.
    pub fn starting(alloc: Global, values: &[Value]) -> Result<Map, NoMemory>
        ensures { IfOk result (λ copy. copy ≡ map Some values.now) }
    {
        let mut contents = Vec::new(alloc);
        for value in values {
            contents.push(Some(value.copy_of()?))?;
        }
        Ok(Map { values: contents })
    }

    /// The contents, in catalogue order.
    pub fn as_slice(&self) -> &[Option<Value>]
        ensures { result.now ≡ self.now }
    {
        &self.values
    }

    /// Replaces the content of a record.
    pub fn set(&mut self, rec: RecId, value: Option<Value>)
        requires { rec < length self.old }
        ensures { self.new ≡ slice_set self.old rec value }
    {
        self.values[usize::from(rec.get())] = value;
    }
}

impl CopyOf for Map {
    fn copy_of(&self) -> Result<Map, NoMemory> {
        let mut values = Vec::new(*self.values.allocator());
        for value in &self.values {
            values.push(value.copy_of()?)?;
        }
        Ok(Map { values })
    }
}

/// The starting value of each record, and the committed transactions, in order.
#[derive(Drop)]
pub struct History {
    pub names: Names,
    pub start: Seq<Value>,
    pub commits: Commits,
}

impl History {
    /// Makes a history without records and transactions. Takes no memory.
    pub fn new(alloc: Global) -> History
        ensures { result ≡ empty }
    {
        History {
            names: Names::new(alloc),
            start: Seq::new(alloc),
            commits: Commits::new(alloc),
        }
    }
}

impl CopyOf for History {
    fn copy_of(&self) -> Result<History, NoMemory> {
        Ok(History {
            names: self.names.copy_of()?,
            start: self.start.copy_of()?,
            commits: self.commits.copy_of()?,
        })
    }
}
