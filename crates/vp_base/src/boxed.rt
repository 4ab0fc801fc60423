//! A value on the heap: a contract sees the box as the value.

ghost use Rattle.std.specs.Prelude.{◌≡◌, IfOk};
ghost use Rattle.std.specs.Borrow.{Lends, sem};

use crate::memory::NoMemory;
use crate::seq::CopyOf;
use std::alloc::Global;
use std::marker::Model;

/// A value on the heap: for a field that would otherwise make its struct, or every variant of its enum, large.
#[derive(Drop)]
pub struct Boxed<T> {
    kept: Box<T>,
}

impl<T> Model for Boxed<T> {
    ghost Value = { T };

    ghost view = { λ b. b.kept.value };
}

impl<T: Drop> Boxed<T> {
    ghost use Rattle.vp_base.specs.contracts.boxed.Boxed.{the_row};

    /// Moves the value to the heap. An error is want of memory; the value is dropped then.
    pub fn new(alloc: Global, value: T) -> Result<Boxed<T>, NoMemory>
        ensures { IfOk result (λ boxed. boxed ≡ value) }
    {
        Ok(Boxed {
            kept: Box::new(alloc, value)?,
        })
    }

    /// The value, for reading.
    pub fn as_ref(&self) -> &T
        ensures { result.now ≡ self.now }
    {
        self.kept.as_ref()
    }

    /// The value, for writing.
    pub fn as_mut(&mut self) -> &mut T
        ensures* writes_back { sem 𝓛 (Lends (the_row T.row) T.row self.entry result (λ value. value)) }
        ensures value { result.now ≡ self.old }
    {
        self.kept.as_mut()
    }
}

impl<T: CopyOf> CopyOf for Boxed<T> {
    fn copy_of(&self) -> Result<Boxed<T>, NoMemory> {
        let alloc = *Box::allocator(&self.kept);
        Boxed::new(alloc, self.as_ref().copy_of()?)
    }
}
