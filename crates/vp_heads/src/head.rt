//! What the first lines of a head say.

ghost use Rattle.std.specs.Prelude.{◌≡◌};
ghost use Rattle.vp_heads.specs.Heads.{blank, Allows, Adds};

use crate::line::HeadLine;
use std::alloc::Global;
use vp_catalog::{Catalog, CatalogFault};

/// The catalogue of a head as far as it was read, and whether the key line has come.
#[derive(Drop)]
pub struct Head {
    pub catalog: Catalog,
    pub opened: bool,
}

impl Head {
    /// Makes the head of no lines. Takes no memory.
    pub fn new(alloc: Global) -> Head
        ensures { result ≡ blank }
    {
        Head {
            catalog: Catalog::new(alloc),
            opened: false,
        }
    }

    /// Adds what the line of this number says. After an `Err` the head is as it was.
    pub fn add(&mut self, line: HeadLine, number: usize) -> Result<(), CatalogFault>
        requires { Allows self.old line }
        ensures { Adds self.old line number self.new result }
    {
        match line {
            HeadLine::Entry(entry) => self.catalog.add(entry, number)?,
            HeadLine::Key => self.opened = true,
        }
        Ok(())
    }
}
