//! The `if`s that are open at a line.

ghost use Rattle.std.specs.Prelude.{◌≡◌, ◌∷◌, [], false, length, OnOk, OnErr};
ghost use Rattle.vp_procedure.specs.Procedures.{with_else, without_first, may_else};

use std::alloc::Global;
use std::marker::Model;
use vp_base::NoMemory;

/// The `if`s that are open. A contract sees for each, the innermost first, whether its `else` has come.
#[derive(Drop)]
pub struct OpenIfs {
    elses: Vec<bool>,
}

impl Model for OpenIfs {
    ghost use Rattle.std.specs.Prelude.{List, Bool, reverse};

    ghost Value = { List Bool };

    ghost view = { λ ifs. reverse ifs.elses.items };
}

impl OpenIfs {
    /// None is open. Takes no memory.
    pub fn new(alloc: Global) -> OpenIfs
        ensures { result ≡ [] }
    {
        OpenIfs {
            elses: Vec::new(alloc),
        }
    }

    /// How many are open.
    pub fn count(&self) -> usize
        ensures { result ≡ length self.now }
    {
        self.elses.len()
    }

    /// Whether an `else` may come: one is open, and the innermost has none.
    pub fn may_else(&self) -> bool
        ensures { result ≡ may_else self.now }
    {
        match self.elses.last() {
            Some(has_else) => !*has_else,
            None => false,
        }
    }

    /// Opens one more.
    pub fn open(&mut self) -> Result<(), NoMemory>
        ensures ok { OnOk result (self.new ≡ false ∷ self.old) }
        ensures err { OnErr result (self.new ≡ self.old) }
    {
        self.elses.push(false)?;
        Ok(())
    }

    /// Notes the `else` of the innermost.
    #[tactic(auto, using(crate::proofs::OpenIfs::noted, crate::proofs::OpenIfs::none_noted))]
    pub fn note_else(&mut self)
        ensures { self.new ≡ with_else self.old }
    {
        let count = self.elses.len();
        if count > 0 {
            self.elses[count - 1] = true;
        }
    }

    /// Closes the innermost.
    pub fn close(&mut self)
        ensures { self.new ≡ without_first self.old }
    {
        self.elses.pop();
    }
}
