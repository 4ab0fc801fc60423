//! Observers: who is shown the lines of a run.

ghost use Rattle.std.specs.Prelude.{◌≡◌, ◌++◌, ℕ, OnErr, OnOk, length, take, true};

use std::marker::Model;
use vp_base::{CopyOf, NoMemory, Replies, Shown};
use vp_catalog::Catalog;
use vp_trace::{LentLine, print_line};

/// Who is shown each line of a run, one after the other.
pub trait Observer {
    ghost use Rattle.vp_base.specs.declared.event.Line.{Line};
    ghost use Rattle.vp_model.specs.Catalogue.{Catalogue};
    ghost use Rattle.vp_trace.specs.LentLines.{line_of};

    /// What it makes of a line, with the number of its event: the observer before and after.
    ghost sees: { Catalogue → ℕ × Line → Self → Self → Type 0 };

    /// What it may have made of a line where there was not enough memory.
    ghost begins: { Catalogue → ℕ × Line → Self → Self → Type 0 };

    /// Sees the next line. `number` is that of the event, from 1 on; lines of one flow have the same. After an error the observer has
    /// what `begins` says.
    fn see(&mut self, number: u32, line: &LentLine, catalog: &Catalog) -> Result<(), NoMemory>
        ensures seen { OnOk result (sees catalog.now (number, line_of line.now) self.old self.new) }
        ensures begun { OnErr result (begins catalog.now (number, line_of line.now) self.old self.new) };
}

/// An observer that keeps the text of the trace.
#[derive(Drop)]
pub struct TraceText {
    pub bytes: Vec<u8>,
}

impl Model for TraceText {
    ghost use Rattle.std.specs.Prelude.{ℕ, List};

    ghost Value = { List ℕ };

    ghost view = { λ text. text.bytes.items };
}

impl Observer for TraceText {
    ghost use Rattle.vp_model.specs.Texts.Trace.{line_text};
    ghost use Rattle.vp_text.specs.Printing.{is_begun};

    ghost sees = { λ catalogue line old new. new ≡ old ++ line_text catalogue line };

    ghost begins = { λ catalogue line old new. is_begun old (line_text catalogue line) new ≡ true };

    fn see(&mut self, number: u32, line: &LentLine, catalog: &Catalog) -> Result<(), NoMemory> {
        print_line(number, line, catalog, &mut self.bytes)
    }
}

impl Observer for Replies {
    ghost use Rattle.vp_model.specs.Told.{replies_in};

    ghost sees = { λ catalogue line old new. new ≡ old ++ replies_in line.1.shown };

    ghost begins = { λ catalogue line old new. (count : ℕ) × (new ≡ old ++ take count (replies_in line.1.shown)) };

    fn see(&mut self, _: u32, line: &LentLine, _: &Catalog) -> Result<(), NoMemory> {
        let Shown::Step { replies, .. } = line.shown else {
            return Ok(());
        };
        for reply in replies.as_slice() {
            self.push(reply.copy_of()?)?;
        }
        Ok(())
    }
}
