//! What the first lines of a procedure's input say.

ghost use Rattle.std.specs.Prelude.{◌≡◌, ◌<◌, ◌≤◌, ◌^◌, ◌-◌, length, OnOk};
ghost use Rattle.vp_procedure.specs.declared.line.ProcedureLine.TheVariants as kind;
ghost use Rattle.vp_procedure.specs.Procedures.{opened_by};
ghost use Rattle.vp_procedure.specs.Drafts.{blank, Allows, Adds, input_of};

use crate::fault::ProcedureFault;
use crate::line::ProcedureLine;
use crate::open_ifs::OpenIfs;
use crate::procedure::{Procedure, Statement, Statements};
use std::alloc::Global;
use vp_base::NoMemory;
use vp_catalog::Catalog;
use vp_heads::Head;

/// The most statements of a procedure.
const MOST_STATEMENTS: usize = 256;

/// A catalogue, and a procedure over its records.
#[derive(Drop)]
pub struct ProcedureInput {
    pub catalog: Catalog,
    pub procedure: Procedure,
}

/// The same while it is being read.
#[derive(Drop)]
pub struct ProcedureDraft {
    pub head: Head,
    pub statements: Statements,
    pub ifs: OpenIfs,
}

impl ProcedureDraft {
    /// Makes the draft of no lines. Takes no memory.
    pub fn new(alloc: Global) -> ProcedureDraft
        ensures { result ≡ blank }
    {
        ProcedureDraft {
            head: Head::new(alloc),
            statements: Statements::new(alloc),
            ifs: OpenIfs::new(alloc),
        }
    }

    /// Adds what the line of this number says, and returns whether another one may follow.
    pub fn add(&mut self, line: ProcedureLine, number: usize) -> Result<bool, ProcedureFault>
        requires allowed { Allows self.old line }
        requires room { number < 2 ^ 64 - 1 }
        ensures { Adds self.old line number self.new result }
    {
        match line {
            ProcedureLine::Head(line) => {
                self.head.add(line, number)?;
                Ok(true)
            }
            ProcedureLine::Statement(statement) => self.add_statement(statement, number),
        }
    }

    /// Adds a statement. If no line can follow it though it isn't the last one, the next line is a bad one.
    fn add_statement(&mut self, statement: Statement, number: usize) -> Result<bool, ProcedureFault>
        requires { number < 2 ^ 64 - 1 }
        ensures { Adds self.old (kind.Statement statement) number self.new result }
    {
        let is_result = matches!(&statement, Statement::Give { .. });
        self.note(&statement)?;
        self.statements.push(statement)?;
        if !is_result && self.statements.as_slice().len() >= MOST_STATEMENTS {
            return Err(ProcedureFault::BadLine {
                line: number + 1,
                at: 1,
            });
        }
        Ok(!is_result)
    }

    /// Notes which `if`s are open after the statement.
    fn note(&mut self, statement: &Statement) -> Result<(), NoMemory>
        ensures { OnOk result (self.new ≡ record self.old { ifs = opened_by statement.now self.old.ifs }) }
    {
        match statement {
            Statement::IfLess { .. } | Statement::IfEqual { .. } => self.ifs.open()?,
            Statement::Else => self.ifs.note_else(),
            Statement::End => self.ifs.close(),
            _ => {}
        }
        Ok(())
    }

    /// What the lines say, after the last one.
    pub fn into_input(self) -> ProcedureInput
        requires few { length self.head.catalog.sites ≤ 16 }
        ensures { result ≡ input_of self }
    {
        let catalog = self.head.catalog;
        let first = catalog.sites().as_slice().len() + catalog.count() + 2;
        ProcedureInput {
            catalog,
            procedure: Procedure {
                first: first as u32,
                statements: self.statements,
            },
        }
    }
}
