//! The walk over the statements of a procedure.

ghost use Rattle.std.specs.Prelude.{◌≡◌, ◌<◌, ◌^◌, IfOk, if◌then◌else◌};
ghost use Rattle.vp_procedure.specs.Procedures.{IsLetter, IsTerm, IsExpr};
ghost use Rattle.vp_procedure.specs.declared.procedure.Statement.TheVariants as statement;
ghost use Rattle.vp_proc.specs.declared.ended.End.TheVariants as ends;
ghost use Rattle.vp_proc.specs.declared.walk.Mode.TheVariants as mode;
ghost use Rattle.vp_proc.specs.declared.walk.Step.TheVariants as steps;
ghost use Rattle.vp_proc.specs.Scripts.{zeros, with_variable, term_value, value_of, passed};
ghost use Rattle.vp_proc.specs.Walking.{IsSome, StepsSo, depth_of};

use crate::content::value_of_number;
use crate::ended::End;
use std::alloc::Global;
use vp_base::{CopyOf, Name, NoMemory, RecId, Value};
use vp_procedure::{Expr, Statement, Term};

/// Whether statements are done or passed over.
#[derive(Clone, Copy, Debug, Drop, PartialEq, Eq)]
pub enum Mode {
    Doing,
    /// They are passed over up to the `end` of an `if`, or to its `else` if `to_else`; so many others are open within it.
    Passing { to_else: bool, depth: u32 },
}

/// The place of a run: the line of the next statement, the variables, and whether it is done.
#[derive(Drop)]
pub struct Walk {
    pub line: u32,
    pub vars: [u64; 26],
    pub mode: Mode,
}

/// What is to be done for a statement.
#[derive(Drop)]
pub enum Step {
    /// Nothing more: the next statement follows.
    Next,
    /// This record is read into the variable.
    Read {
        var: u8,
        name: Name,
        rec: RecId,
    },
    /// This value is written to the record.
    Write {
        name: Name,
        rec: RecId,
        value: Value,
    },
    /// The transaction is committed, with this result.
    Give {
        number: u64,
    },
    /// It is aborted.
    Stop(End),
}

impl Walk {
    /// The place before the first statement, which is on this line.
    pub fn new(first: u32) -> Walk
        ensures line { result.line ≡ first }
        ensures vars { result.vars ≡ zeros }
        ensures mode { result.mode ≡ mode.Doing }
    {
        Walk {
            line: first,
            vars: [0; 26],
            mode: Mode::Doing,
        }
    }

    /// Sets the variable to the number.
    pub fn set(&mut self, letter: u8, number: u64)
        requires { IsLetter letter }
        ensures { self.new ≡ record self.old { vars = with_variable letter number self.old.vars } }
    {
        self.vars[usize::from(letter - b'a')] = number;
    }

    /// Returns what is to be done for the statement, which is passed over or done. The line stays as it is.
    pub fn step(&mut self, alloc: Global, statement: &Statement) -> Result<Step, NoMemory>
        requires statement { IsSome statement.now }
        requires shallow { depth_of self.old.mode < 2 ^ 16 }
        ensures { IfOk result (StepsSo self.old statement.now self.new) }
    {
        match self.mode {
            Mode::Passing { to_else, depth } => {
                self.mode = passed(to_else, depth, statement);
                Ok(Step::Next)
            }
            Mode::Doing => self.deed(alloc, statement),
        }
    }

    /// Returns what is to be done for a statement that isn't passed over.
    fn deed(&mut self, alloc: Global, statement: &Statement) -> Result<Step, NoMemory>
        requires statement { IsSome statement.now }
        requires doing { self.old.mode ≡ mode.Doing }
        ensures { IfOk result (StepsSo self.old statement.now self.new) }
    {
        match statement {
            Statement::Read { var, name, rec } => Ok(Step::Read {
                var: *var,
                name: name.copy_of()?,
                rec: *rec,
            }),
            Statement::Set { var, expr } => Ok(self.assign(*var, expr)),
            Statement::Write { name, rec, expr } => self.write(alloc, name, *rec, expr),
            Statement::IfLess { a, b } => Ok(self.compare(a, b, true)),
            Statement::IfEqual { a, b } => Ok(self.compare(a, b, false)),
            Statement::Else => {
                self.mode = Mode::Passing {
                    to_else: false,
                    depth: 0,
                };
                Ok(Step::Next)
            }
            Statement::End => Ok(Step::Next),
            Statement::Fail { code } => Ok(Step::Stop(End::Failed { code: *code })),
            Statement::Give { expr } => match self.value(expr) {
                Some(number) => Ok(Step::Give { number }),
                None => Ok(self.overflow()),
            },
        }
    }

    /// Sets the variable to the value of the expression.
    fn assign(&mut self, var: u8, expr: &Expr) -> Step
        requires var { IsLetter var }
        requires expr { IsExpr expr.now }
        requires doing { self.old.mode ≡ mode.Doing }
        ensures { StepsSo self.old (statement.Set var expr.now) self.new result }
    {
        match self.value(expr) {
            Some(number) => {
                self.set(var, number);
                Step::Next
            }
            None => self.overflow(),
        }
    }

    /// Makes the value that is to be written.
    fn write(&self, alloc: Global, name: &Name, rec: RecId, expr: &Expr) -> Result<Step, NoMemory>
        requires expr { IsExpr expr.now }
        requires doing { self.now.mode ≡ mode.Doing }
        ensures { IfOk result (StepsSo self.now (statement.Write name.now rec expr.now) self.now) }
    {
        match self.value(expr) {
            Some(number) => Ok(Step::Write {
                name: name.copy_of()?,
                rec,
                value: value_of_number(alloc, number)?,
            }),
            None => Ok(self.overflow()),
        }
    }

    /// Passes over what follows unless the values compare so.
    fn compare(&mut self, a: &Expr, b: &Expr, less: bool) -> Step
        requires a { IsExpr a.now }
        requires b { IsExpr b.now }
        requires doing { self.old.mode ≡ mode.Doing }
        ensures { StepsSo self.old (if less then statement.IfLess a.now b.now else statement.IfEqual a.now b.now)
            self.new result }
    {
        let Some(x) = self.value(a) else {
            return self.overflow();
        };
        let Some(y) = self.value(b) else {
            return self.overflow();
        };
        let holds = if less { x < y } else { x == y };
        if !holds {
            self.mode = Mode::Passing {
                to_else: true,
                depth: 0,
            };
        }
        Step::Next
    }

    fn overflow(&self) -> Step
        ensures { result ≡ steps.Stop (ends.Overflow self.now.line) }
    {
        Step::Stop(End::Overflow { line: self.line })
    }

    /// The value of the expression; none if it is out of range.
    fn value(&self, expr: &Expr) -> Option<u64>
        requires { IsExpr expr.now }
        ensures { result ≡ value_of self.now.vars expr.now }
    {
        match expr {
            Expr::Just { a } => Some(self.term(*a)),
            Expr::Sum { a, b } => self.term(*a).checked_add(self.term(*b)),
            Expr::Difference { a, b } => self.term(*a).checked_sub(self.term(*b)),
        }
    }

    fn term(&self, term: Term) -> u64
        requires { IsTerm term }
        ensures { result ≡ term_value self.now.vars term }
    {
        match term {
            Term::Var { letter } => self.vars[usize::from(letter - b'a')],
            Term::Number { value } => value,
        }
    }
}

/// Whether statements are done after one that is passed over.
fn passed(to_else: bool, depth: u32, statement: &Statement) -> Mode
    requires { depth < 2 ^ 16 }
    ensures { result ≡ passed to_else depth statement.now }
{
    match statement {
        Statement::IfLess { .. } | Statement::IfEqual { .. } => Mode::Passing {
            to_else,
            depth: depth + 1,
        },
        Statement::Else if to_else && depth == 0 => Mode::Doing,
        Statement::End if depth == 0 => Mode::Doing,
        Statement::End => Mode::Passing {
            to_else,
            depth: depth - 1,
        },
        _ => Mode::Passing { to_else, depth },
    }
}
