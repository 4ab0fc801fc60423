//! What a procedure is.

use vp_base::{Name, RecId, Seq};

/// A variable, by the byte of its letter, or a number.
#[derive(Clone, Copy, Debug, Drop, PartialEq, Eq)]
pub enum Term {
    Var { letter: u8 },
    Number { value: u64 },
}

/// A term, or the sum or the difference of two.
#[derive(Clone, Copy, Debug, Drop, PartialEq, Eq)]
pub enum Expr {
    Just { a: Term },
    Sum { a: Term, b: Term },
    Difference { a: Term, b: Term },
}

/// A line of a procedure. A record is there with its name and its place in the catalogue.
#[derive(Drop)]
pub enum Statement {
    /// Reads the record into the variable.
    Read { var: u8, name: Name, rec: RecId },
    /// Sets the variable.
    Set { var: u8, expr: Expr },
    /// Writes the record.
    Write { name: Name, rec: RecId, expr: Expr },
    /// Does what follows only if `a` is less than `b`.
    IfLess { a: Expr, b: Expr },
    /// Does what follows only if `a` is equal to `b`.
    IfEqual { a: Expr, b: Expr },
    /// Does what follows only if what the nearest open `if` asks isn't so.
    Else,
    /// Closes the nearest open `if`.
    End,
    /// Ends the procedure without a result.
    Fail { code: u8 },
    /// Ends the procedure with this result: the line `result`.
    Give { expr: Expr },
}

/// Statements, in the order of their lines.
pub type Statements = Seq<Statement>;

/// A procedure: the line of its first statement in the input, and its statements.
#[derive(Drop)]
pub struct Procedure {
    pub first: u32,
    pub statements: Statements,
}
