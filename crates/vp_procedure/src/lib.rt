//! Procedures: small programs that run as one transaction, and their text.
#![tactic(auto)]

mod document;
mod draft;
mod expr_reading;
mod fault;
mod keyword;
mod line;
mod line_reading;
mod open_ifs;
mod procedure;
mod statement_reading;

pub use document::parse;
pub use draft::ProcedureInput;
pub use fault::ProcedureFault;
pub use procedure::{Expr, Procedure, Statement, Statements, Term};
