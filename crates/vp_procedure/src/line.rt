//! The lines of a procedure's input.

use crate::procedure::Statement;
use vp_heads::HeadLine;

/// What a line says.
#[derive(Drop)]
pub enum ProcedureLine {
    /// A line of the catalogue, or the line `procedure`.
    Head(HeadLine),
    Statement(Statement),
}
