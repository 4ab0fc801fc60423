//! Reading variables, terms and expressions.

ghost use Rattle.std.specs.Prelude.{◌≡◌};
ghost use Rattle.vp_text.specs.Reading.{Reads};
ghost use Rattle.vp_procedure.specs.ExprReading.{letter_at, variable_at, constant_at, term_at, sum_at, difference_at, after_term_at, expr_at};

use crate::keyword::{Keyword, ends_of, parse_keyword, signs_of};
use crate::procedure::{Expr, Term};
use vp_text::{Cursor, Unexpected};

/// Reads the letter of a variable.
pub fn parse_letter(cursor: &mut Cursor) -> Result<u8, Unexpected>
    ensures { Reads (λ letter. letter) (λ e. e.left) result cursor.new (letter_at cursor.old) }
{
    match cursor.rest().first() {
        Some(byte) if byte.is_ascii_lowercase() => {
            cursor.advance(1);
            Ok(*byte)
        }
        _ => Err(Unexpected {
            left: cursor.left(),
        }),
    }
}

#[tactic(auto, unfolding(crate::specs::ExprReading::variable_at))]
fn parse_variable(cursor: &mut Cursor) -> Result<Term, Unexpected>
    ensures { Reads (λ term. term) (λ e. e.left) result cursor.new (variable_at cursor.old) }
{
    let letter = parse_letter(cursor)?;
    Ok(Term::Var { letter })
}

#[tactic(auto, unfolding(crate::specs::ExprReading::constant_at))]
fn parse_constant(cursor: &mut Cursor) -> Result<Term, Unexpected>
    ensures { Reads (λ term. term) (λ e. e.left) result cursor.new (constant_at cursor.old) }
{
    let value = cursor.number(0, u64::MAX)?;
    Ok(Term::Number { value })
}

/// Reads a variable or a number.
#[tactic(auto, unfolding(crate::specs::ExprReading::term_at))]
fn parse_term(cursor: &mut Cursor) -> Result<Term, Unexpected>
    ensures { Reads (λ term. term) (λ e. e.left) result cursor.new (term_at cursor.old) }
{
    let mut other = cursor.fork();
    match parse_variable(cursor) {
        Ok(term) => Ok(term),
        Err(first) => match parse_constant(&mut other) {
            Ok(term) => {
                *cursor = other;
                Ok(term)
            }
            Err(second) => Err(first.farther(second)),
        },
    }
}

/// Reads the second term of a sum, and what comes after it.
#[tactic(auto, unfolding(crate::specs::ExprReading::sum_at))]
fn parse_sum(cursor: &mut Cursor, a: Term, compared: bool) -> Result<(Expr, Keyword), Unexpected>
    ensures { Reads (λ it. it) (λ e. e.left) result cursor.new (sum_at a compared cursor.old) }
{
    let b = parse_term(cursor)?;
    let end = parse_keyword(cursor, ends_of(compared))?;
    Ok((Expr::Sum { a, b }, end))
}

/// Reads the second term of a difference, and what comes after it.
#[tactic(auto, unfolding(crate::specs::ExprReading::difference_at))]
fn parse_difference(
    cursor: &mut Cursor,
    a: Term,
    compared: bool,
) -> Result<(Expr, Keyword), Unexpected>
    ensures { Reads (λ it. it) (λ e. e.left) result cursor.new (difference_at a compared cursor.old) }
{
    let b = parse_term(cursor)?;
    let end = parse_keyword(cursor, ends_of(compared))?;
    Ok((Expr::Difference { a, b }, end))
}

/// Reads what comes after the first term and this word.
fn parse_after_term(
    cursor: &mut Cursor,
    a: Term,
    compared: bool,
    sign: Keyword,
) -> Result<(Expr, Keyword), Unexpected>
    ensures { Reads (λ it. it) (λ e. e.left) result cursor.new (after_term_at a compared sign cursor.old) }
{
    match sign {
        Keyword::Plus => parse_sum(cursor, a, compared),
        Keyword::Minus => parse_difference(cursor, a, compared),
        end => Ok((Expr::Just { a }, end)),
    }
}

/// Reads an expression, with what compares it with another one or with the end of its line.
#[tactic(auto, unfolding(crate::specs::ExprReading::expr_at))]
pub fn parse_expr(cursor: &mut Cursor, compared: bool) -> Result<(Expr, Keyword), Unexpected>
    ensures { Reads (λ it. it) (λ e. e.left) result cursor.new (expr_at compared cursor.old) }
{
    let a = parse_term(cursor)?;
    let sign = parse_keyword(cursor, signs_of(compared))?;
    parse_after_term(cursor, a, compared, sign)
}
