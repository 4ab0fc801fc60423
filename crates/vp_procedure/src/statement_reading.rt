//! Reading statements, each with its newline.

ghost use Rattle.std.specs.Prelude.{◌≡◌, ◌<◌, length, IfOk, IfSome};
ghost use Rattle.vp_text.specs.Reading.{Reads, Tries};
ghost use Rattle.vp_base.specs.Faults.{line_left};
ghost use Rattle.vp_base.specs.Reading.{among_at, place_of, starts_any};
ghost use Rattle.vp_procedure.specs.Procedures.{names_of};
ghost use Rattle.vp_procedure.specs.StatementReading as reading;

use crate::expr_reading::{parse_expr, parse_letter};
use crate::keyword::Keyword;
use crate::procedure::{Expr, Statement};
use vp_base::{CopyOf, LineFault, Name, RecId};
use vp_catalog::Catalog;
use vp_text::{Cursor, Unexpected};

/// Reads the name of a record, and finds that record.
#[tactic(auto, unfolding(crate::specs::StatementReading::record_at))]
fn parse_record(cursor: &mut Cursor, catalog: &Catalog) -> Result<(Name, RecId), LineFault>
    ensures { Tries (λ it. it) line_left result cursor.new
        (reading.record_at (names_of catalog.now) cursor.old) }
{
    let place = parse_place(cursor, catalog)?;
    let name = catalog.records()[place].name().copy_of()?;
    Ok((name, RecId::new(place as u8)))
}

/// Reads the longest prefix that begins the name of some record, and gives the place of the record. Fails where the prefix is not a
/// whole name.
fn parse_place(cursor: &mut Cursor, catalog: &Catalog) -> Result<usize, Unexpected>
    ensures read { Reads (λ place. place) (λ e. e.left) result cursor.new
        (among_at (names_of catalog.now) cursor.old) }
    ensures within { IfOk result (λ place. place < length catalog.now.records) }
    ensures fits { IfOk result (λ place. place < 256) }
{
    let bytes = cursor.rest();
    let mut count = 0;
    while count < bytes.len() && some_starts(catalog, &bytes[..count + 1]) {
        count += 1;
    }
    match place(catalog, &bytes[..count]) {
        Some(place) => {
            cursor.advance(count);
            Ok(place)
        }
        None => Err(Unexpected {
            left: bytes.len() - count,
        }),
    }
}

/// Whether the name of some record begins with this prefix.
fn some_starts(catalog: &Catalog, prefix: &[u8]) -> bool
    ensures { result ≡ starts_any (names_of catalog.now) prefix.now }
{
    for placed in catalog.records() {
        if placed.name().as_bytes().starts_with(prefix) {
            return true;
        }
    }
    false
}

/// The place of the record with this name.
fn place(catalog: &Catalog, word: &[u8]) -> Option<usize>
    ensures place { result ≡ place_of (names_of catalog.now) word.now }
    ensures within { IfSome result (λ place. place < length catalog.now.records) }
    ensures fits { IfSome result (λ place. place < 256) }
{
    for place in 0..catalog.count() {
        if catalog.records()[place].name().is(word) {
            return Some(place);
        }
    }
    None
}

#[tactic(auto, unfolding(crate::specs::StatementReading::read_at))]
fn parse_read(cursor: &mut Cursor, catalog: &Catalog) -> Result<Statement, LineFault>
    ensures { Tries (λ s. s) line_left result cursor.new (reading.read_at (names_of catalog.now) cursor.old) }
{
    let var = parse_letter(cursor)?;
    cursor.literal(b" ")?;
    let (name, rec) = parse_record(cursor, catalog)?;
    cursor.literal(b"\n")?;
    Ok(Statement::Read { var, name, rec })
}

#[tactic(auto, unfolding(crate::specs::StatementReading::set_at))]
fn parse_set(cursor: &mut Cursor) -> Result<Statement, Unexpected>
    ensures { Reads (λ s. s) (λ e. e.left) result cursor.new (reading.set_at cursor.old) }
{
    let var = parse_letter(cursor)?;
    cursor.literal(b" ")?;
    let (expr, _) = parse_expr(cursor, false)?;
    Ok(Statement::Set { var, expr })
}

#[tactic(auto, unfolding(crate::specs::StatementReading::write_at))]
fn parse_write(cursor: &mut Cursor, catalog: &Catalog) -> Result<Statement, LineFault>
    ensures { Tries (λ s. s) line_left result cursor.new
        (reading.write_at (names_of catalog.now) cursor.old) }
{
    let (name, rec) = parse_record(cursor, catalog)?;
    cursor.literal(b" ")?;
    let (expr, _) = parse_expr(cursor, false)?;
    Ok(Statement::Write { name, rec, expr })
}

/// The `if` that compares so.
fn comparison(sign: Keyword, a: Expr, b: Expr) -> Statement
    ensures { result ≡ reading.comparison sign a b }
{
    match sign {
        Keyword::Less => Statement::IfLess { a, b },
        _ => Statement::IfEqual { a, b },
    }
}

#[tactic(auto, unfolding(crate::specs::StatementReading::if_at))]
fn parse_if(cursor: &mut Cursor) -> Result<Statement, Unexpected>
    ensures { Reads (λ s. s) (λ e. e.left) result cursor.new (reading.if_at cursor.old) }
{
    let (a, sign) = parse_expr(cursor, true)?;
    let (b, _) = parse_expr(cursor, false)?;
    Ok(comparison(sign, a, b))
}

#[tactic(auto, unfolding(crate::specs::StatementReading::fail_at))]
fn parse_fail(cursor: &mut Cursor) -> Result<Statement, Unexpected>
    ensures { Reads (λ s. s) (λ e. e.left) result cursor.new (reading.fail_at cursor.old) }
{
    let code = cursor.number_u8(0, 255)?;
    cursor.literal(b"\n")?;
    Ok(Statement::Fail { code })
}

#[tactic(auto, unfolding(crate::specs::StatementReading::result_at))]
fn parse_result(cursor: &mut Cursor) -> Result<Statement, Unexpected>
    ensures { Reads (λ s. s) (λ e. e.left) result cursor.new (reading.result_at cursor.old) }
{
    let (expr, _) = parse_expr(cursor, false)?;
    Ok(Statement::Give { expr })
}

/// Reads what follows the first word of a statement.
pub fn parse_fields(
    cursor: &mut Cursor,
    catalog: &Catalog,
    keyword: Keyword,
) -> Result<Statement, LineFault>
    ensures { Tries (λ s. s) line_left result cursor.new
        (reading.fields_at (names_of catalog.now) keyword cursor.old) }
{
    match keyword {
        Keyword::Read => parse_read(cursor, catalog),
        Keyword::Set => Ok(parse_set(cursor)?),
        Keyword::Write => parse_write(cursor, catalog),
        Keyword::If => Ok(parse_if(cursor)?),
        Keyword::Else => Ok(Statement::Else),
        Keyword::End => Ok(Statement::End),
        Keyword::Fail => Ok(parse_fail(cursor)?),
        Keyword::Result => Ok(parse_result(cursor)?),
        _ => Err(LineFault::Unexpected(Unexpected {
            left: cursor.left(),
        })),
    }
}
