//! Numbers as contents of records.

ghost use Rattle.std.specs.Prelude.{◌≡◌, IfOk};
ghost use Rattle.std.specs.Fmt.{decimal};
ghost use Rattle.vp_text.specs.Reading.{Reads, number_at, whole};
ghost use Rattle.vp_proc.specs.Scripts.{number_in, greatest};

use std::alloc::Global;
use vp_base::{NameFault, NoMemory, Value};
use vp_text::{Cursor, Unexpected, print_number};

/// The number whose decimal text the content is.
pub fn number_in(content: &Option<Value>) -> Option<u64>
    ensures { result ≡ number_in content.now }
{
    match content {
        Some(value) => {
            let mut cursor = Cursor::new(value.as_bytes());
            parse_whole_number(&mut cursor).ok()
        }
        None => None,
    }
}

fn parse_whole_number(cursor: &mut Cursor) -> Result<u64, Unexpected>
    ensures { Reads (λ n. n) (λ e. e.left) result cursor.new (whole (number_at 0 greatest) cursor.old) }
{
    let number = cursor.number(0, u64::MAX)?;
    cursor.end()?;
    Ok(number)
}

/// The value that is the decimal text of the number.
pub fn value_of_number(alloc: Global, number: u64) -> Result<Value, NoMemory>
    ensures { IfOk result (λ value. value ≡ decimal number) }
{
    let mut text = Vec::new(alloc);
    print_number(&mut text, number)?;
    match Value::read(alloc, &text) {
        Ok(value) => Ok(value),
        Err(NameFault::NoMemory) => Err(NoMemory),
        Err(NameFault::BadName { .. }) => unreachable!(),
    }
}
