//! Reading datagrams in hexadecimal.

ghost use Rattle.std.specs.Prelude.{◌≡◌, true, get_or, OnOk};
ghost use Rattle.std.specs.List.{AllByRecursion};
ghost use Rattle.vp_text.specs.Reading.{Tries};
ghost use Rattle.vp_base.specs.Faults.{line_left};
ghost use Rattle.vp_recording.specs.Hex.{is_digit, digit_value, bytes_of, bytes_at};

use crate::byte_store::ByteStore;
use bytes::Bytes;
use vp_base::{LineFault, NoMemory};
use vp_text::{Cursor, Unexpected};

/// The most digits of a datagram.
const MOST_DIGITS: usize = 32_768;

/// The values of digits, by their bytes; 255 for any other byte.
const VALUES: &[u8; 256] = &[
    255, 255, 255, 255, 255, 255, 255, 255, 255, 255, 255, 255, 255, 255, 255, 255, 255, 255, 255,
    255, 255, 255, 255, 255, 255, 255, 255, 255, 255, 255, 255, 255, 255, 255, 255, 255, 255, 255,
    255, 255, 255, 255, 255, 255, 255, 255, 255, 255, 0, 1, 2, 3, 4, 5, 6, 7, 8, 9, 255, 255, 255,
    255, 255, 255, 255, 255, 255, 255, 255, 255, 255, 255, 255, 255, 255, 255, 255, 255, 255, 255,
    255, 255, 255, 255, 255, 255, 255, 255, 255, 255, 255, 255, 255, 255, 255, 255, 255, 10, 11,
    12, 13, 14, 15, 255, 255, 255, 255, 255, 255, 255, 255, 255, 255, 255, 255, 255, 255, 255, 255,
    255, 255, 255, 255, 255, 255, 255, 255, 255, 255, 255, 255, 255, 255, 255, 255, 255, 255, 255,
    255, 255, 255, 255, 255, 255, 255, 255, 255, 255, 255, 255, 255, 255, 255, 255, 255, 255, 255,
    255, 255, 255, 255, 255, 255, 255, 255, 255, 255, 255, 255, 255, 255, 255, 255, 255, 255, 255,
    255, 255, 255, 255, 255, 255, 255, 255, 255, 255, 255, 255, 255, 255, 255, 255, 255, 255, 255,
    255, 255, 255, 255, 255, 255, 255, 255, 255, 255, 255, 255, 255, 255, 255, 255, 255, 255, 255,
    255, 255, 255, 255, 255, 255, 255, 255, 255, 255, 255, 255, 255, 255, 255, 255, 255, 255, 255,
    255, 255, 255, 255, 255, 255, 255, 255, 255, 255, 255, 255, 255, 255, 255, 255, 255, 255, 255,
    255, 255, 255, 255,
];

/// The value that a table has for a byte.
fn value_in(values: &[u8; 256], byte: u8) -> u8
    ensures { result ≡ get_or values.now byte 0 }
{
    values[usize::from(byte)]
}

fn is_digit(byte: u8) -> bool
    ensures { result ≡ is_digit byte }
{
    value_in(VALUES, byte) < 16
}

/// The value of a digit.
fn digit_value(digit: u8) -> u8
    requires { is_digit digit ≡ true }
    ensures { result ≡ digit_value digit }
{
    value_in(VALUES, digit)
}

/// Makes these the bytes that the digits spell, two by two.
fn decode(digits: &[u8], bytes: &mut Vec<u8>) -> Result<(), NoMemory>
    requires { AllByRecursion (λ c. is_digit c ≡ true) digits.now }
    ensures { OnOk result (bytes.new.items ≡ bytes_of digits.now) }
{
    bytes.clear();
    for k in 0..digits.len() / 2 {
        let high = digit_value(digits[2 * k]);
        let low = digit_value(digits[2 * k + 1]);
        bytes.push(high * 16 + low)?;
    }
    Ok(())
}

/// Takes a datagram of 1 to 16,384 bytes, as long as its digits go.
pub fn parse_bytes(store: &mut ByteStore, cursor: &mut Cursor) -> Result<Bytes, LineFault>
    ensures { Tries (λ bytes. bytes) line_left result cursor.new (bytes_at cursor.old) }
{
    let text = cursor.rest();
    let mut count = 0;
    while count < MOST_DIGITS && count < text.len() && is_digit(text[count]) {
        count += 1;
    }
    if count == 0 || count % 2 == 1 {
        return Err(LineFault::Unexpected(Unexpected {
            left: text.len() - count,
        }));
    }
    decode(&text[..count], &mut store.read)?;
    let frame = store.keep()?;
    cursor.advance(count);
    Ok(frame)
}
