//! Reading numbers in a range. A byte is at fault as soon as no number of the range goes on with it.

ghost use Rattle.std.specs.Prelude.{◌≡◌, ◌≤◌, IfErr, IfOk, ◌<◌, ◌^◌};
ghost use Rattle.vp_text.specs.Reading.{Reads};
ghost use Rattle.vp_bytes.specs.Ranges.{number_within_at};

use byteorder::{BigEndian, ByteOrder};
use vp_text::{Cursor, Unexpected};

/// Reads a number from `low` to `high` in 2 bytes.
pub fn read_u16_within(cursor: &mut Cursor, low: u16, high: u16) -> Result<u16, Unexpected>
    requires { low ≤ high }
    ensures read { Reads (λ x. x) (λ e. e.left) result cursor.new (number_within_at 2 low high cursor.old) }
    ensures range { IfOk result (λ x. (low ≤ x) × (x ≤ high)) }
{
    let rest = cursor.rest();
    if 2 <= rest.len() {
        let number = BigEndian::read_u16(rest);
        if low <= number && number <= high {
            cursor.advance(2);
            return Ok(number);
        }
    }
    Err(Unexpected {
        left: left_at_fault(rest, 2, u64::from(low), u64::from(high)),
    })
}

/// Reads a number from `low` to `high` in 4 bytes.
pub fn read_u32_within(cursor: &mut Cursor, low: u32, high: u32) -> Result<u32, Unexpected>
    requires { low ≤ high }
    ensures read { Reads (λ x. x) (λ e. e.left) result cursor.new (number_within_at 4 low high cursor.old) }
    ensures range { IfOk result (λ x. (low ≤ x) × (x ≤ high)) }
{
    let rest = cursor.rest();
    if 4 <= rest.len() {
        let number = BigEndian::read_u32(rest);
        if low <= number && number <= high {
            cursor.advance(4);
            return Ok(number);
        }
    }
    Err(Unexpected {
        left: left_at_fault(rest, 4, u64::from(low), u64::from(high)),
    })
}

/// How many bytes are left at the first byte with which no number from `low` to `high` in `count` bytes goes on.
fn left_at_fault(bytes: &[u8], count: usize, low: u64, high: u64) -> usize
    requires few { count ≤ 4 }
    requires fits { high < 256 ^ 4 }
    ensures { IfErr (number_within_at count low high bytes.now) (λ left. result ≡ left) }
{
    let mut front = 0;
    let mut good = 0;
    while good < count && good < bytes.len() {
        let shift = 8 * (count - 1 - good);
        let next = front * 256 + u64::from(bytes[good]);
        if next < low >> shift || high >> shift < next {
            break;
        }
        front = next;
        good += 1;
    }
    bytes.len() - good
}
