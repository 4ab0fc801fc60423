//! Which digits may follow each other in a number of a range.

ghost use Rattle.std.specs.Prelude.{◌≡◌};
ghost use Rattle.vp_text.specs.Reading.{begins_number, number_step, after_digit};

/// Adds a digit to the number: `None` where the byte is no digit, or no number of the range begins with these digits.
pub fn with_digit(number: Option<u64>, byte: u8, least: u64, most: u64) -> Option<u64>
    ensures { after_digit result ≡ number_step least most number byte }
{
    if !byte.is_ascii_digit() {
        return None;
    }
    let digit = u64::from(byte - b'0');
    let next = match number {
        None => digit,
        Some(0) => return None,
        Some(number) => number.checked_mul(10)?.checked_add(digit)?,
    };
    begins_some(next, least, most).then_some(next)
}

/// Whether some number of the range begins with the digits of this one.
#[tactic(auto, unfolding(crate::specs::Reading::begins_number))]
fn begins_some(number: u64, least: u64, most: u64) -> bool
    ensures { result ≡ begins_number least most number }
{
    if number == 0 {
        return least == 0;
    }
    let least = u128::from(least);
    let most = u128::from(most);
    let mut low = u128::from(number);
    let mut high = low;
    for _ in 0..20u8 {
        if most < low {
            return false;
        }
        if least <= high {
            return true;
        }
        low *= 10;
        high = high * 10 + 9;
    }
    false
}
