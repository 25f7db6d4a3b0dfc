// Numbers of signed 64 bits, read from decimal digits.
#![tactic(auto)]

ghost use Rattle.std.specs.Prelude.{◌≡◌, ◌-◌, ◌^◌, MatchOption};
ghost use Rattle.ring_decimals.specs.Decimals.{unsigned_read, signed_read};
ghost use Rattle.ring_decimals.specs.Text.{NoNumber, Plain};

use std::str;

// 2⁶³ − 1, the largest number of signed 64 bits.
const MOST: u64 = i64::MAX as u64;

// A field as text. None where it is none, or where a plus leads, which `parse` would take.
fn text_of(field: &[u8]) -> Option<&str>
    ensures { MatchOption result (NoNumber field.now) (λ text. Plain field.now text.now) }
{
    if field.starts_with(b"+") {
        return None;
    }
    str::from_utf8(field).ok()
}

// A field of digits, of a value of at most 2⁶³ − 1. Ruled out: an empty field taken as 0; 2⁶³ taken.
pub fn read_unsigned(digits: &[u8]) -> Option<u64>
    ensures { result ≡ unsigned_read (2 ^ 63 - 1) digits.now }
{
    let n: u64 = text_of(digits)?.parse().ok()?;
    // by `if`: of `then_some` the check finds no proof
    if n <= MOST { Some(n) } else { None }
}

// A field of digits, which may have one minus before them. Ruled out: a colon taken as a digit; −2⁶³ not taken.
pub fn read_signed(field: &[u8]) -> Option<i64>
    ensures { result ≡ signed_read field.now }
{
    text_of(field)?.parse().ok()
}
