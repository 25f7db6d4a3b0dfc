// The whole number nearest to D times a float, read from the float's bits.
#![tactic(auto)]

ghost use Rattle.std.specs.Prelude.{◌≡◌, ◌≤◌, ◌<◌, ◌/◌, ◌%◌, ◌^◌};
ghost use Rattle.std.specs.Float.{binary64};
ghost use Rattle.std.specs.Float.Ieee.{of_bits};
ghost use Rattle.scheme.specs.Step.{nearest};
ghost use Rattle.nearest.specs.Nearest.{nearest_whole};

use types::Settings;

// The weight of the exponent's field, and of a mantissa's leading digit.
const LEADING: u64 = 1 << 52;

// The weight of the sign.
const SIGN: u64 = 1 << 63;

// The bit pattern of −1/2 over D: the sign, and 1006 in the exponent's field.
const MINUS_HALF: u64 = SIGN + 1006 * LEADING;

// n / 2ᵏ to the nearest whole number, halves up.
#[tactic(auto, using(crate::proofs::HalvesUp::by_shift))]
fn shifted(n: u64, k: u64) -> u64
    requires { (n < 2 ^ 53) × (1 ≤ k) × (k ≤ 64) }
    ensures { result ≡ nearest n (2 ^ k) }
{
    ((n >> (k - 1)) + 1) / 2
}

// The digits of the mantissa after its leading one: the low 52 of the bits, split off by shifts.
fn digits_of(bits: u64) -> u64
    ensures { result ≡ bits % 2 ^ 52 }
{
    bits - ((bits >> 52) << 52)
}

// `nearest_whole` of the bit pattern of a negative number, of one that is 2 or more, or of an infinity. A negative one rounds to 0 from
// −1/2 on.
#[tactic(auto, using(crate::proofs::Fields::field_large, crate::proofs::Fields::minus_near, crate::proofs::Fields::minus_far))]
fn whole_beyond(bits: u64) -> Option<u64>
    requires { 1023 < bits / 2 ^ 52 }
    ensures { result ≡ nearest_whole (of_bits binary64 bits) }
{
    match bits {
        SIGN..=MINUS_HALF => Some(0),
        _ => None,
    }
}

// `nearest_whole` of a bit pattern that is a number's. D times a float is its mantissa over 2^(1059 − exponent): below a half where
// the exponent is below 1006, and 2D or more where it is above 1023. The sign adds 2048 to the exponent.
#[tactic(auto, using(crate::proofs::Fields::field_small, crate::proofs::Fields::bits_whole, crate::proofs::Fields::bits_above))]
fn whole_of_bits(bits: u64) -> Option<u64>
    ensures { result ≡ nearest_whole (of_bits binary64 bits) }
{
    match bits >> 52 {
        0..1006 => Some(0),
        exponent @ 1006..1024 => {
            let n = shifted(LEADING + digits_of(bits), 1059 - exponent);
            (n <= Settings::D).then_some(n)
        }
        _ => whole_beyond(bits),
    }
}

// The whole number nearest to D times x, halves up; none where that is not in 0..D, or x is not a number.
// Ruled out: a half rounded down; the fraction cut off.
#[tactic(auto, using(crate::proofs::Fields::nan_outside, crate::proofs::Fields::no_nan))]
pub fn nearest_whole(x: f64) -> Option<u64>
    ensures { result ≡ nearest_whole x }
{
    if x.is_nan() {
        return None;
    }
    whole_of_bits(x.to_bits())
}
