// Rounding to the nearest whole number by sizes: no branch depends on a sign, and no sum wraps for any number.
#![tactic(auto)]

ghost use Rattle.std.specs.Prelude.{◌≡◌, ◌+◌, ◌^◌, ◌≤◌, unsigned_abs};
ghost use Rattle.scheme.specs.Step.{sample_of};
ghost use Rattle.rounding.specs.Rounding.{sign_of, mirror_of, with_sign, rounded_by};

use types::Settings;

// −1 for a number below 0, else 0.
fn sign(n: i64) -> i64
    ensures { result ≡ sign_of n }
{
    if n < 0 { -1 } else { 0 }
}

// x, or −1 − x where n is below 0. By bits for speed: no branch depends on a sign.
fn mirrored(x: i64, n: i64) -> i64
    ensures { result ≡ mirror_of n x }
{
    x ^ sign(n)
}

// x, or −x where n is below 0. By bits for speed: a choice of −x or x takes two instructions more for each point.
fn signed(x: i64, n: i64) -> i64
    requires { unsigned_abs x ≤ 2 ^ 62 + 2 ^ 31 }
    ensures { result ≡ with_sign n x }
{
    mirrored(x, n) - sign(n)
}

// |n| + half, of every number: half is added with the sign of n. In place of `unsigned_abs` for speed: a result that ends in an exclusive
// or keeps the compiler from testing before each division whether 32 bits would do.
// Ruled out: half left out; half added without the sign of n.
pub fn raised(n: i64, half: u32) -> u64
    ensures { result ≡ unsigned_abs n + half }
{
    let sum = n.wrapping_add(mirrored(i64::from(half), n));
    mirrored(sum, n).cast_unsigned()
}

// A whole number, and what rounding to it leaves.
#[derive(Clone, Copy)]
pub struct Rounded {
    pub whole: i64,
    pub remainder: i64,
}

// n over d to the nearest whole number, halves away from zero, where half is d / 2: the quotient and the remainder of |n| + half, the
// remainder less half, with the sign of n. A divisor below 2 counts as 2.
// Ruled out: the remainder without the sign of n; a divisor of 1, by which the size of −2⁶³ fits no i64.
pub fn round_by(n: i64, d: u32, half: u32) -> Rounded
    ensures { result ≡ rounded_by n d half }
{
    let size = raised(n, half);
    let by = u64::from(d.max(2));
    let quotient = (size / by) as i64;
    let left = (size % by) as i64 - i64::from(half);
    Rounded {
        whole: signed(quotient, n),
        remainder: signed(left, n),
    }
}

const UNITS_PER_SAMPLE: u32 = Settings::UNITS_PER_SAMPLE as u32;

// The sample of a point: over 2²⁸, rounded as a step is. Ruled out: halves toward zero; over 2²⁷.
#[tactic(auto, using(crate::proofs::RoundLaws::rounded_is), unfolding(scheme::specs::Step::sample_of))]
pub fn read_out(v: i64) -> i64
    ensures { result ≡ sample_of v }
{
    let rounded = round_by(v, UNITS_PER_SAMPLE, UNITS_PER_SAMPLE / 2);
    rounded.whole
}
