//! Exact fractions, and whole numbers on a grid.
//!
//! Every call is its formula in whole numbers: nothing is rounded unless the name says so, no fraction is reduced,
//! no product wraps, and no call takes memory.
//! Callers may rely on each result as an equation with the definitions of `specs/`, under the conditions that a call
//! names.
#![tactic(auto)]

ghost use Rattle.std.specs.Prelude.{◌≡◌, ◌+◌, ◌*◌, ◌/◌, ◌^◌, ◌<◌, ◌≤◌, [], ◌∷◌, IfSome, IfNone};
ghost use Rattle.std.specs.List.{All};
ghost use Rattle.std.specs.Int.{IsGcd};
ghost use Rattle.grid_fraction.specs.Numbers.{ceil_div};
ghost use Rattle.grid_fraction.specs.Fraction as fraction;

/// A fraction `num/den`, kept as given and never reduced.
#[derive(Clone, Copy, Debug, PartialEq, Eq)]
pub struct Frac {
    pub num: u128,
    pub den: u128,
}

/// The least common multiple of the periods, 1 for none; None exactly if it exceeds `cap`.
pub fn lcm_within(periods: &[u64], cap: u64) -> Option<u64>
    requires periods { All (λ n. 1 ≤ n) periods.now }
    requires cap { 1 ≤ cap }
    ensures multiple { IfSome result (λ h. h ≡ fraction.least_common_multiple periods.now) }
    ensures within { IfSome result (λ h. h ≤ cap) }
    ensures beyond { IfNone result (cap < fraction.least_common_multiple periods.now) }
{
    let mut multiple = 1;
    for period in periods {
        match joint_multiple(multiple, *period, cap) {
            Some(next) => multiple = next,
            None => return None,
        }
    }
    Some(multiple)
}

/// The least common multiple of two numbers; None exactly if it exceeds `cap`.
fn joint_multiple(a: u64, b: u64, cap: u64) -> Option<u64>
    requires a { 1 ≤ a }
    requires b { 1 ≤ b }
    ensures multiple { IfSome result (λ h. h ≡ fraction.least_common_multiple (a ∷ b ∷ [])) }
    ensures within { IfSome result (λ h. h ≤ cap) }
    ensures beyond { IfNone result (cap < fraction.least_common_multiple (a ∷ b ∷ [])) }
{
    match a.checked_mul(b / gcd(a, b)) {
        Some(multiple) if multiple <= cap => Some(multiple),
        _ => None,
    }
}

/// The greatest common divisor, by Euclid's algorithm.
fn gcd(a: u64, b: u64) -> u64
    ensures { IsGcd a b result }
{
    let mut divisor = a;
    let mut rest = b;
    while rest != 0 {
        let next = divisor % rest;
        divisor = rest;
        rest = next;
    }
    divisor
}

/// Whether a speed, in work units per tick, meets the demand `d`: `num <= speed * den`.
pub fn meets(speed: u64, d: Frac) -> bool
    requires den { 1 ≤ d.den }
    requires fits { speed * d.den < 2 ^ 128 }
    ensures { result ≡ fraction.meets speed d }
{
    d.num <= u128::from(speed) * d.den
}

/// Whether `a` is greater than `b`: `a.num * b.den > b.num * a.den`.
pub fn greater(a: Frac, b: Frac) -> bool
    requires left_den { 1 ≤ a.den }
    requires right_den { 1 ≤ b.den }
    requires left_fits { a.num * b.den < 2 ^ 128 }
    requires right_fits { b.num * a.den < 2 ^ 128 }
    ensures { result ≡ fraction.is_greater a b }
{
    a.num * b.den > b.num * a.den
}

/// `n / d`, rounded up.
#[tactic(auto, using(crate::proofs::Ceilings::div_ceil_is))]
pub fn up(n: u128, d: u64) -> u128
    requires { 1 ≤ d }
    ensures { result ≡ ceil_div n d }
{
    n.div_ceil(u128::from(d))
}

/// `a * b / d`, rounded down.
pub fn mul_down(a: u128, b: u64, d: u64) -> u128
    requires divisor { 1 ≤ d }
    requires fits { a * b < 2 ^ 128 }
    ensures { result ≡ a * b / d }
{
    a * u128::from(b) / u128::from(d)
}
