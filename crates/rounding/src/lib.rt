//! Directed rounding in units of S = 1,000,000,000. Each operation takes the direction in which its result is rounded: low
//! figures are worked with Down, high figures with Up.
//! Values and figures are asked to be at most S: that keeps every product within S * S = 10^18 and so within 64 bits.
#![tactic(auto)]

ghost use Rattle.std.specs.Prelude.{◌≡◌, ◌+◌, ◌*◌, ◌/◌, ◌%◌, ◌^◌, ◌≤◌, ◌<◌};
ghost use Rattle.rounding.specs.Rounding.{S, quotient, opposite, product, parallel, either, fewest_digits, series, factor, split};

/// The units of a whole: the largest value, and the largest figure.
pub const UNITS: u32 = 1_000_000_000;

/// S, for products of values.
const UNITS_64: u64 = UNITS as u64;

/// The way in which a result is rounded to a whole number of units.
#[derive(Clone, Copy, Debug, PartialEq, Eq)]
pub enum Direction {
    Down,
    Up,
}

impl Direction {
    fn reversed(self) -> Direction
        ensures { result ≡ opposite self }
    {
        match self {
            Direction::Down => Direction::Up,
            Direction::Up => Direction::Down,
        }
    }
}

/// What a long division gives: the quotient in units, what is left of it, and the decimal digits that it worked.
#[derive(Clone, Copy, Debug, PartialEq, Eq)]
pub struct Division {
    pub quotient: u64,
    pub remainder: u64,
    pub digits: u64,
}

/// x / S.
#[tactic(auto, unfolding(crate::specs::Rounding::quotient))]
fn in_units(d: Direction, x: u64) -> u32
    requires { x ≤ S * S }
    ensures { result ≡ quotient d x S }
{
    match d {
        Direction::Down => (x / UNITS_64) as u32,
        Direction::Up => ((x + (UNITS_64 - 1)) / UNITS_64) as u32,
    }
}

/// p * q / S.
#[tactic(auto, unfolding(crate::specs::Rounding::product))]
pub fn product(d: Direction, p: u32, q: u32) -> u32
    requires { (p ≤ S) × (q ≤ S) }
    ensures { result ≡ product d p q }
{
    in_units(d, u64::from(p) * u64::from(q))
}

/// S - (S - p) * (S - q) / S, for two links side by side.
#[tactic(auto, using(crate::proofs::Operations::broken_range), unfolding(crate::specs::Rounding::parallel))]
pub fn parallel(d: Direction, p: u32, q: u32) -> u32
    requires { (p ≤ S) × (q ≤ S) }
    ensures { result ≡ parallel d p q }
{
    let broken = (UNITS_64 - u64::from(p)) * (UNITS_64 - u64::from(q));
    UNITS - in_units(d.reversed(), broken)
}

/// W = S * (p + q) - p * q, at most S * S.
#[tactic(auto, unfolding(crate::specs::Rounding::either))]
pub fn either(p: u32, q: u32) -> u64
    requires { (p ≤ S) × (q ≤ S) }
    ensures { result ≡ either p q }
{
    UNITS_64 * (u64::from(p) + u64::from(q)) - u64::from(p) * u64::from(q)
}

/// A division with no remainder.
fn without_remainder(q: u64, digits: u64) -> Division
    ensures { (result.quotient ≡ q) × (result.remainder ≡ 0) × (result.digits ≡ digits) }
{
    Division {
        quotient: q,
        remainder: 0,
        digits,
    }
}

/// A divisor is counted in parts, and the reciprocal of one part is 10 * SCALE.
const PART: u64 = 1 << 29;

const SCALE: u64 = 1 << 60;

/// 10 * r / w, by a reciprocal of w that is not too large: what it gives is never too much, and hardly ever too little where w is
/// large.
fn digit(r: u64, w: u64, reciprocal: u64) -> u64
    requires { (r < w) × (w ≤ S * S) × (reciprocal * (w / 2 ^ 29 + 1) ≤ 10 * 2 ^ 60) }
    ensures { result ≡ 10 * r / w }
{
    let tenfold = 10 * r;
    let d = r / PART * reciprocal / SCALE;
    if tenfold - d * w < w { d } else { tenfold / w }
}

/// S * x / w with its remainder, by decimal digits of long division: S * x need not fit 64 bits, and 10 * w does. There are
/// nine digits. Once the remainder is 0 the others are zeros: they are filled in, not worked and not counted.
pub fn long_division(x: u64, w: u64) -> Division
    requires { (0 < w) × (x ≤ w) × (w ≤ S * S) }
    ensures { (result.quotient ≡ S * x / w) × (result.remainder ≡ S * x % w) × (result.digits ≡ fewest_digits 9 x w) }
{
    if x == 0 {
        return without_remainder(0, 0);
    }
    if x == w {
        return without_remainder(UNITS_64, 0);
    }
    let reciprocal = 10 * SCALE / (w / PART + 1);
    let mut quotient: u64 = 0;
    let mut remainder = x;
    let mut unit = UNITS_64;
    for worked in 0..9 {
        let tenfold = 10 * remainder;
        let d = digit(remainder, w, reciprocal);
        quotient = 10 * quotient + d;
        remainder = tenfold - d * w;
        unit /= 10;
        if remainder == 0 {
            return without_remainder(quotient * unit, worked + 1);
        }
    }
    Division {
        quotient,
        remainder,
        digits: 9,
    }
}

/// S * x / w.
#[tactic(auto, using(crate::proofs::Operations::up), unfolding(crate::specs::Rounding::quotient))]
fn rounded_division(d: Direction, x: u64, w: u64) -> u32
    requires { (0 < w) × (x ≤ w) × (w ≤ S * S) }
    ensures { result ≡ quotient d (S * x) w }
{
    let worked = long_division(x, w);
    let down = worked.quotient as u32;
    match d {
        Direction::Up if worked.remainder != 0 => down + 1,
        _ => down,
    }
}

/// The value of two links in series, S * p * q / W, and 0 where W is 0.
#[tactic(auto, using(crate::proofs::Operations::in_series), unfolding(crate::specs::Rounding::series))]
pub fn series(d: Direction, p: u32, q: u32) -> u32
    requires { (p ≤ S) × (q ≤ S) }
    ensures { result ≡ series d p q }
{
    let w = either(p, q);
    if w == 0 {
        0
    } else {
        rounded_division(d, u64::from(p) * u64::from(q), w)
    }
}

/// The factor of two links in series, W / S.
#[tactic(auto, using(crate::proofs::Operations::in_series), unfolding(crate::specs::Rounding::factor))]
pub fn factor(d: Direction, p: u32, q: u32) -> u32
    requires { (p ≤ S) × (q ≤ S) }
    ensures { result ≡ factor d p q }
{
    in_units(d, either(p, q))
}

/// (p * sound + (S - p) * broken) / S.
#[tactic(auto, unfolding(crate::specs::Rounding::split))]
pub fn split(d: Direction, p: u32, sound: u32, broken: u32) -> u32
    requires { (p ≤ S) × (sound ≤ S) × (broken ≤ S) }
    ensures { result ≡ split d p sound broken }
{
    in_units(
        d,
        u64::from(p) * u64::from(sound) + (UNITS_64 - u64::from(p)) * u64::from(broken),
    )
}
