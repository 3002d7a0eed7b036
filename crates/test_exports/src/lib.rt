//! The operations of the lower crates under C names, for the tests outside Rattle. Arguments out of range get the largest
//! number of the result's type.
#![tactic(auto)]

ghost use Rattle.std.specs.Prelude.{◌≡◌, true, false, ◌&&◌, ◌*◌, ◌/◌, ◌%◌, ltb};
ghost use Rattle.rounding.specs.Rounding.{S, product, parallel, either, series, factor, split, fewest_digits};
ghost use Rattle.ratings.specs.Ratings.{T};
ghost use Rattle.test_exports.specs.Exports.{direction, chances, divisible, divided, answered};

use rounding::{Direction, Division, UNITS};

const LARGEST_32: u32 = u32::MAX;

const LARGEST_64: u64 = u64::MAX;

fn direction(up: bool) -> Direction
    ensures { result ≡ direction up }
{
    if up { Direction::Up } else { Direction::Down }
}

fn chances(p: u32, q: u32) -> bool
    ensures { result ≡ chances p q }
{
    p <= UNITS && q <= UNITS
}

fn divisible(x: u64, w: u64) -> bool
    ensures { result ≡ divisible x w }
{
    w != 0 && x <= w && w <= 1_000_000_000_000_000_000
}

/// What an operation gives of two chances, and the largest number where they are none.
fn of_chances<F: FnOnce(Direction, u32, u32) -> u32>(up: bool, p: u32, q: u32, operation: F) -> u32
    requires { chances p q ≡ true → F.pre operation (direction up) p q }
    ensures given { chances p q ≡ true → F.post operation (direction up) p q result }
    ensures refused { chances p q ≡ false → result ≡ 4294967295 }
{
    if chances(p, q) {
        operation(direction(up), p, q)
    } else {
        LARGEST_32
    }
}

/// The division of x by w, where it takes them.
fn divided(x: u64, w: u64) -> Option<Division>
    ensures { result ≡ divided x w }
{
    if divisible(x, w) {
        Some(rounding::long_division(x, w))
    } else {
        None
    }
}

#[unsafe(no_mangle)]
pub extern "C" fn rounding_product(up: bool, p: u32, q: u32) -> u32
    ensures { result ≡ answered (chances p q) (product (direction up) p q) 4294967295 }
{
    of_chances(up, p, q, rounding::product)
}

#[unsafe(no_mangle)]
pub extern "C" fn rounding_parallel(up: bool, p: u32, q: u32) -> u32
    ensures { result ≡ answered (chances p q) (parallel (direction up) p q) 4294967295 }
{
    of_chances(up, p, q, rounding::parallel)
}

#[unsafe(no_mangle)]
pub extern "C" fn rounding_series(up: bool, p: u32, q: u32) -> u32
    ensures { result ≡ answered (chances p q) (series (direction up) p q) 4294967295 }
{
    of_chances(up, p, q, rounding::series)
}

#[unsafe(no_mangle)]
pub extern "C" fn rounding_factor(up: bool, p: u32, q: u32) -> u32
    ensures { result ≡ answered (chances p q) (factor (direction up) p q) 4294967295 }
{
    of_chances(up, p, q, rounding::factor)
}

#[unsafe(no_mangle)]
pub extern "C" fn rounding_either(p: u32, q: u32) -> u64
    ensures { result ≡ answered (chances p q) (either p q) 18446744073709551615 }
{
    if chances(p, q) {
        rounding::either(p, q)
    } else {
        LARGEST_64
    }
}

#[unsafe(no_mangle)]
pub extern "C" fn rounding_split(up: bool, p: u32, sound: u32, broken: u32) -> u32
    ensures { result ≡ answered (chances p sound && chances p broken) (split (direction up) p sound broken) 4294967295 }
{
    if chances(p, sound) && chances(p, broken) {
        rounding::split(direction(up), p, sound, broken)
    } else {
        LARGEST_32
    }
}

#[unsafe(no_mangle)]
pub extern "C" fn rounding_quotient(x: u64, w: u64) -> u64
    ensures { result ≡ answered (divisible x w) (S * x / w) 18446744073709551615 }
{
    divided(x, w).map_or(LARGEST_64, |d| d.quotient)
}

#[unsafe(no_mangle)]
pub extern "C" fn rounding_remainder(x: u64, w: u64) -> u64
    ensures { result ≡ answered (divisible x w) (S * x % w) 18446744073709551615 }
{
    divided(x, w).map_or(LARGEST_64, |d| d.remainder)
}

#[unsafe(no_mangle)]
pub extern "C" fn rounding_digits(x: u64, w: u64) -> u64
    ensures { result ≡ answered (divisible x w) (fewest_digits 9 x w) 18446744073709551615 }
{
    divided(x, w).map_or(LARGEST_64, |d| d.digits)
}

#[unsafe(no_mangle)]
pub extern "C" fn rating(k: usize) -> u32
    ensures { result ≡ answered (ltb k 512) (T k) 4294967295 }
{
    if k < 512 {
        ratings::rating(k)
    } else {
        LARGEST_32
    }
}
