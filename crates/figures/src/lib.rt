//! Figures made of figures, and differences: numbers alone.
#![tactic(auto)]

ghost use Rattle.std.specs.Prelude.{◌≡◌, true, cond, ◌&&◌, ◌+◌, ◌-◌, ◌^◌, ◌≤◌, ◌<◌, pos, ◌-ℤ◌};
ghost use Rattle.rounding.specs.Rounding.{S, factor};
ghost use Rattle.reliability.specs.Networks.{value};
ghost use Rattle.reliability.specs.Rule.{bounded, times, mixed, more, unfinished};
ghost use Rattle.reliability.specs.Comparisons.{lessened, minus};
ghost use Rattle.figures.specs.Sides.{sides};

use reliability::{Difference, Figure, Link};
use rounding::Direction;

/// The figure f multiplied by a factor for each side.
fn times(low: u32, high: u32, f: Figure) -> Figure
    requires { (low ≤ S) × (high ≤ S) × (f.low ≤ S) × (f.high ≤ S) }
    ensures { result ≡ times (sides low high) f }
{
    Figure {
        low: rounding::product(Direction::Down, low, f.low),
        high: rounding::product(Direction::Up, high, f.high),
        ..f
    }
}

/// The figure f multiplied by the factor of two links in series.
#[tactic(auto, using(crate::proofs::Laws::in_range))]
fn times_factor(e: Link, k: Link, f: Figure) -> Figure
    requires { (e.low ≤ S) × (e.high ≤ S) × (k.low ≤ S) × (k.high ≤ S) × (f.low ≤ S) × (f.high ≤ S) }
    ensures { result ≡ times (λ d. factor d (value d e) (value d k)) f }
{
    let low = rounding::factor(Direction::Down, e.low, k.low);
    let high = rounding::factor(Direction::Up, e.high, k.high);
    times(low, high, f)
}

/// The figure where an end with link e goes, from that of the rest: multiplied by its values where the node is chosen.
pub fn end_of(chosen: bool, e: Link, f: Figure) -> Figure
    requires { (e.low ≤ S) × (e.high ≤ S) × (f.low ≤ S) × (f.high ≤ S) }
    ensures { result ≡ cond chosen (times (λ d. value d e) f) f }
{
    if chosen { times(e.low, e.high, f) } else { f }
}

/// The figure where a node with links e and k goes, from that of the rest: multiplied by their factor where the node is chosen.
pub fn series_of(chosen: bool, e: Link, k: Link, f: Figure) -> Figure
    requires { (e.low ≤ S) × (e.high ≤ S) × (k.low ≤ S) × (k.high ≤ S) × (f.low ≤ S) × (f.high ≤ S) }
    ensures { result ≡ cond chosen (times (λ d. factor d (value d e) (value d k)) f) f }
{
    if chosen { times_factor(e, k, f) } else { f }
}

/// The figure of a split on link e, from those of its two branches, and the steps that it takes itself.
pub fn mixed(e: Link, s: Figure, t: Figure, own: u32) -> Figure
    requires { (e.low ≤ S) × (e.high ≤ S) × (s.low ≤ S) × (s.high ≤ S) × (t.low ≤ S) × (t.high ≤ S) × (own + (s.steps + t.steps) < 2 ^ 32) }
    ensures { result ≡ more own (mixed e s t) }
{
    Figure {
        low: rounding::split(Direction::Down, e.low, s.low, t.low),
        high: rounding::split(Direction::Up, e.high, s.high, t.high),
        steps: own + (s.steps + t.steps),
        finished: s.finished && t.finished,
    }
}

/// The figure where nothing is left to work, of value k.
pub fn settled(k: u32) -> Figure
    ensures { result ≡ bounded (λ d. k) 0 true }
{
    Figure {
        low: k,
        high: k,
        steps: 0,
        finished: true,
    }
}

/// The figure where no step is left for a split.
pub fn unfinished() -> Figure
    ensures { result ≡ unfinished }
{
    Figure {
        low: 0,
        high: rounding::UNITS,
        steps: 0,
        finished: false,
    }
}

fn signed_difference(x: u32, y: u32) -> i32
    requires { (x ≤ S) × (y ≤ S) }
    ensures { result ≡ pos x -ℤ pos y }
{
    (x as i32) - (y as i32)
}

/// Sound minus broken, the low no lower than 0.
pub fn lessened(s: Figure, b: Figure) -> Figure
    requires { (b.low ≤ s.high) × (s.steps < 2 ^ 31) × (b.steps < 2 ^ 31) }
    ensures { result ≡ lessened s b }
{
    Figure {
        low: s.low.saturating_sub(b.high),
        high: s.high - b.low,
        steps: s.steps + b.steps,
        finished: s.finished && b.finished,
    }
}

/// One figure minus another, signed.
pub fn minus(f: Figure, g: Figure) -> Difference
    requires { (f.low ≤ S) × (f.high ≤ S) × (g.low ≤ S) × (g.high ≤ S) × (f.steps < 2 ^ 31) × (g.steps < 2 ^ 31) }
    ensures { result ≡ minus f g }
{
    Difference {
        low: signed_difference(f.low, g.high),
        high: signed_difference(f.high, g.low),
        steps: f.steps + g.steps,
        finished: f.finished && g.finished,
    }
}
