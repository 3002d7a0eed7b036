//! The lines of a listing, each put into a text.
#![tactic(auto)]

ghost use Rattle.std.specs.Prelude.{◌≡◌, ◌+◌, ◌≤◌, ◌<◌, length, Ok};
ghost use Rattle.lines.specs.Lines.{Puts};
ghost use Rattle.plan.specs.Plans.{size_m, verdict};
ghost use Rattle.listing_lines.specs.Entries.{sizes_line, figure_line, line_of, limits_line, refused_line};

use plan::Cause;
use reliability::Figure;

/// The steps that the plan's figure may take.
pub const FIGURE_LIMIT: u64 = 100_000;

/// The steps that each of the two evaluations behind an importance may take.
pub const IMPORTANCE_LIMIT: u64 = 20_000;

/// Each of these functions returns the place behind what it has written.
pub fn put_sizes(text: &mut [u8], n: u16, m: u16, k: u32) -> usize
    requires { length (sizes_line n m k) ≤ length text.old }
    ensures { Puts text.old 0 (sizes_line n m k) text.new result }
{
    lines::put_line(
        text,
        0,
        b"nodes 0 links 1 pieces 2\n",
        &[u32::from(n), u32::from(m), k],
    )
}

pub fn put_figure(text: &mut [u8], at: usize, f: Figure) -> usize
    requires { at + length (figure_line f) ≤ length text.old }
    ensures { Puts text.old at (figure_line f) text.new result }
{
    lines::put_line(
        text,
        at,
        b"low 0 high 1 steps 2 finished 3\n",
        &[f.low, f.high, f.steps, u32::from(f.finished)],
    )
}

/// The line of link i of an accepted plan.
pub fn put_link(text: &mut [u8], at: usize, plan: &[u8], i: usize) -> usize
    requires { (verdict plan.now ≡ Ok tt) × (i < size_m plan.now) × (at + length (line_of plan.now i) ≤ length text.old) }
    ensures { Puts text.old at (line_of plan.now i) text.new result }
{
    let net = loading::built_in(plan);
    let e = net.link(i);
    let (a, b) = (u32::from(e.a), u32::from(e.b));
    let f = comparisons::importance(net, i, IMPORTANCE_LIMIT);
    lines::put_line(
        text,
        at,
        b"link 0 1 2 3 4 5\n",
        &[i as u32, a, b, e.low, f.low, f.high],
    )
}

pub fn put_limits(text: &mut [u8], at: usize) -> usize
    requires { at + length limits_line ≤ length text.old }
    ensures { Puts text.old at limits_line text.new result }
{
    lines::put_line(
        text,
        at,
        b"limits 0 1\n",
        &[FIGURE_LIMIT as u32, IMPORTANCE_LIMIT as u32],
    )
}

pub fn put_refusal(text: &mut [u8], c: Cause) -> usize
    requires { length (refused_line c) ≤ length text.old }
    ensures { Puts text.old 0 (refused_line c) text.new result }
{
    lines::put_line(
        text,
        0,
        b"refused 0 at 1\n",
        &[u32::from(c.number()), u32::from(c.named_link())],
    )
}
