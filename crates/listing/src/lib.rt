//! The listing of a plan, as text.
#![tactic(auto)]

ghost use Rattle.std.specs.Prelude.{◌≡◌, List, ◌++◌, ℕ, ◌+◌, ◌≤◌, length, drop, Ok};
ghost use Rattle.lines.specs.Lines.{Puts};
ghost use Rattle.plan.specs.Plans.{size_m, verdict};
ghost use Rattle.listing.specs.Listings.{link_lines, listing_by, listing, IsRead, Lists};

/// As much as there is to read of an input: one byte more than the longest plan has.
pub const INPUT: usize = 389;

/// Each of these two functions returns the place behind what it has written.
fn put_links(text: &mut [u8], at: usize, plan: &[u8]) -> usize
    requires { (verdict plan.now ≡ Ok tt) × (at + length (link_lines plan.now 0 (size_m plan.now)) ≤ length text.old) }
    ensures { Puts text.old at (link_lines plan.now 0 (size_m plan.now)) text.new result }
{
    let m = usize::from(reader::sizes_of(plan).m);
    let mut next = at;
    for i in 0..m {
        next = listing_lines::put_link(text, next, plan, i);
    }
    next
}

fn put_plan(text: &mut [u8], plan: &[u8]) -> usize
    requires { (verdict plan.now ≡ Ok tt) × (length (listing_by (Ok tt) plan.now) ≤ length text.old) }
    ensures { Puts text.old 0 (listing_by (Ok tt) plan.now) text.new result }
{
    let s = reader::sizes_of(plan);
    let net = loading::built_in(plan);
    let k = simple::pieces(net);
    let f = factoring::work(net, listing_lines::FIGURE_LIMIT);
    let first = listing_lines::put_sizes(text, s.n, s.m, k);
    let second = listing_lines::put_figure(text, first, f);
    let third = put_links(text, second, plan);
    listing_lines::put_limits(text, third)
}

/// The listing of a plan, in the first bytes of the text, and its length.
pub fn listing(plan: &[u8], text: &mut [u8; 8192]) -> usize
    ensures value { result ≡ length (listing plan.now) }
    ensures upper_bound { result ≤ length text.new }
    ensures text_after { text.new ≡ listing plan.now ++ drop (length (listing plan.now)) text.old }
{
    match plan::verdict_of(plan) {
        Ok(()) => put_plan(text, plan),
        Err(c) => listing_lines::put_refusal(text, c),
    }
}

/// The listing of an input, whatever its length, of which n bytes were read into the buffer.
pub fn listing_of_input(buffer: &[u8; INPUT], n: usize, text: &mut [u8; 8192]) -> usize
    requires { n ≤ length buffer.now }
    ensures upper_bound { result ≤ length text.new }
    ensures lists { (input : List ℕ) → IsRead input buffer.now n → Lists input text.old text.new result }
{
    let bytes: &[u8] = buffer;
    listing(&bytes[..n], text)
}
