//! Prints the listing of the plan on standard input.
#![tactic(auto)]

fn main() {
    let mut plan = [0u8; listing::INPUT];
    let n = io::read_full(0, &mut plan);
    let mut text = [0u8; 8192];
    let k = listing::listing_of_input(&plan, n, &mut text);
    io::write_all(1, &text[..k]);
}
