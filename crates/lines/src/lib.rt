//! Text made of lines, each of some form.
#![tactic(auto)]

ghost use Rattle.std.specs.Prelude.{◌≡◌, ◌+◌, ◌≤◌, length};
ghost use Rattle.lines.specs.Lines.{Puts, decimal, meant, filled};

/// A number in decimal from a place on. Each of these functions returns the place behind what it has written.
#[tactic(auto, using(crate::proofs::Texts::digits_laid))]
fn put_decimal(text: &mut [u8], at: usize, x: u32) -> usize
    requires { at + length (decimal x) ≤ length text.old }
    ensures { Puts text.old at (decimal x) text.new result }
{
    let mut buffer = itoa::Buffer::new();
    let digits = buffer.format(x).as_bytes();
    let next = at + digits.len();
    text[at..next].copy_from_slice(digits);
    next
}

/// What a character of a line's form stands for.
#[tactic(auto, using(crate::proofs::Texts::meanings))]
fn put_meant(text: &mut [u8], at: usize, c: u8, numbers: &[u32]) -> usize
    requires { at + length (meant numbers.now c) ≤ length text.old }
    ensures { Puts text.old at (meant numbers.now c) text.new result }
{
    if c.is_ascii_digit() {
        let k = usize::from(c - b'0');
        return put_decimal(text, at, numbers.get(k).copied().unwrap_or(0));
    }
    text[at] = c;
    at + 1
}

/// A line of that form.
pub fn put_line(text: &mut [u8], at: usize, form: &[u8], numbers: &[u32]) -> usize
    requires { at + length (filled numbers.now form.now) ≤ length text.old }
    ensures { Puts text.old at (filled numbers.now form.now) text.new result }
{
    let mut next = at;
    for c in form {
        next = put_meant(text, next, *c, numbers);
    }
    next
}
