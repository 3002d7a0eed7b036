//! The plan file as it stands: its sizes, and the entry of each link, read from the lent bytes.
#![tactic(auto)]

ghost use Rattle.std.specs.Prelude.{◌≡◌, ◌+◌, ◌*◌, ◌≤◌, ◌<◌, length};
ghost use Rattle.words.specs.Words.{byte, word32};
ghost use Rattle.reader.specs.Layout.{size_n, size_m, first_end, second_end, file_value};

use words::Word;

/// n and m, the numbers of nodes and links.
#[derive(Clone, Copy, Debug, PartialEq, Eq)]
pub struct Sizes {
    pub n: u16,
    pub m: u16,
}

/// The lent plan and the position of what is read next.
#[derive(Clone, Copy, Debug, PartialEq, Eq)]
pub struct Reader<'a> {
    pub plan: &'a [u8],
    pub at: usize,
}

/// A link as it stands in the file.
#[derive(Clone, Copy, Debug, PartialEq, Eq)]
pub struct Entry {
    pub a: u8,
    pub b: u8,
    pub value: u32,
}

impl<'a> Reader<'a> {
    /// At the start.
    pub fn new(plan: &'a [u8]) -> Reader<'a>
        ensures { (result.plan ≡ plan.entry) × (result.at ≡ 0) }
    {
        Reader { plan, at: 0 }
    }

    /// Moved on by k bytes.
    pub fn advanced(self, k: usize) -> Reader<'a>
        requires { self.at + k ≤ length self.plan.now }
        ensures { (result.plan ≡ self.entry.plan) × (result.at ≡ self.entry.at + k) }
    {
        Reader {
            at: self.at + k,
            ..self
        }
    }

    /// The byte at its position.
    pub fn byte(self) -> u8
        requires { self.at + 1 ≤ length self.plan.now }
        ensures { result ≡ byte self.entry.plan.now self.entry.at }
    {
        words::byte(self.plan, self.at)
    }

    /// The number of two or four bytes that stands there.
    pub fn word<W: Word>(self) -> W
        requires { self.at + W.size ≤ length self.plan.now }
        ensures { result ≡ W.word self.entry.plan.now self.entry.at }
    {
        W::read(self.plan, self.at)
    }
}

/// n and m.
pub fn sizes_of(plan: &[u8]) -> Sizes
    requires { 4 ≤ length plan.now }
    ensures { (result.n ≡ size_n plan.now) × (result.m ≡ size_m plan.now) }
{
    let r = Reader::new(plan);
    Sizes {
        n: r.word(),
        m: r.advanced(2).word(),
    }
}

/// The entry whose ends and value stand at two positions.
fn entry_from(plan: &[u8], ends: usize, value: usize) -> Entry
    requires { (ends + 2 ≤ length plan.now) × (value + 4 ≤ length plan.now) }
    ensures { (result.a ≡ byte plan.now ends) × (result.b ≡ byte plan.now (ends + 1)) × (result.value ≡ word32 plan.now value) }
{
    let start = Reader::new(plan);
    let first = start.advanced(ends);
    Entry {
        a: first.byte(),
        b: first.advanced(1).byte(),
        value: start.advanced(value).word(),
    }
}

/// Link i of a plan of the right length.
pub fn entry_at(plan: &[u8], i: usize) -> Entry
    requires { (i < size_m plan.now) × (length plan.now ≡ 4 + 6 * size_m plan.now) }
    ensures { (result.a ≡ first_end plan.now i) × (result.b ≡ second_end plan.now i) × (result.value ≡ file_value plan.now i) }
{
    let m = usize::from(sizes_of(plan).m);
    entry_from(plan, 4 + 2 * i, 4 + 2 * m + 4 * i)
}
