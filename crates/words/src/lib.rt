//! Numbers in bytes, little-endian: read and written.
#![tactic(auto)]

ghost use Rattle.std.specs.Prelude.{◌≡◌, ℕ, ◌+◌, ◌*◌, ◌^◌, ◌≤◌, ◌<◌, List, length};
ghost use Rattle.words.specs.Words.{byte, word16, word32, with16, with32};
ghost use Rattle.words.specs.ReadBack.{read-back16, read-back32};

/// The byte at a place.
pub fn byte(s: &[u8], at: usize) -> u8
    requires { at + 1 ≤ length s.now }
    ensures { result ≡ byte s.now at }
{
    s[at]
}

/// A number of two or four bytes.
pub trait Word: Copy {
    ghost size: { ℕ };

    ghost number: { Self → ℕ };

    ghost word: { List ℕ → ℕ → Self };

    ghost written: { List ℕ → ℕ → Self → List ℕ };

    /// The number that stands at a place.
    fn read(s: &[u8], at: usize) -> Self
        requires { at + size ≤ length s.now }
        ensures { result ≡ word s.now at };

    /// The number written from a place on: the other bytes keep their contents.
    fn put(self, b: &mut [u8], at: usize)
        requires { at + size ≤ length b.old }
        ensures { b.new ≡ written b.old at self };

    ghost read_back: { (b : List ℕ) (at : ℕ) (x : Self) → at + size ≤ length b → number x < 2 ^ (8 * size) → word (written b at x) at ≡ x };
}

impl Word for u16 {
    ghost size = { 2 };

    ghost number = { λ x. x };

    ghost word = { word16 };

    ghost written = { with16 };

    ghost read_back = { read-back16 };

    fn read(s: &[u8], at: usize) -> u16 {
        u16::from_le_bytes([s[at], s[at + 1]])
    }

    fn put(self, b: &mut [u8], at: usize) {
        b[at..at + 2].copy_from_slice(&self.to_le_bytes());
    }
}

impl Word for u32 {
    ghost size = { 4 };

    ghost number = { λ x. x };

    ghost word = { word32 };

    ghost written = { with32 };

    ghost read_back = { read-back32 };

    fn read(s: &[u8], at: usize) -> u32 {
        u32::from_le_bytes([s[at], s[at + 1], s[at + 2], s[at + 3]])
    }

    fn put(self, b: &mut [u8], at: usize) {
        b[at..at + 4].copy_from_slice(&self.to_le_bytes());
    }
}
