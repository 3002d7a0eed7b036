//! Sets of the places 0 to 63, as the bits of a u64. Each contract is over `members s`, the list of 64 Bools, lowest place first.
#![tactic(auto, using(crate::proofs::Operations::on_digits))]

ghost use Rattle.std.specs.Prelude.{◌≡◌, true, false, ◌≤◌, ◌<◌, set, get_or};
ghost use Rattle.bits.specs.Members.{members, first_of, how_many, both, either, difference, below};

/// Whether i is in s.
pub fn has(s: u64, i: usize) -> bool
    requires { i < 64 }
    ensures { result ≡ get_or (members s) i false }
{
    (s >> i) & 1 == 1
}

/// s with i.
pub fn with(s: u64, i: usize) -> u64
    requires { i < 64 }
    ensures { members result ≡ set (members s) i true }
{
    s | (1u64 << i)
}

/// s without i.
pub fn without(s: u64, i: usize) -> u64
    requires { i < 64 }
    ensures { members result ≡ set (members s) i false }
{
    s & !(1u64 << i)
}

/// The lowest place of s: 64 where there is none.
pub fn lowest(s: u64) -> usize
    ensures { result ≡ first_of (members s) }
{
    s.trailing_zeros() as usize
}

/// s without its lowest place.
pub fn without_lowest(s: u64) -> u64
    requires { 0 < s }
    ensures { members result ≡ set (members s) (first_of (members s)) false }
{
    s & (s - 1)
}

/// How many places s has.
pub fn count(s: u64) -> u32
    ensures { result ≡ how_many (members s) }
{
    s.count_ones()
}

/// What is in s and in t.
pub fn meet(s: u64, t: u64) -> u64
    ensures { members result ≡ both (members s) (members t) }
{
    s & t
}

/// What is in s or in t.
pub fn union(s: u64, t: u64) -> u64
    ensures { members result ≡ either (members s) (members t) }
{
    s | t
}

/// What is in s and not in t.
pub fn difference(s: u64, t: u64) -> u64
    ensures { members result ≡ difference (members s) (members t) }
{
    s & !t
}

/// The places 0 to n - 1.
pub fn full(n: u64) -> u64
    requires { n ≤ 64 }
    ensures { members result ≡ below n }
{
    if n == 64 { u64::MAX } else { (1u64 << n) - 1 }
}
