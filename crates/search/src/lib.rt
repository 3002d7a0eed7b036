//! The searches over the links in use, by place: numbers and arrays alone.
#![tactic(auto)]

ghost use Rattle.std.specs.Prelude.{◌≡◌, cond, ◌&&◌, ℕ, ◌+◌, ◌^◌, ◌<◌, get_or, eqb, leb};
ghost use Rattle.bits.specs.Members.{members, how_many};
ghost use Rattle.std.specs.Iterator.{YieldsFirst, item_count};
ghost use Rattle.search.specs.Searches.{places_in, Incidence, Bounded, found, loops, beside, pair_in, with_links, between_at, in_line, counts_of, count_sum, largest_in};

/// The places of a set, lowest first.
#[derive(Drop)]
pub struct Places(u64);

impl Iterator for Places {
    type Item = usize;

    ghost next_gives = { YieldsFirst (λ s. places_in s.0) };

    ghost remaining = { item_count (λ s. places_in s.0) };

    fn next(&mut self) -> Option<usize> {
        if self.0 == 0 {
            return None;
        }
        let k = bits::lowest(self.0);
        self.0 = bits::without_lowest(self.0);
        Some(k)
    }
}

impl Places {
    /// Those of s.
    pub fn of(s: u64) -> Places
        ensures { result.0 ≡ s }
    {
        Places(s)
    }
}

/// The first link that joins a node to itself.
pub fn first_loop(alive: u64, a: &[u8; 64], b: &[u8; 64]) -> Option<usize>
    ensures { result ≡ found (loops alive a.now b.now) }
{
    Places::of(alive).find(|k| a[*k] == b[*k])
}

/// The first link with a partner, and its earliest partner.
pub fn first_pair(alive: u64, at: &[u64; 32], a: &[u8; 64], b: &[u8; 64]) -> Option<(usize, usize)>
    requires { Bounded alive a.now b.now × Incidence at.now alive a.now b.now }
    ensures { result ≡ pair_in (beside a.now b.now) (places_in alive) }
{
    let mut left = Places::of(alive);
    while let Some(i) = left.next() {
        let partners = bits::meet(bits::meet(at[a[i] as usize], at[b[i] as usize]), left.0);
        if partners != 0 {
            return Some((i, bits::lowest(partners)));
        }
    }
    None
}

/// Whether s has one place at most.
pub fn at_most_one(s: u64) -> bool
    ensures { result ≡ leb (how_many (members s)) 1 }
{
    s == 0 || bits::without_lowest(s) == 0
}

fn is_one(s: u64) -> bool
    ensures { result ≡ eqb (how_many (members s)) 1 }
{
    s != 0 && bits::without_lowest(s) == 0
}

fn is_two(s: u64) -> bool
    ensures { result ≡ eqb (how_many (members s)) 2 }
{
    s != 0 && is_one(bits::without_lowest(s))
}

/// The lowest node with one link.
pub fn lowest_end(nodes: u64, at: &[u64; 32]) -> Option<usize>
    requires { nodes < 2 ^ 32 }
    ensures { result ≡ found (with_links 1 at.now nodes) }
{
    Places::of(nodes).find(|v| is_one(at[*v]))
}

/// The end of a link a to b that is not v.
pub fn across(v: u8, a: u8, b: u8) -> u8
    ensures { result ≡ cond (eqb a v) b a }
{
    if a == v { b } else { a }
}

/// Whether v is not chosen, or both its neighbours across the links at the two places of s are.
fn between(v: usize, s: u64, chosen: u64, a: &[u8; 64], b: &[u8; 64]) -> bool
    requires { (v < 32) × (how_many (members s) ≡ 2) × Bounded s a.now b.now }
    ensures { result ≡ between_at chosen a.now b.now v s }
{
    if !bits::has(chosen, v) {
        return true;
    }
    let i = bits::lowest(s);
    let j = bits::lowest(bits::without_lowest(s));
    let x = across(v as u8, a[i], b[i]);
    let y = across(v as u8, a[j], b[j]);
    bits::has(chosen, x as usize) && bits::has(chosen, y as usize)
}

/// Whether there are two links at v, in the places of s, that can become one.
fn in_line(v: usize, s: u64, chosen: u64, a: &[u8; 64], b: &[u8; 64]) -> bool
    requires { (v < 32) × Bounded s a.now b.now }
    ensures { result ≡ (eqb (how_many (members s)) 2 && between_at chosen a.now b.now v s) }
{
    is_two(s) && between(v, s, chosen, a, b)
}

/// The lowest node with two links that can become one.
pub fn lowest_in_line(
    nodes: u64,
    chosen: u64,
    at: &[u64; 32],
    a: &[u8; 64],
    b: &[u8; 64],
) -> Option<usize>
    requires { (nodes < 2 ^ 32) × ((v : ℕ) → v < 32 → Bounded (get_or at.now v 0) a.now b.now) }
    ensures { result ≡ found (in_line chosen at.now a.now b.now nodes) }
{
    Places::of(nodes).find(|v| in_line(*v, at[*v], chosen, a, b))
}

/// How many links each of the nodes has: 0 where a number is no node.
pub fn counts(nodes: u64, at: &[u64; 32]) -> [u8; 32]
    requires { nodes < 2 ^ 32 }
    ensures { result ≡ counts_of nodes at.now }
{
    let mut counts = [0u8; 32];
    for v in Places::of(nodes) {
        counts[v] = bits::count(at[v]) as u8;
    }
    counts
}

/// The first of the links whose two ends have the most links together: 64 where there is none.
pub fn largest_sum(alive: u64, counts: &[u8; 32], a: &[u8; 64], b: &[u8; 64]) -> usize
    requires { Bounded alive a.now b.now }
    ensures { result ≡ largest_in (count_sum counts.now a.now b.now) (places_in alive) }
{
    let mut best = bits::lowest(alive);
    let mut most = 0;
    for k in Places::of(alive) {
        let (x, y) = (counts[a[k] as usize], counts[b[k] as usize]);
        let sum = u32::from(x) + u32::from(y);
        if most < sum {
            most = sum;
            best = k;
        }
    }
    best
}
