//! Sets of places, marks of links and labels of nodes, as the search for two forests has them.
#![tactic(auto)]

ghost use Rattle.std.specs.Prelude.{ℕ, Bool, ◌≤◌, ◌<◌, ◌≡◌, map, cond, ltb, Some, None, ◌||◌, get_or, set, true};
ghost use Rattle.bits.specs.Members.{members, first_of};
ghost use Rattle.search.specs.Searches.{from};
ghost use Rattle.reliability.specs.Networks.{merge};
ghost use Rattle.game.specs.Game.{marked};
ghost use Rattle.game.specs.Forests.{table, has, meet, count};
ghost use Rattle.labelling.specs.Places.{places_of, Labelling, Grouped};

/// z, or the smaller of x and y where z is the larger.
#[tactic(auto, unfolding(reliability::specs::Networks::merge))]
fn merged(x: u8, y: u8, z: u8) -> u8
    ensures { result ≡ merge x y z }
{
    if z == x.max(y) { x.min(y) } else { z }
}

/// The labels x and y become one.
pub fn all_merged(mut labels: [u8; 32], x: u8, y: u8) -> [u8; 32]
    ensures { result ≡ map (merge x y) labels }
{
    for z in labels.iter_mut() {
        *z = merged(x, y, *z);
    }
    labels
}

/// Every node is its own label.
pub fn own_labels() -> [u8; 32]
    ensures { result ≡ from 0 32 }
{
    std::array::from_fn(|k| k as u8)
}

/// s, with i where t holds.
pub fn put(s: u64, i: usize, t: bool) -> u64
    requires { i < 64 }
    ensures { members result ≡ cond t (set (members s) i true) (members s) }
{
    if t { bits::with(s, i) } else { s }
}

/// The places below m at which a test holds.
pub fn where_true<F: Fn(usize) -> bool>(m: usize, test: F) -> u64
    requires most { m ≤ 64 }
    requires callable { (i : ℕ) → i < m → F.pre test i }
    ensures { (q : ℕ → Bool) → ((i : ℕ) → i < m → (t : Bool) → F.post test i t → t ≡ q i) → places_of m result ≡ table m q }
{
    let mut s = 0u64;
    for i in 0..m {
        s = put(s, i, test(i));
    }
    s
}

/// The links with the mark k.
pub fn with_mark(marks: [u8; 64], k: u8, m: usize) -> u64
    requires { m ≤ 64 }
    ensures { places_of m result ≡ table m (marked k marks) }
{
    where_true(m, |i| marks[i] == k)
}

/// The lowest place of a set, where it is below m.
pub fn first(s: u64, m: usize) -> Option<usize>
    ensures { result ≡ cond (ltb (first_of (members s)) m) (Some (first_of (members s))) None }
{
    let k = bits::lowest(s);
    if k < m { Some(k) } else { None }
}

/// Whether two sets have a place below m in common.
fn meets(s: u64, t: u64, m: usize) -> bool
    requires { m ≤ 64 }
    ensures { result ≡ meet m (places_of m s) (places_of m t) }
{
    first(bits::meet(s, t), m).is_some()
}

/// Whether f is of the next level.
fn joins_level(ds: u64, cut: u64, f: usize, m: usize) -> bool
    requires { (m ≤ 64) × (f < m) }
    ensures { result ≡ (has (places_of m ds) f || meet m (places_of m ds) (places_of m cut)) }
{
    bits::has(ds, f) || meets(ds, cut, m)
}

/// The next level.
pub fn next(cuts: [u64; 64], ds: u64, m: usize) -> u64
    requires { m ≤ 64 }
    ensures { places_of m result ≡ table m (λ f. has (places_of m ds) f || meet m (places_of m ds) (places_of m (get_or cuts f 0))) }
{
    where_true(m, |f| joins_level(ds, cuts[f], f, m))
}

/// The links with the mark k, counted.
pub fn how_many(marks: [u8; 64], k: u8, m: usize) -> u8
    requires { m ≤ 64 }
    ensures { result ≡ count m (marked k marks) }
{
    marks[..m].iter().filter(|x| **x == k).count() as u8
}

/// The group of each node below n, by the labels: the groups are counted by their lowest nodes. Else 0.
pub fn groups(labels: [u8; 32], n: usize) -> [u8; 32]
    requires { (n ≤ 32) × Labelling labels }
    ensures { Grouped labels n result }
{
    let mut groups = [0u8; 32];
    let mut c = 0u8; // the groups so far
    for v in 0..n {
        let w = usize::from(labels[v]);
        groups[v] = if w == v { c } else { groups[w] };
        c += u8::from(w == v); // one more at a lowest node
    }
    groups
}
