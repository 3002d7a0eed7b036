//! The parts of a network by value, as it changes: numbers and arrays alone.
#![tactic(auto)]

ghost use Rattle.std.specs.Prelude.{◌≡◌, true, false, cond, ◌^◌, ◌≤◌, ◌<◌, min, max, length, get_or, set};
ghost use Rattle.bits.specs.Members.{members};
ghost use Rattle.rounding.specs.Rounding.{S, product, parallel, series};
ghost use Rattle.reliability.specs.Rule.{rename, without};
ghost use Rattle.reliability.specs.Terminals.{into};
ghost use Rattle.search.specs.Searches.{nodes_in};
ghost use Rattle.parts.specs.Tallies.{Written, Unlinked, Merged, Cleared, Remaining, changed_at};

use rounding::Direction;
use search::Places;

/// Link i is not at node x any more.
pub fn take_out(at: &mut [u64; 32], x: u8, i: usize)
    requires { (x < 32) × (i < 64) }
    ensures { Written false x i at.old at.new }
{
    let v = x as usize;
    at[v] = bits::without(at[v], i);
}

/// Link i is at node x.
pub fn put_in(at: &mut [u64; 32], x: u8, i: usize)
    requires { (x < 32) × (i < 64) }
    ensures { Written true x i at.old at.new }
{
    let v = x as usize;
    at[v] = bits::with(at[v], i);
}

/// Link i, which joins x and y, goes: it is at neither any more. Answers which of the links in alive are left.
pub fn unlink(at: &mut [u64; 32], alive: u64, x: u8, y: u8, i: usize) -> u64
    requires { (x < 32) × (y < 32) × (i < 64) }
    ensures left { members result ≡ set (members alive) i false }
    ensures out { Unlinked x y i at.old at.new }
{
    take_out(at, x, i);
    take_out(at, y, i);
    bits::without(alive, i)
}

/// The links at node gone are at keep. Answers which they were.
pub fn merge(at: &mut [u64; 32], keep: u8, gone: u8) -> u64
    requires { (keep < 32) × (gone < 32) }
    ensures moved { members result ≡ members (get_or at.old gone 0) }
    ensures merged { Merged keep gone at.old at.new }
{
    let k = keep as usize;
    let g = gone as usize;
    let moved = at[g];
    at[k] = bits::union(at[k], moved);
    at[g] = 0;
    moved
}

/// At the places of a set, every end gone becomes keep.
pub fn rename(ends: &mut [u8; 64], places: u64, keep: u8, gone: u8)
    ensures { ends.new ≡ changed_at (rename keep gone) (members places) ends.old }
{
    for k in Places::of(places) {
        let x = ends[k];
        ends[k] = if x == gone { keep } else { x };
    }
}

/// The lower of two ends.
pub fn lower(x: u8, y: u8) -> u8
    ensures { result ≡ min x y }
{
    x.min(y)
}

/// The higher of two ends.
pub fn higher(x: u8, y: u8) -> u8
    ensures { result ≡ max x y }
{
    x.max(y)
}

/// The nodes without v.
pub fn without_node(nodes: u32, v: usize) -> u32
    requires { v < 64 }
    ensures { nodes_in result ≡ without v (nodes_in nodes) }
{
    bits::without(nodes as u64, v) as u32
}

/// The nodes with gone taken into keep: keep is among them if either was.
pub fn into(nodes: u32, keep: usize, gone: usize) -> u32
    requires { (keep < 32) × (gone < 32) }
    ensures { nodes_in result ≡ into keep gone (nodes_in nodes) }
{
    if bits::has(nodes as u64, gone) {
        bits::with(bits::without(nodes as u64, gone), keep) as u32
    } else {
        nodes
    }
}

/// The links at the nodes of a set go. Answers which of the links in alive are left.
pub fn clear(at: &mut [u64; 32], nodes: u64, alive: u64) -> u64
    requires { nodes < 2 ^ 32 }
    ensures remaining { Remaining nodes at.old alive result }
    ensures cleared { Cleared nodes at.old at.new }
{
    let mut left = alive;
    for v in Places::of(nodes) {
        left = bits::difference(left, at[v]);
        at[v] = 0;
    }
    left
}

/// The value of two links at a node as one: in series where the node is chosen, else their product.
pub fn line(chosen: bool, d: Direction, p: u32, q: u32) -> u32
    requires { (p ≤ S) × (q ≤ S) }
    ensures { result ≡ cond chosen (series d p q) (product d p q) }
{
    if chosen {
        rounding::series(d, p, q)
    } else {
        rounding::product(d, p, q)
    }
}

/// Place i gets the value of links i and j side by side.
pub fn join(values: &mut [u32; 64], d: Direction, i: usize, j: usize)
    requires { (i < 64) × (j < 64) × (get_or values.old i 0 ≤ S) × (get_or values.old j 0 ≤ S) }
    ensures { values.new ≡ set values.old i (parallel d (get_or values.old i 0) (get_or values.old j 0)) }
{
    values[i] = rounding::parallel(d, values[i], values[j]);
}
