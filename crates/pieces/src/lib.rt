//! The pieces in which the links in use leave the nodes: numbers and arrays alone.
#![tactic(auto)]

ghost use Rattle.std.specs.Prelude.{◌≡◌, true, false, ◌^◌, ◌<◌, get_or};
ghost use Rattle.bits.specs.Members.{members};
ghost use Rattle.reliability.specs.Networks.{pieces};
ghost use Rattle.search.specs.Searches.{nodes_in, ends_in, Incidence, Bounded, Ended};
ghost use Rattle.pieces.specs.Pieces.{Closed, PieceOf};

/// Of a set of nodes that no link leaves, those in v's piece: from v on, each link is followed at most once.
pub fn piece_of(v: usize, nodes: u64, alive: u64, at: &[u64; 32], a: &[u8; 64], b: &[u8; 64]) -> u64
    requires { (v < 32) × (get_or (members nodes) v false ≡ true) × Incidence at.now alive a.now b.now × Bounded alive a.now b.now × Closed nodes alive a.now b.now }
    ensures { PieceOf result nodes (ends_in alive a.now b.now) v }
{
    let mut seen = bits::with(0, v);
    let mut near = at[v];
    let mut left = alive;
    while seen != nodes {
        let todo = bits::meet(near, left);
        if todo == 0 {
            return seen;
        }
        let k = bits::lowest(todo);
        let x = a[k] as usize;
        let y = b[k] as usize;
        seen = bits::with(bits::with(seen, x), y);
        near = bits::union(near, bits::union(at[x], at[y]));
        left = bits::without(left, k);
    }
    seen
}

/// How many pieces the links in use leave the nodes in: one by one, each from its lowest node on.
pub fn count(nodes: u64, alive: u64, at: &[u64; 32], a: &[u8; 64], b: &[u8; 64]) -> u32
    requires { (nodes < 2 ^ 32) × Incidence at.now alive a.now b.now × Ended nodes alive a.now b.now }
    ensures { result ≡ pieces (nodes_in nodes) (ends_in alive a.now b.now) }
{
    let mut rest = nodes;
    let mut count = 0;
    while rest != 0 {
        let v = bits::lowest(rest);
        let piece = piece_of(v, rest, alive, at, a, b);
        rest = bits::difference(rest, piece);
        count += 1;
    }
    count
}
