//! Which step of the written rule fits a simple network.
#![tactic(auto)]

ghost use Rattle.std.specs.Prelude.{◌≡◌, ◌<◌};
ghost use Rattle.bits.specs.Members.{members};
ghost use Rattle.network.specs.Places.{rank, Fitting};
ghost use Rattle.network.specs.Workable.{Workable};
ghost use Rattle.steps.specs.Simple.{step_of, split_on};

use network::Network;

/// The step that fits a simple network: one chosen node is left, an end, two links in series, or a split.
#[derive(Clone, Copy, Debug, PartialEq, Eq)]
pub enum Next {
    OneNode,
    End(usize, usize),
    Series(usize, usize, usize),
    Split(usize),
}

/// The place of link i among the links left.
pub fn place(alive: u64, i: usize) -> u32
    requires { i < 64 }
    ensures { result ≡ rank i (members alive) }
{
    bits::count(bits::meet(alive, bits::full(i as u64)))
}

/// The link to split on: the chosen link i; but with open splits left, the first link where the one at place k of the row is not on i.
pub fn split_on(alive: u64, i: usize, row: &[u32; 192], k: usize, left: usize) -> usize
    requires { (i < 64) × (k < 64) }
    ensures { result ≡ split_on alive i row.now k left }
{
    if left == 0 || row[3 * k] == place(alive, i) {
        i
    } else {
        bits::lowest(alive)
    }
}

/// Which step fits a simple network.
pub fn step(net: &Network) -> Next
    requires { Workable net.now }
    ensures { Fitting net.now (step_of result) }
{
    if search::at_most_one(net.chosen as u64) {
        return Next::OneNode;
    }
    let all = net.nodes as u64;
    if let Some(v) = search::lowest_end(all, &net.at) {
        return Next::End(v, bits::lowest(net.at[v]));
    }
    if let Some(v) = search::lowest_in_line(all, net.chosen as u64, &net.at, &net.a, &net.b) {
        let s = net.at[v];
        return Next::Series(v, bits::lowest(s), bits::lowest(bits::without_lowest(s)));
    }
    let counts = search::counts(all, &net.at);
    Next::Split(search::largest_sum(net.alive, &counts, &net.a, &net.b))
}
