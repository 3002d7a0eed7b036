//! How many sets of i links connect a network by value, for each i.
#![tactic(auto)]

ghost use Rattle.std.specs.Prelude.{◌≡◌, ◌++◌, ℕ, suc, ◌≤◌, ◌<◌, length, drop};
ghost use Rattle.polynomials.specs.Rows.{eval};
ghost use Rattle.sets.specs.Sets.{connecting_row};
ghost use Rattle.sets.specs.Bundles.{worth};
ghost use Rattle.network.specs.Places.{network_of, links_of, Invariant, Fitting};
ghost use Rattle.network.specs.Workable.{Workable};
ghost use Rattle.steps.specs.Simple.{step_of};
ghost use Rattle.counting.specs.Countable.{Countable};

use network::Network;
use polynomials::Row;
use steps::Next;

/// The row of a network: entry i counts the sets of i of what its links stand for that connect all nodes. By the steps of the written
/// rule; links i and j of a node are worked as a split on j, where the row with i alone serves both branches.
fn work(net: Network) -> Row
    requires { Countable net }
    ensures { (x : ℕ) → eval x result.entries ≡ worth x (network_of net) }
{
    if let Some(k) = search::first_loop(net.alive, &net.a, &net.b) {
        let l = net.low[k];
        return work(net.deleted(k)).looped(l);
    }
    let n = bundles::bundled(net);
    if 1 < simple::pieces(n) {
        return Row::nothing();
    }
    match steps::step(&n) {
        Next::OneNode => Row::one(),
        Next::End(_, e) => {
            let c = n.low[e];
            work(n.contracted(e)).times(c)
        }
        Next::Series(_, i, j) => {
            let c = n.low[i];
            let d = n.low[j];
            let both = work(n.contracted(j).contracted(i));
            let one = work(n.deleted(j).contracted(i));
            let sound = Row::split(c, both, one);
            let broken = one.times(c);
            Row::split(d, sound, broken)
        }
        Next::Split(s) => {
            let c = n.low[s];
            let sound = work(n.contracted(s));
            let broken = work(n.deleted(s));
            Row::split(c, sound, broken)
        }
    }
}

/// The counts of a network's m links at the places 0 to m of a lent row, the rest left.
pub fn fill(net: Network, row: &mut [u64])
    requires { Invariant net × (net.chosen ≡ net.nodes) × (length (links_of net) ≤ 24) × (length (links_of net) < length row.old) }
    ensures { row.new ≡ connecting_row (network_of net) ++ drop (suc (length (links_of net))) row.old }
{
    let m = bits::count(net.alive) as usize;
    let counts = work(bundles::single(net));
    row[..=m].copy_from_slice(&counts.entries[..=m]);
}
