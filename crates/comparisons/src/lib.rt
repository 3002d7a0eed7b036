//! What is made of two figures, of all nodes: the importance of a link, and the difference of two networks.
#![tactic(auto)]

ghost use Rattle.std.specs.Prelude.{◌≡◌, ◌^◌, ◌<◌};
ghost use Rattle.reliability.specs.Comparisons.{importance, difference};
ghost use Rattle.network.specs.Places.{network_of, index_of, Used, Invariant};

use network::Network;
use reliability::{Difference, Figure};

/// The importance of the link at place i. A loop's sound and broken networks are both the network without it.
pub fn importance(net: Network, i: usize, limit: u64) -> Figure
    requires { Invariant net × Used net i × (limit < 2 ^ 31) × (net.chosen ≡ net.nodes) }
    ensures { result ≡ importance (network_of net) (index_of net i) limit }
{
    let e = net.link(i);
    let broken = factoring::work(net.deleted(i), limit);
    if e.a == e.b {
        return figures::lessened(broken, broken);
    }
    let sound = factoring::work(net.contracted(i), limit);
    figures::lessened(sound, broken)
}

/// The difference of two networks: the first minus the second.
pub fn difference(first: Network, second: Network, limit: u64) -> Difference
    requires { Invariant first × Invariant second × (limit < 2 ^ 31) × (first.chosen ≡ first.nodes) × (second.chosen ≡ second.nodes) }
    ensures { result ≡ difference (network_of first) (network_of second) limit }
{
    let f = factoring::work(first, limit);
    let g = factoring::work(second, limit);
    figures::minus(f, g)
}
