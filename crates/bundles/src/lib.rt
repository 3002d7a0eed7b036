//! Networks by value whose links stand for several side by side: a link's low value says for how many.
#![tactic(auto)]

ghost use Rattle.std.specs.Prelude.{◌≡◌};
ghost use Rattle.reliability.specs.Simple.{Loopless};
ghost use Rattle.polynomials.specs.Rows.{Fits};
ghost use Rattle.sets.specs.Bundles.{singles, most};
ghost use Rattle.network.specs.Places.{network_of, Invariant};
ghost use Rattle.bundles.specs.Bundled.{Bundled};

use network::Network;

/// The same network, each link for itself alone.
pub fn single(mut net: Network) -> Network
    requires { Invariant net }
    ensures { (network_of result ≡ singles (network_of net)) × (result.nodes ≡ net.nodes) × (result.chosen ≡ net.chosen) × Invariant result }
{
    net.low = [1u32; 64];
    net.high = [1u32; 64];
    net
}

/// Links with the same two ends as one, as long as there are such.
pub fn bundled(mut net: Network) -> Network
    requires { Invariant net × Loopless (network_of net) × Fits (λ x. most x (network_of net)) }
    ensures { Bundled net result }
{
    while let Some((i, j)) = search::first_pair(net.alive, &net.at, &net.a, &net.b) {
        let both = net.low[i] + net.low[j];
        net.low[i] = both;
        net.high[i] = both;
        let (x, y) = (net.a[j], net.b[j]);
        parts::take_out(&mut net.at, x, j);
        parts::take_out(&mut net.at, y, j);
        net.alive = bits::without(net.alive, j);
    }
    net
}
