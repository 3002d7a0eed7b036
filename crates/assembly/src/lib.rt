//! A link of a network that is lent, by its place.
#![tactic(auto)]

ghost use Rattle.std.specs.Prelude.{◌≡◌, ◌<◌};
ghost use Rattle.network.specs.Places.{row_of};

use network::Network;
use reliability::Link;

/// The link at place i.
pub fn link_at(net: &Network, i: usize) -> Link
    requires { i < 64 }
    ensures { result ≡ row_of net.now.a net.now.b net.now.low net.now.high i }
{
    Link {
        a: net.a[i],
        b: net.b[i],
        low: net.low[i],
        high: net.high[i],
    }
}
