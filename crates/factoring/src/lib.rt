//! The figure of any network, from work set aside or from nothing: it is made simple, and then worked.
#![tactic(auto)]

ghost use Rattle.std.specs.Prelude.{◌≡◌, ◌^◌, ◌<◌};
ghost use Rattle.reliability.specs.Terminals.{figure, tree};
ghost use Rattle.network.specs.Places.{terminals_of, Invariant};
ghost use Rattle.sittings.specs.Sittings.{resumed};
ghost use Rattle.sittings.specs.Entries.{opens_in};
ghost use Rattle.engine.specs.Carrying.{Carries, Worked};

use network::Network;
use reliability::Figure;
use simple::Begun;
use sittings::Carried;

/// The figure of the chosen nodes of a network under a limit, and what it sets aside.
pub fn carry(net: Network, limit: u64, row: &mut [u32; 192], left: usize) -> Carried
    requires { Invariant net × (limit < 2 ^ 32) × Carries (tree (terminals_of net)) row.old 0 left }
    ensures { Worked (resumed (tree (terminals_of net)) (opens_in row.old 0 left)) limit row.old 0 result row.new }
{
    match simple::start(net) {
        Begun::Settled(units) => rows::whole(figures::settled(units)),
        Begun::Simple(rest) => engine::run(&rest, limit, row, 0, left),
    }
}

/// The figure of the chosen nodes of a network under a limit, from nothing.
pub fn work(net: Network, limit: u64) -> Figure
    requires { Invariant net × (limit < 2 ^ 32) }
    ensures { result ≡ figure (terminals_of net) limit }
{
    let mut row = [0u32; 192];
    carry(net, limit, &mut row, 0).figure
}
