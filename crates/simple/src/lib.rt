//! A network by value made simple: steps 1 to 4 of the written rule, as often as they fit.
#![tactic(auto)]

ghost use Rattle.std.specs.Prelude.{◌≡◌};
ghost use Rattle.search.specs.Searches.{Inside};
ghost use Rattle.reliability.specs.Networks.{pieces_of};
ghost use Rattle.reliability.specs.Terminals.{among};
ghost use Rattle.reliability.specs.Simple.{Loopless, without_loops, trimmed};
ghost use Rattle.network.specs.Places.{network_of, terminals_of, chosen_of, Invariant};
ghost use Rattle.simple.specs.Begins.{Several, ChosenPiece, Begins};

use network::Network;
use rounding::UNITS;

/// What is left of a network once steps 1 to 4 fit no more: where it is settled its figure in units, else a simple network.
#[derive(Clone, Copy)]
pub enum Begun {
    Settled(u32),
    Simple(Network),
}

/// The network without its loops: step 1 as often as it fits.
pub fn without_loops(net: Network) -> Network
    requires { Invariant net }
    ensures { (terminals_of result ≡ among (chosen_of net) (without_loops (network_of net))) × Invariant result }
{
    let Some(i) = search::first_loop(net.alive, &net.a, &net.b) else {
        return net;
    };
    without_loops(net.deleted(i))
}

/// How many pieces the links leave the nodes in.
pub fn pieces(net: Network) -> u32
    requires { Invariant net }
    ensures { result ≡ pieces_of (network_of net) }
{
    pieces::count(net.nodes as u64, net.alive, &net.at, &net.a, &net.b)
}

/// The nodes in one piece with the lowest chosen node.
fn chosen_piece(net: Network) -> u64
    requires { Invariant net × Several net }
    ensures { ChosenPiece net result }
{
    let v = bits::lowest(net.chosen as u64);
    pieces::piece_of(v, net.nodes as u64, net.alive, &net.at, &net.a, &net.b)
}

/// The network without the links outside of that piece: step 3 as often as it fits.
fn kept(mut net: Network, piece: u64) -> Network
    requires { Invariant net × Several net × Loopless (network_of net) × ChosenPiece net piece × Inside net.chosen piece }
    ensures { (terminals_of result ≡ trimmed (terminals_of net)) × Invariant result }
{
    let others = bits::difference(net.nodes as u64, piece);
    net.alive = parts::clear(&mut net.at, others, net.alive);
    net
}

/// Steps 1 to 4 as often as they fit.
pub fn start(net: Network) -> Begun
    requires { Invariant net }
    ensures { Begins net result }
{
    let n = without_loops(net);
    let chosen = n.chosen as u64;
    if search::at_most_one(chosen) {
        return Begun::Settled(UNITS);
    }
    let piece = chosen_piece(n);
    if bits::difference(chosen, piece) != 0 {
        return Begun::Settled(0);
    }
    let rest = kept(n, piece);
    Begun::Simple(rest.parallel())
}
