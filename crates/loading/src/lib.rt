//! The network by value of an accepted plan, under a table of ratings.
#![tactic(auto)]

ghost use Rattle.std.specs.Prelude.{◌≡◌, Ok};
ghost use Rattle.reader.specs.Layout.{size_m};
ghost use Rattle.ratings.specs.Ratings.{T};
ghost use Rattle.tables.specs.Tables.{rating, AcceptedTable};
ghost use Rattle.plan.specs.Plans.{verdict, plan_of};
ghost use Rattle.network.specs.Places.{network_of, Built, Invariant};

use network::Network;

/// The network of an accepted plan, all nodes chosen, its links at the places 0 to m - 1.
pub fn network_of(plan: &[u8], table: &[u8]) -> Network
    requires { (verdict plan.now ≡ Ok tt) × AcceptedTable table.now }
    ensures { (network_of result ≡ plan_of (rating table.now) plan.now) × Built result (size_m plan.now) × Invariant result × (result.chosen ≡ result.nodes) }
{
    let s = reader::sizes_of(plan);
    let mut net = Network::new(u32::from(s.n));
    for i in 0..usize::from(s.m) {
        net = net.with_link(i, plan::link_at(plan, table, i));
    }
    net
}

/// The same under the built-in table.
pub fn built_in(plan: &[u8]) -> Network
    requires { verdict plan.now ≡ Ok tt }
    ensures { (network_of result ≡ plan_of T plan.now) × Built result (size_m plan.now) × Invariant result × (result.chosen ≡ result.nodes) }
{
    network_of(plan, b"")
}
