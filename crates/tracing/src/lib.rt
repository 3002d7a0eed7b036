//! Check 11: whether the written rule comes to the open splits of saved work on a network, each on the first link or on the chosen one.
#![tactic(auto)]

ghost use Rattle.std.specs.Prelude.{◌≡◌, false, ◌+◌, ◌≤◌, ◌<◌, length};
ghost use Rattle.reliability.specs.Rule.{is_loop};
ghost use Rattle.reliability.specs.Terminals.{tree, end_left, series_left, sound_left, broken_left};
ghost use Rattle.reliability.specs.Simple.{Plain};
ghost use Rattle.network.specs.Places.{terminals_of, links_of, index_of, link_of, Used, Fitting, Invariant};
ghost use Rattle.network.specs.Workable.{Workable};
ghost use Rattle.sittings.specs.Sittings.{traced};
ghost use Rattle.sittings.specs.Entries.{opens_in};

use network::Network;
use reliability::Step;
use simple::Begun;
use steps::Next;

/// Whether the open splits of the row from place k on, as many as are left, are splits of a simple network.
#[cycle(follow)]
fn follow(net: &Network, row: &[u32; 192], k: usize, left: usize) -> bool
    requires { Workable net.now × (k + left ≤ 64) }
    ensures { result ≡ traced (tree (terminals_of net.now)) (opens_in row.now k left) }
{
    if left == 0 {
        return true;
    }
    match steps::step(net) {
        Next::OneNode => false,
        Next::End(v, i) => after_end(net, v, i, row, k, left),
        Next::Series(v, i, j) => after_series(net, v, i, j, row, k, left),
        Next::Split(c) => {
            let i = steps::split_on(net.alive, c, row, k, left);
            if row[3 * k] != steps::place(net.alive, i) {
                return false;
            }
            if rows::is_known(row, k, left) {
                after_deletion(net, i, row, k + 1, left - 1)
            } else {
                after_contraction(net, i, row, k + 1, left - 1)
            }
        }
    }
}

/// The same of what an end leaves: node v goes with its link i. A function of its own, as are those of the other steps, so that follow
/// has no second network among its locals: each local is zeroed at a call, and takes stack.
#[cycle(follow)]
fn after_end(net: &Network, v: usize, i: usize, row: &[u32; 192], k: usize, left: usize) -> bool
    requires { Workable net.now × Fitting net.now (Step.End v i) × (k + left ≤ 64) }
    ensures { result ≡ traced (tree (end_left v (index_of net.now i) (terminals_of net.now))) (opens_in row.now k left) }
{
    let r = net.end(v, i);
    follow(&r, row, k, left)
}

/// The same of what two links in series leave: node v goes, and its links i and j become one.
#[cycle(follow)]
fn after_series(
    net: &Network,
    v: usize,
    i: usize,
    j: usize,
    row: &[u32; 192],
    k: usize,
    left: usize,
) -> bool
    requires { Workable net.now × Fitting net.now (Step.Series v i j) × (k + left ≤ 64) }
    ensures { result ≡ traced (tree (series_left v (index_of net.now i) (index_of net.now j) (terminals_of net.now))) (opens_in row.now k left) }
{
    let r = net.series(v, i, j).parallel();
    follow(&r, row, k, left)
}

/// The same of the broken branch of a split on link i.
#[cycle(follow)]
fn after_deletion(net: &Network, i: usize, row: &[u32; 192], k: usize, behind: usize) -> bool
    requires { Workable net.now × Used net.now i × (length (broken_left (index_of net.now i) (terminals_of net.now)).network.links < length (links_of net.now)) × (k + behind ≤ 64) }
    ensures { result ≡ traced (tree (broken_left (index_of net.now i) (terminals_of net.now))) (opens_in row.now k behind) }
{
    let broken = net.deleted(i);
    match simple::start(broken) {
        Begun::Settled(_) => behind == 0,
        Begun::Simple(rest) => follow(&rest, row, k, behind),
    }
}

/// The same of the sound branch of a split on link i.
#[cycle(follow)]
fn after_contraction(net: &Network, i: usize, row: &[u32; 192], k: usize, left: usize) -> bool
    requires { Workable net.now × Used net.now i × (is_loop (link_of net.now i) ≡ false) × Plain (sound_left (index_of net.now i) (terminals_of net.now)) × (length (sound_left (index_of net.now i) (terminals_of net.now)).network.links < length (links_of net.now)) × (k + left ≤ 64) }
    ensures { result ≡ traced (tree (sound_left (index_of net.now i) (terminals_of net.now))) (opens_in row.now k left) }
{
    let r = net.contracted(i).parallel();
    follow(&r, row, k, left)
}

/// Whether the first open splits of the row, as many as are left, are splits of a network, once it is made simple.
pub fn traces(net: Network, row: &[u32; 192], left: usize) -> bool
    requires { Invariant net × (left ≤ 64) }
    ensures { result ≡ traced (tree (terminals_of net)) (opens_in row.now 0 left) }
{
    match simple::start(net) {
        Begun::Settled(_) => left == 0,
        Begun::Simple(rest) => follow(&rest, row, 0, left),
    }
}
