//! The engine: the written rule on a simple network by value, from work set aside or from nothing.
#![tactic(auto)]

ghost use Rattle.std.specs.Prelude.{◌≡◌, false, ◌^◌, ◌<◌, length};
ghost use Rattle.reliability.specs.Rule.{is_loop};
ghost use Rattle.reliability.specs.Terminals.{end_left, series_left, sound_left, broken_left};
ghost use Rattle.reliability.specs.Simple.{Plain};
ghost use Rattle.network.specs.Places.{terminals_of, links_of, index_of, link_of, Used, Fitting};
ghost use Rattle.network.specs.Workable.{Workable};
ghost use Rattle.simple.specs.Begins.{Several};
ghost use Rattle.engine.specs.Carrying.{Resumable, Resumes};

use network::Network;
use reliability::Step;
use rounding::UNITS;
use sittings::Carried;
use steps::Next;

/// The figure of a simple network under a limit, and what it sets aside: what each step leaves is worked by the same rule, with a link
/// less. Of the row the open splits from place k on, as many as are left, are taken already.
#[cycle(run)]
pub fn run(net: &Network, limit: u64, row: &mut [u32; 192], k: usize, left: usize) -> Carried
    requires workable { Workable net.now × (limit < 2 ^ 32) }
    requires carries { Resumable (terminals_of net.now) row.old k left }
    ensures { Resumes (terminals_of net.now) limit row.old k left result row.new }
{
    match steps::step(net) {
        Next::OneNode => rows::whole(figures::settled(UNITS)),
        Next::End(v, i) => end(net, v, i, limit, row, k, left),
        Next::Series(v, i, j) => series(net, v, i, j, limit, row, k, left),
        Next::Split(c) => split(net, c, limit, row, k, left),
    }
}

/// The same where node v is an end, with link i.
#[cycle(run)]
fn end(
    net: &Network,
    v: usize,
    i: usize,
    limit: u64,
    row: &mut [u32; 192],
    k: usize,
    left: usize,
) -> Carried
    requires workable { Workable net.now × Fitting net.now (Step.End v i) × (limit < 2 ^ 32) }
    requires carries { Resumable (terminals_of net.now) row.old k left }
    ensures { Resumes (terminals_of net.now) limit row.old k left result row.new }
{
    let e = assembly::link_at(net, i);
    let multiplies = bits::has(net.chosen as u64, v);
    let w = search::across(v as u8, e.a, e.b);
    let joined = parts::into(net.chosen, w as usize, v);
    let f = if search::at_most_one(joined as u64) {
        rows::whole(figures::settled(UNITS))
    } else {
        after_end(net, v, i, limit, row, k, left)
    };
    Carried {
        figure: figures::end_of(multiplies, e, f.figure),
        ..f
    }
}

/// The same where links i and j are in series at node v.
#[cycle(run)]
fn series(
    net: &Network,
    v: usize,
    i: usize,
    j: usize,
    limit: u64,
    row: &mut [u32; 192],
    k: usize,
    left: usize,
) -> Carried
    requires workable { Workable net.now × Fitting net.now (Step.Series v i j) × (limit < 2 ^ 32) }
    requires carries { Resumable (terminals_of net.now) row.old k left }
    ensures { Resumes (terminals_of net.now) limit row.old k left result row.new }
{
    let e = assembly::link_at(net, i);
    let h = assembly::link_at(net, j);
    let multiplies = bits::has(net.chosen as u64, v);
    let f = after_series(net, v, i, j, limit, row, k, left);
    Carried {
        figure: figures::series_of(multiplies, e, h, f.figure),
        ..f
    }
}

/// The same where a split fits, on link c, which the next open split may have on another.
#[cycle(run)]
fn split(
    net: &Network,
    c: usize,
    limit: u64,
    row: &mut [u32; 192],
    k: usize,
    left: usize,
) -> Carried
    requires workable { Workable net.now × Fitting net.now (Step.Split c) × (limit < 2 ^ 32) }
    requires carries { Resumable (terminals_of net.now) row.old k left }
    ensures { Resumes (terminals_of net.now) limit row.old k left result row.new }
{
    let i = steps::split_on(net.alive, c, row, k, left);
    if rows::stopped(left, limit) {
        return rows::whole(figures::unfinished());
    }
    let own = rows::own_steps(left);
    let limited = limit - (own as u64);
    let inner = rows::behind(left);
    let known = rows::is_known(row, k, left);
    let sound = if known {
        rows::known_at(row, k)
    } else {
        after_contraction(net, i, limited, row, k + 1, inner)
    };
    let remains = limited - (sound.figure.steps as u64);
    let broken = after_deletion(net, i, remains, row, k + 1, rows::of_broken(known, inner));
    let e = assembly::link_at(net, i);
    let place = steps::place(net.alive, i);
    rows::closed(row, k, place, e, own, sound, broken)
}

/// The figure of what an end leaves, and what it sets aside: node v goes with its link i. A function of its own, as are those of the
/// other steps, so that `run`, `end`, `series` and `split` have no network among their locals: each local is zeroed at a call, and takes
/// stack.
#[cycle(run)]
fn after_end(
    net: &Network,
    v: usize,
    i: usize,
    limit: u64,
    row: &mut [u32; 192],
    k: usize,
    left: usize,
) -> Carried
    requires workable { Workable net.now × Fitting net.now (Step.End v i) × (limit < 2 ^ 32) }
    requires carries { Resumable (end_left v (index_of net.now i) (terminals_of net.now)) row.old k left }
    ensures { Resumes (end_left v (index_of net.now i) (terminals_of net.now)) limit row.old k left result row.new }
{
    let r = net.end(v, i);
    run(&r, limit, row, k, left)
}

/// The same of what two links in series leave: node v goes, and its links i and j become one.
#[cycle(run)]
fn after_series(
    net: &Network,
    v: usize,
    i: usize,
    j: usize,
    limit: u64,
    row: &mut [u32; 192],
    k: usize,
    left: usize,
) -> Carried
    requires workable { Workable net.now × Fitting net.now (Step.Series v i j) × (limit < 2 ^ 32) }
    requires carries { Resumable (series_left v (index_of net.now i) (index_of net.now j) (terminals_of net.now)) row.old k left }
    ensures { Resumes (series_left v (index_of net.now i) (index_of net.now j) (terminals_of net.now)) limit row.old k left result row.new }
{
    let r = net.series(v, i, j).parallel();
    run(&r, limit, row, k, left)
}

/// The same of the sound branch of a split on link i.
#[cycle(run)]
fn after_contraction(
    net: &Network,
    i: usize,
    limit: u64,
    row: &mut [u32; 192],
    k: usize,
    left: usize,
) -> Carried
    requires workable { Workable net.now × Used net.now i × (is_loop (link_of net.now i) ≡ false) × Plain (sound_left (index_of net.now i) (terminals_of net.now)) × (length (sound_left (index_of net.now i) (terminals_of net.now)).network.links < length (links_of net.now)) × (limit < 2 ^ 32) }
    requires carries { Resumable (sound_left (index_of net.now i) (terminals_of net.now)) row.old k left }
    ensures { Resumes (sound_left (index_of net.now i) (terminals_of net.now)) limit row.old k left result row.new }
{
    let r = net.contracted(i).parallel();
    run(&r, limit, row, k, left)
}

/// The same of the broken branch of a split on link i, which is worth nothing where it leaves the chosen nodes in several pieces.
#[cycle(run)]
fn after_deletion(
    net: &Network,
    i: usize,
    limit: u64,
    row: &mut [u32; 192],
    k: usize,
    left: usize,
) -> Carried
    requires workable { Workable net.now × Used net.now i × Several net.now × (length (broken_left (index_of net.now i) (terminals_of net.now)).network.links < length (links_of net.now)) × (limit < 2 ^ 32) }
    requires carries { Resumable (broken_left (index_of net.now i) (terminals_of net.now)) row.old k left }
    ensures { Resumes (broken_left (index_of net.now i) (terminals_of net.now)) limit row.old k left result row.new }
{
    let mut rest = net.deleted(i);
    let all = rest.nodes as u64;
    let asked = rest.chosen as u64;
    let piece = pieces::piece_of(
        bits::lowest(asked),
        all,
        rest.alive,
        &rest.at,
        &rest.a,
        &rest.b,
    );
    if bits::difference(asked, piece) != 0 {
        return rows::whole(figures::settled(0));
    }
    rest.alive = parts::clear(&mut rest.at, bits::difference(all, piece), rest.alive);
    run(&rest, limit, row, k, left)
}
