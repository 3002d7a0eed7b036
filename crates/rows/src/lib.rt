//! Open splits as numbers in a row: read and written, as a run goes along them.
#![tactic(auto)]

ghost use Rattle.std.specs.Prelude.{◌≡◌, [], ◌∷◌, true, cond, not, ◌&&◌, ◌+◌, ◌*◌, ◌-◌, ◌^◌, ◌≤◌, ◌<◌, eqb, leb, length, get_or};
ghost use Rattle.std.proofs.lemmas.List.Edits.{sets};
ghost use Rattle.rounding.specs.Rounding.{S};
ghost use Rattle.reliability.specs.Rule.{bounded, more, mixed};
ghost use Rattle.sittings.specs.Entries.{pair, own_entry, own_count};

use reliability::{Figure, Link};
use sittings::Carried;

/// A figure with nothing set aside.
pub fn whole(figure: Figure) -> Carried
    ensures { (result.figure ≡ figure) × (result.aside ≡ 0) }
{
    Carried { figure, aside: 0 }
}

/// The open splits of the broken branch: those left where the sound branch is known, else none.
pub fn of_broken(known: bool, left: usize) -> usize
    ensures { result ≡ cond known left 0 }
{
    if known { left } else { 0 }
}

/// A split is still to take where no open split is left, and then it takes a step.
pub fn own_steps(left: usize) -> u32
    ensures { result ≡ 1 - left }
{
    u32::from(left == 0)
}

/// The open splits behind the next one.
pub fn behind(left: usize) -> usize
    ensures { result ≡ left - 1 }
{
    left.saturating_sub(1)
}

/// No open split and no step is left.
pub fn stopped(left: usize, limit: u64) -> bool
    ensures { result ≡ (eqb left 0 && eqb limit 0) }
{
    left == 0 && limit == 0
}

/// Whether there is an open split at place k of the row and the figures of its sound branch are known.
pub fn is_known(row: &[u32; 192], k: usize, left: usize) -> bool
    requires { k < 64 }
    ensures { result ≡ (not (eqb left 0) && leb (get_or row.now (3 * k + 1) 0) (get_or row.now (3 * k + 2) 0)) }
{
    left != 0 && row[3 * k + 1] <= row[3 * k + 2]
}

/// The figures that stand at place k of the row.
pub fn known_at(row: &[u32; 192], k: usize) -> Carried
    requires { k < 64 }
    ensures { (result.figure ≡ bounded (pair (get_or row.now (3 * k + 1) 0) (get_or row.now (3 * k + 2) 0)) 0 true) × (result.aside ≡ 0) }
{
    Carried {
        figure: Figure {
            low: row[3 * k + 1],
            high: row[3 * k + 2],
            steps: 0,
            finished: true,
        },
        aside: 0,
    }
}

/// An open split at place k of the row: three numbers.
fn put_open(row: &mut [u32; 192], k: usize, place: u32, low: u32, high: u32)
    requires { k < 64 }
    ensures { row.new ≡ sets row.old (3 * k) (place ∷ low ∷ high ∷ []) }
{
    row[3 * k] = place;
    row[3 * k + 1] = low;
    row[3 * k + 2] = high;
}

/// The figure of a split on link e, from what its branches gave, and its own entry at place k of the row, if it has one.
#[tactic(auto, unfolding(sittings::specs::Entries::own_entry, sittings::specs::Entries::own_count))]
pub fn closed(
    row: &mut [u32; 192],
    k: usize,
    place: u32,
    e: Link,
    own: u32,
    sound: Carried,
    broken: Carried,
) -> Carried
    requires room { k < 64 }
    requires chances { (e.low ≤ S) × (e.high ≤ S) × (sound.figure.low ≤ S) × (sound.figure.high ≤ S) × (broken.figure.low ≤ S) × (broken.figure.high ≤ S) }
    requires counts { (own + (sound.figure.steps + broken.figure.steps) < 2 ^ 32) × (sound.aside ≤ 64) × (broken.aside ≤ 64) }
    ensures figure_value { result.figure ≡ more own (mixed e sound.figure broken.figure) }
    ensures aside_value { result.aside ≡ own_count sound.figure broken.figure sound.aside broken.aside }
    ensures row_after { row.new ≡ sets row.old (3 * k) (own_entry place sound.figure broken.figure) }
{
    let figure = figures::mixed(e, sound.figure, broken.figure, own);
    let aside = if !sound.figure.finished {
        put_open(row, k, place, 1, 0);
        sound.aside + 1
    } else if !broken.figure.finished {
        put_open(row, k, place, sound.figure.low, sound.figure.high);
        broken.aside + 1
    } else {
        0
    };
    Carried { figure, aside }
}
