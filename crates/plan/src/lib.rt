//! The plan file: what its values stand for, the causes of refusal, and the links of an accepted plan.
#![tactic(auto)]

ghost use Rattle.std.specs.Prelude.{◌≡◌, ◌+◌, ◌*◌, ◌<◌, length, Ok};
ghost use Rattle.reader.specs.Layout.{size_m};
ghost use Rattle.tables.specs.Tables.{rating, AcceptedTable};
ghost use Rattle.plan.specs.Plans.{rated, value_of, link_verdict, links_verdict, verdict, number, named_link, returned, link_in};

use reliability::Link;
use rounding::{Direction, UNITS};

/// A value from here on is a length.
const LENGTHS: u32 = 2_147_483_648;

/// Why a plan is refused.
#[derive(Clone, Copy, Debug, PartialEq, Eq)]
pub enum Cause {
    Short,
    Nodes,
    Links,
    Length,
    End(u16),
    Value(u16),
}

impl Cause {
    /// The column Number.
    pub fn number(self) -> u8
        ensures { result ≡ number self }
    {
        match self {
            Cause::Short => 1,
            Cause::Nodes => 2,
            Cause::Links => 3,
            Cause::Length => 4,
            Cause::End(_) => 5,
            Cause::Value(_) => 6,
        }
    }

    /// The link that it names, or 0.
    pub fn named_link(self) -> u16
        ensures { result ≡ named_link self }
    {
        match self {
            Cause::End(i) | Cause::Value(i) => i,
            _ => 0,
        }
    }
}

/// What a value in the file stands for.
#[derive(Clone, Copy, Debug, PartialEq, Eq)]
pub enum Rated {
    Units(u32),
    OfLength(usize),
    Unrated,
}

impl From<u32> for Rated {
    ghost use Rattle.plan.specs.Plans.{rated};

    ghost from_gives = { λ w r. r ≡ rated w };

    #[tactic(auto, unfolding(crate::specs::Plans::rated))]
    fn from(w: u32) -> Rated {
        if w <= UNITS {
            Rated::Units(w)
        } else if (LENGTHS..LENGTHS + 512).contains(&w) {
            Rated::OfLength((w - LENGTHS) as usize)
        } else {
            Rated::Unrated
        }
    }
}

/// What it stands for in units under a table of ratings, rounded.
#[tactic(auto, unfolding(crate::specs::Plans::rated))]
fn value_of(d: Direction, table: &[u8], w: u32) -> u32
    requires { AcceptedTable table.now }
    ensures { result ≡ value_of (rating table.now) d (rated w) }
{
    match Rated::from(w) {
        Rated::Units(v) => v,
        Rated::OfLength(k) => ratings::with_joints(d, tables::rating(table, k)),
        Rated::Unrated => 0,
    }
}

/// Causes 5 and 6 at link i.
#[tactic(auto, unfolding(crate::specs::Plans::link_verdict))]
fn link_verdict(plan: &[u8], i: u16) -> Result<(), Cause>
    requires { (i < size_m plan.now) × (length plan.now ≡ 4 + 6 * size_m plan.now) }
    ensures { result ≡ link_verdict plan.now i }
{
    let n = reader::sizes_of(plan).n;
    let e = reader::entry_at(plan, usize::from(i));
    if n <= u16::from(e.a) || n <= u16::from(e.b) {
        return Err(Cause::End(i));
    }
    match Rated::from(e.value) {
        Rated::Units(_) | Rated::OfLength(_) => Ok(()),
        Rated::Unrated => Err(Cause::Value(i)),
    }
}

fn links_verdict(plan: &[u8]) -> Result<(), Cause>
    requires { length plan.now ≡ 4 + 6 * size_m plan.now }
    ensures { result ≡ links_verdict plan.now 0 (size_m plan.now) }
{
    for i in 0..reader::sizes_of(plan).m {
        link_verdict(plan, i)?;
    }
    Ok(())
}

/// Causes 1 to 6.
#[tactic(auto, unfolding(crate::specs::Plans::verdict))]
pub fn verdict_of(plan: &[u8]) -> Result<(), Cause>
    ensures { result ≡ verdict plan.now }
{
    if plan.len() < 4 {
        return Err(Cause::Short);
    }
    let s = reader::sizes_of(plan);
    if s.n == 0 || 32 < s.n {
        return Err(Cause::Nodes);
    }
    if 64 < s.m {
        return Err(Cause::Links);
    }
    if plan.len() != 4 + 6 * usize::from(s.m) {
        return Err(Cause::Length);
    }
    links_verdict(plan)
}

/// The column Returned.
pub fn returned(v: Result<(), Cause>) -> u64
    ensures { result ≡ returned v }
{
    match v {
        Ok(()) => 0,
        Err(c) => u64::from(c.number()) + 256 * u64::from(c.named_link()),
    }
}

/// Link i of an accepted plan under an accepted table.
#[tactic(auto, unfolding(crate::specs::Plans::link_in))]
pub fn link_at(plan: &[u8], table: &[u8], i: usize) -> Link
    requires { (verdict plan.now ≡ Ok tt) × AcceptedTable table.now × (i < size_m plan.now) }
    ensures { result ≡ link_in (rating table.now) plan.now i }
{
    let e = reader::entry_at(plan, i);
    Link {
        a: e.a,
        b: e.b,
        low: value_of(Direction::Down, table, e.value),
        high: value_of(Direction::Up, table, e.value),
    }
}
