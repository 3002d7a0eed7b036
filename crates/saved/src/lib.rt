//! Saved work in its bytes: read and tested.
#![tactic(auto)]

ghost use Rattle.std.specs.Prelude.{◌≡◌, true, ◌+◌, ◌*◌, ◌≤◌, ◌↔◌, eqb, length, Some};
ghost use Rattle.sittings.specs.Entries.{opens_in};
ghost use Rattle.saved.specs.Format.{count_in, state_in, taken_in, opens_of, pair_allowed, pairs_allowed, begun_well, complete_well, well_formed};

use words::Word;

/// Whether splits are open or the answer stands.
#[derive(Clone, Copy, Debug, PartialEq, Eq)]
enum State {
    Begun,
    Complete,
}

/// Saved work in its bytes: eight at least, its sizes.
#[derive(Clone, Copy)]
pub struct SavedWork<'a> {
    pub bytes: &'a [u8],
    ghost sized: { 8 ≤ length bytes.now },
}

/// A pair in order and at most S, or the running mark.
#[tactic(auto, unfolding(crate::specs::Format::pair_allowed))]
fn pair_allowed(low: u32, high: u32) -> bool
    ensures { result ≡ pair_allowed low high }
{
    if low <= high {
        high <= 1_000_000_000
    } else {
        low == 1 && high == 0
    }
}

impl SavedWork<'_> {
    /// The count of open splits.
    pub fn count(self) -> usize
        ensures { result ≡ count_in self.entry.bytes.now }
    {
        usize::from(u16::read(self.bytes, 0))
    }

    /// 0 begun, 1 complete, no state else.
    fn state(self) -> Option<State>
        ensures begun { result ≡ Some State.Begun ↔ state_in self.entry.bytes.now ≡ 0 }
        ensures complete { result ≡ Some State.Complete ↔ state_in self.entry.bytes.now ≡ 1 }
    {
        match u16::read(self.bytes, 2) {
            0 => Some(State::Begun),
            1 => Some(State::Complete),
            _ => None,
        }
    }

    pub fn is_complete(self) -> bool
        ensures { result ≡ eqb (state_in self.entry.bytes.now) 1 }
    {
        matches!(self.state(), Some(State::Complete))
    }

    /// The steps so far.
    pub fn taken(self) -> u32
        ensures { result ≡ taken_in self.entry.bytes.now }
    {
        u32::read(self.bytes, 4)
    }

    fn pairs_allowed(self) -> bool
        requires { 8 + 12 * count_in self.bytes.now ≤ length self.bytes.now }
        ensures { result ≡ pairs_allowed self.entry.bytes.now 0 (count_in self.entry.bytes.now) }
    {
        let c = self.count();
        for i in 0..c {
            let at = 8 + 4 * c + 8 * i;
            if !pair_allowed(u32::read(self.bytes, at), u32::read(self.bytes, at + 4)) {
                return false;
            }
        }
        true
    }

    /// Of begun work: at most 64 open splits, of just this length, each pair allowed.
    #[tactic(auto, unfolding(crate::specs::Format::begun_well))]
    fn begun_well(self) -> bool
        requires { state_in self.bytes.now ≡ 0 }
        ensures { result ≡ begun_well self.entry.bytes.now }
    {
        let c = self.count();
        c <= 64 && self.bytes.len() == 8 + 12 * c && self.pairs_allowed()
    }

    /// The open splits of begun work: three numbers for each, its place and its pair.
    pub fn row(self) -> [u32; 192]
        requires { (well_formed self.bytes.now ≡ true) × (state_in self.bytes.now ≡ 0) }
        ensures { opens_in result 0 (count_in self.entry.bytes.now) ≡ opens_of self.entry.bytes.now }
    {
        let mut row = [0; 192];
        let c = self.count();
        for i in 0..c {
            let pair = 8 + 4 * c + 8 * i;
            row[3 * i] = u32::read(self.bytes, 8 + 4 * i);
            row[3 * i + 1] = u32::read(self.bytes, pair);
            row[3 * i + 2] = u32::read(self.bytes, pair + 4);
        }
        row
    }
}

/// Check 10.
#[tactic(auto, unfolding(crate::specs::Format::well_formed, crate::specs::Format::begun_well, crate::specs::Format::complete_well))]
pub fn is_well_formed(bytes: &[u8]) -> bool
    ensures { result ≡ well_formed bytes.now }
{
    if bytes.len() < 8 {
        return false;
    }
    let work = SavedWork { bytes };
    work.taken() <= 1_000_000
        && match work.state() {
            Some(State::Begun) => work.begun_well(),
            Some(State::Complete) => work.count() == 0 && bytes.len() == 24,
            None => false,
        }
}
