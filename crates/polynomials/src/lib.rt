//! Rows of 25 numbers as polynomials: entry i counts the sets of i links.
#![tactic(auto)]

ghost use Rattle.std.specs.Prelude.{◌≡◌, ℕ, ◌+◌, ◌*◌};
ghost use Rattle.polynomials.specs.Rows.{eval, some, Fits};

/// How many sets there are of 0 to 24 links.
#[derive(Clone, Copy, Debug, PartialEq, Eq)]
pub struct Row {
    pub entries: [u64; 25],
}

impl Row {
    /// No set.
    pub fn nothing() -> Row
        ensures { (x : ℕ) → eval x result.entries ≡ 0 }
    {
        Row { entries: [0; 25] }
    }

    /// The empty set alone.
    pub fn one() -> Row
        ensures { (x : ℕ) → eval x result.entries ≡ 1 }
    {
        let mut entries = [0; 25];
        entries[0] = 1;
        Row { entries }
    }

    /// The sum of two rows.
    fn plus(self, other: Row) -> Row
        requires { Fits (λ x. eval x self.entries + eval x other.entries) }
        ensures { (x : ℕ) → eval x result.entries ≡ eval x self.entries + eval x other.entries }
    {
        let mut entries = [0; 25];
        for i in 0..25 {
            entries[i] = self.entries[i] + other.entries[i];
        }
        Row { entries }
    }

    /// t + x (t + p), of the row t.
    fn more(self, p: Row) -> Row
        requires { Fits (λ x. eval x self.entries + x * (eval x self.entries + eval x p.entries)) }
        ensures { (x : ℕ) → eval x result.entries ≡ eval x self.entries + x * (eval x self.entries + eval x p.entries) }
    {
        let mut entries = self.entries;
        for i in 0..24 {
            entries[i + 1] = self.entries[i + 1] + self.entries[i] + p.entries[i];
        }
        Row { entries }
    }

    /// The sets of at least one of c links, each with a set of the row.
    pub fn times(self, c: u32) -> Row
        requires { Fits (λ x. some x c * eval x self.entries) }
        ensures { (x : ℕ) → eval x result.entries ≡ some x c * eval x self.entries }
    {
        let mut t = Row::nothing();
        for _ in 0..c {
            t = t.more(self);
        }
        t
    }

    /// A loop bundle of c links: any of them, each with a set of the row.
    pub fn looped(self, c: u32) -> Row
        requires { Fits (λ x. (some x c + 1) * eval x self.entries) }
        ensures { (x : ℕ) → eval x result.entries ≡ (some x c + 1) * eval x self.entries }
    {
        self.times(c).plus(self)
    }

    /// A split on c links: some of them, with the row `with`, or none, with the row `without`.
    pub fn split(c: u32, with: Row, without: Row) -> Row
        requires { Fits (λ x. some x c * eval x with.entries + eval x without.entries) }
        ensures { (x : ℕ) → eval x result.entries ≡ some x c * eval x with.entries + eval x without.entries }
    {
        with.times(c).plus(without)
    }
}
