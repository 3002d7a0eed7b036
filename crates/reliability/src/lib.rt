//! The types of the reliability calculation: what they mean is in specs/, what holds of them in proofs/.
#![tactic(auto)]

/// A link: its two ends, its low and its high value in units.
#[derive(Clone, Copy, Debug, PartialEq, Eq)]
pub struct Link {
    pub a: u8,
    pub b: u8,
    pub low: u32,
    pub high: u32,
}

/// A low and a high figure in units, the splits taken, and whether they were enough.
#[derive(Clone, Copy, Debug, PartialEq, Eq)]
pub struct Figure {
    pub low: u32,
    pub high: u32,
    pub steps: u32,
    pub finished: bool,
}

/// A difference of two figures.
#[derive(Clone, Copy, Debug, PartialEq, Eq)]
pub struct Difference {
    pub low: i32,
    pub high: i32,
    pub steps: u32,
    pub finished: bool,
}

/// The step of the rule that fits a network: link places are counted from 0 among the links then left.
#[derive(Clone, Copy, Debug, PartialEq, Eq)]
pub enum Step {
    OneNode,
    Disconnected,
    Loop(usize),
    Parallel(usize, usize),
    End(usize, usize),
    Series(usize, usize, usize),
    Split(usize),
}
