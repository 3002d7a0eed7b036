//! Work set aside and carried on: what it means is in specs/, what holds of it in proofs/.
#![tactic(auto)]

use reliability::Figure;

/// The figure of a run, and how many open splits it sets aside.
#[derive(Clone, Copy, Debug, PartialEq, Eq)]
pub struct Carried {
    pub figure: Figure,
    pub aside: usize,
}
