//! The sets of links that connect a network: what they are is in specs/, what holds of them in proofs/.
#![tactic(auto)]
