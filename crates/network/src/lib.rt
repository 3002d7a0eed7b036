//! A network by value: link places in `alive`, ends and values in arrays by place, in `at` the places of the links at each node, and
//! in `chosen` the nodes that have to be connected. A link keeps its place until it goes. The fields leave no gap between them: 912
//! bytes in all.
#![tactic(auto)]

ghost use Rattle.std.specs.Prelude.{◌≡◌, ◌++◌, ◌∷◌, [], false, ◌+◌, ◌≤◌, ◌<◌};
ghost use Rattle.reliability.specs.Networks.{Proper};
ghost use Rattle.reliability.specs.Rule.{is_loop};
ghost use Rattle.reliability.specs.Terminals.{among, end_left, series_left, sound_left, broken_left};
ghost use Rattle.reliability.specs.Simple.{Loopless, unpaired};
ghost use Rattle.search.specs.Searches.{from, nodes_in, Inside};
ghost use Rattle.network.specs.Places.{network_of, terminals_of, links_of, nodes_of, chosen_of, index_of, link_of, Used, WithoutPlace, Invariant, Built, Fitting};

use reliability::{Link, Step};
use rounding::Direction;

#[derive(Clone, Copy, Debug, PartialEq, Eq)]
pub struct Network {
    pub alive: u64,
    pub at: [u64; 32],
    pub low: [u32; 64],
    pub high: [u32; 64],
    pub a: [u8; 64],
    pub b: [u8; 64],
    pub nodes: u32,
    pub chosen: u32,
}

impl Network {
    /// The nodes 0 to n - 1, all chosen, and no link.
    pub fn new(n: u32) -> Network
        requires { n ≤ 32 }
        ensures { (nodes_of result ≡ from 0 n) × (result.chosen ≡ result.nodes) × (links_of result ≡ []) × Built result 0 × Invariant result }
    {
        let nodes = bits::full(n as u64) as u32;
        Network {
            alive: 0,
            at: [0u64; 32],
            low: [0u32; 64],
            high: [0u32; 64],
            a: [0u8; 64],
            b: [0u8; 64],
            nodes,
            chosen: nodes,
        }
    }

    /// The network with a link more, at place k, behind all others.
    pub fn with_link(mut self, k: usize, l: Link) -> Network
        requires { Invariant self × Built self k × (k < 64) × Proper (nodes_of self) l }
        ensures { (result.nodes ≡ self.nodes) × (result.chosen ≡ self.chosen) × (links_of result ≡ links_of self ++ (l ∷ [])) × Built result (k + 1) × Invariant result }
    {
        self.a[k] = l.a;
        self.b[k] = l.b;
        self.low[k] = l.low;
        self.high[k] = l.high;
        parts::put_in(&mut self.at, l.a, k);
        parts::put_in(&mut self.at, l.b, k);
        self.alive = bits::with(self.alive, k);
        self
    }

    /// The same network with other nodes chosen.
    pub fn with_chosen(mut self, chosen: u32) -> Network
        requires { Invariant self × Inside chosen self.nodes }
        ensures { (terminals_of result ≡ among (nodes_in chosen) (network_of self)) × Invariant result }
    {
        self.chosen = chosen;
        self
    }

    /// The link at place i.
    pub fn link(self, i: usize) -> Link
        requires { Used self i }
        ensures { result ≡ link_of self i }
    {
        Link {
            a: self.a[i],
            b: self.b[i],
            low: self.low[i],
            high: self.high[i],
        }
    }

    /// Link i goes.
    pub fn deleted(mut self, i: usize) -> Network
        requires { Invariant self × Used self i }
        ensures { (terminals_of result ≡ broken_left (index_of self i) (terminals_of self)) × Invariant result × WithoutPlace self i result }
    {
        let (x, y) = (self.a[i], self.b[i]);
        self.alive = parts::unlink(&mut self.at, self.alive, x, y, i);
        self
    }

    /// Step 4, as often as it fits: the first link with a partner and its earliest partner become one.
    pub fn parallel(mut self) -> Network
        requires { Invariant self × Loopless (network_of self) }
        ensures { (terminals_of result ≡ among (chosen_of self) (unpaired (network_of self))) × Invariant result }
    {
        while let Some((i, j)) = search::first_pair(self.alive, &self.at, &self.a, &self.b) {
            parts::join(&mut self.low, Direction::Down, i, j);
            parts::join(&mut self.high, Direction::Up, i, j);
            let (x, y) = (self.a[j], self.b[j]);
            self.alive = parts::unlink(&mut self.at, self.alive, x, y, j);
        }
        self
    }

    /// Step 5: node v and its one link i go; where v is chosen its neighbour becomes chosen.
    pub fn end(mut self, v: usize, i: usize) -> Network
        requires { Invariant self × Fitting self (Step.End v i) }
        ensures { (terminals_of result ≡ end_left v (index_of self i) (terminals_of self)) × Invariant result }
    {
        let one = self.a[i];
        let other = self.b[i];
        self.alive = parts::unlink(&mut self.at, self.alive, one, other, i);
        self.nodes = parts::without_node(self.nodes, v);
        self.chosen = parts::into(self.chosen, search::across(v as u8, one, other) as usize, v);
        self
    }

    /// Step 6: node v goes, and its links i and j become one.
    pub fn series(mut self, v: usize, i: usize, j: usize) -> Network
        requires { Invariant self × Fitting self (Step.Series v i j) }
        ensures { (terminals_of result ≡ series_left v (index_of self i) (index_of self j) (terminals_of self)) × Invariant result }
    {
        let c = bits::has(self.chosen as u64, v);
        self.low[i] = parts::line(c, Direction::Down, self.low[i], self.low[j]);
        self.high[i] = parts::line(c, Direction::Up, self.high[i], self.high[j]);
        let a = search::across(v as u8, self.a[i], self.b[i]);
        let b = search::across(v as u8, self.a[j], self.b[j]);
        let (x, y) = (self.a[j], self.b[j]);
        self.a[i] = a;
        self.b[i] = b;
        self.alive = parts::unlink(&mut self.at, self.alive, x, y, j);
        parts::take_out(&mut self.at, v as u8, i);
        parts::put_in(&mut self.at, b, i);
        self.nodes = parts::without_node(self.nodes, v);
        self.chosen = parts::without_node(self.chosen, v);
        self
    }

    /// Step 7, sound: link i, no loop, goes, and its larger end is renamed to the smaller, which is chosen if either was.
    pub fn contracted(mut self, i: usize) -> Network
        requires { Invariant self × Used self i × (is_loop (link_of self i) ≡ false) }
        ensures { (terminals_of result ≡ sound_left (index_of self i) (terminals_of self)) × Invariant result × WithoutPlace self i result }
    {
        let first = self.a[i];
        let second = self.b[i];
        let keep = parts::lower(first, second);
        let gone = parts::higher(first, second);
        self.alive = parts::unlink(&mut self.at, self.alive, first, second, i);
        let moved = parts::merge(&mut self.at, keep, gone);
        parts::rename(&mut self.a, moved, keep, gone);
        parts::rename(&mut self.b, moved, keep, gone);
        self.nodes = parts::without_node(self.nodes, gone as usize);
        self.chosen = parts::into(self.chosen, keep as usize, gone as usize);
        self
    }
}
