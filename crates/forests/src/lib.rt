//! Two forests in a network, grown link by link until they are two spanning trees or a closed set shows that they cannot be.
//! What is computed is the definitions' in game/specs/Forests.antt.
#![tactic(auto)]

ghost use Rattle.std.specs.Prelude.{◌≡◌, not, ◌+◌, ◌≤◌, ◌<◌, eqb, get_or};
ghost use Rattle.game.specs.Forests.{table, cut, takes, climb, search, found};
ghost use Rattle.forests.specs.Answers.{Plan, Shows};
ghost use Rattle.labelling.specs.Places.{places_of};
ghost use Rattle.forests.specs.Links.{links_of, amongst, labels_of, Fit, Cuts, Takes, search_of, found_of};

/// Links by place: the ends of each, and how many there are.
#[derive(Clone, Copy, Debug, PartialEq, Eq)]
pub struct Links {
    pub a: [u8; 64],
    pub b: [u8; 64],
    pub m: usize,
}

/// The marks of the links, and a closed set.
#[derive(Clone, Copy, Debug, PartialEq, Eq)]
pub struct Found {
    pub marks: [u8; 64],
    pub inside: u64,
}

/// Whether the keeper wins as the second and as the first to move; the tree of each link and the group of each node.
#[derive(Clone, Copy, Debug, PartialEq, Eq)]
pub struct Answer {
    pub second: bool,
    pub first: bool,
    pub trees: [u8; 64],
    pub groups: [u8; 32],
}

/// A link, the forest that takes it and its level; or a closed set.
#[derive(Clone, Copy, Debug, PartialEq, Eq)]
pub enum Search {
    Place(usize, u8, usize),
    Closed(u64),
}

/// What the forests of these marks can take, and the cut of each link.
#[derive(Clone, Copy)]
struct Reach {
    marks: [u8; 64],
    one: u64,
    two: u64,
    cuts: [u64; 64],
}

impl Links {
    /// The labels of the nodes through the links of a set.
    fn labels(self, s: u64) -> [u8; 32]
        requires { Fit self }
        ensures { result ≡ labels_of (amongst s (links_of self)) }
    {
        let mut labels = labelling::own_labels();
        for i in (0..self.m).rev() {
            if bits::has(s, i) {
                let x = labels[usize::from(self.a[i])];
                let y = labels[usize::from(self.b[i])];
                labels = labelling::all_merged(labels, x, y);
            }
        }
        labels
    }

    /// The links whose ends have different labels.
    fn apart(self, labels: [u8; 32]) -> u64
        requires { Fit self }
        ensures { places_of self.m result ≡ table self.m (λ d. not (eqb (get_or labels (get_or self.a d 0) 0) (get_or labels (get_or self.b d 0) 0))) }
    {
        labelling::where_true(
            self.m,
            |d| labels[usize::from(self.a[d])] != labels[usize::from(self.b[d])],
        )
    }

    /// The links that the forest k can take.
    fn takes(self, marks: [u8; 64], k: u8) -> u64
        requires { Fit self }
        ensures { places_of self.m result ≡ takes (links_of self) marks k }
    {
        let forest = labelling::with_mark(marks, k, self.m);
        let labels = self.labels(forest);
        self.apart(labels)
    }

    /// The links on whose path in its forest the link at f lies.
    fn cut(self, marks: [u8; 64], f: usize) -> u64
        requires { Fit self × (f < 64) }
        ensures { places_of self.m result ≡ cut (links_of self) marks f }
    {
        let forest = labelling::with_mark(marks, marks[f], self.m);
        let others = bits::without(forest, f);
        let labels = self.labels(others);
        self.apart(labels)
    }

    /// The same for every link.
    fn cuts(self, marks: [u8; 64]) -> [u64; 64]
        requires { Fit self }
        ensures { Cuts self marks result }
    {
        let mut all = [0u64; 64];
        for f in 0..self.m {
            all[f] = self.cut(marks, f);
        }
        all
    }

    /// The lowest level from l on that has a link to place.
    fn climb(self, reach: &Reach, fuel: usize, l: usize, ds: u64) -> Search
        requires { Fit self × Takes self reach.now.marks reach.now.one reach.now.two × Cuts self reach.now.marks reach.now.cuts × (l + fuel ≤ 65) }
        ensures { search_of self.m result ≡ climb (links_of self) reach.now.marks fuel l (places_of self.m ds) }
    {
        if fuel == 0 {
            return Search::Closed(ds);
        }
        if let Some(link) = labelling::first(bits::meet(ds, reach.one), self.m) {
            return Search::Place(link, 1, l);
        }
        if let Some(link) = labelling::first(bits::meet(ds, reach.two), self.m) {
            return Search::Place(link, 2, l);
        }
        let up = labelling::next(reach.cuts, ds, self.m);
        match labelling::first(bits::difference(up, ds), self.m) {
            Some(_) => self.climb(reach, fuel - 1, l + 1, up),
            None => Search::Closed(ds),
        }
    }

    /// The lowest level that has a link to place; the cuts are worked only where it is not the first.
    fn search(self, marks: [u8; 64]) -> Search
        requires { Fit self }
        ensures { search_of self.m result ≡ search (links_of self) marks }
    {
        let one = self.takes(marks, 1);
        let two = self.takes(marks, 2);
        let ds = labelling::with_mark(marks, 0, self.m);
        if let Some(link) = labelling::first(bits::meet(ds, one), self.m) {
            return Search::Place(link, 1, 0);
        }
        if let Some(link) = labelling::first(bits::meet(ds, two), self.m) {
            return Search::Place(link, 2, 0);
        }
        let reach = Reach {
            marks,
            one,
            two,
            cuts: self.cuts(marks),
        };
        self.climb(&reach, self.m + 1, 0, ds)
    }

    /// Two forests, grown until nothing can be placed.
    pub fn found(self) -> Found
        requires { Fit self }
        ensures { found_of self.m result ≡ found (links_of self) }
    {
        let mut marks = [0u8; 64];
        for _ in 0..(self.m + 1) * (self.m + 1) {
            match self.search(marks) {
                Search::Place(link, forest, level) => marks[link] = forest,
                Search::Closed(inside) => return Found { marks, inside },
            }
        }
        Found { marks, inside: 0 }
    }

    /// Who wins, for each side opening, and what shows it.
    pub fn decided(self, n: usize) -> Answer
        requires { Plan self n }
        ensures { Shows self n result }
    {
        let Found { marks, inside } = self.found();
        let one = usize::from(labelling::how_many(marks, 1, self.m));
        let two = usize::from(labelling::how_many(marks, 2, self.m));
        let first = one + two + 3 >= 2 * n;
        if one + two + 2 >= 2 * n {
            return Answer {
                second: true,
                first,
                trees: marks,
                groups: [0; 32],
            };
        }
        let labels = self.labels(inside);
        Answer {
            second: false,
            first,
            trees: [0; 64],
            groups: labelling::groups(labels, n),
        }
    }
}
