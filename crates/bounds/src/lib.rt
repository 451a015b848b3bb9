// low and high read off an index that is known to be whole, by track and position; and which of those positions reach which.
// `as` narrows only what a clause bounds: `try_from` would bring in a failure that cannot come.
#![tactic(auto)]

ghost use Rattle.std.specs.Prelude.{ℕ, ◌≤◌, ◌<◌, ◌≡◌, cond, not, ◌&&◌, List, length, get_or, leb, ltb};
ghost use Rattle.rules.specs.Ranges.{every, table};
ghost use Rattle.rules.specs.Listing.{track, position};
ghost use Rattle.rules.specs.Layout.{offset};
ghost use Rattle.rules.specs.Index.{lens_of};
ghost use Rattle.layout.specs.Starts.{row_starts};
ghost use Rattle.bounds.specs.Known.{Known, none_reaches, reaches_none};

// A unit's track and its position there.
#[derive(Clone, Copy)]
pub struct Place {
    pub track: usize,
    pub at: usize,
}

// Where unit u stands.
pub fn spot(tracks: &[u16], u: u16) -> Place
    requires { (1 ≤ u) × (u ≤ length tracks.now) }
    ensures { result ≡ record { track = track tracks.now u; at = position tracks.now u } }
{
    let last = usize::from(u) - 1;
    let track = tracks[last];
    let mut at: u16 = 0;
    for &other in &tracks[..=last] {
        if other == track {
            at += 1;
        }
    }
    Place {
        track: usize::from(track),
        at: usize::from(at),
    }
}

// The vectors of a whole index with k tracks of these lengths, and the table by which a vector is found.
#[derive(Clone, Copy)]
pub struct Vectors<'a> {
    pub words: &'a [u64],
    pub directory: &'a [u16],
    pub lens: &'a [u16; 32],
    pub row: &'a [u32; 66],
    pub k: usize,
    pub ghost known: { Known (lens_of lens.now) k words.now directory.now row.now },
}

impl Vectors<'_> {
    ghost use Rattle.bounds.specs.Places.{size, Stands, low, high};

    // The unit at a needs the unit at b.
    pub fn reaches(&self, a: Place, b: Place) -> bool
        requires standing { Stands self.now a }
        requires standing_2 { Stands self.now b }
        ensures { result ≡ leb b.at (low self.now a b.track) }
    {
        if a.track == b.track {
            return b.at < a.at;
        }
        let off = layout::vector_start(self.lens, self.row, self.k, a.track, b.track);
        let before = layout::vector_ones(self.lens, self.row, self.k, a.track, b.track);
        words::ones_before(self.words, self.directory, off + a.at + b.at - 1) < before + a.at
    }

    // low of a in track q.
    pub fn low_at(&self, a: Place, q: usize) -> usize
        requires standing { Stands self.now a }
        requires q_lt_k { q < self.now.k }
        ensures { result ≡ low self.now a q }
    {
        if a.track == q {
            return a.at - 1;
        }
        let off = layout::vector_start(self.lens, self.row, self.k, a.track, q);
        let before = layout::vector_ones(self.lens, self.row, self.k, a.track, q);
        let bits = usize::from(self.lens[a.track]) + usize::from(self.lens[q]);
        words::place_of_one(self.words, self.directory, off, bits, before, a.at) - a.at
    }

    // high of a in track q. Not one with `low_at`: every line would choose, which vector, which bit, which side.
    pub fn high_at(&self, a: Place, q: usize) -> usize
        requires standing { Stands self.now a }
        requires q_lt_k { q < self.now.k }
        ensures { result ≡ high self.now a q }
    {
        if a.track == q {
            return a.at + 1;
        }
        let off = layout::vector_start(self.lens, self.row, self.k, q, a.track);
        let before = layout::vector_ones(self.lens, self.row, self.k, q, a.track);
        let bits = usize::from(self.lens[q]) + usize::from(self.lens[a.track]);
        words::place_of_zero(self.words, self.directory, off, bits, before, a.at) - a.at + 1
    }

    // The given bound in each track, 0 beyond the last.
    fn in_each<F: Fn(usize) -> usize>(&self, bound: F) -> [u16; 32]
        requires callable { (q : ℕ) → q < self.now.k → F.pre bound q }
        requires narrow { (q i : ℕ) → q < self.now.k → F.post bound q i → i < 65536 }
        ensures { (f : ℕ → ℕ) → ((q i : ℕ) → q < self.now.k → F.post bound q i → i ≡ f q) → result ≡ table (λ q. cond (ltb q self.now.k) (f q) 0) 32 }
    {
        let mut at = [0u16; 32];
        for q in 0..self.k {
            at[q] = bound(q) as u16;
        }
        at
    }

    // low of a in each track, 0 beyond the last.
    pub fn lows(&self, a: Place) -> [u16; 32]
        requires standing { Stands self.now a }
        ensures { result ≡ table (λ q. cond (ltb q self.now.k) (low self.now a q) 0) 32 }
    {
        self.in_each(|q| self.low_at(a, q))
    }

    // high of a in each track, 0 beyond the last.
    pub fn highs(&self, a: Place) -> [u16; 32]
        requires standing { Stands self.now a }
        ensures { result ≡ table (λ q. cond (ltb q self.now.k) (high self.now a q) 0) 32 }
    {
        self.in_each(|q| self.high_at(a, q))
    }

    // None of the units at the given positions, one in each track, needs the unit at b. Position 0 is no unit. A position is looked
    // up only as long as none before it has settled the question.
    fn none_of<F: Fn(usize) -> usize>(&self, at: F, b: Place) -> bool
        requires callable { (p : ℕ) → p < self.now.k → F.pre at p }
        requires within { (p i : ℕ) → p < self.now.k → F.post at p i → i ≤ size self.now p }
        requires standing { Stands self.now b }
        ensures { (list : List ℕ) → ((p i : ℕ) → p < self.now.k → F.post at p i → i ≡ get_or list p 0) → result ≡ none_reaches (size self.now) self.now.k self.now.words.now list b.track b.at }
    {
        // a copy in the frame, so that its parts are read once and not for each unit
        let vectors = *self;
        for p in 0..self.k {
            let i = at(p);
            if i != 0 && vectors.reaches(Place { track: p, at: i }, b) {
                return false;
            }
        }
        true
    }

    // None of the units at these positions needs the unit at b.
    pub fn none_reaches(&self, at: &[u16; 32], b: Place) -> bool
        requires standing { Stands self.now b }
        requires by_index { (p : ℕ) → p < self.now.k → get_or at.now p 0 ≤ size self.now p }
        ensures { result ≡ none_reaches (size self.now) self.now.k self.now.words.now at.now b.track b.at }
    {
        self.none_of(|p| usize::from(at[p]), b)
    }

    // None of the units at the lows of a needs the unit at b.
    pub fn none_between(&self, a: Place, b: Place) -> bool
        requires standing { Stands self.now a }
        requires standing_2 { Stands self.now b }
        ensures { result ≡ none_reaches (size self.now) self.now.k self.now.words.now (table (λ t. cond (ltb t self.now.k) (low self.now a t) 0) 32) b.track b.at }
    {
        self.none_of(|t| self.low_at(a, t), b)
    }

    // The unit at a needs none of the units at these positions, one in each track. A position past the end is no unit. Not by
    // `none_of`: there the unit that reaches changes, here the one reached.
    pub fn reaches_none(&self, a: Place, at: &[u16; 32]) -> bool
        requires standing { Stands self.now a }
        requires by_index { (q : ℕ) → q < self.now.k → 1 ≤ get_or at.now q 0 }
        ensures { result ≡ reaches_none (size self.now) self.now.k self.now.words.now a.track a.at at.now }
    {
        for q in 0..self.k {
            let j = usize::from(at[q]);
            if j <= usize::from(self.lens[q]) && self.reaches(a, Place { track: q, at: j }) {
                return false;
            }
        }
        true
    }
}
