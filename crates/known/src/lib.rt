// Kinds 10 to 18, asked of an index that is known to be whole.
#![tactic(auto)]

ghost use Rattle.std.specs.Prelude.{ℕ, ◌≤◌, ◌<◌, ◌≡◌, Bool, false, length, get_or};
ghost use Rattle.rules.specs.Index.{lens_of};
ghost use Rattle.rules.specs.Listing.{track, position};
ghost use Rattle.rules.specs.Order.{highest_step};
ghost use Rattle.rules.specs.Questions.{kind10, kind11, kind12, kind13, kind14, kind15, kind16, kind17, kind18};
ghost use Rattle.rules.specs.Outcomes.{list_room, list_answer};
ghost use Rattle.lists.specs.Spans.{spanned, last_spanned, Held, listed};
ghost use Rattle.bounds.specs.Places.{Stands};
ghost use Rattle.known.specs.Asked.{parts, Sure, UnitOf, one_from, one_to};

use bounds::{Place, Vectors};
use lists::Spans;
use rules::Refusal;

// A whole index: its track list beside its vectors.
#[derive(Clone, Copy)]
pub struct WholeIndex<'a> {
    pub tracks: &'a [u16],
    pub vectors: Vectors<'a>,
    pub ghost sure: { Sure (parts vectors.lens.now vectors.k tracks.now vectors.words.now vectors.directory.now) vectors.row.now },
}

impl<'a> WholeIndex<'a> {
    ghost use Rattle.known.specs.Lent.{index_of};

    // The index of these areas, with the table by which a vector is found.
    pub fn new(
        tracks: &'a [u16],
        words: &'a [u64],
        directory: &'a [u16],
        lens: &'a [u16; 32],
        row: &'a [u32; 66],
        k: usize,
    ) -> WholeIndex<'a>
        requires sure { Sure (parts lens.now k tracks.now words.now directory.now) row.now }
        ensures index { index_of result ≡ parts lens.now k tracks.now words.now directory.now }
        ensures tracks { result.tracks.now ≡ tracks.now }
        ensures k { result.vectors.k ≡ k }
    {
        WholeIndex {
            tracks,
            vectors: Vectors {
                words,
                directory,
                lens,
                row,
                k,
            },
        }
    }

    // Where unit u stands.
    fn spot(&self, u: u16) -> Place
        requires unit_of { UnitOf self.now.tracks.now u }
        ensures place { result ≡ record { track = track self.now.tracks.now u; at = position self.now.tracks.now u } }
        ensures stands { Stands self.now.vectors result }
    {
        bounds::spot(self.tracks, u)
    }

    // ---- the steps among the units at the lows or the highs

    // Of the given positions, one in each track, those that pass, each as the span of that position alone.
    fn kept<F: Fn(Place) -> bool>(&self, at: &[u16; 32], passes: F) -> Spans
        requires callable { (q : ℕ) → q < self.now.vectors.k → F.pre passes (record { track = q; at = get_or at.now q 0 }) }
        ensures { (p : ℕ → Bool) → ((q : ℕ) (b : Bool) → q < self.now.vectors.k → F.post passes (record { track = q; at = get_or at.now q 0 }) b → b ≡ p q) → ((q : ℕ) → self.now.vectors.k ≤ q → p q ≡ false) → result ≡ record { from = one_from p at.now; to = one_to p at.now } }
    {
        let mut spans = Spans {
            from: [1; 32],
            to: [0; 32],
        };
        for q in 0..self.vectors.k {
            let place = Place {
                track: q,
                at: usize::from(at[q]),
            };
            if passes(place) {
                spans.from[q] = at[q];
                spans.to[q] = at[q];
            }
        }
        spans
    }

    // The direct steps of u: of the units at the lows of u those that none of the others needs.
    fn step_spans(&self, u: u16) -> Spans
        requires unit_of { UnitOf self.now.tracks.now u }
        ensures held { Held result.from result.to self.now.tracks.now self.now.vectors.k }
        ensures units { spanned result.from result.to self.now.tracks.now ≡ kind14 (index_of self.now) u }
        ensures last { last_spanned result.from result.to self.now.tracks.now u ≡ highest_step (kind11 (index_of self.now)) u }
    {
        let at = self.vectors.lows(self.spot(u));
        self.kept(&at, |b| b.at != 0 && self.vectors.none_reaches(&at, b))
    }

    // The units that have u as a direct step: of the units at the highs of u those that need none of the others.
    fn step_up_spans(&self, u: u16) -> Spans
        requires unit_of { UnitOf self.now.tracks.now u }
        ensures held { Held result.from result.to self.now.tracks.now self.now.vectors.k }
        ensures units { spanned result.from result.to self.now.tracks.now ≡ kind15 (index_of self.now) u }
    {
        let at = self.vectors.highs(self.spot(u));
        self.kept(
            &at,
            |b| b.at <= usize::from(self.vectors.lens[b.track])
                && self.vectors.reaches_none(b, &at),
        )
    }

    // ---- the questions

    // Kind 10.
    pub fn needs(&self, u: u16, v: u16) -> bool
        requires unit_of { UnitOf self.now.tracks.now u }
        requires unit_of_2 { UnitOf self.now.tracks.now v }
        ensures { result ≡ kind10 (index_of self.now) u v }
    {
        self.vectors.reaches(self.spot(u), self.spot(v))
    }

    // Kind 11: a need is a direct step where none of the units at the lows of u needs it.
    pub fn is_step(&self, u: u16, v: u16) -> bool
        requires unit_of { UnitOf self.now.tracks.now u }
        requires unit_of_2 { UnitOf self.now.tracks.now v }
        ensures { result ≡ kind11 (index_of self.now) u v }
    {
        let a = self.spot(u);
        let b = self.spot(v);
        self.vectors.reaches(a, b) && self.vectors.none_between(a, b)
    }

    // Kinds 12 to 15 differ in their spans alone, and 17 and 18 in the bound: a function between them would only pass these on.

    // Kind 12: everything up to low in each track.
    #[tactic(auto, using(crate::proofs::Lent::lent_tracks))]
    pub fn needed(&self, u: u16, list: &mut [u16], place: usize) -> Result<u16, Refusal>
        requires unit_of { UnitOf self.now.tracks.now u }
        ensures { listed result list.new ≡ list_answer (list_room (kind12 (index_of self.now) u) list.old place) (kind12 (index_of self.now) u) list.old place }
    {
        let up_to_low = Spans {
            from: [1; 32],
            to: self.vectors.lows(self.spot(u)),
        };
        up_to_low.answer_list(self.tracks, self.vectors.k, list, place)
    }

    // Kind 13: everything from high on in each track.
    #[tactic(auto, using(crate::proofs::Lent::lent_tracks))]
    pub fn needing(&self, u: u16, list: &mut [u16], place: usize) -> Result<u16, Refusal>
        requires unit_of { UnitOf self.now.tracks.now u }
        ensures { listed result list.new ≡ list_answer (list_room (kind13 (index_of self.now) u) list.old place) (kind13 (index_of self.now) u) list.old place }
    {
        let from_high = Spans {
            from: self.vectors.highs(self.spot(u)),
            to: *self.vectors.lens,
        };
        from_high.answer_list(self.tracks, self.vectors.k, list, place)
    }

    // Kind 14.
    #[tactic(auto, using(crate::proofs::Lent::lent_tracks))]
    pub fn steps(&self, u: u16, list: &mut [u16], place: usize) -> Result<u16, Refusal>
        requires unit_of { UnitOf self.now.tracks.now u }
        ensures { listed result list.new ≡ list_answer (list_room (kind14 (index_of self.now) u) list.old place) (kind14 (index_of self.now) u) list.old place }
    {
        self.step_spans(u)
            .answer_list(self.tracks, self.vectors.k, list, place)
    }

    // Kind 15.
    #[tactic(auto, using(crate::proofs::Lent::lent_tracks))]
    pub fn steps_up(&self, u: u16, list: &mut [u16], place: usize) -> Result<u16, Refusal>
        requires unit_of { UnitOf self.now.tracks.now u }
        ensures { listed result list.new ≡ list_answer (list_room (kind15 (index_of self.now) u) list.old place) (kind15 (index_of self.now) u) list.old place }
    {
        self.step_up_spans(u)
            .answer_list(self.tracks, self.vectors.k, list, place)
    }

    // The highest-numbered direct step of u, 0 if none.
    fn highest_step(&self, u: u16) -> u16
        requires unit_of { UnitOf self.now.tracks.now u }
        ensures { result ≡ highest_step (kind11 (index_of self.now)) u }
    {
        self.step_spans(u).last_unit(self.tracks, u)
    }

    // Kind 16: one stage for each highest step on the way down.
    pub fn stage(&self, u: u16) -> u16
        requires unit_of { UnitOf self.now.tracks.now u }
        ensures { result ≡ kind16 (index_of self.now) u }
    {
        let mut stage: u16 = 0;
        let mut v = u;
        // a chain of steps, not a range: no `for` walks it
        while 0 < v {
            stage += 1;
            v = self.highest_step(v);
        }
        stage
    }

    // Kind 17.
    #[tactic(auto, using(crate::proofs::Lent::lent_tracks))]
    pub fn unit_low(&self, u: u16, q: u16) -> u16
        requires unit_of { UnitOf self.now.tracks.now u }
        requires q_lt_k { q < self.now.vectors.k }
        ensures { result ≡ kind17 (index_of self.now) u q }
    {
        let low = self.vectors.low_at(self.spot(u), usize::from(q));
        lists::unit_at(self.tracks, q, low)
    }

    // Kind 18.
    #[tactic(auto, using(crate::proofs::Lent::lent_tracks))]
    pub fn unit_high(&self, u: u16, q: u16) -> u16
        requires unit_of { UnitOf self.now.tracks.now u }
        requires q_lt_k { q < self.now.vectors.k }
        ensures { result ≡ kind18 (index_of self.now) u q }
    {
        let high = self.vectors.high_at(self.spot(u), usize::from(q));
        lists::unit_at(self.tracks, q, high)
    }
}
