// Units by a span of positions in each track: counted, written ascending into a lent list, or found one by one.
// `as` narrows only what a clause bounds: `try_from` would bring in a failure that cannot come.
#![tactic(auto)]

ghost use Rattle.std.specs.Prelude.{◌+◌, ◌-◌, ◌≤◌, ◌<◌, ◌≡◌, length, get_or, set};
ghost use Rattle.rules.specs.Ranges.{sum, over};
ghost use Rattle.rules.specs.Listing.{within};
ghost use Rattle.rules.specs.Questions.{unit_at};
ghost use Rattle.rules.specs.Outcomes.{list_room, list_answer};
ghost use Rattle.lists.specs.Spans.{spanned, last_spanned, Tracks, Held, listed};

use rules::Refusal;

// In each track the positions from one to another, none where the first is greater.
#[derive(Clone, Copy)]
pub struct Spans {
    pub from: [u16; 32],
    pub to: [u16; 32],
}

// How many units of each track were seen on a walk along the track list.
#[derive(Drop)]
struct Seen {
    counts: [u16; 32],
}

impl Seen {
    // Sees one unit more of track q, and says its position there.
    fn next(&mut self, q: usize) -> u16
        requires { (q < 32) × (get_or self.old.counts q 0 < 65535) }
        ensures position { result ≡ get_or self.old.counts q 0 + 1 }
        ensures counts { self.new.counts ≡ set self.old.counts q result }
    {
        self.counts[q] += 1;
        self.counts[q]
    }
}

impl Spans {
    // How many positions the span in track q holds.
    fn positions(&self, q: usize) -> usize
        requires { q < 32 }
        ensures { (result ≡ get_or self.now.to q 0 + 1 - get_or self.now.from q 0) × (result ≤ 65536) }
    {
        (usize::from(self.to[q]) + 1).saturating_sub(usize::from(self.from[q]))
    }

    // A position is in the span in track q.
    fn holds(&self, q: usize, at: u16) -> bool
        requires { q < 32 }
        ensures { result ≡ within (get_or self.now.from q 0) (get_or self.now.to q 0) at }
    {
        (self.from[q]..=self.to[q]).contains(&at)
    }

    // How many positions the spans in the first k tracks hold.
    fn count(&self, k: usize) -> usize
        requires { k ≤ 32 }
        ensures { result ≡ sum (λ q. get_or self.now.to q 0 + 1 - get_or self.now.from q 0) k }
    {
        let mut count: usize = 0;
        for q in 0..k {
            count += self.positions(q);
        }
        count
    }

    // Writes the units in the spans, ascending; the count of them tells when the last is written.
    fn write_units(&self, tracks: &[u16], count: usize, list: &mut [u16])
        requires tracks { Tracks tracks.now 32 }
        requires count_value { (count ≡ length (spanned self.now.from self.now.to tracks.now)) × (count ≤ length list.old) }
        ensures { list.new ≡ over list.old (spanned self.now.from self.now.to tracks.now) }
    {
        let mut seen = Seen { counts: [0; 32] };
        let mut done: usize = 0;
        let mut i: usize = 0;
        // measured: a `for` over the tracks with a `break` is slower, by up to a half where the walk goes to the last unit
        while done < count {
            let q = usize::from(tracks[i]);
            let at = seen.next(q);
            if self.holds(q, at) {
                list[done] = i as u16 + 1;
                done += 1;
            }
            i += 1;
        }
    }

    // Answers a list: the units in the spans, written from the named place on, or refusal 10.
    pub fn answer_list(
        &self,
        tracks: &[u16],
        k: usize,
        list: &mut [u16],
        place: usize,
    ) -> Result<u16, Refusal>
        requires tracks { Tracks tracks.now k }
        requires held { Held self.now.from self.now.to tracks.now k }
        ensures { listed result list.new ≡ list_answer (list_room (spanned self.now.from self.now.to tracks.now) list.old place) (spanned self.now.from self.now.to tracks.now) list.old place }
    {
        let count = self.count(k);
        if list.len() < place || list.len() - place < count {
            return Err(Refusal::ShortList(count as u32));
        }
        self.write_units(tracks, count, &mut list[place..]);
        Ok(count as u16)
    }

    // The highest-numbered unit below u in the spans, 0 if none, as document 01 numbers a unit that is not there.
    pub fn last_unit(&self, tracks: &[u16], u: u16) -> u16
        requires tracks { Tracks tracks.now 32 }
        requires le_u { (1 ≤ u) × (u ≤ length tracks.now) }
        ensures { result ≡ last_spanned self.now.from self.now.to tracks.now u }
    {
        let mut seen = Seen { counts: [0; 32] };
        let mut last: u16 = 0;
        for v in 1..u {
            let q = usize::from(tracks[usize::from(v) - 1]);
            let at = seen.next(q);
            if self.holds(q, at) {
                last = v;
            }
        }
        last
    }
}

// The unit at position i of track q, 0 if none, as kinds 17 and 18 answer.
pub fn unit_at(tracks: &[u16], q: u16, i: usize) -> u16
    requires { length tracks.now ≤ 1024 }
    ensures { result ≡ unit_at tracks.now q i }
{
    let mut seen: usize = 0;
    for (j, &track) in tracks.iter().enumerate() {
        if track == q {
            seen += 1;
            if seen == i {
                return j as u16 + 1;
            }
        }
    }
    0
}
