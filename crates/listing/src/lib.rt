// A listing checked: refusals 1 to 5 in the order of their numbers; and the part of a need list that begins with a unit.
// `as` narrows only what a clause bounds: `try_from` would bring in a failure that cannot come.
#![tactic(auto)]

ghost use Rattle.std.specs.Prelude.{ℕ, ◌+◌, ◌≤◌, ◌<◌, ◌≡◌, length, leb};
ghost use Rattle.rules.specs.Ranges.{first};
ghost use Rattle.rules.specs.Lent.{lent_listing};
ghost use Rattle.rules.specs.Listing.{pairs, upper, listing_verdict};
ghost use Rattle.rules.specs.Outcomes.{part_verdict, part_outcome};
ghost use Rattle.listing.specs.Spans.{part_span};

use rules::{Listing, Refusal};

// Refusals 1 to 5.
pub fn check(course: &Listing) -> Result<(), Refusal>
    ensures { result ≡ listing_verdict (lent_listing course.now) }
{
    let Listing {
        n,
        k,
        tracks,
        needs,
    } = *course;
    if n == 0 || rules::MAX_UNITS < n || k == 0 || rules::MAX_TRACKS < k {
        return Err(Refusal::OutOfLimits);
    }
    if !pairs::counted(needs) || tracks.len() != usize::from(n) {
        return Err(Refusal::OutOfLimits);
    }
    if let Some(bad) = tracks::bad_track(tracks, k) {
        return Err(Refusal::NoSuchTrack(bad as u32 + 1));
    }
    let lens = tracks::track_lengths(tracks);
    if let Some(empty) = tracks::empty_track(&lens, k) {
        return Err(Refusal::EmptyTrack(empty as u32));
    }
    pairs::pairs_verdict(n, needs)
}

// ---- the part of a need list

// Which refusal the part of a need list meets: 8, 1, 4 or 5, in that order.
pub fn part_verdict(needs: &[u16], unit: u16) -> Result<(), Refusal>
    ensures { result ≡ part_verdict needs.now unit }
{
    if unit == 0 || rules::MAX_UNITS < unit {
        return Err(Refusal::BadArgument(1));
    }
    if !pairs::counted(needs) {
        return Err(Refusal::OutOfLimits);
    }
    pairs::pairs_verdict(rules::MAX_UNITS, needs)
}

// The index of the first pair whose first unit is at least u, or the count of pairs; the pairs ascend.
fn first_from(needs: &[u16], u: u16) -> usize
    requires { (i j : ℕ) → i ≤ j → j < pairs needs.now → upper needs.now i ≤ upper needs.now j }
    ensures { result ≡ first (λ i. leb u (upper needs.now i)) (pairs needs.now) }
{
    let mut a: usize = 0;
    let mut b = needs.len() / 2;
    // the library's searches are over single entries, and C lends the pairs as one flat list
    while a < b {
        let mid = a + (b - a) / 2;
        if needs[2 * mid] < u {
            a = mid + 1;
        } else {
            b = mid;
        }
    }
    a
}

// Where a part of a list stands; two numbers, which C reads, and not a range.
#[derive(Clone, Copy)]
pub struct Span {
    pub start: usize,
    pub count: usize,
}

// Where the part of the need list stands whose pairs begin with the unit.
pub fn part_span(needs: &[u16], unit: u16) -> Span
    ensures value { result ≡ part_span needs.now unit }
    ensures held { result.start + result.count ≤ length needs.now }
{
    let Ok(()) = part_verdict(needs, unit) else {
        return Span { start: 0, count: 0 };
    };
    let start = 2 * first_from(needs, unit);
    let end = 2 * first_from(needs, unit + 1);
    Span {
        start,
        count: end - start,
    }
}

// The part of the need list whose pairs begin with the unit; empty where there are none or the verdict above refuses.
pub fn part(needs: &[u16], unit: u16) -> &[u16]
    ensures { result.now ≡ part_outcome needs.now unit }
{
    let span = part_span(needs, unit);
    let start = span.start;
    let end = span.start + span.count;
    &needs[start..end]
}
