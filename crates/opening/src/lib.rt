// The frames that open a course: 01, the counts of units and tracks, and 02, the track of each unit in turn.
#![tactic(auto)]

ghost use Rattle.std.specs.Prelude.{◌≤◌, ◌<◌, ◌≡◌, length};
ghost use Rattle.reading.specs.Card as rule;
ghost use Rattle.reading.specs.Held.{Areas, reading_of, Fit, Took};
ghost use Rattle.opening.specs.Opening.{TrackTaken};

use reading::{Card, Phase, Step};
use rules::Refusal;

// 01 (n, k)
pub fn head_frame(card: Card, n: u16, k: u16, out: &mut [u8]) -> Step
    requires { (card.phase ≡ Phase.Head) × (20 ≤ length out.old) }
    ensures { (a : Areas) → Fit card a → Took (rule.head_frame (reading_of card a) n k) out.old result a out.new }
{
    if n == 0 || rules::MAX_UNITS < n || k == 0 || rules::MAX_TRACKS < k {
        return card.refuse(Refusal::OutOfLimits, out);
    }
    Step {
        card: Card {
            phase: Phase::Tracks,
            n,
            k,
            ..card
        },
        wrote: 0,
    }
}

// 02 (unit, track), for units 1 to n in turn
pub fn track_frame(card: Card, unit: u16, track: u16, tracks: &mut [u16], out: &mut [u8]) -> Step
    requires { (card.phase ≡ Phase.Tracks) × (card.units < length tracks.old) × (20 ≤ length out.old) }
    ensures { TrackTaken card unit track tracks.old out.old result tracks.new out.new }
{
    let units = card.units;
    if usize::from(unit) != units + 1 {
        return card.misplaced(out);
    }
    tracks[units] = track;
    let phase = if unit == card.n {
        Phase::Needs
    } else {
        Phase::Tracks
    };
    Step {
        card: Card {
            phase,
            units: units + 1,
            ..card
        },
        wrote: 0,
    }
}
