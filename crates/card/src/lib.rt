// A course file line after line from the start of some bytes, and its end.
#![tactic(auto)]

ghost use Rattle.std.specs.Prelude.{◌≤◌, ◌<◌, ◌≡◌, ◌&&◌, length, leb};
ghost use Rattle.rules.specs.Ranges.{over};
ghost use Rattle.reading.specs.Card as rule;
ghost use Rattle.reading.specs.Held as lent;
ghost use Rattle.reading.specs.Held.{held, reading_of, AsLong, SameAreas, Fit};
ghost use Rattle.card.specs.Files.{rest_printed, Ran};

use reading::{Areas, Card};
use rules::Refusal;

// A card after some lines: how many bytes they took, and how many were printed for them.
#[derive(Clone, Copy)]
pub struct Progress {
    pub card: Card,
    pub used: usize,
    pub wrote: usize,
}

// Whether another line is read, where so many bytes are left and there is so much room.
fn goes_on(card: Card, left: usize, room: usize) -> bool
    ensures { result ≡ (leb 11 left && leb 5125 room && rule.reads card.phase) }
{
    11 <= left && 5125 <= room && card.is_reading()
}

// Reads line after line from the start of the bytes: a good line is eleven bytes, and anything else stops the card. It ends where the
// card stops, fewer than eleven bytes are left, or the room for another answer is not there.
pub fn run(card: Card, bytes: &[u8], areas: &mut Areas, out: &mut [u8]) -> Progress
    requires { Fit card (held areas.old) }
    ensures same { SameAreas areas.old areas.new }
    ensures lengths { AsLong (held areas.old) (held areas.new) }
    ensures ran { Ran (reading_of card (held areas.old)) bytes.now out.old result (held areas.new) out.new }
{
    let mut reached = card;
    let mut used: usize = 0;
    let mut wrote: usize = 0;
    // the bytes, the room or the card may end it: no `for` says that
    while goes_on(reached, bytes.len() - used, out.len() - wrote) {
        let step = order::read(reached, &bytes[used..used + 11], areas, &mut out[wrote..]);
        reached = step.card;
        used += 11;
        wrote += step.wrote;
    }
    Progress {
        card: reached,
        used,
        wrote,
    }
}

// ---- the end

// The end of the file, with the bytes of its last line that is no frame, if there are any.
pub fn finish(card: Card, rest: &[u8], out: &mut [u8]) -> usize
    requires { (card.lines ≤ 65536) × (length rest.now < 11) × (20 ≤ length out.old) }
    ensures { (a : lent.Areas) → (result ≡ length (rest_printed (reading_of card a) rest.now)) × (out.new ≡ over out.old (rest_printed (reading_of card a) rest.now)) }
{
    if !card.is_reading() {
        return 0;
    }
    let torn = 0 < rest.len();
    if torn {
        return answers::put_refused(out, Refusal::NoFrame(card.lines + 1));
    }
    if !card.is_unfinished() {
        return 0;
    }
    answers::put_refused(out, Refusal::FrameOrder(card.lines + 1))
}
