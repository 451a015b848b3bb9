// The bytes of a course file as they come in blocks: whole lines are read, and what is left waits for more, unless nothing that may come
// can make a frame of it.
#![tactic(auto)]

ghost use Rattle.std.specs.Prelude.{◌≤◌, ◌≡◌, length};
ghost use Rattle.reading.specs.Held.{held, reading_of, AsLong, SameAreas, Fit};
ghost use Rattle.feeding.specs.Feeding.{has_line_feed, is_last, FedTo};

use reading::{Areas, Card};

// A card after the bytes that waited: how many of them it took, how many were printed, and whether more is to be read;
// the others are there in either case, so `more` is no `None`.
#[derive(Clone, Copy)]
pub struct Fed {
    pub card: Card,
    pub used: usize,
    pub wrote: usize,
    pub more: bool,
}

// Whether a line feed stands among the bytes.
fn has_line_feed(bytes: &[u8]) -> bool
    ensures { result ≡ has_line_feed bytes.now }
{
    bytes.contains(&b'\n')
}

// Whether the bytes that are left are all of their line: fewer than a frame has, at the end of the file or with a line feed among them.
#[tactic(auto, unfolding(crate::specs::Feeding::is_last))]
fn is_last(rest: &[u8], ended: bool) -> bool
    ensures { result ≡ is_last rest.now ended }
{
    rest.len() < 11 && (ended || has_line_feed(rest))
}

// Reads the whole lines of the bytes that wait, and a last line that is no frame as soon as it is known to be one.
pub fn feed(card: Card, bytes: &[u8], ended: bool, areas: &mut Areas, out: &mut [u8]) -> Fed
    requires fit { Fit card (held areas.old) }
    requires in_bounds { 20 ≤ length out.old }
    ensures same { SameAreas areas.old areas.new }
    ensures lengths { AsLong (held areas.old) (held areas.new) }
    ensures fed { FedTo (reading_of card (held areas.old)) bytes.now ended out.old result (held areas.new) out.new }
{
    // the last line's refusal always finds its 20 bytes
    let room = out.len() - 20;
    let run = card::run(card, bytes, areas, &mut out[..room]);
    let used = run.used;
    let wrote = run.wrote;
    let next = run.card;
    if !is_last(&bytes[used..], ended) {
        return Fed {
            card: next,
            used,
            wrote,
            more: next.is_reading(),
        };
    }
    let last = card::finish(next, &bytes[used..], &mut out[wrote..]);
    Fed {
        card: next,
        used,
        wrote: wrote + last,
        more: false,
    }
}
