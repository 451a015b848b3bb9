// The needs of a course, 03, filed one behind another, and its end, 04, where the index is built.
#![tactic(auto)]

ghost use Rattle.std.specs.Prelude.{◌*◌, ◌≤◌, ◌<◌, ◌≡◌, length};
ghost use Rattle.rules.specs.Ranges.{over};
ghost use Rattle.answers.specs.Printed.{built_line};
ghost use Rattle.reading.specs.Held.{loaded_card};
ghost use Rattle.filing.specs.Filing.{NeedTaken, EndTaken};

use reading::{Card, Phase, Step};
use rules::{Listing, Refusal};

// 03 (u, v)
pub fn need_frame(card: Card, u: u16, v: u16, needs: &mut [u16], out: &mut [u8]) -> Step
    requires { (card.phase ≡ Phase.Needs) × (card.pairs ≤ 8192) × (16384 ≤ length needs.old) × (20 ≤ length out.old) }
    ensures { NeedTaken card u v needs.old out.old result needs.new out.new }
{
    let pairs = card.pairs;
    if pairs == rules::MAX_NEEDS {
        return card.refuse(Refusal::OutOfLimits, out);
    }
    needs[2 * pairs] = u;
    needs[2 * pairs + 1] = v;
    Step {
        card: Card {
            pairs: pairs + 1,
            ..card
        },
        wrote: 0,
    }
}

// The index lies in the areas, and the questions come next.
fn load(card: Card, lens: [u16; 32], bits: u32, out: &mut [u8]) -> Step
    requires { (card.k ≤ 32) × (20 ≤ length out.old) }
    ensures { (result ≡ record { card = loaded_card card lens; wrote = 15 }) × (out.new ≡ over out.old (built_line bits)) }
{
    let k = usize::from(card.k);
    let row = layout::row_starts(&lens, k);
    let wrote = answers::put_built(out, bits);
    Step {
        card: Card {
            phase: Phase::Asking,
            count: (row[k] as usize + 63) / 64,
            lens,
            row,
            ..card
        },
        wrote,
    }
}

// 04 (count of 03 frames, 0)
pub fn end_frame(
    card: Card,
    count: u16,
    filler: u16,
    tracks: &[u16],
    needs: &[u16],
    words: &mut [u64],
    directory: &mut [u16],
    work: &mut [u16],
    out: &mut [u8],
) -> Step
    requires { (card.units ≤ length tracks.now) × (2 * card.pairs ≤ length needs.now) × (card.k ≤ 32) × (20 ≤ length out.old) × (card.units ≤ length work.old) }
    ensures { EndTaken card count filler tracks needs words directory work out result }
{
    let units = card.units;
    let numbers = 2 * card.pairs;
    if usize::from(count) != card.pairs || filler != 0 {
        return card.misplaced(out);
    }
    let course = Listing {
        n: card.n,
        k: card.k,
        tracks: &tracks[..units],
        needs: &needs[..numbers],
    };
    let built = match build::build(&course, words, directory, work) {
        Ok(built) => built,
        Err(refusal) => return card.refuse(refusal, out),
    };
    stages::fill_stages(course.needs, &mut work[..units]);
    load(card, built.head.lens, built.bits, out)
}
