// The order of frames: one line of a course file, read as a frame and taken where it may stand, or refused.
#![tactic(auto)]

ghost use Rattle.std.specs.Prelude.{◌≤◌, length};
ghost use Rattle.reading.specs.Card as rule;
ghost use Rattle.reading.specs.Held.{lent, entered, left, held, reading_of, AsLong, SameAreas, Fit, Took};

use frames::Frame;
use reading::{Areas, Card, Phase, Step};
use rules::Refusal;

// Takes a frame where its phase allows it, or refuses it. The areas come one by one: behind one `&mut Areas` the check does not let some be
// read while another is written.
fn frame_in_phase(
    card: Card,
    frame: Frame,
    tracks: &mut [u16],
    needs: &mut [u16],
    words: &mut [u64],
    directory: &mut [u16],
    work: &mut [u16],
    list: &mut [u16],
    out: &mut [u8],
) -> Step
    requires fit { Fit card (lent tracks needs words directory work list) }
    requires in_bounds { 5125 ≤ length out.old }
    ensures { Took (rule.frame_in_phase card.phase (reading_of card (entered tracks needs words directory work list)) frame) out.old result (left tracks needs words directory work list) out.new }
{
    // measured: with a `match` on the kind too, two more cards are cleared for each line
    match card.phase {
        Phase::Head => {
            if frame.kind != 0x01 {
                return card.misplaced(out);
            }
            opening::head_frame(card, frame.a, frame.b, out)
        }
        Phase::Tracks => {
            if frame.kind != 0x02 {
                return card.misplaced(out);
            }
            opening::track_frame(card, frame.a, frame.b, tracks, out)
        }
        Phase::Needs => {
            let is_need = frame.kind == 0x03;
            if is_need {
                return filing::need_frame(card, frame.a, frame.b, needs, out);
            }
            if frame.kind != 0x04 {
                return card.misplaced(out);
            }
            filing::end_frame(
                card, frame.a, frame.b, tracks, needs, words, directory, work, out,
            )
        }
        Phase::Asking => {
            let units = card.units;
            let count = card.count;
            asking::question_frame(
                card,
                frame.kind,
                frame.a,
                frame.b,
                &tracks[..units],
                &words[..count],
                &directory[..count],
                &work[..units],
                list,
                out,
            )
        }
        Phase::Stopped => Step { card, wrote: 0 },
    }
}

// Reads one line. The areas are large enough for any course; `out` for any answer.
pub fn read(card: Card, line: &[u8], areas: &mut Areas, out: &mut [u8]) -> Step
    requires fit { Fit card (held areas.old) }
    requires in_bounds { 5125 ≤ length out.old }
    ensures same { SameAreas areas.old areas.new }
    ensures lengths { AsLong (held areas.old) (held areas.new) }
    ensures taken { Took (rule.read_line (reading_of card (held areas.old)) line.now) out.old result (held areas.new) out.new }
{
    if !card.is_reading() {
        return Step { card, wrote: 0 };
    }
    let next = Card {
        lines: card.lines + 1,
        ..card
    };
    let Some(frame) = frames::read_line(line) else {
        return next.refuse(Refusal::NoFrame(next.lines), out);
    };
    if rules::MAX_LINES < next.lines {
        return next.misplaced(out);
    }
    frame_in_phase(
        next,
        frame,
        areas.tracks,
        areas.needs,
        areas.words,
        areas.directory,
        areas.work,
        areas.list,
        out,
    )
}
