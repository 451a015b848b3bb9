// What has been read of a course file: the card with its areas, the phases of the order of frames, and how a card is refused.
#![tactic(auto)]

ghost use Rattle.std.specs.Prelude.{◌≤◌, ◌≡◌, length};
ghost use Rattle.reading.specs.Card as rule;
ghost use Rattle.reading.specs.Held as lent;
ghost use Rattle.reading.specs.Held.{reading_of, fresh_card, Roomy, Took};

use rules::Refusal;

// Where in the order of frames a file stands.
#[derive(Clone, Copy)]
pub enum Phase {
    // 01 comes next
    Head,
    // 02 for the next unit
    Tracks,
    // 03, or 04
    Needs,
    // a question
    Asking,
    // nothing more is read
    Stopped,
}

// What has been read. The listing itself lies in the lent areas: `units` tracks and `pairs` needs; and once it is built, `count` words, and
// the stages of the units at the start of the work area, which the build no longer needs.
#[derive(Clone, Copy)]
pub struct Card {
    pub phase: Phase,
    pub lines: u32,
    pub n: u16,
    pub k: u16,
    pub units: usize,
    pub pairs: usize,
    pub count: usize,
    pub lens: [u16; 32],
    pub row: [u32; 66],
}

// The areas that a course is read into, as they are lent.
#[derive(Drop)]
pub struct Areas<'a> {
    pub tracks: &'a mut [u16],
    pub needs: &'a mut [u16],
    pub words: &'a mut [u64],
    pub directory: &'a mut [u16],
    pub work: &'a mut [u16],
    pub list: &'a mut [u16],
}

// A card after a line, and how many bytes were printed for it.
#[derive(Clone, Copy)]
pub struct Step {
    pub card: Card,
    pub wrote: usize,
}

impl Card {
    // A card before its first line.
    pub fn start() -> Card
        ensures { result ≡ fresh_card }
    {
        Card {
            phase: Phase::Head,
            lines: 0,
            n: 0,
            k: 0,
            units: 0,
            pairs: 0,
            count: 0,
            lens: [0u16; 32],
            row: [0u32; 66],
        }
    }

    // Whether a card reads on.
    pub fn is_reading(&self) -> bool
        ensures { result ≡ rule.reads self.now.phase }
    {
        matches!(
            self.phase,
            Phase::Head | Phase::Tracks | Phase::Needs | Phase::Asking
        )
    }

    // Whether 04 has not come.
    pub fn is_unfinished(&self) -> bool
        ensures { result ≡ rule.unfinished self.now.phase }
    {
        matches!(self.phase, Phase::Head | Phase::Tracks | Phase::Needs)
    }

    // The refusal is printed, and nothing more is read.
    pub fn refuse(self, refusal: Refusal, out: &mut [u8]) -> Step
        requires { 20 ≤ length out.old }
        ensures { (a : lent.Areas) → Roomy self a → Took (rule.refuse (reading_of self a) refusal) out.old result a out.new }
    {
        let wrote = answers::put_refused(out, refusal);
        Step {
            card: Card {
                phase: Phase::Stopped,
                ..self
            },
            wrote,
        }
    }

    // A frame that is not allowed here.
    pub fn misplaced(self, out: &mut [u8]) -> Step
        requires { 20 ≤ length out.old }
        ensures { (a : lent.Areas) → Roomy self a → Took (rule.misplaced (reading_of self a)) out.old result a out.new }
    {
        self.refuse(Refusal::FrameOrder(self.lines), out)
    }
}
