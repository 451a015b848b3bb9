// What every other crate speaks of: the limits, the head of an index, and the numbered refusals.
#![tactic(auto)]

ghost use Rattle.std.specs.Prelude.{◌≡◌};
ghost use Rattle.rules.specs.Limits.{limits};
ghost use Rattle.rules.specs.Refusals.{number_of, place_of};

mod telling;

pub const MAX_UNITS: u16 = 1024;

pub const MAX_TRACKS: u16 = 32;

pub const MAX_NEEDS: usize = 8192;

pub const MAX_LINES: u32 = 65535;

// The greatest course that the box takes.
#[derive(Clone, Copy)]
pub struct Limits {
    pub units: u16,
    pub tracks: u16,
    pub needs: usize,
    pub lines: u32,
}

// The constants above are the limits of the definitions.
pub fn the_limits() -> Limits
    ensures { result ≡ limits }
{
    Limits {
        units: MAX_UNITS,
        tracks: MAX_TRACKS,
        needs: MAX_NEEDS,
        lines: MAX_LINES,
    }
}

// The head of an index: the length of each track, 0 beyond the last, and the counts of units and tracks. C reads it as it lies.
#[repr(C)]
#[derive(Clone, Copy)]
pub struct Head {
    pub lens: [u16; 32],
    pub n: u16,
    pub k: u16,
}

// An index as it is lent: its head, the track of each unit, and the two areas that a build fills.
#[derive(Clone, Copy)]
pub struct Index<'a> {
    pub head: Head,
    pub tracks: &'a [u16],
    pub words: &'a [u64],
    pub directory: &'a [u16],
}

// A listing as it is lent: n units in k tracks, the track of each unit, and the needs as u, v, u, v and so on.
#[derive(Clone, Copy)]
pub struct Listing<'a> {
    pub n: u16,
    pub k: u16,
    pub tracks: &'a [u16],
    pub needs: &'a [u16],
}

// Why a call was refused. What a case holds is the place.
#[derive(Clone, Copy)]
pub enum Refusal {
    // 1: a count outside the limits, or a list of the wrong length
    OutOfLimits,
    // 2: the first unit whose track is k or more
    NoSuchTrack(u32),
    // 3: the first track without a unit
    EmptyTrack(u32),
    // 4: the first pair with a number that is no unit, or whose second is not below its first
    BadPair(u32),
    // 5: the first pair not above the one before it
    PairOrder(u32),
    // 6: an area too short for the build
    ShortArea,
    // 7: the first unit that does not need the unit before it in its track
    UnsoundTrack(u32),
    // 8: the first argument that is no unit or no track
    BadArgument(u32),
    // 9: the index is not whole
    NotWhole,
    // 10: the count of an answer that finds no room
    ShortList(u32),
    // 11: a line that is no frame
    NoFrame(u32),
    // 12: a line whose frame is not allowed there
    FrameOrder(u32),
}

impl Refusal {
    // Its number, as document 01's table has it.
    pub fn number(self) -> u8
        ensures { result ≡ number_of self }
    {
        match self {
            Refusal::OutOfLimits => 1,
            Refusal::NoSuchTrack(_) => 2,
            Refusal::EmptyTrack(_) => 3,
            Refusal::BadPair(_) => 4,
            Refusal::PairOrder(_) => 5,
            Refusal::ShortArea => 6,
            Refusal::UnsoundTrack(_) => 7,
            Refusal::BadArgument(_) => 8,
            Refusal::NotWhole => 9,
            Refusal::ShortList(_) => 10,
            Refusal::NoFrame(_) => 11,
            Refusal::FrameOrder(_) => 12,
        }
    }

    // Its place, as document 01's table has it.
    pub fn place(self) -> u32
        ensures { result ≡ place_of self }
    {
        match self {
            Refusal::OutOfLimits | Refusal::ShortArea | Refusal::NotWhole => 0,
            Refusal::NoSuchTrack(unit) | Refusal::UnsoundTrack(unit) => unit,
            Refusal::EmptyTrack(track) => track,
            Refusal::BadPair(index) | Refusal::PairOrder(index) => index,
            Refusal::BadArgument(which) => which,
            Refusal::ShortList(count) => count,
            Refusal::NoFrame(line) | Refusal::FrameOrder(line) => line,
        }
    }
}

// What a build answers beside the areas: the head, and the bits that the vectors take.
#[derive(Clone, Copy)]
pub struct Built {
    pub head: Head,
    pub bits: u32,
}

// ---- answers in document 01's numbers, as C reads them

// A refusal by its number and its place; both 0 where there is none.
#[repr(C)]
#[derive(Clone, Copy, Default)]
pub struct Told {
    pub number: u32,
    pub place: u32,
}

// Yes, no (yes is false) or refused.
#[repr(C)]
#[derive(Clone, Copy)]
pub struct PairTold {
    pub refusal: Told,
    pub yes: bool,
}

// A count, a stage or a unit; 0 where it is refused.
#[repr(C)]
#[derive(Clone, Copy)]
pub struct NumberTold {
    pub refusal: Told,
    pub number: u32,
}
