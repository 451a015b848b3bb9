// The questions of an index that is known to be whole, exported for the benchmark alone; no header of the library declares them, but
// bench/inner.h does, so their parameters stay as C has them.
#![tactic(auto)]

ghost use Rattle.std.specs.Prelude.{◌≤◌, ◌≡◌};
ghost use Rattle.rules.specs.Index.{lens_of};
ghost use Rattle.rules.specs.Questions.{kind10, kind11, kind12, kind13, kind14, kind15, kind16};
ghost use Rattle.rules.specs.Outcomes.{list_room, list_answer};
ghost use Rattle.layout.specs.Starts.{row_starts};
ghost use Rattle.known.specs.Asked.{parts, Sure, UnitOf};
ghost use Rattle.rules.specs.Told.{told_list};

use known::WholeIndex;
use rules::NumberTold;

// Fills the table by which a vector is found.
#[unsafe(no_mangle)]
pub extern "C" fn ngolishepa_inner_starts(lens: &[u16; 32], k: usize, starts: &mut [u32; 66])
    requires { k ≤ 32 }
    ensures { starts.new ≡ row_starts (lens_of lens.now) k }
{
    *starts = layout::row_starts(lens, k);
}

// Kind 10.
#[unsafe(no_mangle)]
pub extern "C" fn ngolishepa_inner_needs(
    tracks: &[u16],
    words: &[u64],
    directory: &[u16],
    lens: &[u16; 32],
    starts: &[u32; 66],
    k: usize,
    u: u16,
    v: u16,
) -> bool
    requires sure { Sure (parts lens.now k tracks.now words.now directory.now) starts.now }
    requires unit_of { UnitOf tracks.now u }
    requires unit_of_2 { UnitOf tracks.now v }
    ensures { result ≡ kind10 (parts lens.now k tracks.now words.now directory.now) u v }
{
    let index = WholeIndex::new(tracks, words, directory, lens, starts, k);
    index.needs(u, v)
}

// Kind 11.
#[unsafe(no_mangle)]
pub extern "C" fn ngolishepa_inner_is_step(
    tracks: &[u16],
    words: &[u64],
    directory: &[u16],
    lens: &[u16; 32],
    starts: &[u32; 66],
    k: usize,
    u: u16,
    v: u16,
) -> bool
    requires sure { Sure (parts lens.now k tracks.now words.now directory.now) starts.now }
    requires unit_of { UnitOf tracks.now u }
    requires unit_of_2 { UnitOf tracks.now v }
    ensures { result ≡ kind11 (parts lens.now k tracks.now words.now directory.now) u v }
{
    let index = WholeIndex::new(tracks, words, directory, lens, starts, k);
    index.is_step(u, v)
}

// Kind 12.
#[unsafe(no_mangle)]
pub extern "C" fn ngolishepa_inner_needed(
    tracks: &[u16],
    words: &[u64],
    directory: &[u16],
    lens: &[u16; 32],
    starts: &[u32; 66],
    k: usize,
    u: u16,
    list: &mut [u16],
    place: usize,
) -> NumberTold
    requires sure { Sure (parts lens.now k tracks.now words.now directory.now) starts.now }
    requires unit_of { UnitOf tracks.now u }
    ensures { record { answer = result; list = list.new } ≡ told_list (list_answer (list_room (kind12 (parts lens.now k tracks.now words.now directory.now) u) list.old place) (kind12 (parts lens.now k tracks.now words.now directory.now) u) list.old place) }
{
    let index = WholeIndex::new(tracks, words, directory, lens, starts, k);
    index.needed(u, list, place).into()
}

// Kind 13.
#[unsafe(no_mangle)]
pub extern "C" fn ngolishepa_inner_needing(
    tracks: &[u16],
    words: &[u64],
    directory: &[u16],
    lens: &[u16; 32],
    starts: &[u32; 66],
    k: usize,
    u: u16,
    list: &mut [u16],
    place: usize,
) -> NumberTold
    requires sure { Sure (parts lens.now k tracks.now words.now directory.now) starts.now }
    requires unit_of { UnitOf tracks.now u }
    ensures { record { answer = result; list = list.new } ≡ told_list (list_answer (list_room (kind13 (parts lens.now k tracks.now words.now directory.now) u) list.old place) (kind13 (parts lens.now k tracks.now words.now directory.now) u) list.old place) }
{
    let index = WholeIndex::new(tracks, words, directory, lens, starts, k);
    index.needing(u, list, place).into()
}

// Kind 14.
#[unsafe(no_mangle)]
pub extern "C" fn ngolishepa_inner_steps(
    tracks: &[u16],
    words: &[u64],
    directory: &[u16],
    lens: &[u16; 32],
    starts: &[u32; 66],
    k: usize,
    u: u16,
    list: &mut [u16],
    place: usize,
) -> NumberTold
    requires sure { Sure (parts lens.now k tracks.now words.now directory.now) starts.now }
    requires unit_of { UnitOf tracks.now u }
    ensures { record { answer = result; list = list.new } ≡ told_list (list_answer (list_room (kind14 (parts lens.now k tracks.now words.now directory.now) u) list.old place) (kind14 (parts lens.now k tracks.now words.now directory.now) u) list.old place) }
{
    let index = WholeIndex::new(tracks, words, directory, lens, starts, k);
    index.steps(u, list, place).into()
}

// Kind 15.
#[unsafe(no_mangle)]
pub extern "C" fn ngolishepa_inner_steps_up(
    tracks: &[u16],
    words: &[u64],
    directory: &[u16],
    lens: &[u16; 32],
    starts: &[u32; 66],
    k: usize,
    u: u16,
    list: &mut [u16],
    place: usize,
) -> NumberTold
    requires sure { Sure (parts lens.now k tracks.now words.now directory.now) starts.now }
    requires unit_of { UnitOf tracks.now u }
    ensures { record { answer = result; list = list.new } ≡ told_list (list_answer (list_room (kind15 (parts lens.now k tracks.now words.now directory.now) u) list.old place) (kind15 (parts lens.now k tracks.now words.now directory.now) u) list.old place) }
{
    let index = WholeIndex::new(tracks, words, directory, lens, starts, k);
    index.steps_up(u, list, place).into()
}

// Kind 16.
#[unsafe(no_mangle)]
pub extern "C" fn ngolishepa_inner_stage(
    tracks: &[u16],
    words: &[u64],
    directory: &[u16],
    lens: &[u16; 32],
    starts: &[u32; 66],
    k: usize,
    u: u16,
) -> u16
    requires sure { Sure (parts lens.now k tracks.now words.now directory.now) starts.now }
    requires unit_of { UnitOf tracks.now u }
    ensures { result ≡ kind16 (parts lens.now k tracks.now words.now directory.now) u }
{
    let index = WholeIndex::new(tracks, words, directory, lens, starts, k);
    index.stage(u)
}
