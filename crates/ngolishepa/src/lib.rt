// The calls of the box for C: each hands its arguments on and tells the answer as plain numbers. include/ngolishepa.h declares them, so their
// parameters and the structs here stay as C has them.
#![tactic(auto)]

ghost use Rattle.std.specs.Prelude.{◌≡◌};
ghost use Rattle.rules.specs.Index.{index};
ghost use Rattle.rules.specs.Listing.{listing, listing_verdict};
ghost use Rattle.rules.specs.Outcomes.{build_outcome, whole_verdict, needs_outcome, is_step_outcome, needed_outcome, needing_outcome, steps_outcome, steps_up_outcome, stage_outcome, unit_low_outcome, unit_high_outcome};
ghost use Rattle.rules.specs.Told.{told_verdict, told_pair, told_number, told_list, ListTold};
ghost use Rattle.ngolishepa.specs.Told.{told_part, told_build, BuildTold};
ghost use Rattle.ngolishepa.specs.Version.{version};

use rules::{Head, Index, Listing, NumberTold, PairTold, Told};

// What a build answers.
#[repr(C)]
#[derive(Clone, Copy)]
pub struct BuiltTold {
    pub head: Head,
    pub bits: u32,
    pub refusal: Told,
}

// Where the part of a need list stands; both 0 where it is refused.
#[repr(C)]
#[derive(Clone, Copy)]
pub struct PartTold {
    pub refusal: Told,
    pub start: usize,
    pub count: usize,
}

// ---- a listing

#[unsafe(no_mangle)]
pub extern "C" fn ngolishepa_check_listing(n: u16, k: u16, tracks: &[u16], needs: &[u16]) -> Told
    ensures { result ≡ told_verdict (listing_verdict (listing n k tracks.now needs.now)) }
{
    let course = Listing {
        n,
        k,
        tracks,
        needs,
    };
    listing::check(&course).into()
}

#[unsafe(no_mangle)]
pub extern "C" fn ngolishepa_part(needs: &[u16], unit: u16) -> PartTold
    ensures { result ≡ told_part needs.now unit }
{
    let span = listing::part_span(needs, unit);
    PartTold {
        refusal: listing::part_verdict(needs, unit).into(),
        start: span.start,
        count: span.count,
    }
}

// ---- the index

#[unsafe(no_mangle)]
pub extern "C" fn ngolishepa_build(
    n: u16,
    k: u16,
    tracks: &[u16],
    needs: &[u16],
    words: &mut [u64],
    directory: &mut [u16],
    work: &mut [u16],
) -> BuiltTold
    ensures { record { answer = result; words = words.new; directory = directory.new; work = work.new } ≡ told_build (build_outcome (listing n k tracks.now needs.now) words.old directory.old work.old) }
{
    let course = Listing {
        n,
        k,
        tracks,
        needs,
    };
    match build::build(&course, words, directory, work) {
        Ok(built) => BuiltTold {
            head: built.head,
            bits: built.bits,
            refusal: Told::from(Ok(())),
        },
        Err(refusal) => BuiltTold {
            head: Head {
                lens: [0; 32],
                n: 0,
                k: 0,
            },
            bits: 0,
            refusal: refusal.into(),
        },
    }
}

#[unsafe(no_mangle)]
pub extern "C" fn ngolishepa_check_index(
    head: Head,
    tracks: &[u16],
    words: &[u64],
    directory: &[u16],
) -> Told
    ensures { result ≡ told_verdict (whole_verdict (index head tracks.now words.now directory.now)) }
{
    let index = Index {
        head,
        tracks,
        words,
        directory,
    };
    whole::check(&index).into()
}

// ---- the questions

// Kind 10.
#[unsafe(no_mangle)]
pub extern "C" fn ngolishepa_needs(
    head: Head,
    tracks: &[u16],
    words: &[u64],
    directory: &[u16],
    u: u16,
    v: u16,
) -> PairTold
    ensures { result ≡ told_pair (needs_outcome (index head tracks.now words.now directory.now) u v) }
{
    let index = Index {
        head,
        tracks,
        words,
        directory,
    };
    pair_questions::needs(&index, u, v).into()
}

// Kind 11.
#[unsafe(no_mangle)]
pub extern "C" fn ngolishepa_is_step(
    head: Head,
    tracks: &[u16],
    words: &[u64],
    directory: &[u16],
    u: u16,
    v: u16,
) -> PairTold
    ensures { result ≡ told_pair (is_step_outcome (index head tracks.now words.now directory.now) u v) }
{
    let index = Index {
        head,
        tracks,
        words,
        directory,
    };
    pair_questions::is_step(&index, u, v).into()
}

// Kind 12.
#[unsafe(no_mangle)]
pub extern "C" fn ngolishepa_needed(
    head: Head,
    tracks: &[u16],
    words: &[u64],
    directory: &[u16],
    u: u16,
    list: &mut [u16],
    place: usize,
) -> NumberTold
    ensures { record { answer = result; list = list.new } ≡ told_list (needed_outcome (index head tracks.now words.now directory.now) u list.old place) }
{
    let index = Index {
        head,
        tracks,
        words,
        directory,
    };
    list_questions::needed(&index, u, list, place).into()
}

// Kind 13.
#[unsafe(no_mangle)]
pub extern "C" fn ngolishepa_needing(
    head: Head,
    tracks: &[u16],
    words: &[u64],
    directory: &[u16],
    u: u16,
    list: &mut [u16],
    place: usize,
) -> NumberTold
    ensures { record { answer = result; list = list.new } ≡ told_list (needing_outcome (index head tracks.now words.now directory.now) u list.old place) }
{
    let index = Index {
        head,
        tracks,
        words,
        directory,
    };
    list_questions::needing(&index, u, list, place).into()
}

// Kind 14.
#[unsafe(no_mangle)]
pub extern "C" fn ngolishepa_steps(
    head: Head,
    tracks: &[u16],
    words: &[u64],
    directory: &[u16],
    u: u16,
    list: &mut [u16],
    place: usize,
) -> NumberTold
    ensures { record { answer = result; list = list.new } ≡ told_list (steps_outcome (index head tracks.now words.now directory.now) u list.old place) }
{
    let index = Index {
        head,
        tracks,
        words,
        directory,
    };
    list_questions::steps(&index, u, list, place).into()
}

// Kind 15.
#[unsafe(no_mangle)]
pub extern "C" fn ngolishepa_steps_up(
    head: Head,
    tracks: &[u16],
    words: &[u64],
    directory: &[u16],
    u: u16,
    list: &mut [u16],
    place: usize,
) -> NumberTold
    ensures { record { answer = result; list = list.new } ≡ told_list (steps_up_outcome (index head tracks.now words.now directory.now) u list.old place) }
{
    let index = Index {
        head,
        tracks,
        words,
        directory,
    };
    list_questions::steps_up(&index, u, list, place).into()
}

// Kind 16.
#[unsafe(no_mangle)]
pub extern "C" fn ngolishepa_stage(
    head: Head,
    tracks: &[u16],
    words: &[u64],
    directory: &[u16],
    u: u16,
) -> NumberTold
    ensures { result ≡ told_number (stage_outcome (index head tracks.now words.now directory.now) u) }
{
    let index = Index {
        head,
        tracks,
        words,
        directory,
    };
    number_questions::stage(&index, u).into()
}

// Kind 17.
#[unsafe(no_mangle)]
pub extern "C" fn ngolishepa_unit_low(
    head: Head,
    tracks: &[u16],
    words: &[u64],
    directory: &[u16],
    u: u16,
    q: u16,
) -> NumberTold
    ensures { result ≡ told_number (unit_low_outcome (index head tracks.now words.now directory.now) u q) }
{
    let index = Index {
        head,
        tracks,
        words,
        directory,
    };
    number_questions::unit_low(&index, u, q).into()
}

// Kind 18.
#[unsafe(no_mangle)]
pub extern "C" fn ngolishepa_unit_high(
    head: Head,
    tracks: &[u16],
    words: &[u64],
    directory: &[u16],
    u: u16,
    q: u16,
) -> NumberTold
    ensures { result ≡ told_number (unit_high_outcome (index head tracks.now words.now directory.now) u q) }
{
    let index = Index {
        head,
        tracks,
        words,
        directory,
    };
    number_questions::unit_high(&index, u, q).into()
}

// ---- the version

// Changes with the layout of a struct that C reads or writes; include/ngolishepa.h has the same number.
const VERSION: u32 = 1;

#[unsafe(no_mangle)]
pub extern "C" fn ngolishepa_version() -> u32
    ensures { result ≡ version }
{
    VERSION
}
