// An index built from a listing: checked, its rows worked out, then its words and directory filled.
// `as` narrows only what a clause bounds: `try_from` would bring in a failure that cannot come.
#![tactic(auto)]

ghost use Rattle.std.specs.Prelude.{ℕ, ◌+◌, ◌*◌, ◌≤◌, ◌<◌, ◌≡◌, length, get_or};
ghost use Rattle.rules.specs.Ranges.{first_found};
ghost use Rattle.rules.specs.Listing.{listing};
ghost use Rattle.rules.specs.Order.{unsound};
ghost use Rattle.rules.specs.Layout.{offset, word_count};
ghost use Rattle.rules.specs.Index.{lens_of, built_work, built_words, built_directory, built_count};
ghost use Rattle.rules.specs.Lent.{lent_listing};
ghost use Rattle.rules.specs.Outcomes.{build_outcome};
ghost use Rattle.rules.proofs.Accepted.{Accepted};
ghost use Rattle.layout.specs.Starts.{row_starts};
ghost use Rattle.build.specs.Ones.{OnesSet, Given, outcome};

use rules::{Built, Head, Listing, Refusal};

// ---- the words

// Sets the 1 of unit i + 1, of track p, in each of the vectors of p, which start at bit start.
fn set_ones(
    words: &mut [u64],
    work: &[u16],
    lens: &[u16; 32],
    k: usize,
    i: usize,
    p: usize,
    start: usize,
)
    requires p_lt_k { (p < k) × (k ≤ 32) × (i * k + k ≤ length work.now) }
    requires words_len { (length words.old ≡ word_count (lens_of lens.now) k) × (length words.old ≤ 1024) }
    requires start_value { start ≡ offset (lens_of lens.now) k p 0 }
    requires p_bound { get_or work.now (i * k + p) 0 < lens_of lens.now p }
    requires by_index { (q : ℕ) → q < k → get_or work.now (i * k + q) 0 ≤ lens_of lens.now q }
    ensures { OnesSet (lens_of lens.now) k work.now p i k words.old words.new }
{
    let own = usize::from(work[i * k + p]);
    let mut off = start;
    for q in 0..k {
        if q != p {
            words::set_bit(words, off + own + usize::from(work[i * k + q]));
        }
        off += layout::vector_room(lens, p, q);
    }
}

// The words of the index, from the rows of the work area; lens and row are the lengths of the tracks and where their vectors start, and
// the needs stand here for the clauses alone.
fn fill_words(
    words: &mut [u64],
    tracks: &[u16],
    needs: &[u16],
    work: &[u16],
    lens: &[u16; 32],
    row: &[u32; 66],
    k: usize,
)
    requires given { Given (listing (length tracks.now) k tracks.now needs.now) lens.now work.now }
    requires row_value { row.now ≡ row_starts (lens_of lens.now) k }
    requires words_len { length words.old ≡ built_count (listing (length tracks.now) k tracks.now needs.now) }
    ensures { words.new ≡ built_words (listing (length tracks.now) k tracks.now needs.now) }
{
    words.fill(0);
    for (i, &track) in tracks.iter().enumerate() {
        let p = usize::from(track);
        set_ones(words, work, lens, k, i, p, row[p] as usize);
    }
}

// The words and then their directory, each area as long as the index asks.
fn fill_index(
    words: &mut [u64],
    directory: &mut [u16],
    tracks: &[u16],
    needs: &[u16],
    work: &[u16],
    lens: &[u16; 32],
    row: &[u32; 66],
    k: usize,
)
    requires given { Given (listing (length tracks.now) k tracks.now needs.now) lens.now work.now }
    requires row_value { row.now ≡ row_starts (lens_of lens.now) k }
    requires words_len { length words.old ≡ built_count (listing (length tracks.now) k tracks.now needs.now) }
    requires directory_len { length directory.old ≡ built_count (listing (length tracks.now) k tracks.now needs.now) }
    ensures words_after { words.new ≡ built_words (listing (length tracks.now) k tracks.now needs.now) }
    ensures directory_after { directory.new ≡ built_directory (listing (length tracks.now) k tracks.now needs.now) }
{
    fill_words(words, tracks, needs, work, lens, row, k);
    words::fill_directory(words, directory, directory.len());
}

// ---- the rows

// Fills the work area, which is as long as the rows; answers the index of the first unit of an unsound track, if any.
fn fill_work(tracks: &[u16], needs: &[u16], work: &mut [u16], k: usize) -> Option<usize>
    requires accepted { Accepted (listing (length tracks.now) k tracks.now needs.now) }
    requires work_len { length work.old ≡ length tracks.now * k }
    ensures value { result ≡ first_found (unsound (listing (length tracks.now) k tracks.now needs.now)) (length tracks.now) }
    ensures work_after { work.new ≡ built_work (listing (length tracks.now) k tracks.now needs.now) }
{
    rows::fill_rows(tracks, needs, work, k);
    rows::settle_rows(tracks, needs, work, k)
}

// ---- the build

// Checks a listing and builds its index. Refusals 1 to 7; 1 to 6 write nothing, 7 writes the work area alone.
pub fn build(
    course: &Listing,
    words: &mut [u64],
    directory: &mut [u16],
    work: &mut [u16],
) -> Result<Built, Refusal>
    ensures { outcome result words.new directory.new work.new ≡ build_outcome (lent_listing course.now) words.old directory.old work.old }
{
    listing::check(course)?;
    let Listing {
        n,
        k,
        tracks,
        needs,
    } = *course;
    let lens = tracks::track_lengths(tracks);
    let tracks_count = usize::from(k);
    let row = layout::row_starts(&lens, tracks_count);
    let count = (row[tracks_count] as usize + 63) / 64;
    let entries = tracks.len() * tracks_count;
    if words.len() < count || directory.len() < count || work.len() < entries {
        return Err(Refusal::ShortArea);
    }
    if let Some(bad) = fill_work(tracks, needs, &mut work[..entries], tracks_count) {
        return Err(Refusal::UnsoundTrack(bad as u32 + 1));
    }
    fill_index(
        &mut words[..count],
        &mut directory[..count],
        tracks,
        needs,
        &work[..entries],
        &lens,
        &row,
        tracks_count,
    );
    Ok(Built {
        head: Head { lens, n, k },
        bits: 2 * u32::from(n) * (u32::from(k) - 1),
    })
}
