// Any index judged: whole, or which of the seven conditions fails first.
#![tactic(auto)]

ghost use Rattle.std.specs.Prelude.{ℕ, ◌+◌, ◌-◌, ◌*◌, ◌/◌, ◌≤◌, ◌<◌, ◌≡◌, cond, length, get_or, eqb};
ghost use Rattle.rules.specs.declared.Refusal.TheVariants.{NotWhole};
ghost use Rattle.rules.specs.Ranges.{sum, every};
ghost use Rattle.rules.specs.Layout.{offset, vector_bits, word_count};
ghost use Rattle.rules.specs.Bits.{bit, ones_before, rank};
ghost use Rattle.rules.specs.Index.{lens_of, vector_of, lengths_true, vectors_true};
ghost use Rattle.rules.specs.Lent.{lent_index};
ghost use Rattle.rules.specs.Outcomes.{whole_verdict};
ghost use Rattle.words.specs.Words.{TrueTo};
ghost use Rattle.layout.specs.Lengths.{Lengths};
ghost use Rattle.layout.specs.Starts.{row_starts};
ghost use Rattle.whole.specs.Judged.{judged, judged_by, areas_fault};

use rules::{Index, Refusal};

// Which condition of a whole index fails first, in document 01's order.
#[derive(Clone, Copy, PartialEq, Eq)]
pub enum Fault {
    // n or k is out of range
    OutOfRange,
    // the track list has not n entries, or one is k or more
    BadTracks,
    // a length in the head is not the count in the track list, or is 0 below k, or is not 0 beyond
    BadLengths,
    // an area has fewer than W entries
    ShortArea,
    // a spare bit is 1
    SpareBit,
    // a directory entry is not the number of ones before its word
    BadDirectory,
    // a vector p,q has not as many ones as p has units
    BadVector,
}

impl From<Fault> for Refusal {
    ghost from_gives = { λ _ refusal. refusal ≡ NotWhole };

    fn from(_fault: Fault) -> Refusal {
        Refusal::NotWhole
    }
}

// The head's lengths are the counts in the track list, at least 1 for each track below k and 0 beyond.
fn lengths_true(lens: &[u16; 32], tracks: &[u16], k: usize) -> bool
    requires { (length tracks.now ≤ 1024) × ((i : ℕ) → i < length tracks.now → get_or tracks.now i 0 < 32) }
    ensures { result ≡ lengths_true lens.now k tracks.now }
{
    let counts = tracks::track_lengths(tracks);
    // no exit before the end: every question pays for this loop, and a branch in it would cost more than the rest of a wrong head
    let mut right = true;
    for q in 0..32 {
        if lens[q] != counts[q] || (lens[q] == 0) != (k <= q) {
            right = false;
        }
    }
    right
}

// The bits of the last word past the vectors are 0.
fn spare_clear(words: &[u64], bits: usize) -> bool
    requires bits_in_bounds { (bits + 63) / 64 ≤ length words.now }
    requires bits_bound { bits ≤ 65536 }
    ensures { result ≡ every (λ i. eqb (bit words.now (bits + i)) 0) (64 * ((bits + 63) / 64) - bits) }
{
    bits % 64 == 0 || words[bits / 64] >> (bits % 64) == 0
}

// Each of the first count directory entries is the number of ones in all words before it.
fn directory_true(words: &[u64], directory: &[u16], count: usize) -> bool
    requires { (count ≤ length words.now) × (count ≤ length directory.now) }
    ensures { result ≡ every (λ j. eqb (get_or directory.now j 0) (ones_before words.now j)) count }
{
    if count == 0 {
        return true;
    }
    // no exit before the end, as above
    let mut right = directory[0] == 0;
    for j in 1..count {
        if u32::from(directory[j]) != u32::from(directory[j - 1]) + words[j - 1].count_ones() {
            right = false;
        }
    }
    right
}

// Each of the vectors p,q, which start at bit start with the given ones before them, has as many ones as p has units.
fn row_true(
    words: &[u64],
    directory: &[u16],
    lens: &[u16; 32],
    k: usize,
    p: usize,
    start: usize,
    before: usize,
) -> bool
    requires lengths { Lengths (lens_of lens.now) k }
    requires true_to { TrueTo words.now directory.now (word_count (lens_of lens.now) k) }
    requires p_lt_k { (p < k) × (start ≡ offset (lens_of lens.now) k p 0) × (before ≡ rank words.now start) }
    ensures { result ≡ every (λ q. eqb (sum (vector_of (lens_of lens.now) k words.now p q) (vector_bits (lens_of lens.now) p q)) (cond (eqb p q) 0 (lens_of lens.now p))) k }
{
    let units = usize::from(lens[p]);
    let mut end = start;
    let mut ones = before;
    for q in 0..k {
        if q != p {
            end += layout::vector_room(lens, p, q);
            ones += units;
            if words::ones_through(words, directory, end - 1) != ones {
                return false;
            }
        }
    }
    true
}

// Each vector p,q has as many ones as p has units; row has the first bit of the vectors of each p.
fn vectors_true(
    words: &[u64],
    directory: &[u16],
    lens: &[u16; 32],
    row: &[u32; 66],
    k: usize,
) -> bool
    requires lengths { Lengths (lens_of lens.now) k }
    requires true_to { TrueTo words.now directory.now (word_count (lens_of lens.now) k) }
    requires row_value { row.now ≡ row_starts (lens_of lens.now) k }
    ensures { result ≡ vectors_true (lens_of lens.now) k words.now }
{
    let mut before: usize = 0;
    for p in 0..k {
        if !row_true(words, directory, lens, k, p, row[p] as usize, before) {
            return false;
        }
        before += (k - 1) * usize::from(lens[p]);
    }
    true
}

// Conditions 4 to 7, of areas for tracks of known lengths.
fn judge_areas(
    lens: &[u16; 32],
    k: usize,
    words: &[u64],
    directory: &[u16],
) -> Result<[u32; 66], Fault>
    requires { Lengths (lens_of lens.now) k }
    ensures { result ≡ judged_by (lens_of lens.now) k (areas_fault (lens_of lens.now) k words.now directory.now) }
{
    let row = layout::row_starts(lens, k);
    let bits = row[k] as usize;
    let count = (bits + 63) / 64;
    if words.len() < count || directory.len() < count {
        return Err(Fault::ShortArea);
    }
    if !spare_clear(words, bits) {
        return Err(Fault::SpareBit);
    }
    if !directory_true(words, directory, count) {
        return Err(Fault::BadDirectory);
    }
    if !vectors_true(words, directory, lens, &row, k) {
        return Err(Fault::BadVector);
    }
    Ok(row)
}

// Judges any index: the table by which a vector is found, or the first condition that fails.
pub fn judge(index: &Index) -> Result<[u32; 66], Fault>
    ensures { result ≡ judged (lent_index index.now) }
{
    let Index {
        head,
        tracks,
        words,
        directory,
    } = *index;
    let n = head.n;
    let k = head.k;
    if n == 0 || rules::MAX_UNITS < n || k == 0 || rules::MAX_TRACKS < k {
        return Err(Fault::OutOfRange);
    }
    if tracks.len() != usize::from(n) || tracks::bad_track(tracks, k).is_some() {
        return Err(Fault::BadTracks);
    }
    if !lengths_true(&head.lens, tracks, usize::from(k)) {
        return Err(Fault::BadLengths);
    }
    judge_areas(&head.lens, usize::from(k), words, directory)
}

// Ok where the index is whole, else refusal 9.
#[tactic(auto, using(crate::proofs::Judging::whole_fine, crate::proofs::Judging::whole_refused))]
pub fn check(index: &Index) -> Result<(), Refusal>
    ensures { result ≡ whole_verdict (lent_index index.now) }
{
    judge(index)?;
    Ok(())
}
