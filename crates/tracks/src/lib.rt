// The track list of a listing: its first entry that is no track, the length of each track, and the first track without a unit.
#![tactic(auto)]

ghost use Rattle.std.specs.Prelude.{ℕ, ◌≤◌, ◌<◌, ◌≡◌, length, get_or, leb, eqb};
ghost use Rattle.rules.specs.Ranges.{table};
ghost use Rattle.rules.specs.Listing.{size};
ghost use Rattle.rules.specs.Ranges.{first_found};

// The index of the first entry of k or more, if any. Nearly always there is none, which one pass without a branch tells.
pub fn bad_track(tracks: &[u16], k: u16) -> Option<usize>
    ensures { result ≡ first_found (λ i. leb k (get_or tracks.now i 0)) (length tracks.now) }
{
    let greatest = tracks.iter().copied().max()?;
    if greatest < k {
        return None;
    }
    tracks.iter().position(|&q| k <= q)
}

// The length of each of the 32 tracks.
pub fn track_lengths(tracks: &[u16]) -> [u16; 32]
    requires tracks_len_bound { length tracks.now < 65536 }
    requires by_index { (i : ℕ) → i < length tracks.now → get_or tracks.now i 0 < 32 }
    ensures { result ≡ table (size tracks.now) 32 }
{
    let mut lens = [0u16; 32];
    for &q in tracks {
        lens[usize::from(q)] += 1;
    }
    lens
}

// The first track below k without a unit, if any.
pub fn empty_track(lens: &[u16; 32], k: u16) -> Option<usize>
    requires { k ≤ 32 }
    ensures { result ≡ first_found (λ q. eqb (get_or lens.now q 0) 0) k }
{
    lens[..usize::from(k)].iter().position(|&len| len == 0)
}
