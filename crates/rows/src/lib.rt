// The rows of the work area: what each unit needs in each track, from the listed pairs; and the first unit of an unsound track.
#![tactic(auto)]

ghost use Rattle.std.specs.Prelude.{ℕ, ◌+◌, ◌*◌, ◌≤◌, ◌<◌, max, ◌≡◌, length, get_or};
ghost use Rattle.rules.specs.Ranges.{first_found, greatest, rows};
ghost use Rattle.rules.specs.Listing.{listing, pairs};
ghost use Rattle.rules.specs.Order.{unsound};
ghost use Rattle.rules.specs.Index.{built_work};
ghost use Rattle.rules.proofs.Accepted.{Accepted};
ghost use Rattle.rules.proofs.Needs.{Pairs};
ghost use Rattle.rules.proofs.Bounds.{reach};
ghost use Rattle.rows.specs.Rows.{RowIs, brings, pairs_to};

// Row `to` becomes the greater of itself and row `from`, entry by entry; each entry is stored, so that no branch hangs on it.
fn join_row(work: &mut [u16], to: usize, from: usize, k: usize)
    requires { (to + k ≤ length work.old) × (from + k ≤ to) }
    ensures { RowIs work.old work.new to k (λ q. max (get_or work.old (to + q) 0) (get_or work.old (from + q) 0)) }
{
    for q in 0..k {
        work[to + q] = work[to + q].max(work[from + q]);
    }
}

fn clear_row(work: &mut [u16], to: usize, k: usize)
    requires { to + k ≤ length work.old }
    ensures { RowIs work.old work.new to k (λ q. 0) }
{
    work[to..to + k].fill(0);
}

// The row of unit i + 1 from the pairs that begin with it, from pair j on; answers the pair after them.
fn join_pairs(needs: &[u16], work: &mut [u16], i: usize, k: usize, from: usize) -> usize
    requires pairs { Pairs 1024 needs.now }
    requires i_bound { (i < 1024) × (k ≤ 32) × (i * k + k ≤ length work.old) }
    requires from_value { from ≡ pairs_to needs.now i }
    requires by_index { (q : ℕ) → q < k → get_or work.old (i * k + q) 0 ≡ 0 }
    ensures value { result ≡ pairs_to needs.now (i + 1) }
    ensures row_is { RowIs work.old work.new (i * k) k (λ q. greatest (brings work.old needs.now k i q) (pairs needs.now)) }
{
    let pairs = needs.len() / 2;
    for j in from..pairs {
        let u = usize::from(needs[2 * j]);
        if u != i + 1 {
            return j;
        }
        let v = usize::from(needs[2 * j + 1]);
        join_row(work, i * k, (v - 1) * k, k);
    }
    pairs
}

// The listing comes in parts with `accepted`: as a ghost field that fact has no proof of being a proposition (pairs rise by the first unit or
// by the second), and as an equation of verdicts it hides its bounds from the search.

// Each unit's row, with the unit's own position in the entry of its own track.
pub fn fill_rows(tracks: &[u16], needs: &[u16], work: &mut [u16], k: usize)
    requires accepted { Accepted (listing (length tracks.now) k tracks.now needs.now) }
    requires work_len { length work.old ≡ length tracks.now * k }
    ensures { work.new ≡ rows (λ i q. reach (listing (length tracks.now) k tracks.now needs.now) (i + 1) q) (length tracks.now) k }
{
    let mut seen = [0u16; 32];
    let mut j = 0;
    for (i, &track) in tracks.iter().enumerate() {
        clear_row(work, i * k, k);
        j = join_pairs(needs, work, i, k, j);
        let p = usize::from(track);
        seen[p] += 1;
        work[i * k + p] = seen[p];
    }
}

// What unit i + 1 needs in its own track p, from its pairs, which end before pair `end`; and the first of these pairs.
fn own_low(needs: &[u16], work: &[u16], i: usize, k: usize, p: usize, end: usize) -> (u16, usize)
    requires pairs { Pairs 1024 needs.now }
    requires i_bound { (i < 1024) × (p < k) × (k ≤ 32) × (i * k ≤ length work.now) }
    requires end_value { end ≡ pairs_to needs.now (i + 1) }
    ensures low_value { result.0 ≡ greatest (brings work.now needs.now k i p) (pairs needs.now) }
    ensures pair_value { result.1 ≡ pairs_to needs.now i }
{
    let mut low: u16 = 0;
    for j in (0..end).rev() {
        let u = usize::from(needs[2 * j]);
        if u != i + 1 {
            return (low, j + 1);
        }
        let v = usize::from(needs[2 * j + 1]);
        low = work[(v - 1) * k + p].max(low);
    }
    (low, 0)
}

// Puts low into each unit's own entry, from the last unit down; answers the index of the first unit that does not need the one before
// it in its track, if any.
pub fn settle_rows(tracks: &[u16], needs: &[u16], work: &mut [u16], k: usize) -> Option<usize>
    requires accepted { Accepted (listing (length tracks.now) k tracks.now needs.now) }
    requires work_value { work.old ≡ rows (λ i q. reach (listing (length tracks.now) k tracks.now needs.now) (i + 1) q) (length tracks.now) k }
    ensures value { result ≡ first_found (unsound (listing (length tracks.now) k tracks.now needs.now)) (length tracks.now) }
    ensures work_after { work.new ≡ built_work (listing (length tracks.now) k tracks.now needs.now) }
{
    let mut bad = None;
    let mut j = needs.len() / 2;
    for i in (0..tracks.len()).rev() {
        let p = usize::from(tracks[i]);
        let (low, start) = own_low(needs, work, i, k, p, j);
        j = start;
        let position = work[i * k + p];
        if low + 1 != position {
            bad = Some(i);
        }
        work[i * k + p] = low;
    }
    bad
}
