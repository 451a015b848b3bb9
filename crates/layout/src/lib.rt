// Where the vectors stand among the bits, from the lengths of the tracks.
// `as` narrows only what a clause bounds: `try_from` would bring in a failure that cannot come.
#![tactic(auto)]

ghost use Rattle.std.specs.Prelude.{◌+◌, ◌-◌, ◌*◌, ◌≤◌, ◌<◌, ◌≡◌, ltb};
ghost use Rattle.rules.specs.Ranges.{sum, bit1};
ghost use Rattle.rules.specs.Layout.{vector_room, offset};
ghost use Rattle.rules.specs.Index.{lens_of};
ghost use Rattle.layout.specs.Starts.{row_starts};

// A number as often as there are tracks, or fewer.
fn times(count: usize, number: usize) -> usize
    requires { (count ≤ 32) × (number < 4294967296) }
    ensures value { result ≡ count * number }
    ensures narrow { result ≤ 32 * number }
{
    count * number
}

// The bits of vector p,q, which starts where the one before it ends; none for a track with itself.
#[tactic(auto, unfolding(rules::specs::Layout::vector_room, rules::specs::Layout::vector_bits))]
pub fn vector_room(lens: &[u16; 32], p: usize, q: usize) -> usize
    requires { (p < 32) × (q < 32) }
    ensures value { result ≡ vector_room (lens_of lens.now) p q }
    ensures narrow { result ≤ 131072 }
{
    if p == q {
        0
    } else {
        usize::from(lens[p]) + usize::from(lens[q])
    }
}

// The units of the first k tracks.
fn units_of(lens: &[u16; 32], k: usize) -> usize
    requires { k ≤ 32 }
    ensures value { result ≡ sum (lens_of lens.now) k }
    ensures narrow { result ≤ 65536 * k }
{
    let mut units: usize = 0;
    for &len in &lens[..k] {
        units += usize::from(len);
    }
    units
}

// The table by which a vector is found: the first bit of the vectors of each track, and behind the last track the bits of all; from
// entry 33 on, the units in the tracks before each.
pub fn row_starts(lens: &[u16; 32], k: usize) -> [u32; 66]
    requires { k ≤ 32 }
    ensures { result ≡ row_starts (lens_of lens.now) k }
{
    let mut row = [0u32; 66];
    let units = units_of(lens, k);
    for p in 0..k {
        let own = usize::from(lens[p]);
        let bit = row[p];
        let before = row[p + 33];
        row[p + 1] = bit + (times(k, own) + units - 2 * own) as u32;
        row[p + 34] = before + u32::from(lens[p]);
    }
    row
}

// Lengths, table and k come apart: the fields of `bounds::Vectors`, whose methods are the only callers of the next two.

// The first bit of vector p,q among k tracks.
pub fn vector_start(lens: &[u16; 32], row: &[u32; 66], k: usize, p: usize, q: usize) -> usize
    requires { (k ≤ 32) × (p < k) × (q < k) × (row.now ≡ row_starts (lens_of lens.now) k) }
    ensures { result ≡ offset (lens_of lens.now) k p q }
{
    let own = usize::from(lens[p]);
    let bit = row[p] as usize + row[q + 33] as usize + times(q, own);
    if p < q { bit - 2 * own } else { bit }
}

// The ones of all vectors before vector p,q, where each has as many as its first track has units.
pub fn vector_ones(lens: &[u16; 32], row: &[u32; 66], k: usize, p: usize, q: usize) -> usize
    requires { (k ≤ 32) × (p < k) × (q < k) × (row.now ≡ row_starts (lens_of lens.now) k) }
    ensures { result ≡ (k - 1) * sum (lens_of lens.now) p + (q - bit1 (ltb p q)) * lens_of lens.now p }
{
    let before = times(k - 1, row[p + 33] as usize);
    let own = usize::from(lens[p]);
    if p < q {
        before + times(q - 1, own)
    } else {
        before + times(q, own)
    }
}
