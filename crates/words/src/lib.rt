// Bits in u64 words, counted from the lowest; a directory with the ones before each word; ranks and places by it.
// `as` narrows only what a clause bounds: `try_from` would bring in a failure that cannot come.
#![tactic(auto)]

ghost use Rattle.std.specs.Prelude.{ℕ, ◌+◌, ◌-◌, ◌*◌, ◌/◌, ◌%◌, ◌^◌, ◌≤◌, ◌<◌, ◌≡◌, length, get_or};
ghost use Rattle.std.specs.Int.Count.{ones};
ghost use Rattle.rules.specs.Ranges.{sum, table, over};
ghost use Rattle.rules.specs.Bits.{bit, ones_before, rank, place_of_one, place_of_zero};
ghost use Rattle.words.specs.Words.{with_bit, IsOne, TrueAt, Covers, Seeks, Returns, Finds, LastBelow};

// ---- one bit

// Bit x of the words, 0 or 1.
#[tactic(auto, using(crate::proofs::Operators::bit_read))]
pub fn read_bit(words: &[u64], x: usize) -> u64
    requires { x / 64 < length words.now }
    ensures { result ≡ bit words.now x }
{
    (words[x / 64] >> (x % 64)) & 1
}

// Bit x becomes 1; no other bit changes.
#[tactic(auto, using(crate::proofs::WithBit::set_there))]
pub fn set_bit(words: &mut [u64], x: usize)
    requires { x / 64 < length words.old }
    ensures { words.new ≡ with_bit words.old x 1 }
{
    words[x / 64] |= 1u64 << (x % 64);
}

// Bit x becomes 0; no other bit changes. A line of its own beside `set_bit`: one function for both would need a test.
#[tactic(auto, using(crate::proofs::WithBit::clear_there))]
pub fn clear_bit(words: &mut [u64], x: usize)
    requires { x / 64 < length words.old }
    ensures { words.new ≡ with_bit words.old x 0 }
{
    words[x / 64] &= !(1u64 << (x % 64));
}

// ---- the directory

// Fills the first count entries: each is the number of ones in all words before it.
pub fn fill_directory(words: &[u64], directory: &mut [u16], count: usize)
    requires count_in_bounds { count ≤ length words.now }
    requires count_in_bounds_2 { count ≤ length directory.old }
    requires count_bound { ones_before words.now count < 65536 }
    ensures { directory.new ≡ over directory.old (table (ones_before words.now) count) }
{
    let mut before: u32 = 0;
    for j in 0..count {
        directory[j] = before as u16;
        before += words[j].count_ones();
    }
}

// ---- ranks

// The ones before bit x.
#[tactic(auto, using(crate::proofs::Ranks::rank_masked))]
pub fn ones_before(words: &[u64], directory: &[u16], x: usize) -> usize
    requires { TrueAt words.now directory.now (x / 64) }
    ensures { result ≡ rank words.now x }
{
    let j = x / 64;
    let below = words[j] & ((1u64 << (x % 64)) - 1);
    usize::from(directory[j]) + below.count_ones() as usize
}

// The ones up to bit x, bit x among them. Apart from `ones_before`: each masks by one operation on the hot path, and they differ.
#[tactic(auto, using(crate::proofs::Ranks::rank_shifted))]
pub fn ones_through(words: &[u64], directory: &[u16], x: usize) -> usize
    requires { TrueAt words.now directory.now (x / 64) }
    ensures { result ≡ rank words.now (x + 1) }
{
    let j = x / 64;
    let through = words[j] << (63 - x % 64);
    usize::from(directory[j]) + through.count_ones() as usize
}

// ---- places

// What is left of a search for a 1 within a word: the part not yet passed, the ones to pass in it, and the bits passed.
#[derive(Clone, Copy)]
pub struct Part {
    pub word: u64,
    pub left: u32,
    pub at: u32,
}

impl Part {
    // One halving: the 1 is among the lowest width bits, or past them.
    fn halved(self, width: u32) -> Part
        requires { (self.at ≤ 64) × (width ≤ 32) }
        ensures { (w i : ℕ) → Seeks w i self (2 * width) → Seeks w i result width }
    {
        let low = (self.word & ((1u64 << width) - 1)).count_ones();
        if self.left <= low {
            self
        } else {
            Part {
                word: self.word >> width,
                left: self.left - low,
                at: self.at + width,
            }
        }
    }
}

// The bit of the i-th 1 of a word, i from 1.
pub fn one_in_word(w: u64, i: u32) -> u32
    requires { (1 ≤ i) × (i ≤ ones w) }
    ensures { IsOne w i result }
{
    let mut part = Part {
        word: w,
        left: i,
        at: 0,
    };
    for width in [32, 16, 8, 4, 2, 1] {
        part = part.halved(width);
    }
    part.at
}

// The last word from lo to hi with fewer than t before it, where before(j) stand before word j.
// Halving by hand: the closure of partition_point sees an entry but not its index, without which no zeros are counted.
fn last_word<B: Fn(usize) -> usize>(before: B, lo: usize, hi: usize, t: usize) -> usize
    requires lo_le_hi { lo ≤ hi }
    requires callable { (j : ℕ) → lo ≤ j → j ≤ hi → B.pre before j }
    ensures between { (lo ≤ result) × (result ≤ hi) }
    ensures last_below { (standing : ℕ → ℕ) → Returns (B.post before) lo hi standing → standing lo < t → LastBelow standing lo hi t result }
{
    let mut first = lo;
    let mut last = hi;
    while first < last {
        let mid = last - (last - first) / 2;
        if before(mid) < t {
            first = mid;
        } else {
            last = mid - 1;
        }
    }
    first
}

// The place, from 1, in the vector of m bits from bit off on, of the t-th of the bits sought in all words:
// before(j) of them stand before word j, and word(j) has a 1 at each of those in word j.
fn place_sought<B: Fn(usize) -> usize + Copy, W: Fn(usize) -> u64>(
    before: B,
    word: W,
    off: usize,
    m: usize,
    t: usize,
) -> usize
    requires narrow { (0 < m) × (off + m ≤ 64 * 4096) }
    requires before_callable { (j : ℕ) → off / 64 ≤ j → j ≤ (off + m - 1) / 64 → B.pre before j }
    requires word_callable { (j : ℕ) → off / 64 ≤ j → j ≤ (off + m - 1) / 64 → W.pre word j }
    requires finds { (b : ℕ → ℕ) × Finds b (B.post before) (W.post word) off m t }
    ensures { (b : ℕ → ℕ) → Finds b (B.post before) (W.post word) off m t → result ≡ place_of_one (λ y. b (off + y)) m (t - sum b off) }
{
    let j = last_word(before, off / 64, (off + m - 1) / 64, t);
    let r = one_in_word(word(j), (t - before(j)) as u32);
    64 * j + r as usize + 1 - off
}

// The place, from 1, of the i-th 1 of the vector of m bits from bit off on, before which stand the given ones.
pub fn place_of_one(
    words: &[u64],
    directory: &[u16],
    off: usize,
    m: usize,
    before: usize,
    i: usize,
) -> usize
    requires covers { Covers words.now directory.now off m }
    requires before_value { before ≡ rank words.now off }
    requires le_i { (1 ≤ i) × (i ≤ sum (λ y. bit words.now (off + y)) m) }
    ensures { result ≡ place_of_one (λ y. bit words.now (off + y)) m i }
{
    place_sought(
        |j| usize::from(directory[j]),
        |j| words[j],
        off,
        m,
        before + i,
    )
}

// The place, from 1, of the i-th 0 of the vector of m bits from bit off on, before which stand the given ones.
pub fn place_of_zero(
    words: &[u64],
    directory: &[u16],
    off: usize,
    m: usize,
    before: usize,
    i: usize,
) -> usize
    requires covers { Covers words.now directory.now off m }
    requires before_value { before ≡ rank words.now off }
    requires le_i { (1 ≤ i) × (i ≤ m - sum (λ y. bit words.now (off + y)) m) }
    ensures { result ≡ place_of_zero (λ y. bit words.now (off + y)) m i }
{
    place_sought(
        |j| 64 * j - usize::from(directory[j]),
        |j| !words[j],
        off,
        m,
        off - before + i,
    )
}
