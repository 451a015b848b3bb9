// What a question asks of its arguments before it answers, refusal 8, and an index that was judged whole, as its questions are asked of it.
#![tactic(auto)]

ghost use Rattle.std.specs.Prelude.{◌≡◌, Ok, ltb};
ghost use Rattle.rules.specs.declared.Refusal.TheVariants.{BadArgument};
ghost use Rattle.rules.specs.Refusals.{unless};
ghost use Rattle.rules.specs.Listing.{within};
ghost use Rattle.rules.specs.Lent.{lent_index};
ghost use Rattle.whole.specs.Judged.{judged};
ghost use Rattle.known.specs.Lent.{index_of};

use known::WholeIndex;
use rules::{Index, Refusal};

// The argument of that number is one of n units.
pub fn unit(n: u16, which: u32, u: u16) -> Result<(), Refusal>
    ensures { result ≡ unless (within 1 n u) (BadArgument which) }
{
    if (1..=n).contains(&u) {
        Ok(())
    } else {
        Err(Refusal::BadArgument(which))
    }
}

// The second argument is one of k tracks.
pub fn track(k: u16, q: u16) -> Result<(), Refusal>
    ensures { result ≡ unless (ltb q k) (BadArgument 2) }
{
    if q < k {
        Ok(())
    } else {
        Err(Refusal::BadArgument(2))
    }
}

// An index that was judged whole, as its questions are asked of it.
pub fn asked<'a>(index: &'a Index<'a>, row: &'a [u32; 66]) -> WholeIndex<'a>
    requires { Ok row.now ≡ judged (lent_index index.now) }
    ensures index { index_of result ≡ lent_index index.now }
    ensures tracks { result.tracks.now ≡ index.now.tracks.now }
    ensures k { result.vectors.k ≡ index.now.head.k }
{
    WholeIndex::new(
        index.tracks,
        index.words,
        index.directory,
        &index.head.lens,
        row,
        usize::from(index.head.k),
    )
}
