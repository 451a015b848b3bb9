// The pairs of a need list: counted, and refusals 4 and 5 in the order of their numbers.
// `as` narrows only what a clause bounds: `try_from` would bring in a failure that cannot come.
#![tactic(auto)]

ghost use Rattle.std.specs.Prelude.{◌≤◌, ◌≡◌};
ghost use Rattle.rules.specs.Ranges.{first_found};
ghost use Rattle.rules.specs.Listing.{pairs, counted_needs, bad_units, bad_pair, units_above, out_of_order, pairs_verdict};

use rules::Refusal;

// An even length, and at most 8,192 pairs.
#[tactic(auto, unfolding(rules::specs::Listing::counted_needs))]
pub fn counted(needs: &[u16]) -> bool
    ensures { result ≡ counted_needs needs.now }
{
    needs.len() % 2 == 0 && needs.len() / 2 <= rules::MAX_NEEDS
}

// The pair (u, v) has a number that is not 1 to n, or v is not below u.
#[tactic(auto, unfolding(rules::specs::Listing::bad_units))]
fn is_bad_pair(n: u16, u: u16, v: u16) -> bool
    ensures { result ≡ bad_units n u v }
{
    n < u || v == 0 || u <= v
}

// The index of the first such pair.
fn bad_pair(n: u16, needs: &[u16]) -> Option<usize>
    ensures { result ≡ first_found (bad_pair n needs.now) (pairs needs.now) }
{
    for i in 0..needs.len() / 2 {
        if is_bad_pair(n, needs[2 * i], needs[2 * i + 1]) {
            return Some(i);
        }
    }
    None
}

// The pair (u, v) is above the pair (a, b): by the first unit, then by the second.
fn is_above(u: u16, v: u16, a: u16, b: u16) -> bool
    ensures { result ≡ units_above u v a b }
{
    (a, b) < (u, v)
}

// The index of the first pair not above the one before it.
fn pair_out_of_order(needs: &[u16]) -> Option<usize>
    ensures { result ≡ first_found (out_of_order needs.now) (pairs needs.now) }
{
    for i in 1..needs.len() / 2 {
        if !is_above(
            needs[2 * i],
            needs[2 * i + 1],
            needs[2 * i - 2],
            needs[2 * i - 1],
        ) {
            return Some(i);
        }
    }
    None
}

// Refusals 4 and 5 of a need list over the units 1 to n.
pub fn pairs_verdict(n: u16, needs: &[u16]) -> Result<(), Refusal>
    requires { pairs needs.now ≤ 8192 }
    ensures { result ≡ pairs_verdict n needs.now }
{
    if let Some(bad) = bad_pair(n, needs) {
        return Err(Refusal::BadPair(bad as u32));
    }
    if let Some(late) = pair_out_of_order(needs) {
        return Err(Refusal::PairOrder(late as u32));
    }
    Ok(())
}
