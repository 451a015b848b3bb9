// Kinds 16 to 18, asked of any index: the index is judged first, then the unit and the track, and only then the question is asked.
// Each question copies the index, and the head in it, to a local, and is then its three steps: a function that takes the last as a closure would
// state the closure's clauses, and be longer.
#![tactic(auto, unfolding(rules::specs::Outcomes::unit_outcome, rules::specs::Outcomes::bound_outcome), using(whole::proofs::Judging::whole_fine, whole::proofs::Judging::whole_refused, arguments::proofs::Granted::unit_of))]

ghost use Rattle.std.specs.Prelude.{◌≡◌};
ghost use Rattle.rules.specs.Lent.{lent_index};
ghost use Rattle.rules.specs.Outcomes.{stage_outcome, unit_low_outcome, unit_high_outcome};

use rules::{Index, Refusal};

// Kind 16: the stage of u.
pub fn stage(index: &Index, u: u16) -> Result<u16, Refusal>
    ensures { result ≡ stage_outcome (lent_index index.now) u }
{
    let index = *index;
    let row = whole::judge(&index)?; // refusal 9 of kind 16
    arguments::unit(index.head.n, 1, u)?; // refusal 8
    Ok(arguments::asked(&index, &row).stage(u))
}

// Kind 17: the unit at low(u, q), 0 if none.
pub fn unit_low(index: &Index, u: u16, q: u16) -> Result<u16, Refusal>
    ensures { result ≡ unit_low_outcome (lent_index index.now) u q }
{
    let index = *index;
    let row = whole::judge(&index)?; // refusal 9 of kind 17
    arguments::unit(index.head.n, 1, u)?;
    arguments::track(index.head.k, q)?;
    Ok(arguments::asked(&index, &row).unit_low(u, q))
}

// Kind 18: the unit at high(u, q), 0 if none.
pub fn unit_high(index: &Index, u: u16, q: u16) -> Result<u16, Refusal>
    ensures { result ≡ unit_high_outcome (lent_index index.now) u q }
{
    let index = *index;
    let row = whole::judge(&index)?; // refusal 9 of kind 18
    arguments::unit(index.head.n, 1, u)?;
    arguments::track(index.head.k, q)?;
    Ok(arguments::asked(&index, &row).unit_high(u, q))
}
