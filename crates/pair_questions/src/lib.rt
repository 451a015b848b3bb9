// Kinds 10 and 11, asked of any index: the index is judged first, then the two units, and only then the question is asked.
// Each question copies the index, and the head in it, to a local, and is then its three steps: a function that takes the last as a closure would
// state the closure's clauses, and be longer.
#![tactic(auto, unfolding(rules::specs::Outcomes::pair_outcome), using(whole::proofs::Judging::whole_fine, whole::proofs::Judging::whole_refused, arguments::proofs::Granted::unit_of))]

ghost use Rattle.std.specs.Prelude.{◌≡◌};
ghost use Rattle.rules.specs.Lent.{lent_index};
ghost use Rattle.rules.specs.Outcomes.{needs_outcome, is_step_outcome};

use rules::{Index, Refusal};

// Kind 10: u needs v.
pub fn needs(index: &Index, u: u16, v: u16) -> Result<bool, Refusal>
    ensures { result ≡ needs_outcome (lent_index index.now) u v }
{
    let index = *index;
    let row = whole::judge(&index)?; // refusal 9 of kind 10
    arguments::unit(index.head.n, 1, u)?; // refusal 8
    arguments::unit(index.head.n, 2, v)?;
    Ok(arguments::asked(&index, &row).needs(u, v))
}

// Kind 11: v is a direct step of u.
pub fn is_step(index: &Index, u: u16, v: u16) -> Result<bool, Refusal>
    ensures { result ≡ is_step_outcome (lent_index index.now) u v }
{
    let index = *index;
    let row = whole::judge(&index)?; // refusal 9 of kind 11
    arguments::unit(index.head.n, 1, u)?;
    arguments::unit(index.head.n, 2, v)?;
    Ok(arguments::asked(&index, &row).is_step(u, v))
}
