// Kinds 12 to 15, asked of any index: the index is judged first, then the unit, and only then the list is written.
// Each question copies the index, and the head in it, to a local, and is then its three steps: a function that takes the last as a closure would
// state the closure's clauses, and be longer.
#![tactic(auto, unfolding(rules::specs::Outcomes::list_outcome, rules::specs::Outcomes::list_answer), using(whole::proofs::Judging::whole_fine, whole::proofs::Judging::whole_refused, arguments::proofs::Granted::unit_of))]

ghost use Rattle.std.specs.Prelude.{◌≡◌};
ghost use Rattle.rules.specs.Lent.{lent_index};
ghost use Rattle.rules.specs.Outcomes.{needed_outcome, needing_outcome, steps_outcome, steps_up_outcome};
ghost use Rattle.lists.specs.Spans.{listed};

use rules::{Index, Refusal};

// Kind 12: the units that u needs, from the named place of the list on.
pub fn needed(index: &Index, u: u16, list: &mut [u16], place: usize) -> Result<u16, Refusal>
    ensures { listed result list.new ≡ needed_outcome (lent_index index.now) u list.old place }
{
    let index = *index;
    let row = whole::judge(&index)?; // refusal 9 of kind 12
    arguments::unit(index.head.n, 1, u)?; // refusal 8
    arguments::asked(&index, &row).needed(u, list, place)
}

// Kind 13: the units that need u.
pub fn needing(index: &Index, u: u16, list: &mut [u16], place: usize) -> Result<u16, Refusal>
    ensures { listed result list.new ≡ needing_outcome (lent_index index.now) u list.old place }
{
    let index = *index;
    let row = whole::judge(&index)?; // refusal 9 of kind 13
    arguments::unit(index.head.n, 1, u)?;
    arguments::asked(&index, &row).needing(u, list, place)
}

// Kind 14: the direct steps of u.
pub fn steps(index: &Index, u: u16, list: &mut [u16], place: usize) -> Result<u16, Refusal>
    ensures { listed result list.new ≡ steps_outcome (lent_index index.now) u list.old place }
{
    let index = *index;
    let row = whole::judge(&index)?; // refusal 9 of kind 14
    arguments::unit(index.head.n, 1, u)?;
    arguments::asked(&index, &row).steps(u, list, place)
}

// Kind 15: the units that have u as a direct step.
pub fn steps_up(index: &Index, u: u16, list: &mut [u16], place: usize) -> Result<u16, Refusal>
    ensures { listed result list.new ≡ steps_up_outcome (lent_index index.now) u list.old place }
{
    let index = *index;
    let row = whole::judge(&index)?; // refusal 9 of kind 15
    arguments::unit(index.head.n, 1, u)?;
    arguments::asked(&index, &row).steps_up(u, list, place)
}
