// The stages of all units of a course, in one pass over its listed needs.
#![tactic(auto)]

ghost use Rattle.std.specs.Prelude.{◌≤◌, ◌≡◌, length};
ghost use Rattle.rules.specs.Ranges.{table};
ghost use Rattle.rules.specs.Listing.{pairs_verdict};
ghost use Rattle.stages.specs.Stages.{stage_table};

// Entry i becomes the stage of unit i + 1. The last pair of a unit names its greatest need, which is its highest direct step, and the
// pairs of that need all stand before; so each pair may store, and the last store stays.
pub fn fill_stages(needs: &[u16], stages: &mut [u16])
    requires { (pairs_verdict (length stages.old) needs.now ≡ Ok tt) × (length stages.old ≤ 1024) }
    ensures { stages.new ≡ stage_table needs.now (length stages.old) }
{
    // A unit that lists no need stands at stage 1, and so does each unit before the first pair.
    stages.fill(1);
    for pair in needs.chunks_exact(2) {
        let u = usize::from(pair[0]);
        let v = usize::from(pair[1]);
        stages[u - 1] = stages[v - 1] + 1;
    }
}
