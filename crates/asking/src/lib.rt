// The questions of a course file, kinds 10 to 18: each is answered from the index that lies in the areas, and its answer printed.
#![tactic(auto)]

ghost use Rattle.std.specs.Prelude.{◌≤◌, ◌≡◌, length, Ok};
ghost use Rattle.std.specs.Option.{is_some};
ghost use Rattle.rules.specs.Ranges.{over};
ghost use Rattle.rules.specs.Index.{Index};
ghost use Rattle.known.specs.Lent.{index_of};
ghost use Rattle.reading.specs.Card as rule;
ghost use Rattle.reading.specs.Held.{asked, Ready, stages_of};
ghost use Rattle.asking.specs.Asking.{is_question, arguments_verdict, printed_for, next_after, answer_line, counts, QuestionTaken};

use known::WholeIndex;
use reading::{Card, Step};
use rules::Refusal;

// A question of units u and v and of a track q, by its kind.
#[derive(Clone, Copy)]
enum Question {
    // 10: u needs v
    Needs(u16, u16),
    // 11: v is a direct step of u
    IsStep(u16, u16),
    // 12: the units that u needs
    Needed(u16),
    // 13: the units that need u
    Needing(u16),
    // 14: the direct steps of u
    Steps(u16),
    // 15: the units that have u as a direct step
    StepsUp(u16),
    // 16: the stage of u
    Stage(u16),
    // 17: the unit at low(u, q)
    UnitLow(u16, u16),
    // 18: the unit at high(u, q)
    UnitHigh(u16, u16),
}

impl Question {
    // The question that a frame asks, if it asks one: kinds 12 to 16 carry 0 second.
    #[tactic(auto, unfolding(reading::specs::Card::question_frame))]
    fn read(kind: u8, a: u16, b: u16) -> Option<Question>
        ensures is_question { is_some result ≡ is_question kind b }
        ensures next { (r : rule.Reading) → rule.question_frame r kind a b ≡ next_after r result }
    {
        match kind {
            0x12..=0x16 if b != 0 => None,
            0x10 => Some(Question::Needs(a, b)),
            0x11 => Some(Question::IsStep(a, b)),
            0x12 => Some(Question::Needed(a)),
            0x13 => Some(Question::Needing(a)),
            0x14 => Some(Question::Steps(a)),
            0x15 => Some(Question::StepsUp(a)),
            0x16 => Some(Question::Stage(a)),
            0x17 => Some(Question::UnitLow(a, b)),
            0x18 => Some(Question::UnitHigh(a, b)),
            _ => None,
        }
    }

    // Its numbers are among n units and k tracks.
    fn judge(self, n: u16, k: u16) -> Result<(), Refusal>
        ensures { (x : Index) → x.head.n ≡ n → x.head.k ≡ k → result ≡ arguments_verdict x self }
    {
        match self {
            Question::Needs(u, v) | Question::IsStep(u, v) => {
                arguments::unit(n, 1, u)?;
                arguments::unit(n, 2, v)
            }
            Question::Needed(u)
            | Question::Needing(u)
            | Question::Steps(u)
            | Question::StepsUp(u)
            | Question::Stage(u) => arguments::unit(n, 1, u),
            Question::UnitLow(u, q) | Question::UnitHigh(u, q) => {
                arguments::unit(n, 1, u)?;
                arguments::track(k, q)
            }
        }
    }
}

// Prints the units that a list question counted, or its refusal.
#[tactic(auto, using(answers::proofs::Lengths::length_list, answers::proofs::Lengths::length_refused_line))]
fn put_answer(answer: Result<u16, Refusal>, list: &[u16], out: &mut [u8]) -> usize
    requires { (counts answer ≤ length list.now) × (counts answer ≤ 1024) × (5125 ≤ length out.old) }
    ensures { (result ≡ length (answer_line answer list.now)) × (out.new ≡ over out.old (answer_line answer list.now)) }
{
    match answer {
        Ok(count) => answers::put_list(out, &list[..usize::from(count)]),
        Err(refusal) => answers::put_refused(out, refusal),
    }
}

// Prints the answer to a question whose numbers are units and tracks of the index.
#[tactic(auto, using(crate::proofs::Answers::granted_steps), unfolding(reading::specs::Card::list_printed, rules::specs::Outcomes::pair_outcome, rules::specs::Outcomes::unit_outcome, rules::specs::Outcomes::bound_outcome))]
fn answer(
    question: Question,
    index: &WholeIndex,
    stages: &[u16],
    list: &mut [u16],
    out: &mut [u8],
) -> usize
    requires granted { Ok tt ≡ arguments_verdict (index_of index.now) question }
    requires stages_value { stages.now ≡ stages_of (index_of index.now) }
    requires in_bounds { (1024 ≤ length list.old) × (5125 ≤ length out.old) }
    ensures { (result ≡ length (printed_for (index_of index.now) question)) × (out.new ≡ over out.old (printed_for (index_of index.now) question)) × (result ≤ 5125) }
{
    match question {
        Question::Needs(u, v) => answers::put_pair(out, Ok(index.needs(u, v))),
        Question::IsStep(u, v) => answers::put_pair(out, Ok(index.is_step(u, v))),
        Question::Needed(u) => put_answer(index.needed(u, list, 0), list, out),
        Question::Needing(u) => put_answer(index.needing(u, list, 0), list, out),
        Question::Steps(u) => put_answer(index.steps(u, list, 0), list, out),
        Question::StepsUp(u) => put_answer(index.steps_up(u, list, 0), list, out),
        Question::Stage(u) => answers::put_number(out, Ok(stages[usize::from(u) - 1])),
        Question::UnitLow(u, q) => answers::put_number(out, Ok(index.unit_low(u, q))),
        Question::UnitHigh(u, q) => answers::put_number(out, Ok(index.unit_high(u, q))),
    }
}

// Takes a frame: prints the answer to its question, or refuses it.
#[tactic(auto, using(crate::proofs::Answers::refused, answers::proofs::Lengths::length_refused_line))]
pub fn question_frame(
    card: Card,
    kind: u8,
    a: u16,
    b: u16,
    tracks: &[u16],
    words: &[u64],
    directory: &[u16],
    stages: &[u16],
    list: &mut [u16],
    out: &mut [u8],
) -> Step
    requires ready { Ready card tracks.now words.now directory.now }
    requires stages_value { stages.now ≡ stages_of (asked card tracks.now words.now directory.now) }
    requires in_bounds { (1024 ≤ length list.old) × (5125 ≤ length out.old) }
    ensures { QuestionTaken (asked card tracks.now words.now directory.now) card kind a b list.old out.old result list.new out.new }
{
    let Some(question) = Question::read(kind, a, b) else {
        return card.misplaced(out);
    };
    let wrote = match question.judge(card.n, card.k) {
        Ok(()) => {
            let k = usize::from(card.k);
            let index = WholeIndex::new(tracks, words, directory, &card.lens, &card.row, k);
            answer(question, &index, stages, list, out)
        }
        Err(refusal) => answers::put_refused(out, refusal),
    };
    Step { card, wrote }
}
