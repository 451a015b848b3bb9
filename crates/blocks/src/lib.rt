// The block into which the input is read: the bytes that wait in it, and those that a read brings behind them.
#![tactic(auto)]

ghost use Rattle.std.specs.Prelude.{◌-◌, ◌<◌, ◌≤◌, ◌≡◌, true, [], length, take, IfOk, MatchResult};
ghost use Rattle.std.specs.Io.KnownBytes.{Consumes, IsAtEnd};
ghost use Rattle.rules.specs.Ranges.{over};
ghost use Rattle.blocks.specs.Blocks.{part, filled_by, behind, Refilled, NotRefilled};

use std::io;
use std::io::Read;

// Moves the bytes from one place up to another to the front. By hand, and not by `copy_within`: an edit takes its step for 2.
fn keep(bytes: &mut [u8], from: usize, end: usize)
    requires { (from ≤ end) × (end ≤ length bytes.old) }
    ensures { bytes.new ≡ over bytes.old (part bytes.old from end) }
{
    let mut i: usize = 0;
    while from + i < end {
        bytes[i] = bytes[from + i];
        i += 1;
    }
}

// Up to where the bytes are filled, by a read's answer: so many came behind those that are there.
#[tactic(auto, unfolding(crate::specs::Blocks::filled_by))]
fn after_read(got: io::Result<usize>, bytes: &[u8], have: usize) -> io::Result<usize>
    requires { have ≤ length bytes.now }
    ensures { result ≡ filled_by got have (length bytes.now) }
{
    got.map(|count| have + count.min(bytes.len() - have))
}

// One read, behind the bytes that are there.
fn fill<R: Read>(input: &mut R, bytes: &mut [u8], have: usize) -> io::Result<usize>
    requires { have ≤ length bytes.old }
    ensures kept { take have bytes.new ≡ take have bytes.old }
    ensures filled { IfOk result (λ end. (have ≤ end) × (end ≤ length bytes.new)) }
    ensures taken { MatchResult result (λ end. Consumes (R.remaining input.old) (R.remaining input.new) (part bytes.new have end)) (λ _. Consumes (R.remaining input.old) (R.remaining input.new) []) }
    ensures at_end { IfOk result (λ end. end ≡ have → have < length bytes.new → IsAtEnd (R.remaining input.new)) }
{
    let got = input.read(&mut bytes[have..]);
    after_read(got, bytes, have)
}

// The bytes that wait, and whether the file has ended with them; they wait in either case, so `ended` is no `None`.
#[derive(Clone, Copy)]
pub struct Waiting {
    pub from: usize,
    pub end: usize,
    pub ended: bool,
}

// Reads on where no whole line waits. Where the read fails, what waits stands at the front.
pub fn refill<R: Read>(
    input: &mut R,
    bytes: &mut [u8],
    from: usize,
    end: usize,
) -> io::Result<Waiting>
    requires { (from ≤ end) × (end ≤ length bytes.old) × (11 ≤ length bytes.old) }
    ensures refilled { MatchResult result (λ waiting. Refilled bytes.old from end waiting bytes.new) (λ _. NotRefilled bytes.old from end bytes.new) }
    ensures taken { MatchResult result (λ waiting. Consumes (R.remaining input.old) (R.remaining input.new) (behind (end - from) waiting bytes.new)) (λ _. Consumes (R.remaining input.old) (R.remaining input.new) []) }
    ensures at_end { IfOk result (λ waiting. waiting.ended ≡ true → IsAtEnd (R.remaining input.new)) }
{
    if 11 <= end - from {
        return Ok(Waiting {
            from,
            end,
            ended: false,
        });
    }
    keep(bytes, from, end);
    let have = end - from;
    let filled = fill(input, bytes, have)?;
    Ok(Waiting {
        from: 0,
        end: filled,
        ended: filled == have,
    })
}
