// The course program: a course file on standard input, its answers on standard output. What is done with the bytes is in `feeding`; here
// they are read, handed on, and what is printed is written.
#![tactic(auto)]

ghost use Rattle.std.specs.Prelude.{◌≤◌, ◌≡◌, true, false, IfSome, length, take};
ghost use Rattle.std.specs.Io.KnownBytes.{Appends};
ghost use Rattle.card.specs.Files.{course_prints};
ghost use Rattle.reading.specs.Held.{Room, held, AsLong, SameAreas, Fit};
ghost use Rattle.course.specs.Turns.{between, Turned, Moved, fresh, LedTo};

use reading::{Areas, Card};
use std::io::{Read, Write};

// A card, the bytes that wait in the block, whether more is to be read, and whether a read or a write has failed. `failed` is no `Err`:
// after a failure too the clauses of `turn` and `serve` name the card and the bytes that are left.
#[derive(Clone, Copy)]
struct Feeding {
    card: Card,
    from: usize,
    end: usize,
    more: bool,
    failed: bool,
}

// What is printed is written, and nothing of it is held back; whether all of it could be.
fn print<W: Write>(output: &mut W, out: &[u8], wrote: usize) -> bool
    requires { wrote ≤ length out.now }
    ensures { result ≡ true → Appends (W.contents output.old) (W.contents output.new) (take wrote out.now) }
{
    output.write_all(&out[..wrote]).is_ok() && output.flush().is_ok()
}

// Reads on where no whole line waits, and feeds the card with all that waits. A read or a write that fails ends the program without another
// word: what follows is not known to be the end of the file.
fn turn<R: Read, W: Write>(
    input: &mut R,
    output: &mut W,
    feeding: Feeding,
    bytes: &mut [u8],
    areas: &mut Areas,
    out: &mut [u8],
) -> Feeding
    requires fit { Fit feeding.card (held areas.old) }
    requires from_le_end { (feeding.from ≤ feeding.end) × (feeding.end ≤ length bytes.old) × (11 ≤ length bytes.old) × (5145 ≤ length out.old) }
    ensures same { SameAreas areas.old areas.new }
    ensures lengths { AsLong (held areas.old) (held areas.new) }
    ensures turned { Turned (between feeding bytes.old (held areas.old) out.old) (between result bytes.new (held areas.new) out.new) }
    ensures moved { Moved (between feeding bytes.old (held areas.old) out.old) (between result bytes.new (held areas.new) out.new) (R.remaining input.old) (R.remaining input.new) (W.contents output.old) (W.contents output.new) }
{
    let card = feeding.card;
    let Ok(waiting) = blocks::refill(input, bytes, feeding.from, feeding.end) else {
        return Feeding {
            card,
            from: 0,
            end: feeding.end - feeding.from,
            more: false,
            failed: true,
        };
    };
    let from = waiting.from;
    let end = waiting.end;
    let fed = feeding::feed(card, &bytes[from..end], waiting.ended, areas, out);
    let written = print(output, out, fed.wrote);
    Feeding {
        card: fed.card,
        from: from + fed.used,
        end,
        more: fed.more && written,
        failed: !written,
    }
}

// Turn after turn, until nothing more is to be read. Every turn but the last reads a byte or takes a line, and a card stops after 65,536 lines.
// Where nothing failed, the output has grown by what the definition prints for the input's bytes, as far as a reader and a writer say theirs.
fn serve<R: Read, W: Write>(
    input: &mut R,
    output: &mut W,
    bytes: &mut [u8],
    areas: &mut Areas,
    out: &mut [u8],
) -> Feeding
    requires room { Room (held areas.old) }
    requires in_bounds { (11 ≤ length bytes.old) × (5145 ≤ length out.old) }
    ensures same { SameAreas areas.old areas.new }
    ensures lengths { AsLong (held areas.old) (held areas.new) }
    ensures more_value { result.more ≡ false }
    ensures led_to { LedTo (between fresh bytes.old (held areas.old) out.old) (between result bytes.new (held areas.new) out.new) }
    ensures written { result.failed ≡ false → IfSome (R.remaining input.old) (λ file. Appends (W.contents output.old) (W.contents output.new) (course_prints file)) }
{
    let mut feeding = Feeding {
        card: Card::start(),
        from: 0,
        end: 0,
        more: true,
        failed: false,
    };
    // no count of turns is known before the file has ended
    while feeding.more {
        feeding = turn(input, output, feeding, bytes, areas, out);
    }
    feeding
}

fn main(rt: HostRuntime) {
    let mut bytes = [0u8; 16384];
    let mut areas = Areas {
        tracks: &mut [0u16; 1024],
        needs: &mut [0u16; 16384],
        words: &mut [0u64; 992],
        directory: &mut [0u16; 992],
        work: &mut [0u16; 32768],
        list: &mut [0u16; 1024],
    };
    let mut out = [0u8; 32768];
    serve(
        &mut rt.stdin(),
        &mut rt.stdout(),
        &mut bytes,
        &mut areas,
        &mut out,
    );
}
