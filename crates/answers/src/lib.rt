// Answers printed into a lent line area: each call fills the start of the area, keeps the rest, and answers how many bytes it wrote.
// `as` narrows only what a clause bounds: `try_from` would bring in a failure that cannot come.
#![tactic(auto)]

ghost use Rattle.std.specs.Prelude.{◌+◌, ◌*◌, ◌≤◌, ◌<◌, ◌≡◌, length};
ghost use Rattle.rules.specs.Ranges.{over};
ghost use Rattle.answers.specs.Printed.{hex_digit, hex_of, decimal_of, built_line, refused_line, pair_line, number_line, units_of, list_line};

use rules::Refusal;

// Digits are written by hand: `Display` and `write!` promise no byte that a proof could use, and `put_refused` promises each of them.

// The byte of a digit.
#[tactic(auto, unfolding(crate::specs::Printed::hex_digit))]
fn hex_digit(d: u32) -> u8
    requires { d < 16 }
    ensures { result ≡ hex_digit d }
{
    if d < 10 {
        b'0' + d as u8
    } else {
        b'a' + (d - 10) as u8
    }
}

// Writes w digits of x.
fn put_hex(out: &mut [u8], w: usize, x: u32)
    requires { w ≤ length out.old }
    ensures { out.new ≡ over out.old (hex_of w x) }
{
    let mut y = x;
    for i in (0..w).rev() {
        out[i] = hex_digit(y % 16);
        y /= 16;
    }
}

// Writes a text.
#[tactic(auto, unfolding(rules::specs::Ranges::over))]
fn put_text(out: &mut [u8], text: &[u8])
    requires { length text.now ≤ length out.old }
    ensures { out.new ≡ over out.old text.now }
{
    out[..text.len()].copy_from_slice(text);
}

// Prints `built ` and the bits in eight digits.
pub fn put_built(out: &mut [u8], bits: u32) -> usize
    requires { 20 ≤ length out.old }
    ensures { (result ≡ 15) × (out.new ≡ over out.old (built_line bits)) }
{
    put_text(out, b"built ");
    put_hex(&mut out[6..], 8, bits);
    out[14] = b'\n';
    15
}

// Writes two decimal digits of x.
#[tactic(auto, using(crate::proofs::Digits::two_written), unfolding(crate::specs::Printed::decimal_of))]
fn put_decimal(out: &mut [u8], x: u8)
    requires { 2 ≤ length out.old }
    ensures { out.new ≡ over out.old (decimal_of x) }
{
    out[0] = b'0' + x / 10 % 10;
    out[1] = b'0' + x % 10;
}

// Prints `refused `, the number in two decimal digits and the place in eight.
pub fn put_refused(out: &mut [u8], refusal: Refusal) -> usize
    requires { 20 ≤ length out.old }
    ensures { (result ≡ 20) × (out.new ≡ over out.old (refused_line refusal)) }
{
    put_text(out, b"refused ");
    put_decimal(&mut out[8..], refusal.number());
    out[10] = b' ';
    put_hex(&mut out[11..], 8, refusal.place());
    out[19] = b'\n';
    20
}

// Prints `yes`, `no`, or the refusal.
#[tactic(auto, using(crate::proofs::Lengths::length_refused_line), unfolding(crate::specs::Printed::pair_line))]
pub fn put_pair(out: &mut [u8], answer: Result<bool, Refusal>) -> usize
    requires { 20 ≤ length out.old }
    ensures { (result ≡ length (pair_line answer)) × (out.new ≡ over out.old (pair_line answer)) }
{
    match answer {
        Ok(true) => {
            put_text(out, b"yes\n");
            4
        }
        Ok(false) => {
            put_text(out, b"no\n");
            3
        }
        Err(refusal) => put_refused(out, refusal),
    }
}

// Prints the number in four digits, or the refusal.
pub fn put_number(out: &mut [u8], answer: Result<u16, Refusal>) -> usize
    requires { 20 ≤ length out.old }
    ensures { (result ≡ length (number_line answer)) × (out.new ≡ over out.old (number_line answer)) }
{
    match answer {
        Ok(x) => {
            put_hex(out, 4, u32::from(x));
            out[4] = b'\n';
            5
        }
        Err(refusal) => put_refused(out, refusal),
    }
}

// Writes each unit with a space before it.
fn put_units(out: &mut [u8], units: &[u16])
    requires { 5 * length units.now ≤ length out.old }
    ensures { out.new ≡ over out.old (units_of units.now) }
{
    for (i, &unit) in units.iter().enumerate() {
        out[5 * i] = b' ';
        put_hex(&mut out[5 * i + 1..], 4, u32::from(unit));
    }
}

// Prints the count and the units, four digits each.
pub fn put_list(out: &mut [u8], units: &[u16]) -> usize
    requires { (length units.now ≤ 1024) × (5 * length units.now + 5 ≤ length out.old) }
    ensures { (result ≡ 5 * length units.now + 5) × (out.new ≡ over out.old (list_line units.now)) }
{
    put_hex(out, 4, units.len() as u32);
    put_units(&mut out[4..], units);
    let end = 4 + 5 * units.len();
    out[end] = b'\n';
    end + 1
}
