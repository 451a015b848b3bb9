// Lines of a course file read as frames.
#![tactic(auto)]

ghost use Rattle.std.specs.Prelude.{◌≤◌, ◌<◌, ◌≡◌, length, IfSome};
ghost use Rattle.frames.specs.Lines.{digit_of, four_of, numbers_of, line_of};

// A frame: two digits of kind, and two numbers.
#[derive(Clone, Copy)]
pub struct Frame {
    // a number: a line of no known kind is a frame all the same (`line_of`), and refused by its place
    pub kind: u8,
    pub a: u16,
    pub b: u16,
}

// What a digit stands for.
#[tactic(auto, unfolding(crate::specs::Lines::digit_of))]
fn digit(b: u8) -> Option<u8>
    ensures value { result ≡ digit_of b }
    ensures below_16 { IfSome result (λ d. d < 16) }
{
    match b {
        b'0'..=b'9' => Some(b - b'0'),
        b'a'..=b'f' => Some(b - b'a' + 10),
        _ => None,
    }
}

// The number that the first four digits spell.
#[tactic(auto, unfolding(crate::specs::Lines::four_of, crate::specs::Lines::spelled))]
fn four(part: &[u8]) -> Option<u16>
    requires { 4 ≤ length part.now }
    ensures { result ≡ four_of part.now }
{
    let w = u16::from(digit(part[0])?);
    let x = u16::from(digit(part[1])?);
    let y = u16::from(digit(part[2])?);
    let z = u16::from(digit(part[3])?);
    Some(((w * 16 + x) * 16 + y) * 16 + z)
}

// The two numbers after the kind.
#[tactic(auto, unfolding(crate::specs::Lines::numbers_of))]
fn read_numbers(part: &[u8]) -> Option<(u16, u16)>
    requires { 8 ≤ length part.now }
    ensures { result ≡ numbers_of part.now }
{
    Some((four(part)?, four(&part[4..])?))
}

// Reads a line, its line feed included.
#[tactic(auto, unfolding(crate::specs::Lines::line_of, crate::specs::Lines::spelled))]
pub fn read_line(line: &[u8]) -> Option<Frame>
    ensures { result ≡ line_of line.now }
{
    if line.len() != 11 || line[10] != b'\n' {
        return None;
    }
    let high = digit(line[0])?;
    let low = digit(line[1])?;
    let (a, b) = read_numbers(&line[2..])?;
    Some(Frame {
        kind: high * 16 + low,
        a,
        b,
    })
}
