// The numbers after a line's letter: "Decimal, leading zeros allowed, single spaces, .. numbers below 2^32".
ghost use Rattle.std.specs.Prelude.{◌≡◌, ◌≤◌, ◌<◌, length, drop};
ghost use Rattle.lines.specs.Commands.{listed};
ghost use Rattle.lines.specs.Reading.{following, ReadsOn};
ghost use Rattle.lines.specs.Lines.{at_most_three, with_number};

const SPACE: u8 = b' ';

// "numbers below 2^32"
const BOUND: u64 = 1 << 32;

// A number, and the position after it.
#[derive(Clone, Copy)]
pub struct NumberAt {
    pub value: u32,
    pub end: usize,
}

// No line has more than three.
#[derive(Clone, Copy)]
pub enum Numbers {
    Zero,
    One(u32),
    Two(u32, u32),
    Three(u32, u32, u32),
}

// The number at `start`, of one digit at least. It ends at the next space or at the end of the line.
pub fn read_number(line: &[u8], start: usize) -> Option<NumberAt>
    requires { start ≤ length line.now }
    ensures { ReadsOn line.now start result }
{
    if start == line.len() || line[start] == SPACE {
        return None;
    }
    let mut value = 0u64;
    for end in start..line.len() {
        let byte = line[end];
        if byte == SPACE {
            return Some(NumberAt {
                value: value as u32,
                end,
            });
        }
        if !byte.is_ascii_digit() {
            return None;
        }
        value = 10 * value + (byte - b'0') as u64;
        if value >= BOUND {
            return None;
        }
    }
    Some(NumberAt {
        value: value as u32,
        end: line.len(),
    })
}

// One number more.
fn with_number(numbers: Numbers, value: u32) -> Option<Numbers>
    ensures { result ≡ with_number numbers value }
{
    match numbers {
        Numbers::Zero => Some(Numbers::One(value)),
        Numbers::One(first) => Some(Numbers::Two(first, value)),
        Numbers::Two(first, second) => Some(Numbers::Three(first, second, value)),
        Numbers::Three(_, _, _) => None,
    }
}

// Those of the whole line; the letter is its first byte.
pub fn read_numbers(line: &[u8]) -> Option<Numbers>
    requires { 0 < length line.now }
    ensures { listed result ≡ at_most_three (following (drop 1 line.now)) }
{
    let mut numbers = Numbers::Zero;
    let mut at = 1;
    // No `for`: `at` goes from one number's end to the next, as `following` in Reading.antt does.
    while at < line.len() {
        if line[at] != SPACE {
            return None;
        }
        let next = read_number(line, at + 1)?;
        numbers = with_number(numbers, next.value)?;
        at = next.end;
    }
    Some(numbers)
}
