// Document 01, "The step runner": one line of its input read, and the four numbers of its answer written.
#![tactic(auto)]

ghost use Rattle.std.specs.Prelude.{◌≡◌, [], ◌∷◌};
ghost use Rattle.std.proofs.Math.Option.{some};
ghost use Rattle.rules.specs.Runner.{formed, line_call};
ghost use Rattle.lines.specs.Commands.{command_call, numbers_list};

use crate::reading::{Numbers, read_numbers};

pub mod page;
pub mod reading;
pub mod writing;

// A key of a shape, and its new attributes.
#[derive(Clone, Copy)]
pub struct KeyChange {
    pub shape: u32,
    pub key: u32,
    pub attributes: u32,
}

#[derive(Clone, Copy)]
pub struct KeyOf {
    pub shape: u32,
    pub key: u32,
}

#[derive(Clone, Copy)]
pub struct NewPrototype {
    pub shape: u32,
    pub to: u32,
}

// What a line asks for.
#[derive(Clone, Copy)]
pub enum Command {
    Root,
    Unique,
    Insert(KeyChange),
    Change(KeyChange),
    Remove(KeyOf),
    Prototype(NewPrototype),
    Release(u32),
    Sweep,
    // No error of `read_line`, which cannot fail: the runner answers it like any other.
    // a line that asks for none of these: `read_line` cannot fail
    BadLine,
}

// Which letter takes how many numbers: "`R` root, `U` empty unique, `I h k a` insert, `C h k a` change,
// `D h k` remove, `P h p` prototype, `F h` release, `S` sweep".
fn command_of(letter: u8, numbers: Numbers) -> Command
    ensures { command_call result ≡ formed (letter ∷ []) (some (numbers_list numbers)) }
{
    match (letter, numbers) {
        (b'R', Numbers::Zero) => Command::Root,
        (b'U', Numbers::Zero) => Command::Unique,
        (b'S', Numbers::Zero) => Command::Sweep,
        (b'F', Numbers::One(shape)) => Command::Release(shape),
        (b'D', Numbers::Two(shape, key)) => Command::Remove(KeyOf { shape, key }),
        (b'P', Numbers::Two(shape, to)) => Command::Prototype(NewPrototype { shape, to }),
        (b'I', Numbers::Three(shape, key, attributes)) => Command::Insert(KeyChange {
            shape,
            key,
            attributes,
        }),
        (b'C', Numbers::Three(shape, key, attributes)) => Command::Change(KeyChange {
            shape,
            key,
            attributes,
        }),
        _ => Command::BadLine,
    }
}

// "at most 64 bytes", without the line feed
const LONGEST: usize = 64;

// "any other line .. is BadLine"
pub fn read_line(line: &[u8]) -> Command
    ensures { command_call result ≡ line_call line.now }
{
    if line.is_empty() || line.len() > LONGEST {
        return Command::BadLine;
    }
    match read_numbers(line) {
        Some(numbers) => command_of(line[0], numbers),
        None => Command::BadLine,
    }
}
