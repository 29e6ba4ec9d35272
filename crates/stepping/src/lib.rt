// Document 01, "The step runner": lines answered one after the other over one image. The image is known to be
// sound, since it was formatted and every call keeps it so: no line tests it again.
#![tactic(auto)]

ghost use Rattle.std.specs.Prelude.{◌≡◌, length};
ghost use Rattle.store.specs.Layout.{parse};
ghost use Rattle.rules.specs.Runner.{line_call, bad_line};
ghost use Rattle.replies.specs.Numbers.{numbers_of};
ghost use Rattle.lines.specs.Commands.{command_call};
ghost use Rattle.stepping.specs.Answering.{answer_to, Ready, Answered, Starts};

use lines::{Command, read_line};
use replies::{ReplyNumbers, done_numbers, shape_numbers, sweep_numbers};
use store::Limits;

pub mod blocks;

// "its image array has 6,952 words: S 256, T 32, K 32, E 256"
pub fn format_image(image: &mut [u32])
    requires { length image.old ≡ 6952 }
    ensures { Starts image.new }
{
    header::format(
        image,
        Limits {
            S: 256,
            T: 32,
            K: 32,
            E: 256,
        },
    );
}

// "BadLine (`14 0 0 0`)"
pub fn bad_line() -> ReplyNumbers
    ensures { numbers_of result ≡ bad_line }
{
    ReplyNumbers {
        refusal: 14,
        first: 0,
        second: 0,
        third: 0,
    }
}

fn answer_command(image: &mut [u32], command: Command) -> ReplyNumbers
    requires { Ready image.old }
    ensures { Answered image.old image.new
        (answer_to (parse image.old) (command_call command)) (numbers_of result) }
{
    match command {
        Command::Root => shape_numbers(shape::root(image)),
        Command::Unique => shape_numbers(shape::unique(image)),
        Command::Insert(c) => shape_numbers(shape::insert::insert_property_transition(
            image,
            c.shape,
            c.key,
            c.attributes,
        )),
        Command::Change(c) => shape_numbers(shape::change::change_attributes_transition(
            image,
            c.shape,
            c.key,
            c.attributes,
        )),
        Command::Remove(k) => {
            shape_numbers(shape::remove::remove_property_transition(image, k.shape, k.key))
        }
        Command::Prototype(p) => {
            shape_numbers(shape::prototype::change_prototype_transition(image, p.shape, p.to))
        }
        Command::Release(n) => done_numbers(holds::release(image, n)),
        Command::Sweep => sweep_numbers(sweep::sweep(image)),
        Command::BadLine => bad_line(),
    }
}

// "Each line is answered by four numbers".
pub fn answer_line(image: &mut [u32], line: &[u8]) -> ReplyNumbers
    requires { Ready image.old }
    ensures { Answered image.old image.new
        (answer_to (parse image.old) (line_call line.now)) (numbers_of result) }
{
    answer_command(image, read_line(line))
}
