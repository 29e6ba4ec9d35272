// Document 01, "The step runner": answers the lines of standard input.
#![tactic(auto)]

ghost use Rattle.std.specs.Prelude.{IfOk};
ghost use Rattle.runner.specs.Whole.{Whole, Left};

use replaying::replay;
use std::io;
use std::io::{Input, Print};
use stepping::blocks::end_of_input;
use stepping::format_image;

// Answers all lines that are ended, and then how many bytes of `out` are still to be printed: an
// unended last line's. Where a read or a write fails, its error ends it.
fn answer_input(
    rt: &(impl Input + Print),
    image: &mut [u32; 6952],
    out: &mut [u8; 180224],
) -> io::Result<usize>
    ensures ok { IfOk result (λ last. Whole image.new out.new last) }
    ensures left { Left image.new }
{
    format_image(image);
    let begun = replay(rt, image, out, true)?;
    Ok(end_of_input(begun, out))
}

fn main(rt: HostRuntime) -> io::Result<()> {
    let mut image = [0u32; 6952];
    let mut out = [0u8; 180224];
    let last = answer_input(&rt, &mut image, &mut out)?;
    rt.write_all(&out[..last])
}
