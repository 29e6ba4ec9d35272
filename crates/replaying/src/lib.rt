// A step file on standard input, read block by block.
#![tactic(auto)]

ghost use Rattle.std.specs.Prelude.{◌≡◌, ◌≤◌, length, IfOk};
ghost use Rattle.std.specs.Prelude.{if◌then◌else◌};
ghost use Rattle.stepping.specs.Answering.{Ready};
ghost use Rattle.replaying.specs.Replayed.{Replayed, Printable, Stopped};

use std::io;
use std::io::{Input, Print, Read};
use stepping::blocks::answer_block;

// How many bytes of a block's answers are printed: none, where none are asked for.
fn asked_for(answered: bool, written: usize) -> usize
    ensures { result ≡ (if answered then written else 0) }
{
    if answered { written } else { 0 }
}

// Only whole answers may be printed.
fn print_answers(rt: &impl Print, out: &[u8], count: usize) -> io::Result<()>
    requires { Printable out.now count }
{
    rt.write_all(&out[..count])
}

// Makes the call of each line. Prints a block's answers in one write, if they are asked for:
// `out` has room for 44 bytes of them for each byte of a block. Answers how many bytes of a line
// are begun. Where a read or a write fails, its error ends it, as no other can, after the blocks before.
pub fn replay(
    rt: &(impl Input + Print),
    image: &mut [u32],
    out: &mut [u8],
    answered: bool,
) -> io::Result<usize>
    requires ready { Ready image.old }
    requires out_len { 180224 ≤ length out.old }
    ensures ok { IfOk result (λ begun. Replayed image.old image.new out.old out.new begun) }
    ensures stopped { Stopped image.old image.new out.old out.new }
{
    let mut reader = rt.reader();
    let mut line = [0u8; 65];
    let mut block = [0u8; 4096];
    let mut begun = 0;
    for _ in 0..u64::MAX {
        let n = reader.read(&mut block)?;
        if n == 0 {
            break;
        }
        let end = answer_block(image, &mut line, begun, &block[..n], out);
        begun = end.begun;
        print_answers(rt, out, asked_for(answered, end.written))?;
    }
    Ok(begun)
}
