// Input that comes in blocks: a line may begin in one block and end in a later one.
ghost use Rattle.std.specs.Prelude.{◌≡◌, [], ◌∷◌, ◌++◌, ◌+◌, ◌*◌, ◌≤◌, length, take};
ghost use Rattle.store.specs.Layout.{parse};
ghost use Rattle.rules.specs.Runner.{line_call};
ghost use Rattle.lines.specs.Writing.{Written};
ghost use Rattle.lines.specs.Pages.{room};
ghost use Rattle.stepping.specs.Answering.{answer_to, Ready};
ghost use Rattle.stepping.specs.Input.{state_in, line_answer, byte_taken, byte_said, taken, said, last_said};
ghost use Rattle.stepping.specs.Taking.{Kept, Ends, EndsOn, Comes, ComesOn};

use crate::{answer_line, bad_line};
use lines::page::Page;
use lines::writing::write_reply;

// How many bytes of a line that is not ended are kept, and how many bytes of answers are written.
#[derive(Clone, Copy)]
pub struct BlockEnd {
    pub begun: usize,
    pub written: usize,
}

// "at most 64 bytes": of a longer line 65 are kept, which already make it a BadLine.
fn keep_byte(line: &mut Page<'_>, byte: u8)
    requires line_len { length line.old.bytes.now ≡ 65 }
    requires begun_bound { line.old.end ≤ 65 }
    ensures same_reference { line.new.bytes.ghost_name ≡ line.old.bytes.ghost_name }
    ensures kept { Kept line.new.bytes.now line.new.end
        (take 65 (take line.old.end line.old.bytes.now ++ byte ∷ [])) }
{
    if line.end == 65 {
        return;
    }
    line.write_byte(byte);
}

// A line answered, after the answers that stand on the page.
fn write_answer(image: &mut [u32], line: &[u8], answers: &mut Page<'_>)
    requires ready { Ready image.old }
    requires room { 44 ≤ room answers.old }
    ensures { EndsOn image.old image.new answers.old answers.new
        (answer_to (parse image.old) (line_call line.now)) }
{
    let n = answer_line(image, line);
    answers.write_reply(n.refusal, n.first, n.second, n.third);
}

// The first bytes of `line` answered as a line, from `written` on.
pub fn answer_begun(
    image: &mut [u32],
    line: &[u8],
    begun: usize,
    out: &mut [u8],
    written: usize,
) -> usize
    requires ready { Ready image.old }
    requires begun_in_bounds { begun ≤ length line.now }
    requires written_in_bounds { written + 44 ≤ length out.old }
    ensures ends { Ends image.old image.new out.old out.new written
        (line_answer (state_in image.old line.now begun)) result }
    ensures upper_bound { result ≤ written + 44 }
{
    let mut answers = Page {
        bytes: out,
        end: written,
    };
    write_answer(image, &line[..begun], &mut answers);
    answers.end
}

fn take_byte(image: &mut [u32], line: &mut Page<'_>, byte: u8, answers: &mut Page<'_>)
    requires ready { Ready image.old }
    requires line_len { length line.old.bytes.now ≡ 65 }
    requires begun_bound { line.old.end ≤ 65 }
    requires room { 44 ≤ room answers.old }
    ensures { ComesOn image.old image.new line.old line.new answers.old answers.new
        (byte_taken (state_in image.old line.old.bytes.now line.old.end) byte)
        (byte_said (state_in image.old line.old.bytes.now line.old.end) byte) 44 }
{
    if byte == b'\n' {
        write_answer(image, line.text(), answers);
        line.end = 0;
    } else {
        keep_byte(line, byte);
    }
}

// `line` has the first bytes of the line that is begun. A byte ends at most one line, and an answer has at most
// 44 bytes.
pub fn answer_block(
    image: &mut [u32],
    line: &mut [u8],
    begun: usize,
    block: &[u8],
    out: &mut [u8],
) -> BlockEnd
    requires ready { Ready image.old }
    requires line_len { length line.old ≡ 65 }
    requires begun_bound { begun ≤ 65 }
    requires block_in_bounds { 44 * length block.now ≤ length out.old }
    ensures comes { Comes image.old image.new line.new out.old out.new 0
        (taken (state_in image.old line.old begun) block.now)
        (said (state_in image.old line.old begun) block.now) result }
    ensures written_in_bounds { result.written ≤ length out.old }
{
    let mut kept = Page {
        bytes: line,
        end: begun,
    };
    let mut answers = Page { bytes: out, end: 0 };
    for byte in block {
        take_byte(image, &mut kept, *byte, &mut answers);
    }
    BlockEnd {
        begun: kept.end,
        written: answers.end,
    }
}

// "an unended last one too, is BadLine"
pub fn end_of_input(begun: usize, out: &mut [u8]) -> usize
    requires { 44 ≤ length out.old }
    ensures written { Written out.old out.new 0 (last_said begun) result }
    ensures upper_bound { result ≤ 44 }
{
    if begun == 0 {
        return 0;
    }
    let n = bad_line();
    write_reply(out, 0, n.refusal, n.first, n.second, n.third)
}
