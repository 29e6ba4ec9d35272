// The manual's lessons (lessons/join): a line that begins with `#` names the next lesson, starts a
// new image and is echoed; every other line is answered as the step runner answers it.
#![tactic(auto)]

ghost use Rattle.std.specs.Prelude.{◌≡◌, ℕ, ◌<◌, ◌≤◌, ◌≢◌, length, slice_index};
ghost use Rattle.store.specs.Layout.{words, parse};
ghost use Rattle.stepping.specs.Answering.{Ready};
ghost use Rattle.manual.specs.Replaying.{named, replayed};

use input::fill;
use std::io;
use stepping::blocks::answer_begun;
use stepping::format_image;

fn names_lesson(line: &[u8]) -> bool
    ensures { result ≡ named line.now }
{
    matches!(line, [b'#', ..])
}

#[tactic(auto, using(crate::specs::Replaying::new_image, crate::specs::Replaying::line_answered))]
fn replay_line(rt: &impl Print, image: &mut [u32; 6952], line: &[u8]) -> io::Result<()>
    requires { Ready image.old }
    ensures ready_2 { Ready image.new }
    ensures image_after { image.new ≡ words (replayed (parse image.old) line.now) }
{
    if names_lesson(line) {
        format_image(image);
        rt.write_all(line)?;
        return rt.write_all(b"\n");
    }
    let mut out = [0; 44];
    let end = answer_begun(image, line, line.len(), &mut out, 0);
    rt.write_all(&out[..end])
}

// The place of the first newline, or the length.
fn line_end(text: &[u8]) -> usize
    ensures high { result ≤ length text.now }
    ensures before { (k : ℕ) → k < result → slice_index text.now k ≢ 10 }
    ensures found { result < length text.now → slice_index text.now result ≡ 10 }
{
    text.iter()
        .position(|byte| *byte == b'\n')
        .unwrap_or(text.len())
}

fn replay(rt: &impl Print, image: &mut [u32; 6952], lessons: &[u8]) -> io::Result<()>
    requires { Ready image.old }
{
    let mut rest = lessons;
    // A `for` over `lessons.split_inclusive(..)` gets no proof in a function over an `impl Print`.
    while !rest.is_empty() {
        let (line, others) = rest.split_at(line_end(rest));
        replay_line(rt, image, line)?;
        // Behind the newline.
        rest = others.get(1..).unwrap_or(&[]);
    }
    Ok(())
}

fn main(rt: HostRuntime) -> io::Result<()> {
    let mut image = [0; 6952];
    format_image(&mut image);
    let mut lessons = [0; 65536];
    let n = fill(&mut rt.reader(), &mut lessons)?;
    replay(&rt, &mut image, &lessons[..n])
}
