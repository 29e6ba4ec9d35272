// Replays a step file as the step runner does, and prints the shapes at its end as a graph.
#![tactic(auto)]

ghost use Rattle.stepping.specs.Answering.{Starts};

use drawing::write_graph;
use replaying::replay;
use std::io;
use std::io::{Input, Print};
use stepping::format_image;

// At most 5,200 bytes for each of 256 shapes, 121 for each of 256 edges, and 402 around them.
const MOST: usize = 1362578;

fn draw(rt: &(impl Input + Print), image: &mut [u32], out: &mut [u8; MOST]) -> io::Result<()>
    requires { Starts image.old }
{
    replay(rt, image, out, false)?;
    let written = write_graph(out, image);
    rt.write_all(&out[..written])
}

fn main(rt: HostRuntime) -> io::Result<()> {
    let mut image = [0u32; 6952];
    format_image(&mut image);
    let mut out = [0u8; MOST];
    draw(&rt, &mut image, &mut out)
}
