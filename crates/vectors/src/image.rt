// A run's image, and a line of its input as a public call on it.
ghost use Rattle.std.specs.Prelude.{◌≤◌};

use crate::handles::Handles;
use lines::Command;
use rules::{FreedPlaces, GivenShape, Refusal};
use store::Limits;

const MOST_WORDS: usize = 19555;

// What a call answers, or that a line asks for none.
#[derive(Clone, Copy)]
pub enum Answer {
    Gives(Result<GivenShape, Refusal>),
    Frees(Result<FreedPlaces, Refusal>),
    Done(Result<(), Refusal>),
    BadLine,
}

// The front of the words.
#[derive(Clone, Copy)]
pub struct Image {
    words: [u32; MOST_WORDS],
    // what the limits ask for
    total: usize,
}

fn total_of(limits: Limits) -> usize {
    if limits.K > 2048 {
        0
    } else {
        header::total(limits)
    }
}

impl Image {
    pub fn new() -> Image {
        Image {
            words: [0; MOST_WORDS],
            total: 0,
        }
    }

    fn end(&self) -> usize
        ensures { result ≤ 19555 }
    {
        self.total.min(MOST_WORDS)
    }

    pub fn as_slice(&self) -> &[u32] {
        &self.words[..self.end()]
    }

    pub fn format(&mut self, limits: Limits) -> Result<(), Refusal> {
        self.total = total_of(limits);
        let end = self.end();
        shapes::format(&mut self.words[..end], limits)
    }

    // A handle in the line stands for a shape number.
    pub fn call(&mut self, handles: &mut Handles, command: Command) -> Answer {
        let end = self.end();
        let image = &mut self.words[..end];
        match command {
            Command::Root => Answer::Gives(shapes::root(image)),
            Command::Unique => Answer::Gives(shapes::unique(image)),
            Command::Insert(c) => {
                let shape = handles.shape(c.shape);
                Answer::Gives(shapes::insert(image, shape, c.key, c.attributes))
            }
            Command::Change(c) => {
                let shape = handles.shape(c.shape);
                Answer::Gives(shapes::change(image, shape, c.key, c.attributes))
            }
            Command::Remove(k) => {
                Answer::Gives(shapes::remove(image, handles.shape(k.shape), k.key))
            }
            Command::Prototype(p) => {
                Answer::Gives(shapes::set_prototype(image, handles.shape(p.shape), p.to))
            }
            Command::Release(handle) => Answer::Done(release(image, handles, handle)),
            Command::Sweep => Answer::Frees(shapes::sweep(image)),
            Command::BadLine => Answer::BadLine,
        }
    }
}

fn release(image: &mut [u32], handles: &mut Handles, handle: u32) -> Result<(), Refusal> {
    shapes::release(image, handles.shape(handle))?;
    handles.release(handle);
    Ok(())
}
