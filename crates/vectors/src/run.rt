// The run that is being replayed.
use crate::handles::Handles;
use crate::image::{Answer, Image};
use lines::Command;
use rules::Refusal;
use store::Limits;

#[derive(Clone, Copy)]
pub struct Run {
    pub image: Image,
    pub handles: Handles,
    // to the last line of input
    pub answer: Answer,
}

impl Run {
    // Before the first one: its image has no words.
    pub fn new() -> Run {
        Run {
            image: Image::new(),
            handles: Handles::new(),
            answer: Answer::Done(Ok(())),
        }
    }

    // Another one begins.
    pub fn begin(&mut self, limits: Limits) -> Result<(), Refusal> {
        self.handles = Handles::new();
        self.answer = Answer::Done(Ok(()));
        self.image.format(limits)
    }

    pub fn call(&mut self, command: Command) {
        self.answer = self.image.call(&mut self.handles, command);
    }

    // The handle that an answer makes lives from then on.
    pub fn give_handle(&mut self) {
        if let Answer::Gives(Ok(given)) = self.answer {
            self.handles.give(given.shape);
        }
    }
}
