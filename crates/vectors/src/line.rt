// A line's first bytes.
ghost use Rattle.std.specs.Prelude.{◌≤◌};

const MOST_KEPT: usize = 96;

#[derive(Clone, Copy)]
pub struct Line {
    bytes: [u8; MOST_KEPT],
    length: usize,
    ghost fits: { length ≤ 96 },
}

impl Line {
    pub fn new() -> Line {
        Line {
            bytes: [0; MOST_KEPT],
            length: 0,
        }
    }

    // A byte more, if there is room for it.
    pub fn push(&mut self, byte: u8) {
        if self.length < MOST_KEPT {
            self.bytes[self.length] = byte;
            self.length += 1;
        }
    }

    pub fn as_slice(&self) -> &[u8] {
        &self.bytes[..self.length]
    }
}
