// The numbers at a text's front, with single spaces.
ghost use Rattle.std.specs.Prelude.{◌≤◌};

use lines::reading::read_number;

// Room for the longest answer; what is cut off a longer one makes it differ.
pub const MOST_NUMBERS: usize = 32;

#[derive(Drop)]
pub struct Numbers {
    // 0 where there are no more
    pub words: [u32; MOST_NUMBERS],
    count: usize,
    ghost fits: { count ≤ 32 },
}

impl Numbers {
    // As many as there is room for.
    pub fn read(text: &[u8]) -> Numbers {
        let mut numbers = Numbers {
            words: [0; MOST_NUMBERS],
            count: 0,
        };
        let found = text
            .split(|byte| *byte == b' ')
            .map_while(|word| read_number(word, 0));
        for number in found {
            numbers.push(number.value);
        }
        numbers
    }

    pub fn as_slice(&self) -> &[u32] {
        &self.words[..self.count]
    }

    fn push(&mut self, value: u32) {
        if self.count < MOST_NUMBERS {
            self.words[self.count] = value;
            self.count += 1;
        }
    }
}
