// Lent bytes that a text is written into, one part after the other.
ghost use Rattle.std.specs.Prelude.{◌≡◌, [], ◌∷◌, ◌++◌, ◌+◌, ◌≤◌, length, take};
ghost use Rattle.lines.specs.Decimal.{decimal_digits};
ghost use Rattle.lines.specs.Writing.{reply_text};

use crate::writing::write_number;

// The text ends at `end`; the bytes that follow are room for more.
#[derive(Drop)]
pub struct Page<'a> {
    pub bytes: &'a mut [u8],
    pub end: usize,
}

impl<'a> Page<'a> {
    ghost use Rattle.lines.specs.Pages.{room, Adds};

    // What is written.
    pub fn text(&self) -> &[u8]
        requires { self.now.end ≤ length self.now.bytes.now }
        ensures { result.now ≡ take self.now.end self.now.bytes.now }
    {
        &self.bytes[..self.end]
    }

    pub fn write_byte(&mut self, byte: u8)
        requires { 1 ≤ room self.old }
        ensures { Adds self.old self.new (byte ∷ []) 1 }
    {
        self.bytes[self.end] = byte;
        self.end += 1;
    }

    pub fn write_word(&mut self, word: &[u8])
        requires { length word.now ≤ room self.old }
        ensures { Adds self.old self.new word.now (length word.now) }
    {
        // A page whose text ends past its bytes takes an empty word.
        if word.is_empty() {
            return;
        }
        let end = self.end + word.len();
        self.bytes[self.end..end].copy_from_slice(word);
        self.end = end;
    }

    // In decimal, without leading zeros.
    pub fn write_number(&mut self, n: u32)
        requires { length (decimal_digits n) ≤ room self.old }
        ensures { Adds self.old self.new (decimal_digits n) 10 }
    {
        self.end = write_number(self.bytes, self.end, n);
    }

    // A word, and a number after it.
    pub fn write_numbered(&mut self, word: &[u8], n: u32)
        requires { length word.now + 10 ≤ room self.old }
        ensures { Adds self.old self.new (word.now ++ decimal_digits n) (length word.now + 10) }
    {
        self.write_word(word);
        self.write_number(n);
    }

    // A number and the byte that ends it.
    fn write_ended(&mut self, number: u32, ending: u8)
        requires { 11 ≤ room self.old }
        ensures { Adds self.old self.new (decimal_digits number ++ ending ∷ []) 11 }
    {
        self.write_number(number);
        self.write_byte(ending);
    }

    // Four numbers with single spaces and a line feed.
    pub fn write_reply(&mut self, first: u32, second: u32, third: u32, fourth: u32)
        requires { 44 ≤ room self.old }
        ensures { Adds self.old self.new
            (reply_text (first ∷ second ∷ third ∷ fourth ∷ [])) 44 }
    {
        self.write_ended(first, b' ');
        self.write_ended(second, b' ');
        self.write_ended(third, b' ');
        self.write_ended(fourth, b'\n');
    }
}
