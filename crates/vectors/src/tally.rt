// What was read, and what of it agrees.
use std::fmt;

#[derive(Clone, Copy, Default)]
pub struct Tally {
    // of the file, with that which is being read
    pub line: u64,
    pub runs: u64,
    pub inputs: u64,
    pub answers: u64,
    pub live: u64,
    pub differ: u64,
}

// One more, if it counts. Answers whether it does.
pub fn count(n: &mut u64, counts: bool) -> bool {
    *n = n.wrapping_add(u64::from(counts));
    counts
}

impl fmt::Display for Tally {
    fn fmt<W: fmt::Write>(&self, f: &mut fmt::Formatter<W>) -> fmt::Result {
        let Tally {
            runs,
            inputs,
            answers,
            live,
            differ,
            ..
        } = *self;
        write!(
            f,
            "{runs} runs, {inputs} lines of input: {answers} answers and "
        )?;
        write!(f, "{live} live shapes agree, {differ} differ")
    }
}
