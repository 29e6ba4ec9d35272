// Reads an image's words, a row for a record, and changes each word, one at a time, to some other values. Prints for
// each area how many images were tried and how many of them are still sound. vectors/damage.py counts the same by
// document 01 alone.
#![tactic(auto)]

use header::format;
use input::fill;
use soundness::is_sound;
use std::ops::{AddAssign, Range};
use std::{fmt, io, mem};
use store::Limits;

const LIMITS: Limits = Limits {
    S: 16,
    T: 8,
    K: 4,
    E: 16,
};

const HEADER: usize = 8;

// What the limits ask for.
const WORDS: usize = 352;

const VALUES: [u32; 18] = [
    0, 1, 2, 3, 4, 8, 24, 31, 32, 255, 256, 1024, 1025, 65535, 65536, 1073741824, 3221225472,
    4294967295,
];

#[derive(Clone, Copy, Default)]
pub struct Count {
    pub tried: u64,
    pub sound: u64,
}

impl AddAssign for Count {
    fn add_assign(&mut self, other: Count) {
        self.tried = self.tried.wrapping_add(other.tried);
        self.sound = self.sound.wrapping_add(other.sound);
    }
}

impl fmt::Display for Count {
    fn fmt<W: fmt::Write>(&self, f: &mut fmt::Formatter<W>) -> fmt::Result {
        let tried = self.tried;
        let sound = self.sound;
        write!(f, "{tried} {sound}")
    }
}

// The number that a part of the text ends, which is its last byte: no digit.
fn ended_number(part: &[u8]) -> Option<u32> {
    let (end, digits) = part.split_last()?;
    if end.is_ascii_digit() || digits.is_empty() {
        return None;
    }
    let add_digit = |number: u32, digit: &u8| {
        number
            .wrapping_mul(10)
            .wrapping_add(u32::from(digit.wrapping_sub(b'0')))
    };
    Some(digits.iter().fold(0, add_digit))
}

// Each byte that is no digit ends a part.
fn read_words(text: &[u8], words: &mut [u32]) {
    let numbers = text
        .split_inclusive(|byte| !byte.is_ascii_digit())
        .filter_map(ended_number);
    for (word, number) in words.iter_mut().zip(numbers) {
        *word = number;
    }
}

// Another value for a word, which is put back afterwards.
fn change(image: &mut [u32], at: usize, value: u32) -> Count {
    let Some(word) = image.get_mut(at) else {
        return Count::default();
    };
    let old = mem::replace(word, value);
    if value == old {
        return Count::default();
    }
    let sound = u64::from(is_sound(image));
    image[at] = old;
    Count { tried: 1, sound }
}

fn change_to_values(image: &mut [u32], at: usize) -> Count {
    let mut count = Count::default();
    for value in VALUES {
        count += change(image, at, value);
    }
    count
}

fn change_by_one(image: &mut [u32], at: usize) -> Count {
    let Some(old) = image.get(at).copied() else {
        return Count::default();
    };
    let mut count = change(image, at, old.wrapping_add(1));
    count += change(image, at, old.wrapping_sub(1));
    count
}

fn change_area(
    rt: &impl Print,
    name: &str,
    image: &mut [u32],
    area: Range<usize>,
) -> io::Result<()> {
    let mut count = Count::default();
    for at in area {
        count += change_to_values(image, at);
        count += change_by_one(image, at);
    }
    println!(rt; "{name} {count}")
}

fn try_changes(rt: &impl Print, image: &mut [u32]) -> io::Result<()> {
    let unchanged = u64::from(is_sound(image));
    println!(rt; "unchanged {unchanged}")?;
    change_area(rt, "header", image, 0..HEADER)?;
    change_area(rt, "shapes", image, HEADER..168)?;
    change_area(rt, "tables", image, 168..272)?;
    change_area(rt, "edges", image, 272..WORDS)
}

// The header is the formatting's; the records are the input's.
fn image_of(text: &[u8]) -> [u32; WORDS] {
    let mut words = [0; WORDS];
    read_words(text, &mut words);
    let mut image = [0; WORDS];
    format(&mut image, LIMITS);
    image[HEADER..].copy_from_slice(&words[HEADER..]);
    image
}

fn main(rt: HostRuntime) -> io::Result<()> {
    let mut text = [0; 4096];
    let n = fill(&mut rt.reader(), &mut text)?;
    try_changes(&rt, &mut image_of(&text[..n]))
}
