// Records of one width that follow each other in the lent image: where each lies.
ghost use Rattle.std.specs.Prelude.{◌≡◌, [], ◌+◌, ◌*◌, ◌≤◌, ◌<◌, length, get_or, drop, replicate};
ghost use borrow.Rule.Slice.PartMut.{mid_of};
ghost use Rattle.store.specs.Lists.{lowest, keep};
ghost use Rattle.store.specs.Layout.{rows};
ghost use Rattle.store.specs.FreePlaces.{Area, unused};
ghost use Rattle.store.specs.Spots.{spot};

pub fn wide(x: u32) -> usize
    ensures { result ≡ x }
{
    x as usize
}

// Where the record at a place starts: records of one width follow each other from `area` on.
pub fn row_at(image: &[u32], area: usize, width: usize, place: u32) -> usize
    requires { (1 ≤ place) × (spot area width place + width ≤ length image.now) }
    ensures { result ≡ spot area width place }
{
    area + width * (place as usize - 1)
}

// A record's words, handed back as a part of the lent image.
pub fn row(image: &[u32], area: usize, width: usize, place: u32) -> &[u32]
    requires { (1 ≤ place) × (spot area width place + width ≤ length image.now) }
    ensures { result.now ≡ mid_of (spot area width place) width image.now }
{
    let at = row_at(image, area, width, place);
    let end = at + width;
    &image[at..end]
}

// Whether the record after so many others is free: its first word is 0.
fn is_unused(image: &[u32], area: usize, width: usize, count: u32, before: u32) -> bool
    requires area { Area image.now area width count }
    requires before_lt_count { before < count }
    ensures { result ≡ unused (get_or (rows width count (drop area image.now)) before []) }
{
    let record = row(image, area, width, before + 1);
    record[0] == 0
}

// The lowest place of an area whose record is free; 0 where none is, as `lowest` in Lists.antt says.
pub fn lowest_unused(image: &[u32], area: usize, width: usize, count: u32) -> u32
    requires { Area image.now area width count }
    ensures { result ≡ lowest unused 1 (rows width count (drop area image.now)) }
{
    for done in 0..count {
        if is_unused(image, area, width, count, done) {
            return done + 1;
        }
    }
    0
}

// How many records of an area are free.
pub fn count_unused(image: &[u32], area: usize, width: usize, count: u32) -> u32
    requires { Area image.now area width count }
    ensures { result ≡ length (keep unused (rows width count (drop area image.now))) }
{
    let mut free = 0;
    for done in 0..count {
        free += u32::from(is_unused(image, area, width, count, done));
    }
    free
}

// `fill` promises a clone of 0 at each place: here one equation says all.
pub fn clear(words: &mut [u32])
    ensures { words.new ≡ replicate (length words.old) 0 }
{
    words.fill(0);
}
