// The header of the lent image: its test, and formatting.
#![tactic(auto)]

ghost use Rattle.std.specs.Prelude.{◌≡◌, Bool, ◌&&◌, ◌++◌, ◌≤◌, length, drop};
ghost use Rattle.std.specs.Prelude.{if◌then◌else◌};
ghost use Rattle.store.specs.Layout.{tables_offset, edges_offset, total, header, limits_in};
ghost use Rattle.store.specs.Layout.{within, good_limits, good_header, formattable, formatted};

use store::Limits;

fn is_within(low: u32, high: u32, n: u32) -> bool
    ensures { result ≡ within low high n }
{
    (low..=high).contains(&n)
}

fn tables_offset(l: Limits) -> usize
    ensures { result ≡ tables_offset l }
{
    8 + 10 * l.S as usize
}

// A product of any two numbers of 32 bits, and three times it, would not fit: the keys are bounded.
fn edges_offset(l: Limits) -> usize
    requires { l.K ≤ 2048 }
    ensures { result ≡ edges_offset l }
{
    tables_offset(l) + (1 + 3 * l.K as usize) * l.T as usize
}

pub fn total(l: Limits) -> usize
    requires { l.K ≤ 2048 }
    ensures { result ≡ total l }
{
    edges_offset(l) + 5 * l.E as usize
}

pub fn good_limits(l: Limits) -> bool
    ensures { result ≡ good_limits l }
{
    let in_range = is_within(1, 65535, l.S)
        & is_within(1, 65535, l.T)
        & is_within(1, 65535, l.E)
        & is_within(1, 2048, l.K);
    in_range && total(l) <= 16777216
}

pub fn limits_in(image: &[u32]) -> Limits
    requires { 8 ≤ length image.now }
    ensures { result ≡ limits_in image.now }
{
    Limits {
        S: image[0],
        T: image[1],
        K: image[2],
        E: image[3],
    }
}

pub fn good_header(image: &[u32]) -> bool
    ensures { result ≡ (good_limits (limits_in image.now) && good_header image.now) }
{
    if image.len() < 8 {
        return false;
    }
    let limits = limits_in(image);
    if !good_limits(limits) {
        return false;
    }
    let words = total(limits);
    (image[4] == 8)
        & (image[5] as usize == tables_offset(limits))
        & (image[6] as usize == edges_offset(limits))
        & (image[7] as usize == words)
        & (image.len() == words)
}

fn write_header(image: &mut [u32], l: Limits)
    requires in_bounds { 8 ≤ length image.old }
    requires l_value { good_limits l ≡ Bool.true }
    ensures { image.new ≡ header l ++ drop 8 image.old }
{
    let tables = tables_offset(l) as u32;
    let edges = edges_offset(l) as u32;
    let words = total(l) as u32;
    image[0] = l.S;
    image[1] = l.T;
    image[2] = l.K;
    image[3] = l.E;
    image[4] = 8;
    image[5] = tables;
    image[6] = edges;
    image[7] = words;
}

// Nothing is written where it answers false.
pub fn format(image: &mut [u32], l: Limits) -> bool
    ensures value { result ≡ formattable l image.old }
    ensures image_after { image.new
        ≡ (if formattable l image.old then formatted l else image.old) }
{
    if !good_limits(l) {
        return false;
    }
    if image.len() != total(l) {
        return false;
    }
    image.fill(0);
    write_header(image, l);
    true
}
