// The shapes that a sweep keeps: those held, and those on the previous chain of a held one.
ghost use Rattle.std.specs.Prelude.{◌≡◌, false, ℕ, ◌<◌, eqb, length};
ghost use Rattle.store.specs.Lists.{any};
ghost use Rattle.store.specs.Layout.{parse};
ghost use Rattle.store.specs.Image.{Formed, Place};
ghost use Rattle.rules.specs.Sweep.{reached};
ghost use Rattle.theorems.specs.Facts.{Sound};
ghost use Rattle.theorems.specs.HeldChains.{OnHeldChain};
ghost use Rattle.sweep.specs.Marks.{marked};
ghost use Rattle.sweep.specs.Walks.{Marking, Walk, Grown};

use crate::marks::{is_marked, mark};
use store::image::{get_shape, shape_count};

// Marks a shape and those before it, up to the first that is marked already.
fn walk(image: &[u32], marks: &mut [u8], from: u32)
    requires formed { Formed image.now }
    requires sound { Sound (parse image.now) }
    requires marking { Marking (parse image.now) marks.old 0 }
    requires on_held_chain { OnHeldChain (parse image.now) from }
    ensures { Walk (parse image.now) marks.old marks.new from 0 }
{
    let mut n = from;
    // It goes from a shape to the one before it, and counts nothing.
    while n != 0 {
        if is_marked(marks, n) {
            return;
        }
        mark(marks, n);
        let s = get_shape(image, n);
        n = s.previous;
    }
}

fn walk_if_held(image: &[u32], marks: &mut [u8], n: u32)
    requires formed { Formed image.now }
    requires sound { Sound (parse image.now) }
    requires marking { Marking (parse image.now) marks.old 0 }
    requires place { Place (length (parse image.now).shapes) n }
    ensures { Grown (parse image.now) marks.old marks.new n }
{
    let s = get_shape(image, n);
    if s.holds != 0 {
        walk(image, marks, n);
    }
}

// Each shape is marked once, so that all walks together take no more steps than there are shapes.
pub fn mark_reached(image: &[u32], marks: &mut [u8])
    requires formed { Formed image.now }
    requires sound { Sound (parse image.now) }
    requires image_in_bounds { length (parse image.now).shapes < length marks.old }
    requires by_index { (n : ℕ) → marked marks.old n ≡ false }
    ensures { (n : ℕ)
        → marked marks.new n ≡ any (eqb n) (reached (parse image.now)) }
{
    let count = shape_count(image);
    for done in 0..count {
        walk_if_held(image, marks, done + 1);
    }
}
