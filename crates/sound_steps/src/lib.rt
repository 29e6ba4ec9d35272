// The part of the soundness test that compares each child with its previous.
#![tactic(auto)]

ghost use Rattle.std.specs.Prelude.{◌≡◌, ◌&&◌, ◌<◌, length};
ghost use Rattle.store.specs.Model.{shape_at};
ghost use Rattle.store.specs.Layout.{parse};
ghost use Rattle.store.specs.Image.{Formed, Place};
ghost use Rattle.rules.specs.Sound.{edges_to, children_linked, children_stepped};
ghost use Rattle.sound_shapes.specs.Tests.{TablesKnown};
ghost use Rattle.sound_steps.specs.Links.{Marked};
ghost use Rattle.sound_steps.specs.Children.{follows};

use crate::links::{edges_by_child, is_child, is_joined, names_no_edge};
use crate::steps::leads;
use store::image::{get_edge, get_shape, shape_count};

mod links;
mod steps;

fn child_follows(image: &[u32], n: u32, mark: u32) -> bool
    requires formed { Formed image.now }
    requires tables_known { TablesKnown (parse image.now) }
    requires place { Place (length (parse image.now).shapes) n }
    requires marked { Marked (parse image.now).edges (edges_to (parse image.now) n) mark }
    ensures { result ≡ follows (parse image.now) (n, shape_at (parse image.now) n) }
{
    let s = get_shape(image, n);
    if !is_child(s) {
        return true;
    }
    let p = get_shape(image, s.previous);
    if names_no_edge(mark) {
        return false;
    }
    let edge = get_edge(image, mark);
    if !is_joined(p, s, edge) {
        return false;
    }
    leads(image, p, s, edge)
}

// "Any other shared shape has a shared previous with one transition less, and is the child of
// exactly one edge, whose parent is that previous. Its first keys with their attributes, and its
// prototype, are the previous's with that step applied", in one pass. The marks are room: a word
// for each shape, and one more. What stands there before does not matter.
pub fn children_follow(image: &[u32], marks: &mut [u32]) -> bool
    requires formed { Formed image.now }
    requires tables_known { TablesKnown (parse image.now) }
    requires image_in_bounds { length (parse image.now).shapes < length marks.old }
    ensures { result ≡ (children_linked (parse image.now)
        && children_stepped (parse image.now)) }
{
    edges_by_child(image, marks);
    for done in 0..shape_count(image) {
        let n = done + 1;
        if !child_follows(image, n, marks[n as usize]) {
            return false;
        }
    }
    true
}
