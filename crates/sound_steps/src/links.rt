// Whether each child is linked to its previous by its one edge.
ghost use Rattle.std.specs.Prelude.{◌≡◌, ◌<◌, eqb, length};
ghost use Rattle.std.specs.Prelude.{if◌then◌else◌};
ghost use Rattle.store.specs.Layout.{parse};
ghost use Rattle.store.specs.Image.{Formed};
ghost use Rattle.rules.specs.Shapes.{is_child};
ghost use Rattle.sound_steps.specs.Links.{no_place, with_edge, Marks};
ghost use Rattle.sound_steps.specs.Children.{joins};

use store::image::{edge_count, get_edge};
use store::rows::clear;
use store::{Edge, Shape, ShapeState};

// No place is as high. A number says it and no enum, since the marks are lent words.
const SEVERAL: u32 = 65536;

// The mark of a child after one more edge to it.
fn noted(mark: u32, place: u32) -> u32
    ensures { result ≡ (if eqb mark 0 then place else 65536) }
{
    if mark == 0 { place } else { SEVERAL }
}

// A free edge names any child: one that has no mark is no shape's place.
fn note(marks: &mut [u32], child: u32, place: u32)
    ensures { marks.new ≡ with_edge marks.old child place }
{
    let at = child as usize;
    if at < marks.len() {
        marks[at] = noted(marks[at], place);
    }
}

// For each child the place of its one edge, 0 where it has none, SEVERAL where it has more.
pub fn edges_by_child(image: &[u32], marks: &mut [u32])
    requires formed { Formed image.now }
    requires image_in_bounds { length (parse image.now).shapes < length marks.old }
    ensures { Marks (parse image.now) marks.new }
{
    clear(marks);
    for done in 0..edge_count(image) {
        let edge = get_edge(image, done + 1);
        note(marks, edge.child, done + 1);
    }
}

pub fn is_child(s: Shape) -> bool
    ensures { result ≡ is_child s }
{
    (s.state == ShapeState::SHARED) & (s.previous != 0)
}

// There is no edge to the child, or there are several.
pub fn names_no_edge(mark: u32) -> bool
    ensures { result ≡ no_place mark }
{
    (mark == 0) | (mark == SEVERAL)
}

pub fn is_joined(p: Shape, s: Shape, edge: Edge) -> bool
    ensures { result ≡ joins p s edge }
{
    // In 64 bits the sum fits: the counts are not yet known to be small.
    let one_more = s.transitions as usize == p.transitions as usize + 1;
    (p.state == ShapeState::SHARED) & one_more & (edge.parent == s.previous)
}
