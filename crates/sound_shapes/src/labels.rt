// What soundness asks of an edge's parent, of its key or prototype, and of its child.
ghost use Rattle.std.specs.Prelude.{◌≡◌, ◌≤◌, length};
ghost use Rattle.store.specs.Model.{shape_at, edge_at};
ghost use Rattle.store.specs.Layout.{parse};
ghost use Rattle.store.specs.Image.{Formed, Place};
ghost use Rattle.rules.specs.Shapes.{entries};
ghost use Rattle.rules.specs.Sound.{good_label, good_child};
ghost use Rattle.sound_shapes.specs.Tests.{StepsKnown, Keyed, LiveFits, edge_kind_of, leads_to};
ghost use Rattle.sound_shapes.specs.Tests.{good_edge};

use crate::widths::width_fits;
use rules::good_key;
use slot::SlotAttributes;
use store::image::{get_edge, get_shape};
use store::{Edge, EdgeKind, Shape, ShapeState, StepKind};

// "a property edge's key is good, its attributes up to 31 and of equal width where the parent
// holds that key; a prototype edge has any prototype and attributes 0". The step to a child has
// tested the width.
fn label_is_good(image: &[u32], parent: Shape, e: Edge) -> bool
    requires formed { Formed image.now }
    requires keyed { Keyed (parse image.now) parent }
    requires live_fits { LiveFits (entries (parse image.now) parent) e }
    ensures { result ≡ good_label (entries (parse image.now) parent) e }
{
    if e.kind != EdgeKind::PROPERTY {
        return e.attributes == 0;
    }
    if e.attributes > SlotAttributes::MOST_STORED {
        return false;
    }
    let good = good_key(e.label);
    if e.child != 0 {
        return good;
    }
    let attributes = SlotAttributes(e.attributes as u8);
    good & width_fits(image, parent, e.label, attributes, true)
}

fn edge_kind(step: u32) -> u32
    ensures { result ≡ edge_kind_of step }
{
    if step <= StepKind::CONFIGURE {
        EdgeKind::PROPERTY
    } else {
        EdgeKind::PROTOTYPE
    }
}

fn leads_to(s: Shape, e: Edge) -> bool
    ensures { result ≡ leads_to s e }
{
    (s.state == ShapeState::SHARED) & (s.previous == e.parent) & (edge_kind(s.step) == e.kind)
}

// "an edge's child is 0 or a shared shape whose previous is that parent and whose step kind fits"
fn child_is_good(image: &[u32], e: Edge) -> bool
    requires formed { Formed image.now }
    requires child_in_bounds { e.child ≤ length (parse image.now).shapes }
    ensures { result ≡ good_child (shape_at (parse image.now) e.child) e }
{
    if e.child == 0 {
        return true;
    }
    leads_to(get_shape(image, e.child), e)
}

// "An edge's parent is shared;" and the two before.
pub fn edge_is_good(image: &[u32], n: u32) -> bool
    requires formed { Formed image.now }
    requires steps_known { StepsKnown (parse image.now) }
    requires place { Place (length (parse image.now).edges) n }
    ensures { result ≡ good_edge (parse image.now) (edge_at (parse image.now) n) }
{
    let e = get_edge(image, n);
    if e.parent == 0 {
        return true;
    }
    let parent = get_shape(image, e.parent);
    if parent.state != ShapeState::SHARED {
        return false;
    }
    if !child_is_good(image, e) {
        return false;
    }
    label_is_good(image, parent, e)
}
