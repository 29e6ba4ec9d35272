// What soundness asks of one edge's own fields.
ghost use Rattle.std.specs.Prelude.{◌≡◌};
ghost use Rattle.sound_shapes.specs.Tests.{edge_in_range, edge_zero_if_free};

use store::{Edge, EdgeKind};

pub fn edge_in_range(e: Edge, shapes: u32) -> bool
    ensures { result ≡ edge_in_range shapes e }
{
    (e.parent == 0) | ((e.kind <= EdgeKind::PROTOTYPE) & (e.parent <= shapes) & (e.child <= shapes))
}

pub fn edge_zero_if_free(e: Edge) -> bool
    ensures { result ≡ edge_zero_if_free e }
{
    (e.parent != 0) | ([e.parent, e.kind, e.label, e.attributes, e.child] == [0; 5])
}
