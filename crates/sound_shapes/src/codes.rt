// Whether no two edges agree: each edge has a code, and edges that differ have codes that differ.
ghost use Rattle.std.specs.Prelude.{◌≡◌, ◌≤◌, length, take};
ghost use Rattle.std.specs.Prelude.{if◌then◌else◌};
ghost use Rattle.store.specs.Model.{free_edge};
ghost use Rattle.store.specs.Layout.{parse};
ghost use Rattle.store.specs.Image.{Formed};
ghost use Rattle.rules.specs.Sound.{edges_differ};
ghost use Rattle.sound_shapes.specs.Codes.{Coded, EdgesKnown, edge_code, edge_codes};

use distinct::first_are_distinct;
use store::Edge;
use store::image::{edge_count, get_edge};

// A free edge takes its place for its label: it agrees with no other, since no edge in use has
// parent 0.
fn label_or_place(e: Edge, place: u32) -> u32
    ensures { result ≡ (if free_edge e then place else e.label) }
{
    if e.parent == 0 { place } else { e.label }
}

fn edge_code(e: Edge, place: u32) -> u64
    requires { Coded e }
    ensures { result ≡ edge_code place e }
{
    let named = u64::from(label_or_place(e, place)) * 65536 + u64::from(e.parent);
    (named * 2 + u64::from(e.kind)) * 32 + u64::from(e.attributes)
}

fn write_codes(image: &[u32], codes: &mut [u64])
    requires formed { Formed image.now }
    requires edges_known { EdgesKnown (parse image.now) }
    requires image_in_bounds { length (parse image.now).edges ≤ length codes.old }
    ensures { take (length (parse image.now).edges) codes.new
        ≡ edge_codes 1 (parse image.now).edges }
{
    for done in 0..edge_count(image) {
        codes[done as usize] = edge_code(get_edge(image, done + 1), done + 1);
    }
}

// "No two edges agree in parent, kind, key or prototype, and attributes."
pub fn edges_differ(image: &[u32], codes: &mut [u64], room: &mut [u32]) -> bool
    requires formed { Formed image.now }
    requires edges_known { EdgesKnown (parse image.now) }
    requires image_in_bounds { length (parse image.now).edges ≤ length codes.old }
    requires image_in_bounds_2 { length (parse image.now).edges ≤ length room.old }
    ensures { result ≡ edges_differ (parse image.now) }
{
    write_codes(image, codes);
    first_are_distinct(codes, edge_count(image) as usize, room)
}
