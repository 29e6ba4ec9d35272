// The part of the soundness test that reads each shape's and each edge's own fields.
#![tactic(auto)]

ghost use Rattle.std.specs.Prelude.{◌≡◌, true, [], ◌∷◌};
ghost use Rattle.store.specs.Lists.{all};
ghost use Rattle.store.specs.Layout.{parse};
ghost use Rattle.store.specs.Image.{Formed};
ghost use Rattle.rules.specs.Sound.{in_range, table_in_use, free_zero, counts_fit, roots_zero};
ghost use Rattle.rules.specs.Sound.{edges_good, transitions_limited, holds_limited, uniques_zero};
ghost use Rattle.sound_shapes.specs.Tests.{StepsKnown};

use crate::edges::{edge_in_range, edge_zero_if_free};
use crate::labels::edge_is_good;
use crate::shapes::{shape_in_range, shape_is_good, shape_zero_if_free};
use store::image::{edge_count, get_edge, get_shape, shape_count, table_count};

mod codes;
mod edges;
mod labels;
mod shapes;
pub mod widths;

pub use codes::edges_differ;

// "States, kinds and places are in range;"
pub fn in_range(image: &[u32]) -> bool
    requires { Formed image.now }
    ensures { result ≡ in_range (parse image.now) }
{
    let shapes = shape_count(image);
    let tables = table_count(image);
    (0..shapes).all(|done| shape_in_range(get_shape(image, done + 1), shapes, tables))
        & (0..edge_count(image)).all(|done| edge_in_range(get_edge(image, done + 1), shapes))
}

// "free records and unused entries are zero.", of the records
pub fn free_are_zero(image: &[u32]) -> bool
    requires { Formed image.now }
    ensures { result ≡ free_zero (parse image.now) }
{
    (0..shape_count(image)).all(|done| shape_zero_if_free(get_shape(image, done + 1)))
        & (0..edge_count(image)).all(|done| edge_zero_if_free(get_edge(image, done + 1)))
}

// The sentences about a shape's own fields and its table's length, in one pass.
pub fn shapes_good(image: &[u32]) -> bool
    requires formed { Formed image.now }
    requires image_value { in_range (parse image.now) ≡ true }
    ensures { result ≡ all (
        table_in_use (parse image.now)
        ∷ counts_fit (parse image.now)
        ∷ roots_zero (parse image.now)
        ∷ transitions_limited (parse image.now)
        ∷ holds_limited (parse image.now)
        ∷ uniques_zero (parse image.now)
        ∷ []) }
{
    (0..shape_count(image)).all(|done| shape_is_good(image, done + 1))
}

// What an edge says of its parent, its key or prototype, and its child.
pub fn edges_good(image: &[u32]) -> bool
    requires formed { Formed image.now }
    requires steps_known { StepsKnown (parse image.now) }
    ensures { result ≡ edges_good (parse image.now) }
{
    (0..edge_count(image)).all(|done| edge_is_good(image, done + 1))
}
