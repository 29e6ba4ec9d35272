// What soundness asks of one shape's own fields.
ghost use Rattle.std.specs.Prelude.{◌≡◌, true, not, ◌≤◌, length};
ghost use Rattle.store.specs.Model.{free_table, table_at, shape_at};
ghost use Rattle.store.specs.Layout.{parse};
ghost use Rattle.store.specs.Image.{Formed, Place};
ghost use Rattle.rules.specs.Sound.{in_range};
ghost use Rattle.sound_shapes.specs.Tests.{shape_in_range, shape_zero_if_free, count_fits};
ghost use Rattle.sound_shapes.specs.Tests.{root_zero};
ghost use Rattle.sound_shapes.specs.Tests.{transitions_few, holds_few, unique_zero, own_fields};
ghost use Rattle.sound_shapes.specs.Tests.{good_shape};

use store::image::{entry_count, get_shape, table_is_free};
use store::{Shape, ShapeState, StepKind};

pub fn shape_in_range(s: Shape, shapes: u32, tables: u32) -> bool
    ensures { result ≡ shape_in_range shapes tables s }
{
    (s.state == ShapeState::FREE)
        | ((s.state <= ShapeState::UNIQUE)
            & (s.step <= StepKind::PROTOTYPE)
            & (s.previous <= shapes)
            & (s.table <= tables))
}

pub fn shape_zero_if_free(s: Shape) -> bool
    ensures { result ≡ shape_zero_if_free s }
{
    let counters = s.counters;
    let words = [
        s.state,
        s.holds,
        s.previous,
        s.step,
        s.transitions,
        s.properties,
        s.prototype,
        s.table,
        counters.property,
        counters.prototype,
    ];
    (s.state != ShapeState::FREE) | (words == [0; 10])
}

// "A shape's property count is at most its table's length, equal for a unique."
fn count_fits(s: Shape, long: u32) -> bool
    ensures { result ≡ count_fits long s }
{
    if s.state == ShapeState::UNIQUE {
        s.properties == long
    } else {
        s.properties <= long
    }
}

// "A root has previous, kind, both counts and prototype 0."
fn root_is_zero(s: Shape) -> bool
    ensures { result ≡ root_zero s }
{
    let zero = [s.previous, s.step, s.transitions, s.properties, s.prototype] == [0; 5];
    !((s.state == ShapeState::SHARED) & (s.previous == 0)) | zero
}

// "Transition counts are at most 1,024, and 1,024 has no holds."
fn transitions_are_few(s: Shape) -> bool
    ensures { result ≡ transitions_few s }
{
    (s.transitions <= 1024) & ((s.transitions < 1024) | (s.holds == 0))
}

// "Holds are at most 65,535, counters at most 255."
fn holds_are_few(s: Shape) -> bool
    ensures { result ≡ holds_few s }
{
    (s.holds <= 65535) & (s.counters.property <= 255) & (s.counters.prototype <= 255)
}

// "A unique shape has 0 in previous, kind, transition count and counters."
fn unique_is_zero(s: Shape) -> bool
    ensures { result ≡ unique_zero s }
{
    let counters = s.counters;
    let words = [
        s.previous,
        s.step,
        s.transitions,
        counters.property,
        counters.prototype,
    ];
    (s.state != ShapeState::UNIQUE) | (words == [0; 5])
}

fn own_fields_are_good(s: Shape, long: u32) -> bool
    ensures { result ≡ own_fields long s }
{
    count_fits(s, long)
        & root_is_zero(s)
        & transitions_are_few(s)
        & holds_are_few(s)
        & unique_is_zero(s)
}

// "a shape's table is in use;": none stands at place 0.
#[tactic(auto, using(crate::specs::Answers::no_table_zero))]
fn is_table(image: &[u32], t: u32) -> bool
    requires formed { Formed image.now }
    requires t_in_bounds { t ≤ length (parse image.now).tables }
    ensures { result ≡ not (free_table (table_at (parse image.now) t)) }
{
    t != 0 && !table_is_free(image, t)
}

pub fn shape_is_good(image: &[u32], n: u32) -> bool
    requires formed { Formed image.now }
    requires image_value { in_range (parse image.now) ≡ true }
    requires place { Place (length (parse image.now).shapes) n }
    ensures { result ≡ good_shape (parse image.now) (shape_at (parse image.now) n) }
{
    let s = get_shape(image, n);
    if s.state == ShapeState::FREE {
        return true;
    }
    is_table(image, s.table) && own_fields_are_good(s, entry_count(image, s.table))
}
