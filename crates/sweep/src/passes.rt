// The passes of a sweep, one each over the shapes, the tables and the edges: three lines each, which a shared walk with
// a closure over a lent image would not shorten.
ghost use Rattle.std.specs.Prelude.{◌≡◌, false, map, ℕ, ◌<◌, ◌≤◌, length};
ghost use Rattle.std.specs.Prelude.{if◌then◌else◌};
ghost use Rattle.store.specs.Lists.{any};
ghost use Rattle.store.specs.Model.{shape_at, table_at, edge_at, put_shape, put_table, put_edge};
ghost use Rattle.store.specs.Model.{no_shape, free};
ghost use Rattle.store.specs.Layout.{parse};
ghost use Rattle.store.specs.Image.{Formed, Place, Becomes};
ghost use Rattle.rules.specs.Sound.{uses};
ghost use Rattle.rules.specs.Sweep.{sweep_shapes, sweep_tables, sweep_edge};
ghost use Rattle.sweep.specs.Marks.{marked};
ghost use Rattle.sweep.specs.Users.{AlsoMarks};
ghost use Rattle.store.specs.Passes.{with_shapes, with_tables, with_edges};

use crate::marks::{is_marked, mark};
use store::image::{
    edge_count, free_table, get_edge, get_shape, put_edge, put_shape, shape_count, table_count,
};
use store::{Edge, Shape, ShapeState};

fn sweep_shape(image: &mut [u32], marks: &[u8], n: u32)
    requires formed { Formed image.old }
    requires place { Place (length (parse image.old).shapes) n }
    ensures { Becomes image.old image.new
        (put_shape (parse image.old) n
        (if marked marks.now n then shape_at (parse image.old) n else no_shape)) }
{
    if is_marked(marks, n) {
        return;
    }
    // A record of zeros is a free one.
    put_shape(image, n, Shape::default());
}

// "A sweep frees exactly the shapes" that are not marked.
pub fn sweep_shapes(image: &mut [u32], marks: &[u8])
    requires { Formed image.old }
    ensures { Becomes image.old image.new
        (with_shapes (parse image.old)
        (sweep_shapes (marked marks.now) (parse image.old).shapes)) }
{
    let count = shape_count(image);
    for done in 0..count {
        sweep_shape(image, marks, done + 1);
    }
}

fn swept_edge(marks: &[u8], e: Edge) -> Edge
    ensures { result ≡ sweep_edge (marked marks.now) e }
{
    if is_marked(marks, e.parent) {
        if is_marked(marks, e.child) {
            return e;
        }
        return Edge { child: 0, ..e };
    }
    Edge::default()
}

fn sweep_edge(image: &mut [u32], marks: &[u8], n: u32)
    requires formed { Formed image.old }
    requires place { Place (length (parse image.old).edges) n }
    ensures { Becomes image.old image.new
        (put_edge (parse image.old) n
        (sweep_edge (marked marks.now) (edge_at (parse image.old) n))) }
{
    let e = get_edge(image, n);
    put_edge(image, n, swept_edge(marks, e));
}

// "and their own edges; other edges to a freed shape become dead".
pub fn sweep_edges(image: &mut [u32], marks: &[u8])
    requires { Formed image.old }
    ensures { Becomes image.old image.new
        (with_edges (parse image.old)
        (map (sweep_edge (marked marks.now)) (parse image.old).edges)) }
{
    let count = edge_count(image);
    for done in 0..count {
        sweep_edge(image, marks, done + 1);
    }
}

fn mark_table(image: &[u32], users: &mut [u8], n: u32)
    requires formed { Formed image.now }
    requires place { Place (length (parse image.now).shapes) n }
    ensures { AlsoMarks (shape_at (parse image.now) n) users.old users.new }
{
    let s = get_shape(image, n);
    if s.state != ShapeState::FREE {
        mark(users, s.table);
    }
}

// Marks the tables that a shape uses.
fn mark_tables(image: &[u32], users: &mut [u8])
    requires formed { Formed image.now }
    requires by_index { (t : ℕ) → marked users.old t ≡ false }
    ensures { (t : ℕ) → t < length users.old
        → marked users.new t ≡ any (uses t) (parse image.now).shapes }
{
    let count = shape_count(image);
    for done in 0..count {
        mark_table(image, users, done + 1);
    }
}

fn sweep_table(image: &mut [u32], users: &[u8], t: u32)
    requires formed { Formed image.old }
    requires place { Place (length (parse image.old).tables) t }
    ensures { Becomes image.old image.new
        (put_table (parse image.old) t
        (if marked users.now t then table_at (parse image.old) t else free)) }
{
    if is_marked(users, t) {
        return;
    }
    free_table(image, t);
}

fn free_unmarked_tables(image: &mut [u32], users: &[u8])
    requires formed { Formed image.old }
    requires by_index { (t : ℕ) → t ≤ length (parse image.old).tables
        → marked users.now t ≡ any (uses t) (parse image.old).shapes }
    ensures { Becomes image.old image.new
        (with_tables (parse image.old)
        (sweep_tables (parse image.old).shapes (parse image.old).tables)) }
{
    let count = table_count(image);
    for done in 0..count {
        sweep_table(image, users, done + 1);
    }
}

// "their tables when unused": those that no shape is left to use.
pub fn sweep_tables(image: &mut [u32])
    requires { Formed image.old }
    ensures { Becomes image.old image.new
        (with_tables (parse image.old)
        (sweep_tables (parse image.old).shapes (parse image.old).tables)) }
{
    let mut users = [0u8; 65536];
    mark_tables(image, &mut users);
    free_unmarked_tables(image, &users);
}
