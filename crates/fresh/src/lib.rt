// A shape in the lowest free place, with a table of its own in the lowest free place.
#![tactic(auto)]

ghost use Rattle.std.specs.Prelude.{◌≡◌, [], length};
ghost use Rattle.store.specs.Model.{shape_at, put_shape};
ghost use Rattle.store.specs.Layout.{parse};
ghost use Rattle.store.specs.Image.{Formed, Place, Becomes};
ghost use Rattle.rules.specs.Shapes.{entries, standing, root_shape, unique_shape};
ghost use Rattle.rules.specs.Steps.{fresh};
ghost use Rattle.rules.specs.Placing.{Places};
ghost use Rattle.theorems.specs.Facts.{Sound, Used};
ghost use Rattle.fresh.specs.Room.{free_room};

use property_table::copy_entries;
use rules::Refusal;
use store::image::{get_shape, lowest_free_shape, lowest_free_table, put_shape, start_table};
use store::{Shape, ShapeState};

#[derive(Clone, Copy)]
pub struct FreePlaces {
    pub shape: u32,
    pub table: u32,
}

// Writes nothing, so that who asks before it writes is refused in time.
pub fn free_places(image: &[u32]) -> Result<FreePlaces, Refusal>
    requires { Formed image.now }
    ensures { result ≡ free_room (parse image.now) }
{
    let shape = lowest_free_shape(image);
    if shape == 0 {
        return Err(Refusal::ShapesFull);
    }
    let table = lowest_free_table(image);
    if table == 0 {
        return Err(Refusal::TablesFull);
    }
    Ok(FreePlaces { shape, table })
}

// A shape that no step has made.
fn put_standing(
    image: &mut [u32],
    n: u32,
    state: u32,
    holds: u32,
    properties: u32,
    prototype: u32,
    table: u32,
)
    requires formed { Formed image.old }
    requires place { Place (length (parse image.old).shapes) n }
    ensures { Becomes image.old image.new
        (put_shape (parse image.old) n (standing state holds properties prototype table)) }
{
    put_shape(
        image,
        n,
        Shape {
            state,
            holds,
            properties,
            prototype,
            table,
            ..Shape::default()
        },
    );
}

pub fn put_unique(
    image: &mut [u32],
    n: u32,
    holds: u32,
    properties: u32,
    prototype: u32,
    table: u32,
)
    requires formed { Formed image.old }
    requires place { Place (length (parse image.old).shapes) n }
    ensures { Becomes image.old image.new
        (put_shape (parse image.old) n (unique_shape holds properties prototype table)) }
{
    put_standing(
        image,
        n,
        ShapeState::UNIQUE,
        holds,
        properties,
        prototype,
        table,
    );
}

// A shape without keys.
fn new_shape(image: &mut [u32], state: u32) -> Result<u32, Refusal>
    requires { Formed image.old }
    ensures { Places image.old image.new
        (fresh (parse image.old) (standing state 0 0 0) []) result }
{
    let places = free_places(image)?;
    start_table(image, places.table);
    put_standing(image, places.shape, state, 0, 0, 0, places.table);
    Ok(places.shape)
}

pub fn new_root(image: &mut [u32]) -> Result<u32, Refusal>
    requires { Formed image.old }
    ensures { Places image.old image.new
        (fresh (parse image.old) root_shape []) result }
{
    new_shape(image, ShapeState::SHARED)
}

pub fn new_unique(image: &mut [u32]) -> Result<u32, Refusal>
    requires { Formed image.old }
    ensures { Places image.old image.new
        (fresh (parse image.old) (unique_shape 0 0 0) []) result }
{
    new_shape(image, ShapeState::UNIQUE)
}

// The shape's own keys are the first of its table, which others may share.
pub fn to_unique(image: &mut [u32], n: u32) -> Result<u32, Refusal>
    requires formed { Formed image.old }
    requires sound { Sound (parse image.old) }
    requires used { Used (parse image.old) n }
    ensures { Places image.old image.new
        (fresh (parse image.old)
        (unique_shape 0 (shape_at (parse image.old) n).properties
        (shape_at (parse image.old) n).prototype)
        (entries (parse image.old) (shape_at (parse image.old) n))) result }
{
    let places = free_places(image)?;
    let s = get_shape(image, n);
    copy_entries(image, s.table, places.table, s.properties);
    put_unique(
        image,
        places.shape,
        0,
        s.properties,
        s.prototype,
        places.table,
    );
    Ok(places.shape)
}
