// Whether each table in use is used by a shape, and a unique shape's table by it alone.
// Users are counted in one pass.
ghost use Rattle.std.specs.Prelude.{◌≡◌, Bool, ◌<◌, length};
ghost use Rattle.store.specs.Model.{table_at};
ghost use Rattle.store.specs.Layout.{parse};
ghost use Rattle.store.specs.Image.{Formed, Place};
ghost use Rattle.rules.specs.Sound.{in_range, tables_used};
ghost use Rattle.sound_tables.specs.Used.{Countable, Sited, Users, with_user};
ghost use Rattle.sound_tables.specs.Used.{table_used, every_table_used};
ghost use Rattle.sound_tables.specs.Used.{alone_in, every_unique_alone};

use store::image::{get_shape, shape_count, table_count, table_is_free};
use store::rows::clear;
use store::{Shape, ShapeState};

// Free shapes use no table.
fn count_user(users: &mut [u32], s: Shape)
    requires { Countable users.old s }
    ensures { users.new ≡ with_user users.old s }
{
    if s.state == ShapeState::FREE {
        return;
    }
    let table = s.table as usize;
    users[table] += 1;
}

fn count_users(image: &[u32], users: &mut [u32])
    requires formed { Formed image.now }
    requires image_value { in_range (parse image.now) ≡ Bool.true }
    requires image_in_bounds { length (parse image.now).tables < length users.old }
    ensures { Users (parse image.now) users.new }
{
    clear(users);
    for done in 0..shape_count(image) {
        count_user(users, get_shape(image, done + 1));
    }
}

fn table_used(image: &[u32], users: &[u32], t: u32) -> bool
    requires formed { Formed image.now }
    requires place { Place (length (parse image.now).tables) t }
    requires users { Users (parse image.now) users.now }
    ensures { result ≡ table_used (parse image.now) (t, table_at (parse image.now) t) }
{
    let place = t as usize;
    table_is_free(image, t) | (users[place] >= 1)
}

fn every_table_used(image: &[u32], users: &[u32]) -> bool
    requires formed { Formed image.now }
    requires users { Users (parse image.now) users.now }
    ensures { result ≡ every_table_used (parse image.now) }
{
    (0..table_count(image)).all(|done| table_used(image, users, done + 1))
}

fn unique_alone(users: &[u32], s: Shape) -> bool
    requires { Sited users.now s }
    ensures { result ≡ alone_in users.now s }
{
    if s.state != ShapeState::UNIQUE {
        return true;
    }
    let table = s.table as usize;
    users[table] == 1
}

fn every_unique_alone(image: &[u32], users: &[u32]) -> bool
    requires formed { Formed image.now }
    requires image_value { in_range (parse image.now) ≡ Bool.true }
    requires users { Users (parse image.now) users.now }
    ensures { result ≡ every_unique_alone (parse image.now) }
{
    (0..shape_count(image)).all(|done| unique_alone(users, get_shape(image, done + 1)))
}

fn users_fit(image: &[u32], users: &mut [u32]) -> bool
    requires formed { Formed image.now }
    requires image_value { in_range (parse image.now) ≡ Bool.true }
    requires image_in_bounds { length (parse image.now).tables < length users.old }
    ensures { result ≡ tables_used (parse image.now) }
{
    count_users(image, users);
    if !every_table_used(image, users) {
        return false;
    }
    every_unique_alone(image, users)
}

// No more of the room is cleared than there are tables.
pub fn tables_used(image: &[u32], room: &mut [u32]) -> bool
    requires formed { Formed image.now }
    requires image_value { in_range (parse image.now) ≡ Bool.true }
    requires image_in_bounds { length (parse image.now).tables < length room.old }
    ensures { result ≡ tables_used (parse image.now) }
{
    let end = table_count(image) as usize + 1;
    users_fit(image, &mut room[0..end])
}
