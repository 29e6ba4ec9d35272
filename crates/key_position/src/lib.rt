// Where a key stands among the first entries of a table. Shapes share a table, and a shape's own keys are the
// first of it. This is the one scan for a key.
#![tactic(auto)]

ghost use Rattle.std.specs.Prelude.{◌≡◌, true, Some};
ghost use Rattle.store.specs.Layout.{parse};
ghost use Rattle.store.specs.Image.{Formed};
ghost use Rattle.rules.specs.Shapes.{has};
ghost use Rattle.key_position.specs.First.{own, first_entries, AreThere};
ghost use Rattle.key_position.specs.Positions.{keys_before, position_of};

use slot::KeyPosition;
use store::Shape;
use store::image::get_entry;

// The first entries of a table: a shape's own are the first of its table, which others may share.
#[derive(Clone, Copy)]
pub struct FirstEntries {
    pub table: u32,
    pub count: u32,
}

impl FirstEntries {
    // A shape's own.
    pub fn of(s: Shape) -> FirstEntries
        ensures { result ≡ own s }
    {
        FirstEntries {
            table: s.table,
            count: s.properties,
        }
    }
}

// Where none of the entries has the key, all of them stand before it: the answer is their count, and no position.
fn keys_before(image: &[u32], first: FirstEntries, key: u32) -> KeyPosition
    requires formed { Formed image.now }
    requires there { AreThere (parse image.now) first }
    ensures { result.0 ≡ keys_before key (first_entries (parse image.now) first) }
{
    for at in 0..first.count {
        let e = get_entry(image, first.table, KeyPosition(at));
        if e.key == key {
            return KeyPosition(at);
        }
    }
    KeyPosition(first.count)
}

pub fn position_of(image: &[u32], first: FirstEntries, key: u32) -> Option<KeyPosition>
    requires formed { Formed image.now }
    requires there { AreThere (parse image.now) first }
    ensures { result ≡ position_of key (first_entries (parse image.now) first) }
{
    let at = keys_before(image, first, key);
    if at.0 == first.count {
        return None;
    }
    Some(at)
}

// For a key that is known to be held there is no other answer.
pub fn position_of_held(image: &[u32], first: FirstEntries, key: u32) -> KeyPosition
    requires formed { Formed image.now }
    requires there { AreThere (parse image.now) first }
    requires held { has key (first_entries (parse image.now) first) ≡ true }
    ensures { Some result ≡ position_of key (first_entries (parse image.now) first) }
{
    keys_before(image, first, key)
}
