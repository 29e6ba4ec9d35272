// A unique shape has a table of its own. Inserts and changes that move no slot are made in it; for all else a
// new shape takes its place.
#![tactic(auto, using(crate::specs::OwnTable::unique_facts))]

ghost use Rattle.std.specs.Prelude.{◌≡◌, true, ◌≤◌, length};
ghost use Rattle.slot.specs.Attributes.{most_stored};
ghost use Rattle.store.specs.Model.{table_at, shape_at, put_shape, put_table, free, used};
ghost use Rattle.store.specs.Layout.{parse};
ghost use Rattle.store.specs.Image.{Formed, Becomes};
ghost use Rattle.rules.specs.Shapes.{has, entries, unique, unique_shape};
ghost use Rattle.rules.specs.Unique.{emptied, replaced, insert_unique, remove_unique, change_unique};
ghost use Rattle.rules.specs.Unique.{prototype_unique};
ghost use Rattle.rules.specs.Sound.{distinct};
ghost use Rattle.rules.specs.Placing.{Places};
ghost use Rattle.theorems.specs.Entries.{keys};
ghost use Rattle.theorems.specs.Facts.{Sound};
ghost use Rattle.property_table.specs.Copies.{entries_in, Apart};
ghost use Rattle.unique_shape.specs.Replacing.{keys_copied, CanCopy, InPlace};

use fresh::{FreePlaces, free_places, put_unique};
use property_table::{
    Property, append, copy_changed, copy_entries, copy_without, find, find_held,
    set_attributes_at_index,
};
use rules::Refusal;
use slot::{KeyPosition, SlotAttributes};
use store::image::{empty_table, entry_count, get_shape, key_limit, put_shape};

#[derive(Clone, Copy)]
struct ChangedKey {
    pub position: KeyPosition,
    pub attributes: SlotAttributes,
}

// What the new shape takes of the old one's keys.
#[derive(Clone, Copy)]
enum KeyCopy {
    All,
    Without(KeyPosition),
    Changed(ChangedKey),
}

fn copy_keys(image: &mut [u32], from: u32, to: u32, how: KeyCopy)
    requires formed { Formed image.old }
    requires apart { Apart (parse image.old) from to }
    requires to_value { table_at (parse image.old) to ≡ free }
    requires from_value { distinct (keys (entries_in image.old from)) ≡ true }
    requires can_copy { CanCopy how (entries_in image.old from) }
    ensures { Becomes image.old image.new
        (put_table (parse image.old) to
        (used (keys_copied how (entries_in image.old from)))) }
{
    match how {
        KeyCopy::All => {
            let count = entry_count(image, from);
            copy_entries(image, from, to, count);
        }
        KeyCopy::Without(position) => {
            copy_without(image, from, to, position);
        }
        KeyCopy::Changed(key) => {
            copy_changed(image, from, to, key.position, key.attributes);
        }
    }
}

// The old shape keeps its number and its table's place. The new one's keys are in its table already.
fn hand_over(image: &mut [u32], n: u32, kept: u32, new: FreePlaces, prototype: u32)
    requires formed { Formed image.old }
    requires in_place { InPlace (parse image.old) n new }
    ensures { Becomes image.old image.new
        (put_shape (emptied (parse image.old) n kept) new.shape
        (unique_shape 0 (length (entries_in image.old new.table)) prototype new.table)) }
{
    let old = get_shape(image, n);
    let count = entry_count(image, new.table);
    empty_table(image, old.table);
    put_unique(image, n, old.holds, 0, kept, old.table);
    put_unique(image, new.shape, 0, count, prototype, new.table);
}

// All that can be refused is asked before a word is written, and the keys are copied before the old table is
// emptied. Its place is not free, before or after, so that the same free places are found.
fn replace(
    image: &mut [u32],
    n: u32,
    kept: u32,
    prototype: u32,
    how: KeyCopy,
) -> Result<u32, Refusal>
    requires formed { Formed image.old }
    requires sound { Sound (parse image.old) }
    requires n_value { unique (shape_at (parse image.old) n) ≡ true }
    requires can_copy { CanCopy how (entries (parse image.old) (shape_at (parse image.old) n)) }
    ensures { Places image.old image.new
        (replaced (emptied (parse image.old) n kept) prototype
        (keys_copied how (entries (parse image.old) (shape_at (parse image.old) n)))) result }
{
    let new = free_places(image)?;
    let old = get_shape(image, n);
    copy_keys(image, old.table, new.table, how);
    hand_over(image, n, kept, new, prototype);
    Ok(new.shape)
}

#[tactic(auto, using(crate::specs::OwnTable::unique_facts), unfolding(rules::specs::Unique::insert_unique))]
pub fn insert_property_transition(
    image: &mut [u32],
    n: u32,
    key: u32,
    attributes: SlotAttributes,
) -> Result<u32, Refusal>
    requires formed { Formed image.old }
    requires sound { Sound (parse image.old) }
    requires n_value { unique (shape_at (parse image.old) n) ≡ true }
    ensures { Places image.old image.new
        (insert_unique (parse image.old) n key attributes.0) result }
{
    let mut s = get_shape(image, n);
    if s.properties == key_limit(image) {
        return Err(Refusal::KeysFull);
    }
    append(image, s.table, key, attributes);
    s.properties += 1;
    put_shape(image, n, s);
    Ok(n)
}

pub fn remove_property_transition(image: &mut [u32], n: u32, key: u32) -> Result<u32, Refusal>
    requires formed { Formed image.old }
    requires sound { Sound (parse image.old) }
    requires n_value { unique (shape_at (parse image.old) n) ≡ true }
    ensures { Places image.old image.new
        (remove_unique (parse image.old) n key) result }
{
    let s = get_shape(image, n);
    let Some(Property { position, .. }) = find(image, n, key) else {
        return Ok(n);
    };
    replace(image, n, 0, s.prototype, KeyCopy::Without(position))
}

pub fn change_attributes_transition(
    image: &mut [u32],
    n: u32,
    key: u32,
    attributes: SlotAttributes,
) -> Result<u32, Refusal>
    requires formed { Formed image.old }
    requires sound { Sound (parse image.old) }
    requires n_value { unique (shape_at (parse image.old) n) ≡ true }
    requires n_value_2 { has key (entries (parse image.old) (shape_at (parse image.old) n)) ≡ true }
    requires attributes_le_most_stored { attributes.0 ≤ most_stored }
    ensures { Places image.old image.new
        (change_unique (parse image.old) n key attributes.0) result }
{
    let s = get_shape(image, n);
    let Property { position, slot } = find_held(image, n, key);
    if slot.attributes.width_match(attributes) {
        set_attributes_at_index(image, s.table, position, attributes);
        return Ok(n);
    }
    replace(
        image,
        n,
        0,
        s.prototype,
        KeyCopy::Changed(ChangedKey {
            position,
            attributes,
        }),
    )
}

#[tactic(auto, using(crate::specs::OwnTable::unique_facts), unfolding(rules::specs::Unique::prototype_unique))]
pub fn change_prototype_transition(image: &mut [u32], n: u32, to: u32) -> Result<u32, Refusal>
    requires formed { Formed image.old }
    requires sound { Sound (parse image.old) }
    requires n_value { unique (shape_at (parse image.old) n) ≡ true }
    ensures { Places image.old image.new
        (prototype_unique (parse image.old) n to) result }
{
    let s = get_shape(image, n);
    replace(image, n, s.prototype, to, KeyCopy::All)
}
