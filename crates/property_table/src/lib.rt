// A table of properties in the lent image: keys in order, each with its slot.
#![tactic(auto)]

ghost use Rattle.std.specs.Prelude.{◌≡◌, true, false, ◌++◌, ◌+◌, ◌-◌, ◌≤◌, ◌<◌, length, take, drop, Some};
ghost use Rattle.slot.specs.Attributes.{most_stored};
ghost use Rattle.store.specs.Model.{shape_at, table_at, put_table, free_table, free, used};
ghost use Rattle.store.specs.Layout.{parse};
ghost use Rattle.store.specs.Image.{Formed, Place, Becomes};
ghost use Rattle.rules.specs.Shapes.{has, entries, appended, configured, without, laid};
ghost use Rattle.rules.specs.Sound.{distinct};
ghost use Rattle.rules.specs.Sweep.{key_list};
ghost use Rattle.theorems.specs.Facts.{Used, Sound};
ghost use Rattle.theorems.specs.Entries.{keys};
ghost use Rattle.key_position.specs.First.{first_entries, AreThere};
ghost use Rattle.property_table.specs.Slotted.{Slotted, slot_in, slot_before};
ghost use Rattle.property_table.specs.Lookup.{property_at, looked_up};
ghost use Rattle.property_table.specs.Copies.{entries_in, Apart, Copyable, copied};
ghost use Rattle.property_table.specs.OneKey.{key_at};
ghost use Rattle.property_table.specs.KeyLists.{listed, one_listed, written};

use key_position::{FirstEntries, position_of, position_of_held};
use slot::{KeyPosition, Slot, SlotAttributes};
use store::Entry;
use store::image::{append_entry, entry_count, get_entry, get_shape, set_entry, start_table};

// Where a key stands, and where its value is stored: positions and slots are counted apart.
#[derive(Clone, Copy)]
pub struct Property {
    pub position: KeyPosition,
    pub slot: Slot,
}

// A stored value fits the attribute byte.
fn slot_in(e: Entry) -> Slot
    requires { e.attributes ≤ most_stored }
    ensures { result ≡ slot_in e }
{
    Slot {
        index: e.slot,
        attributes: SlotAttributes(e.attributes as u8),
    }
}

fn property_at(image: &[u32], table: u32, position: KeyPosition) -> Property
    requires formed { Formed image.now }
    requires place { Place (length (parse image.now).tables) table }
    requires position_in_bounds { position.0 < length (entries_in image.now table) }
    requires slotted { Slotted (entries_in image.now table) }
    ensures { result ≡ property_at (entries_in image.now table) position }
{
    let slot = slot_in(get_entry(image, table, position));
    Property { position, slot }
}

pub fn lookup(image: &[u32], first: FirstEntries, key: u32) -> Option<Property>
    requires formed { Formed image.now }
    requires there { AreThere (parse image.now) first }
    requires slotted { Slotted (entries_in image.now first.table) }
    ensures { result ≡ looked_up key (first_entries (parse image.now) first) }
{
    let position = position_of(image, first, key)?;
    Some(property_at(image, first.table, position))
}

// The same among a shape's own entries.
pub fn find(image: &[u32], n: u32, key: u32) -> Option<Property>
    requires formed { Formed image.now }
    requires sound { Sound (parse image.now) }
    requires used { Used (parse image.now) n }
    ensures { result ≡ looked_up key (entries (parse image.now) (shape_at (parse image.now) n)) }
{
    let s = get_shape(image, n);
    lookup(image, FirstEntries::of(s), key)
}

// For a key that the shape is known to hold.
pub fn find_held(image: &[u32], n: u32, key: u32) -> Property
    requires formed { Formed image.now }
    requires sound { Sound (parse image.now) }
    requires used { Used (parse image.now) n }
    requires n_value { has key (entries (parse image.now) (shape_at (parse image.now) n)) ≡ true }
    ensures { Some result ≡ looked_up key (entries (parse image.now) (shape_at (parse image.now) n)) }
{
    let s = get_shape(image, n);
    let position = position_of_held(image, FirstEntries::of(s), key);
    property_at(image, s.table, position)
}

fn last_slot(image: &[u32], table: u32) -> Option<Slot>
    requires formed { Formed image.now }
    requires place { Place (length (parse image.now).tables) table }
    requires slotted { Slotted (entries_in image.now table) }
    ensures { result ≡ slot_before (length (entries_in image.now table)) (entries_in image.now table) }
{
    let count = entry_count(image, table);
    if count == 0 {
        return None;
    }
    let e = get_entry(image, table, KeyPosition(count - 1));
    Some(slot_in(e))
}

// Slots differ in width: the new one begins where the last one ends, however many keys there are.
pub fn append(image: &mut [u32], table: u32, key: u32, attributes: SlotAttributes)
    requires formed { Formed image.old }
    requires place { Place (length (parse image.old).tables) table }
    requires table_value { free_table (table_at (parse image.old) table) ≡ false }
    requires table_len_bound { length (entries_in image.old table) < (parse image.old).K }
    requires slotted { Slotted (entries_in image.old table) }
    ensures { Becomes image.old image.new
        (put_table (parse image.old) table
        (used (appended (entries_in image.old table) key attributes.0))) }
{
    let slot = Slot::from_previous(last_slot(image, table), attributes);
    append_entry(
        image,
        table,
        Entry {
            key,
            attributes: attributes.0 as u32,
            slot: slot.index,
        },
    );
}

pub fn append_entries(image: &mut [u32], from: u32, to: u32, start: KeyPosition, end: KeyPosition)
    requires formed { Formed image.old }
    requires copyable { Copyable (parse image.old) from to start.0 end.0 }
    ensures { Becomes image.old image.new
        (copied (parse image.old) from to start.0 end.0) }
{
    for position in start.0..end.0 {
        let e = get_entry(image, from, KeyPosition(position));
        append(image, to, e.key, SlotAttributes(e.attributes as u8));
    }
}

pub fn copy_entries(image: &mut [u32], from: u32, to: u32, count: u32)
    requires formed { Formed image.old }
    requires apart { Apart (parse image.old) from to }
    requires to_value { table_at (parse image.old) to ≡ free }
    requires count_in_bounds { count ≤ length (entries_in image.old from) }
    ensures { Becomes image.old image.new
        (put_table (parse image.old) to
        (used (take count (entries_in image.old from)))) }
{
    start_table(image, to);
    append_entries(image, from, to, KeyPosition(0), KeyPosition(count));
}

pub fn copy_without(image: &mut [u32], from: u32, to: u32, position: KeyPosition)
    requires formed { Formed image.old }
    requires apart { Apart (parse image.old) from to }
    requires to_value { table_at (parse image.old) to ≡ free }
    requires position_in_bounds { position.0 < length (entries_in image.old from) }
    requires from_value { distinct (keys (entries_in image.old from)) ≡ true }
    ensures { Becomes image.old image.new
        (put_table (parse image.old) to
        (used (laid 0 (without (entries_in image.old from)
        (key_at (entries_in image.old from) position.0))))) }
{
    let count = entry_count(image, from);
    copy_entries(image, from, to, position.0);
    append_entries(
        image,
        from,
        to,
        KeyPosition(position.0 + 1),
        KeyPosition(count),
    );
}

pub fn copy_changed(
    image: &mut [u32],
    from: u32,
    to: u32,
    position: KeyPosition,
    attributes: SlotAttributes,
)
    requires formed { Formed image.old }
    requires apart { Apart (parse image.old) from to }
    requires to_value { table_at (parse image.old) to ≡ free }
    requires position_in_bounds { position.0 < length (entries_in image.old from) }
    requires from_value { distinct (keys (entries_in image.old from)) ≡ true }
    requires attributes_le_most_stored { attributes.0 ≤ most_stored }
    ensures { Becomes image.old image.new
        (put_table (parse image.old) to
        (used (laid 0 (configured (entries_in image.old from)
        (key_at (entries_in image.old from) position.0) attributes.0)))) }
{
    let all = entry_count(image, from);
    let e = get_entry(image, from, position);
    copy_entries(image, from, to, position.0);
    append(image, to, e.key, attributes);
    let next = KeyPosition(position.0 + 1);
    append_entries(image, from, to, next, KeyPosition(all));
}

pub fn set_attributes_at_index(
    image: &mut [u32],
    table: u32,
    position: KeyPosition,
    attributes: SlotAttributes,
)
    requires formed { Formed image.old }
    requires place { Place (length (parse image.old).tables) table }
    requires position_in_bounds { position.0 < length (entries_in image.old table) }
    requires table_value { distinct (keys (entries_in image.old table)) ≡ true }
    ensures { Becomes image.old image.new
        (put_table (parse image.old) table
        (used (configured (entries_in image.old table)
        (key_at (entries_in image.old table) position.0) attributes.0))) }
{
    let e = get_entry(image, table, position);
    set_entry(
        image,
        table,
        position,
        Entry {
            key: e.key,
            attributes: attributes.0 as u32,
            slot: e.slot,
        },
    );
}

const STRINGS: u32 = 0;

const SYMBOLS: u32 = 1;

const IDS: u32 = 1 << 30;

fn count_kind(image: &[u32], first: FirstEntries, kind: u32) -> u32
    requires formed { Formed image.now }
    requires there { AreThere (parse image.now) first }
    ensures { result ≡ length (listed kind (first_entries (parse image.now) first)) }
{
    let mut n = 0;
    for position in 0..first.count {
        let e = get_entry(image, first.table, KeyPosition(position));
        n += u32::from(e.key / IDS == kind);
    }
    n
}

pub fn key_count(image: &[u32], first: FirstEntries) -> u32
    requires formed { Formed image.now }
    requires there { AreThere (parse image.now) first }
    ensures { result ≡ length (key_list (first_entries (parse image.now) first)) }
{
    count_kind(image, first, STRINGS) + count_kind(image, first, SYMBOLS)
}

// Writes the key if it is of that kind, and answers where the next one goes.
fn write_key(key: u32, kind: u32, out: &mut [u32], at: usize) -> usize
    requires { at + length (one_listed kind key) ≤ length out.old }
    ensures value { result ≡ at + length (one_listed kind key) }
    ensures out_after { out.new ≡ written out.old at (one_listed kind key) }
{
    if key / IDS != kind {
        return at;
    }
    out[at] = key;
    at + 1
}

// Where the list ends is all that is passed on: a struct over a lent slice would serve these two functions alone.
fn write_kind(image: &[u32], first: FirstEntries, kind: u32, out: &mut [u32], at: usize) -> usize
    requires formed { Formed image.now }
    requires there { AreThere (parse image.now) first }
    requires room { at + length (listed kind (first_entries (parse image.now) first)) ≤ length out.old }
    ensures value { result ≡ at + length (listed kind (first_entries (parse image.now) first)) }
    ensures out_after { out.new
        ≡ written out.old at (listed kind (first_entries (parse image.now) first)) }
{
    let mut end = at;
    for position in 0..first.count {
        let e = get_entry(image, first.table, KeyPosition(position));
        end = write_key(e.key, kind, out, end);
    }
    end
}

// Strings in order, then symbols in order, at the front of `out`.
pub fn keys(image: &[u32], first: FirstEntries, out: &mut [u32]) -> u32
    requires formed { Formed image.now }
    requires there { AreThere (parse image.now) first }
    requires room { length (key_list (first_entries (parse image.now) first)) ≤ length out.old }
    ensures value { result ≡ length (key_list (first_entries (parse image.now) first)) }
    ensures out_after { out.new
        ≡ key_list (first_entries (parse image.now) first)
        ++ drop (length (key_list (first_entries (parse image.now) first))) out.old }
{
    let strings = write_kind(image, first, STRINGS, out, 0);
    write_kind(image, first, SYMBOLS, out, strings) as u32
}
