// Whether each table has distinct good keys, attributes up to 31, and each slot index equal to the
// sum of the widths before it.
ghost use Rattle.std.specs.Prelude.{◌≡◌, Bool, ◌&&◌, ◌≤◌, eqb, length, take};
ghost use Rattle.slot.specs.Attributes.{most_stored, width};
ghost use Rattle.store.specs.Model.{table_at, entries_of};
ghost use Rattle.store.specs.Layout.{parse};
ghost use Rattle.store.specs.Image.{Formed, Place};
ghost use Rattle.rules.specs.Sound.{good_entries, tables_good};
ghost use Rattle.sound_tables.specs.Good.{good_entry, entries_right, keys_of, Roomy};

use distinct::first_are_distinct;
use rules::good_key;
use slot::{KeyPosition, SlotAttributes, SlotIndex};
use store::Entry;
use store::image::{entry_count, get_entry, table_count};

// Whether an entry is good and its slot index the sum of the widths before it.
fn entry_right(e: Entry, next: SlotIndex) -> bool
    ensures { result ≡ (good_entry e && eqb e.slot.0 next.0) }
{
    good_key(e.key) & (e.attributes <= SlotAttributes::MOST_STORED) & (e.slot.0 == next.0)
}

fn entry_width(e: Entry) -> u32
    requires { e.attributes ≤ most_stored }
    ensures { result ≡ width e.attributes }
{
    SlotAttributes(e.attributes as u8).width()
}

// A table's words are read once: its keys are written to `codes` for the test that they are distinct.
// A width is at most 2, so that the sum of a table's widths is small, whatever its slot words are.
fn entries_right(image: &[u32], t: u32, codes: &mut [u64]) -> bool
    requires formed { Formed image.now }
    requires place { Place (length (parse image.now).tables) t }
    requires image_in_bounds { (parse image.now).K ≤ length codes.old }
    ensures value { result ≡ entries_right (entries_of (table_at (parse image.now) t)) }
    ensures codes_after { result ≡ Bool.true
        → take (length (entries_of (table_at (parse image.now) t))) codes.new
        ≡ keys_of (entries_of (table_at (parse image.now) t)) }
{
    let mut next = SlotIndex(0);
    for at in 0..entry_count(image, t) {
        let e = get_entry(image, t, KeyPosition(at));
        if !entry_right(e, next) {
            return false;
        }
        codes[at as usize] = u64::from(e.key);
        next = next.after(entry_width(e));
    }
    true
}

fn table_good(image: &[u32], t: u32, codes: &mut [u64], room: &mut [u32]) -> bool
    requires formed { Formed image.now }
    requires place { Place (length (parse image.now).tables) t }
    requires roomy { Roomy (parse image.now) codes.old room.old }
    ensures { result ≡ good_entries (entries_of (table_at (parse image.now) t)) }
{
    if !entries_right(image, t, codes) {
        return false;
    }
    first_are_distinct(codes, entry_count(image, t) as usize, room)
}

pub fn tables_good(image: &[u32], codes: &mut [u64], room: &mut [u32]) -> bool
    requires formed { Formed image.now }
    requires roomy { Roomy (parse image.now) codes.old room.old }
    ensures { result ≡ tables_good (parse image.now) }
{
    for done in 0..table_count(image) {
        if !table_good(image, done + 1, codes, room) {
            return false;
        }
    }
    true
}
