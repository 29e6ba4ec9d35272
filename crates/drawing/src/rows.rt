// The rows of a shape's keys. A row is a storage place.
ghost use Rattle.std.specs.Prelude.{◌+◌, ◌*◌, ◌≤◌, ◌<◌, ◌^◌, length};
ghost use Rattle.slot.specs.Attributes.{most_stored};
ghost use Rattle.store.specs.Layout.{parse};
ghost use Rattle.store.specs.Image.{Formed};
ghost use Rattle.property_table.specs.Copies.{entries_in};
ghost use Rattle.key_position.specs.First.{first_entries, AreThere};
ghost use Rattle.property_table.specs.Slotted.{Slotted};
ghost use Rattle.lines.specs.Pages.{room, Adds};
ghost use Rattle.drawing.specs.Graph.{key_row, row_text, rows_text};

use crate::words::{write_attributes, write_key};
use key_position::FirstEntries;
use lines::page::Page;
use slot::{KeyPosition, SlotAttributes};
use store::Entry;
use store::image::get_entry;

fn write_key_row(page: &mut Page<'_>, e: Entry, cell: &[u8], what: &[u8])
    requires attributes_le_most_stored { e.attributes ≤ most_stored }
    requires cell_len_bound { length cell.now ≤ 21 }
    requires what_len_bound { length what.now ≤ 25 }
    requires room { 107 ≤ room page.old }
    ensures { Adds page.old page.new (key_row cell.now what.now e) 107 }
{
    let place = e.slot;
    page.write_numbered(b"<tr><td>", place.0);
    page.write_word(cell);
    write_key(page, e.key);
    page.write_word(cell);
    write_attributes(page, e.attributes);
    page.write_word(what);
}

fn write_row(page: &mut Page<'_>, e: Entry)
    requires attributes_le_most_stored { e.attributes ≤ most_stored }
    requires slot_bound { e.slot.0 + 1 < 2 ^ 32 }
    requires room { 150 ≤ room page.old }
    ensures { Adds page.old page.new (row_text e) 150 }
{
    if !SlotAttributes(e.attributes as u8).is_accessor_descriptor() {
        write_key_row(page, e, b"</td><td>", b"</td><td>value</td></tr>\n");
        return;
    }
    write_key_row(
        page,
        e,
        b"</td><td rowspan=\"2\">",
        b"</td><td>get</td></tr>\n",
    );
    let place = e.slot;
    let second = place.after(1);
    page.write_numbered(b"<tr><td>", second.0);
    page.write_word(b"</td><td>set</td></tr>\n");
}

pub fn write_rows(page: &mut Page<'_>, image: &[u32], first: FirstEntries)
    requires formed { Formed image.now }
    requires there { AreThere (parse image.now) first }
    requires slotted { Slotted (entries_in image.now first.table) }
    requires room { 150 * first.count ≤ room page.old }
    ensures { Adds page.old page.new
        (rows_text (first_entries (parse image.now) first)) (150 * first.count) }
{
    for position in 0..first.count {
        write_row(page, get_entry(image, first.table, KeyPosition(position)));
    }
}
