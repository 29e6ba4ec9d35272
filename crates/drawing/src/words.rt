// The smallest parts of the text: keys and attributes.
ghost use Rattle.std.specs.Prelude.{◌≡◌, ◌≤◌};
ghost use Rattle.slot.specs.Attributes.{most_stored};
ghost use Rattle.lines.specs.Pages.{room, Adds};
ghost use Rattle.drawing.specs.Graph.{key_text, letter_if, attributes_text};

use lines::page::Page;
use slot::SlotAttributes;

const IDS: u32 = 1 << 30;

pub fn write_key(page: &mut Page<'_>, key: u32)
    requires { 17 ≤ room page.old }
    ensures { Adds page.old page.new (key_text key) 17 }
{
    let id = key % IDS;
    match key / IDS {
        0 => page.write_number(id),
        1 => page.write_numbered(b"symbol ", id),
        _ => page.write_numbered(b"index ", id),
    }
}

fn letter_if(present: bool, letter: u8) -> u8
    ensures { result ≡ letter_if present letter }
{
    if present { letter } else { b'-' }
}

pub fn write_attributes(page: &mut Page<'_>, attributes: u32)
    requires attributes_le_most_stored { attributes ≤ most_stored }
    requires room { 5 ≤ room page.old }
    ensures { Adds page.old page.new (attributes_text attributes) 5 }
{
    let stored = SlotAttributes(attributes as u8);
    page.write_word(&[
        letter_if(stored.is_writable(), b'w'),
        letter_if(stored.is_enumerable(), b'e'),
        letter_if(stored.is_configurable(), b'c'),
        letter_if(stored.has_get(), b'g'),
        letter_if(stored.has_set(), b's'),
    ]);
}
