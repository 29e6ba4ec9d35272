// One record's words, read and written: the order of the fields is said here and nowhere else.
ghost use Rattle.std.specs.Prelude.{◌≡◌, ◌+◌, ◌≤◌, ◌<◌, length};
ghost use Rattle.store.specs.Spots.{spot};
ghost use Rattle.store.specs.Tables.{edited};
ghost use Rattle.store.specs.Layout.{shape_words, read_shape, entry_words, read_entry, edge_words, read_edge};

use crate::rows::row_at;
use crate::{Counters, Edge, Entry, Shape};
use slot::{KeyPosition, SlotIndex};

pub fn read_shape(words: &[u32]) -> Shape
    requires { length words.now ≡ 10 }
    ensures { result ≡ read_shape words.now }
{
    Shape {
        state: words[0],
        holds: words[1],
        previous: words[2],
        step: words[3],
        transitions: words[4],
        properties: words[5],
        prototype: words[6],
        table: words[7],
        counters: Counters {
            property: words[8],
            prototype: words[9],
        },
    }
}

pub fn write_shape(words: &mut [u32], s: Shape)
    requires { length words.old ≡ 10 }
    ensures { words.new ≡ shape_words s }
{
    words[0] = s.state;
    words[1] = s.holds;
    words[2] = s.previous;
    words[3] = s.step;
    words[4] = s.transitions;
    words[5] = s.properties;
    words[6] = s.prototype;
    words[7] = s.table;
    words[8] = s.counters.property;
    words[9] = s.counters.prototype;
}

pub fn read_entry(words: &[u32]) -> Entry
    requires { length words.now ≡ 3 }
    ensures { result ≡ read_entry words.now }
{
    Entry {
        key: words[0],
        attributes: words[1],
        slot: SlotIndex(words[2]),
    }
}

pub fn write_entry(words: &mut [u32], e: Entry)
    requires { length words.old ≡ 3 }
    ensures { words.new ≡ entry_words e }
{
    words[0] = e.key;
    words[1] = e.attributes;
    words[2] = e.slot.0;
}

pub fn read_edge(words: &[u32]) -> Edge
    requires { length words.now ≡ 5 }
    ensures { result ≡ read_edge words.now }
{
    Edge {
        parent: words[0],
        kind: words[1],
        label: words[2],
        attributes: words[3],
        child: words[4],
    }
}

pub fn write_edge(words: &mut [u32], e: Edge)
    requires { length words.old ≡ 5 }
    ensures { words.new ≡ edge_words e }
{
    words[0] = e.parent;
    words[1] = e.kind;
    words[2] = e.label;
    words[3] = e.attributes;
    words[4] = e.child;
}

// A table's words with another entry at a position and another count.
pub fn edit_table(table: &mut [u32], position: KeyPosition, e: Entry, count: u32)
    requires position_bound { position.0 < 2048 }
    requires position_in_bounds { spot 1 3 (position.0 + 1) + 3 ≤ length table.old }
    ensures { table.new ≡ edited table.old position.0 e count }
{
    let at = row_at(table, 1, 3, position.0 + 1);
    let end = at + 3;
    write_entry(&mut table[at..end], e);
    table[0] = count;
}
