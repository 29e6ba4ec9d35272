// The table of the child that a step makes of a shared shape.
#![tactic(auto)]

ghost use Rattle.std.specs.Prelude.{Ok};
ghost use Rattle.store.specs.Layout.{parse};
ghost use Rattle.store.specs.Image.{Formed};
ghost use Rattle.rules.specs.Steps.{insert, configure, child_table};
ghost use Rattle.rules.specs.Placing.{step_in, Places, Passes};
ghost use Rattle.child_table.specs.Parents.{Parent};

use key_position::{FirstEntries, position_of_held};
use property_table::{append, copy_changed, copy_entries};
use rules::Step;
use slot::SlotAttributes;
use store::Shape;
use store::image::{entry_count, lowest_free_table};

// Other shapes may have entries of their own past the parent's: then a table of its own is needed.
fn insert_table(image: &mut [u32], s: Shape, key: u32, attributes: u32) -> u32
    requires formed { Formed image.old }
    requires parent { Parent (parse image.old) s (insert key attributes) }
    requires passes { Passes (child_table (parse image.old) s (insert key attributes)) }
    ensures { Places image.old image.new
        (child_table (parse image.old) s (insert key attributes)) (Ok result) }
{
    let from = s.table;
    if s.properties == entry_count(image, from) {
        append(image, from, key, SlotAttributes(attributes as u8));
        return from;
    }
    let table = lowest_free_table(image);
    copy_entries(image, from, table, s.properties);
    append(image, table, key, SlotAttributes(attributes as u8));
    table
}

// A shape whose step may be taken holds the key.
fn configure_table(image: &mut [u32], s: Shape, key: u32, attributes: u32) -> u32
    requires formed { Formed image.old }
    requires parent { Parent (parse image.old) s (configure key attributes) }
    requires passes { Passes (child_table (parse image.old) s (configure key attributes)) }
    ensures { Places image.old image.new
        (child_table (parse image.old) s (configure key attributes)) (Ok result) }
{
    let from = s.table;
    let position = position_of_held(image, FirstEntries::of(s), key);
    let table = lowest_free_table(image);
    let byte = SlotAttributes(attributes as u8);
    copy_changed(image, from, table, position, byte);
    table
}

pub fn child_table(image: &mut [u32], s: Shape, step: Step) -> u32
    requires formed { Formed image.old }
    requires parent { Parent (parse image.old) s (step_in step) }
    requires passes { Passes (child_table (parse image.old) s (step_in step)) }
    ensures { Places image.old image.new
        (child_table (parse image.old) s (step_in step)) (Ok result) }
{
    match step {
        Step::Insert { key, attributes } => insert_table(image, s, key, attributes),
        Step::Configure { key, attributes } => configure_table(image, s, key, attributes),
        Step::Prototype(_) => s.table,
    }
}
