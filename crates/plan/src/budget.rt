// What there is room for, and what new steps take of it.
ghost use Rattle.std.specs.Prelude.{◌≡◌, false, ◌&&◌, ◌≤◌, eqb, map};
ghost use Rattle.store.specs.Layout.{parse};
ghost use Rattle.store.specs.Image.{Formed};
ghost use Rattle.rules.specs.Placing.{step_in};
ghost use Rattle.rules.specs.Steps.{added};
ghost use Rattle.theorems.specs.Facts.{Used, Sound};
ghost use Rattle.plan.specs.Plan.{room_at, copies, whole_after, spent, spend, spend_all, converted};
ghost use Rattle.plan.specs.Answers.{spending_of};
ghost use Rattle.plan.specs.Budget.{Enough};

use crate::Room;
use rules::{Refusal, Step};
use store::image::{entry_count, free_edges, free_shapes, free_tables, get_shape, key_limit};

// With so many edges given back by prunes.
pub fn room_at(image: &[u32], place: u32, back: u32) -> Room
    requires formed { Formed image.now }
    requires sound { Sound (parse image.now) }
    requires used { Used (parse image.now) place }
    requires back_bound { back ≤ 65535 }
    ensures { result ≡ room_at (parse image.now) place back }
{
    let shape = get_shape(image, place);
    let entries = entry_count(image, shape.table);
    Room {
        keys: key_limit(image) - shape.properties,
        shapes: free_shapes(image),
        tables: free_tables(image),
        edges: free_edges(image) + back,
        whole: shape.properties == entries,
    }
}

fn added(step: Step) -> u32
    ensures { result ≡ added (step_in step) }
{
    match step {
        Step::Insert { .. } => 1,
        Step::Configure { .. } | Step::Prototype(_) => 0,
    }
}

// The new step needs a table of its own.
fn copies(whole: bool, step: Step) -> bool
    ensures { result ≡ copies whole (step_in step) }
{
    match step {
        Step::Insert { .. } => !whole,
        Step::Configure { .. } => true,
        Step::Prototype(_) => false,
    }
}

fn whole_after(whole: bool, step: Step) -> bool
    ensures { result ≡ whole_after whole (step_in step) }
{
    match step {
        Step::Insert { .. } => true,
        Step::Configure { .. } | Step::Prototype(_) => whole,
    }
}

fn tables_left(step: Step, room: Room) -> u32
    requires { (copies room.whole (step_in step) && eqb room.tables 0) ≡ false }
    ensures { result ≡ (spent (step_in step) room).tables }
{
    if copies(room.whole, step) {
        return room.tables - 1;
    }
    room.tables
}

fn spent(step: Step, room: Room) -> Room
    requires { Enough (step_in step) room }
    ensures { result ≡ spent (step_in step) room }
{
    Room {
        keys: room.keys - added(step),
        shapes: room.shapes - 1,
        tables: tables_left(step, room),
        edges: room.edges - 1,
        whole: whole_after(room.whole, step),
    }
}

// "the lowest that applies"
fn spend(step: Step, room: Room) -> Result<Room, Refusal>
    ensures { result ≡ spending_of (spend (step_in step) room) }
{
    if (added(step) == 1) & (room.keys == 0) {
        return Err(Refusal::KeysFull);
    }
    if room.shapes == 0 {
        return Err(Refusal::ShapesFull);
    }
    if copies(room.whole, step) & (room.tables == 0) {
        return Err(Refusal::TablesFull);
    }
    if room.edges == 0 {
        return Err(Refusal::EdgesFull);
    }
    Ok(spent(step, room))
}

// "in the first step that meets one"
pub fn spend_all(steps: &[Step], room: Room) -> Result<Room, Refusal>
    ensures { result ≡ spending_of (spend_all (map step_in steps.now) room) }
{
    let mut left = room;
    for step in steps {
        left = spend(*step, left)?;
    }
    Ok(left)
}

// Conversion to unique takes a shape and a table.
pub fn converted(limit: bool, room: Room) -> Result<Room, Refusal>
    ensures { result ≡ spending_of (converted limit room) }
{
    if limit {
        if room.shapes == 0 {
            return Err(Refusal::ShapesFull);
        }
        if room.tables == 0 {
            return Err(Refusal::TablesFull);
        }
    }
    Ok(room)
}
