// The plan of a list of steps, found before a word is written: which refusal they meet.
#![tactic(auto)]

ghost use Rattle.std.specs.Prelude.{◌≡◌, true, ◌+◌, ◌≤◌, eqb, length, map, IfOk};
ghost use Rattle.store.specs.Model.{shape_at};
ghost use Rattle.store.specs.Layout.{parse};
ghost use Rattle.store.specs.Image.{Formed};
ghost use Rattle.rules.specs.Shapes.{shared};
ghost use Rattle.theorems.specs.Facts.{Used, Sound};
ghost use Rattle.rules.specs.Placing.{step_in};
ghost use Rattle.plan.specs.Plan.{follow, plan_limited};
ghost use Rattle.plan.specs.Answers.{new_steps, spending_of, planned_of};

use crate::along::{first_gives, follow};
use crate::budget::{converted, room_at, spend_all};
use rules::{Refusal, Step};
use store::image::get_shape;

mod along;
mod budget;

// How many steps have a live edge, one after the other, and where they end.
#[derive(Clone, Copy)]
pub struct Way {
    pub found: usize,
    pub place: u32,
}

// What the steps from a shape may use up.
#[derive(Clone, Copy)]
pub struct Room {
    // K less the shape's keys
    pub keys: u32,
    pub shapes: u32,
    pub tables: u32,
    pub edges: u32,
    // the shape's table has no entries but the shape's own, so that it lacks each key that the shape
    // lacks: an insert appends to it
    pub whole: bool,
}

// None of the steps has a child yet.
fn plan_new(image: &[u32], place: u32, steps: &[Step]) -> Result<Room, Refusal>
    requires formed { Formed image.now }
    requires sound { Sound (parse image.now) }
    requires used { Used (parse image.now) place }
    ensures { result ≡ spending_of (new_steps (parse image.now) place (map step_in steps.now)) }
{
    let back = first_gives(image, place, steps);
    let room = room_at(image, place, back);
    spend_all(steps, room)
}

// "If the final result has 1,024 transitions"
fn at_limit(image: &[u32], from: u32, count: usize) -> bool
    requires formed { Formed image.now }
    requires sound { Sound (parse image.now) }
    requires used { Used (parse image.now) from }
    ensures { result ≡ eqb ((shape_at (parse image.now) from).transitions + count) 1024 }
{
    let shape = get_shape(image, from);
    count == 1024 - shape.transitions as usize
}

// Where there is no refusal: how far the steps get along live edges.
pub fn plan_limited(image: &[u32], from: u32, steps: &[Step]) -> Result<Way, Refusal>
    requires formed { Formed image.now }
    requires sound { Sound (parse image.now) }
    requires from_value { shared (shape_at (parse image.now) from) ≡ true }
    ensures planned { result ≡ planned_of
        (plan_limited (parse image.now) from (map step_in steps.now))
        (follow (map step_in steps.now) (parse image.now) from) }
    ensures inside { IfOk result (λ way. way.found ≤ length steps.now) }
{
    let way = follow(image, from, steps);
    let limit = at_limit(image, from, steps.len());
    // What is free is not counted where nothing is made.
    if (way.found == steps.len()) & !limit {
        return Ok(way);
    }
    let room = plan_new(image, way.place, &steps[way.found..])?;
    converted(limit, room)?;
    Ok(way)
}
