// Shared shapes: each change is a list of steps, planned before a word is written; and the limit.
#![tactic(auto)]

ghost use Rattle.std.specs.Prelude.{◌≡◌, true, false, ◌≤◌, ◌<◌, map};
ghost use Rattle.slot.specs.Attributes.{most_stored, same_width};
ghost use Rattle.store.specs.Layout.{parse};
ghost use Rattle.store.specs.Image.{Formed};
ghost use Rattle.rules.specs.Numbers.{good_key};
ghost use Rattle.rules.specs.Shapes.{has, attributes_in};
ghost use Rattle.rules.specs.Steps.{insert, prototype, step, steps, limited, then_limit, remove_shared};
ghost use Rattle.rules.specs.Steps.{change_shared};
ghost use Rattle.rules.specs.Placing.{step_in, Places};
ghost use Rattle.theorems.specs.Facts.{Sound};
ghost use Rattle.theorems.specs.Child.{Legal};
ghost use Rattle.theorems.specs.Made.{SharedAt, entries_at, transitions_at};
ghost use Rattle.plan.specs.PlanRight.{LegalSteps};

use fresh::to_unique;
use plan::plan_limited;
use property_table::find_held;
use rollback::{change_steps, removal_steps};
use rules::{Refusal, Step};
use shared_step::take_steps;
use slot::SlotAttributes;
use store::image::get_shape;

const MOST_TRANSITIONS: u32 = 1024;

// What stands in the room before steps do: of zeros alone, which memory is filled with fastest.
const NO_STEP: Step = Step::Insert {
    key: 0,
    attributes: 0,
};

// "If the final result has 1,024 transitions, a new unique shape copies its keys and prototype".
fn limited(image: &mut [u32], n: u32) -> Result<u32, Refusal>
    requires formed { Formed image.old }
    requires sound { Sound (parse image.old) }
    requires shared_at { SharedAt (parse image.old) n }
    ensures { Places image.old image.new
        (limited (parse image.old, n)) result }
{
    let s = get_shape(image, n);
    if s.transitions == MOST_TRANSITIONS {
        return to_unique(image, n);
    }
    Ok(n)
}

// A refusal is found before anything is written.
fn transition(image: &mut [u32], from: u32, list: &[Step]) -> Result<u32, Refusal>
    requires formed { Formed image.old }
    requires sound { Sound (parse image.old) }
    requires shared_at { SharedAt (parse image.old) from }
    requires legal_steps { LegalSteps (map step_in list.now) (parse image.old) from }
    ensures { Places image.old image.new
        (then_limit (steps (map step_in list.now) (parse image.old) from)) result }
{
    let way = plan_limited(image, from, list)?;
    let n = take_steps(image, way.place, &list[way.found..]);
    limited(image, n)
}

fn one_step(image: &mut [u32], n: u32, t: Step) -> Result<u32, Refusal>
    requires formed { Formed image.old }
    requires sound { Sound (parse image.old) }
    requires legal { Legal (parse image.old) n (step_in t) }
    ensures { Places image.old image.new
        (then_limit (step (parse image.old) n (step_in t))) result }
{
    transition(image, n, &[t])
}

pub fn insert_property_transition(
    image: &mut [u32],
    n: u32,
    key: u32,
    attributes: SlotAttributes,
) -> Result<u32, Refusal>
    requires formed { Formed image.old }
    requires sound { Sound (parse image.old) }
    requires legal { Legal (parse image.old) n (insert key attributes.0) }
    ensures { Places image.old image.new
        (then_limit (step (parse image.old) n (insert key attributes.0))) result }
{
    let attributes = attributes.0 as u32;
    one_step(image, n, Step::Insert { key, attributes })
}

// A step is made though the prototype is unchanged.
pub fn change_prototype_transition(image: &mut [u32], n: u32, to: u32) -> Result<u32, Refusal>
    requires formed { Formed image.old }
    requires sound { Sound (parse image.old) }
    requires legal { Legal (parse image.old) n (prototype to) }
    ensures { Places image.old image.new
        (then_limit (step (parse image.old) n (prototype to))) result }
{
    one_step(image, n, Step::Prototype(to))
}

// There is room for as many steps as a shared shape can have transitions.
pub fn remove_property_transition(image: &mut [u32], n: u32, key: u32) -> Result<u32, Refusal>
    requires formed { Formed image.old }
    requires sound { Sound (parse image.old) }
    requires shared_at { SharedAt (parse image.old) n }
    requires n_value { has key (entries_at (parse image.old) n) ≡ true }
    ensures { Places image.old image.new
        (then_limit (remove_shared (parse image.old) n key)) result }
{
    let mut room = [NO_STEP; 1024];
    let replay = removal_steps(image, n, key, &mut room);
    transition(image, replay.base, &room[replay.start..])
}

fn change_width(
    image: &mut [u32],
    n: u32,
    key: u32,
    attributes: SlotAttributes,
) -> Result<u32, Refusal>
    requires formed { Formed image.old }
    requires sound { Sound (parse image.old) }
    requires shared_at { SharedAt (parse image.old) n }
    requires n_value { has key (entries_at (parse image.old) n) ≡ true }
    requires attributes_le_most_stored { attributes.0 ≤ most_stored }
    requires attributes_value { same_width (attributes_in key (entries_at (parse image.old) n)) attributes.0 ≡ false }
    ensures { Places image.old image.new
        (then_limit (change_shared (parse image.old) n key attributes.0)) result }
{
    let mut room = [NO_STEP; 1024];
    let replay = change_steps(image, n, key, attributes, &mut room);
    transition(image, replay.base, &room[replay.start..])
}

fn width_stays(image: &[u32], n: u32, key: u32, attributes: SlotAttributes) -> bool
    requires formed { Formed image.now }
    requires sound { Sound (parse image.now) }
    requires shared_at { SharedAt (parse image.now) n }
    requires n_value { has key (entries_at (parse image.now) n) ≡ true }
    ensures { result ≡ same_width (attributes_in key (entries_at (parse image.now) n)) attributes.0 }
{
    let property = find_held(image, n, key);
    let slot = property.slot;
    slot.attributes.width_match(attributes)
}

pub fn change_attributes_transition(
    image: &mut [u32],
    n: u32,
    key: u32,
    attributes: SlotAttributes,
) -> Result<u32, Refusal>
    requires formed { Formed image.old }
    requires sound { Sound (parse image.old) }
    requires shared_at { SharedAt (parse image.old) n }
    requires n_bound { transitions_at (parse image.old) n < 1024 }
    requires n_value { has key (entries_at (parse image.old) n) ≡ true }
    requires key_value { good_key key ≡ true }
    requires attributes_le_most_stored { attributes.0 ≤ most_stored }
    ensures { Places image.old image.new
        (then_limit (change_shared (parse image.old) n key attributes.0)) result }
{
    if !width_stays(image, n, key, attributes) {
        return change_width(image, n, key, attributes);
    }
    let attributes = attributes.0 as u32;
    one_step(image, n, Step::Configure { key, attributes })
}
