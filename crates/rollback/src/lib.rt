// The walk back before a held key, and the steps that a removal and a change of width take from the base.
#![tactic(auto)]

ghost use Rattle.std.specs.Prelude.{◌≡◌, true, ◌∷◌, ◌++◌, ◌≤◌, length, drop, map};
ghost use Rattle.store.specs.Layout.{parse};
ghost use Rattle.std.specs.List.{list_any};
ghost use Rattle.store.specs.Image.{Formed};
ghost use Rattle.rules.specs.Shapes.{has};
ghost use Rattle.rules.specs.Placing.{step_in};
ghost use Rattle.rules.specs.Steps.{insert, edge_label, last_of, inserts, remember, same_key, yields, rollback};
ghost use Rattle.theorems.specs.Facts.{Sound};
ghost use Rattle.theorems.specs.Made.{SharedAt, entries_at};
ghost use Rattle.rollback.specs.StepsFrom.{StepsFrom};
ghost use Rattle.rules.specs.InUse.{Tabled};
ghost use Rattle.rollback.specs.WalkBack.{newest_of};

use rules::Step;
use slot::{KeyPosition, SlotAttributes};
use store::image::{get_entry, get_shape};
use store::{Entry, Shape, StepKind};

// What the walk back has found; the yielded keys stand in the lent steps from `start` on.
#[derive(Clone, Copy)]
struct Back {
    base: u32,
    newest: Option<u32>,
    start: usize,
}

// The base, and where in the lent room the steps to take from it begin.
#[derive(Clone, Copy)]
pub struct Replay {
    pub base: u32,
    pub start: usize,
}

fn last_entry(image: &[u32], s: Shape) -> Entry
    requires formed { Formed image.now }
    requires tabled { Tabled (parse image.now) s }
    ensures { result ≡ last_of (parse image.now) s }
{
    if s.properties == 0 {
        return Entry::default();
    }
    get_entry(image, s.table, KeyPosition(s.properties - 1))
}

// The shape was made by the insert step of the key.
fn inserts(image: &[u32], s: Shape, key: u32) -> bool
    requires formed { Formed image.now }
    requires tabled { Tabled (parse image.now) s }
    ensures { result ≡ inserts (parse image.now) key s }
{
    let e = last_entry(image, s);
    s.step == StepKind::INSERT && e.key == key
}

// The walk meets the newest first.
fn remember(s: Shape, newest: Option<u32>) -> Option<u32>
    ensures { newest_of result ≡ remember s (newest_of newest) }
{
    if let Some(_) = newest {
        return newest;
    }
    if s.step == StepKind::PROTOTYPE {
        return Some(s.prototype);
    }
    None
}

// The key, or the prototype.
fn label(step: Step) -> u32
    ensures { result ≡ edge_label (step_in step) }
{
    match step {
        Step::Insert { key, .. } | Step::Configure { key, .. } => key,
        Step::Prototype(to) => to,
    }
}

fn is_yielded(yielded: &[Step], key: u32) -> bool
    ensures { result ≡ list_any (λ step. same_key key (step_in step)) yielded.now }
{
    yielded.iter().any(|step| label(*step) == key)
}

// The slice fills from the end: a later step is met earlier.
fn push(steps: &mut [Step], start: usize, step: Step) -> usize
    requires le_start { 1 ≤ start }
    requires start_in_bounds { start ≤ length steps.old }
    ensures { StepsFrom steps.new result
        (step_in step ∷ drop start (map step_in steps.old)) }
{
    let at = start - 1;
    steps[at] = step;
    at
}

fn yield_last(image: &[u32], s: Shape, key: u32, steps: &mut [Step], start: usize) -> usize
    requires formed { Formed image.now }
    requires tabled { Tabled (parse image.now) s }
    requires le_start { 1 ≤ start }
    requires start_in_bounds { start ≤ length steps.old }
    ensures { StepsFrom steps.new result
        (yields (parse image.now) key s (drop start (map step_in steps.old))) }
{
    if s.step == StepKind::PROTOTYPE {
        return start;
    }
    let e = last_entry(image, s);
    if e.key == key {
        return start;
    }
    if is_yielded(&steps[start..], e.key) {
        return start;
    }
    push(
        steps,
        start,
        Step::Insert {
            key: e.key,
            attributes: e.attributes,
        },
    )
}

// A shared shape has at most 1,024 transitions, and each that is passed adds at most one step.
fn rollback_before(image: &[u32], n: u32, key: u32, steps: &mut [Step]) -> Back
    requires formed { Formed image.now }
    requires sound { Sound (parse image.now) }
    requires shared_at { SharedAt (parse image.now) n }
    requires n_value { has key (entries_at (parse image.now) n) ≡ true }
    requires in_bounds { 1024 ≤ length steps.old }
    ensures base_value { result.base ≡ (rollback (parse image.now) n key).base }
    ensures newest_after { newest_of result.newest ≡ (rollback (parse image.now) n key).newest }
    ensures steps_from { StepsFrom steps.new result.start
        (rollback (parse image.now) n key).yielded }
{
    let mut start = steps.len();
    let mut newest = None;
    let mut s = get_shape(image, n);
    // It goes from a shape to the one before it, and counts nothing.
    while !inserts(image, s, key) {
        newest = remember(s, newest);
        start = yield_last(image, s, key, steps, start);
        s = get_shape(image, s.previous);
    }
    Back {
        base: s.previous,
        newest,
        start,
    }
}

fn push_newest(steps: &mut [Step], start: usize, newest: Option<u32>) -> usize
    requires newest_len_bound { length (newest_of newest) ≤ start }
    requires start_in_bounds { start ≤ length steps.old }
    ensures { StepsFrom steps.new result
        (newest_of newest ++ drop start (map step_in steps.old)) }
{
    match newest {
        Some(to) => push(steps, start, Step::Prototype(to)),
        None => start,
    }
}

// "Removal: base, then the remembered prototype if there was one, then yielded keys in their old order."
pub fn removal_steps(image: &[u32], n: u32, key: u32, room: &mut [Step]) -> Replay
    requires formed { Formed image.now }
    requires sound { Sound (parse image.now) }
    requires shared_at { SharedAt (parse image.now) n }
    requires n_value { has key (entries_at (parse image.now) n) ≡ true }
    requires in_bounds { 1024 ≤ length room.old }
    ensures base_value { result.base ≡ (rollback (parse image.now) n key).base }
    ensures steps_from { StepsFrom room.new result.start
        ((rollback (parse image.now) n key).newest
        ++ (rollback (parse image.now) n key).yielded) }
{
    let back = rollback_before(image, n, key, room);
    let start = push_newest(room, back.start, back.newest);
    Replay {
        base: back.base,
        start,
    }
}

// "Change of width: base, prototype, the key with new attributes, then the yielded keys".
pub fn change_steps(
    image: &[u32],
    n: u32,
    key: u32,
    attributes: SlotAttributes,
    room: &mut [Step],
) -> Replay
    requires formed { Formed image.now }
    requires sound { Sound (parse image.now) }
    requires shared_at { SharedAt (parse image.now) n }
    requires n_value { has key (entries_at (parse image.now) n) ≡ true }
    requires in_bounds { 1024 ≤ length room.old }
    ensures base_value { result.base ≡ (rollback (parse image.now) n key).base }
    ensures steps_from { StepsFrom room.new result.start
        ((rollback (parse image.now) n key).newest
        ++ insert key attributes.0 ∷ (rollback (parse image.now) n key).yielded) }
{
    let back = rollback_before(image, n, key, room);
    let attributes = attributes.0 as u32;
    let later = push(room, back.start, Step::Insert { key, attributes });
    let start = push_newest(room, later, back.newest);
    Replay {
        base: back.base,
        start,
    }
}
