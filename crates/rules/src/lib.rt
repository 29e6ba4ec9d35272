// The names that document 01 gives its refusals, and shape/mod.rs its actions; steps; and what calls give.
// Code and definitions share them.
#![tactic(auto)]

ghost use Rattle.std.specs.Prelude.{◌≡◌};
ghost use Rattle.rules.specs.Numbers.{good_key};
ghost use Rattle.rules.specs.Placing.{step_in, step_of_record};

use store::StepKind;

const ONE_KIND: u32 = 1 << 30;

// Kinds 0 to 2 are strings, symbols and indexes.
pub fn good_key(key: u32) -> bool
    ensures { result ≡ good_key key }
{
    key / ONE_KIND < 3
}

#[derive(Clone, Copy)]
pub enum Refusal {
    Damaged,
    BadKey,
    BadAttributes,
    NoShape,
    Present,
    Absent,
    KeysFull,
    ShapesFull,
    TablesFull,
    EdgesFull,
    HoldsFull,
    BadSize,
    OutShort,
}

// What a change of attributes asks of the object's storage.
#[derive(Clone, Copy)]
pub enum ChangeTransitionAction {
    Nothing,
    Remove,
    Insert,
}

// One step of a trail.
#[derive(Clone, Copy)]
pub enum Step {
    Insert { key: u32, attributes: u32 },
    Configure { key: u32, attributes: u32 },
    Prototype(u32),
}

// A step told by three numbers, as a record's words tell it: its kind, the key or the prototype, and the attributes.
#[derive(Clone, Copy)]
pub struct StepRecord {
    // a StepKind: every other number is a prototype's too
    pub kind: u32,
    pub label: u32,
    // nothing looks at a prototype's
    pub attributes: u32,
}

// So whoever has three numbers, whichever they are, has a step for the functions that take one.
impl From<StepRecord> for Step {
    ghost from_gives = { λ t step. step_in step ≡ step_of_record t };

    fn from(t: StepRecord) -> Step {
        if t.kind == StepKind::INSERT {
            return Step::Insert {
                key: t.label,
                attributes: t.attributes,
            };
        }
        if t.kind == StepKind::CONFIGURE {
            return Step::Configure {
                key: t.label,
                attributes: t.attributes,
            };
        }
        Step::Prototype(t.label)
    }
}

// A shape that a call gives, with one hold more.
#[derive(Clone, Copy)]
pub struct GivenShape {
    pub shape: u32,
    pub action: ChangeTransitionAction,
    pub transitions: u32,
}

// How many shapes and tables a sweep has freed.
#[derive(Clone, Copy)]
pub struct FreedPlaces {
    pub shapes: u32,
    pub tables: u32,
}
