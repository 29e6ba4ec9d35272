// Steps from a shared shape: each gives the child that is there, or makes one.
// Whether there is room was found out before, so that nothing here is refused.
#![tactic(auto)]

ghost use Rattle.std.specs.Prelude.{◌≡◌, ◌≤◌, map, Ok};
ghost use Rattle.store.specs.Layout.{parse};
ghost use Rattle.store.specs.Image.{Formed};
ghost use Rattle.rules.specs.Steps.{child_shape, grow, make, step, steps};
ghost use Rattle.rules.specs.Placing.{step_in, Places, Passes};
ghost use Rattle.theorems.specs.Facts.{Sound};
ghost use Rattle.theorems.specs.Child.{Legal};
ghost use Rattle.plan.specs.PlanRight.{LegalSteps};

use child_table::child_table;
use forward_transition::{Transition, add_edge, count_up, edge_of, get, prune_transitions};
use rules::Step;
use store::image::{get_shape, lowest_free_shape, put_shape};
use store::{Shape, ShapeState, StepKind};

fn child_shape(parent: u32, s: Shape, t: Step, table: u32) -> Shape
    requires transitions_bound { s.transitions ≤ 1024 }
    requires properties_bound { s.properties ≤ 2048 }
    ensures { result ≡ child_shape parent s (step_in t) table }
{
    let child = Shape {
        state: ShapeState::SHARED,
        previous: parent,
        transitions: s.transitions + 1,
        properties: s.properties,
        prototype: s.prototype,
        table,
        ..Shape::default()
    };
    match t {
        Step::Insert { .. } => Shape {
            step: StepKind::INSERT,
            properties: s.properties + 1,
            ..child
        },
        Step::Configure { .. } => Shape {
            step: StepKind::CONFIGURE,
            ..child
        },
        Step::Prototype(to) => Shape {
            step: StepKind::PROTOTYPE,
            prototype: to,
            ..child
        },
    }
}

fn grow(image: &mut [u32], n: u32, t: Step) -> u32
    requires formed { Formed image.old }
    requires sound { Sound (parse image.old) }
    requires legal { Legal (parse image.old) n (step_in t) }
    requires passes { Passes (grow (parse image.old) n (step_in t)) }
    ensures { Places image.old image.new
        (grow (parse image.old) n (step_in t)) (Ok result) }
{
    let s = get_shape(image, n);
    let child = lowest_free_shape(image);
    let table = child_table(image, s, t);
    put_shape(image, child, child_shape(n, s, t, table));
    add_edge(image, edge_of(n, t, child));
    child
}

// The counter is seen to first: nothing of the child reads it, and a prune leaves room for its edge.
fn make(image: &mut [u32], n: u32, t: Step) -> u32
    requires formed { Formed image.old }
    requires sound { Sound (parse image.old) }
    requires legal { Legal (parse image.old) n (step_in t) }
    requires passes { Passes (make (parse image.old) n (step_in t)) }
    ensures { Places image.old image.new
        (make (parse image.old) n (step_in t)) (Ok result) }
{
    let edge = edge_of(n, t, 0);
    count_up(image, n, edge.kind);
    grow(image, n, t)
}

pub fn take_step(image: &mut [u32], n: u32, t: Step) -> u32
    requires formed { Formed image.old }
    requires sound { Sound (parse image.old) }
    requires legal { Legal (parse image.old) n (step_in t) }
    requires passes { Passes (step (parse image.old) n (step_in t)) }
    ensures { Places image.old image.new
        (step (parse image.old) n (step_in t)) (Ok result) }
{
    let wanted = edge_of(n, t, 0);
    let found = get(image, wanted);
    match found {
        Transition::Live(child) => child,
        Transition::Dead => {
            prune_transitions(image, n, wanted.kind);
            make(image, n, t)
        }
        Transition::Absent => make(image, n, t),
    }
}

pub fn take_steps(image: &mut [u32], n: u32, list: &[Step]) -> u32
    requires formed { Formed image.old }
    requires sound { Sound (parse image.old) }
    requires legal_steps { LegalSteps (map step_in list.now) (parse image.old) n }
    requires passes { Passes (steps (map step_in list.now) (parse image.old) n) }
    ensures { Places image.old image.new
        (steps (map step_in list.now) (parse image.old) n) (Ok result) }
{
    let mut reached = n;
    for t in list {
        reached = take_step(image, reached, *t);
    }
    reached
}
