// The edges that there are for steps.
ghost use Rattle.std.specs.Prelude.{◌≡◌, ◌≤◌, length, map};
ghost use Rattle.store.specs.Layout.{parse};
ghost use Rattle.store.specs.Image.{Formed, Place};
ghost use Rattle.rules.specs.Placing.{step_in};
ghost use Rattle.plan.specs.Plan.{edge_for, child_of, is_edge, follow, gives, first_gives};

use crate::Way;
use forward_transition::{Transition, counter, dead_edges, edge_of, get};
use rules::Step;
use store::image::get_shape;

// 0 where there is no edge, or a dead one, as `child_of` in Plan.antt says.
fn live_child(image: &[u32], place: u32, step: Step) -> u32
    requires { Formed image.now }
    ensures { result ≡ child_of (edge_for (parse image.now) place (step_in step)) }
{
    match get(image, edge_of(place, step, 0)) {
        Transition::Live(child) => child,
        Transition::Dead => 0,
        Transition::Absent => 0,
    }
}

pub fn follow(image: &[u32], from: u32, steps: &[Step]) -> Way
    requires { Formed image.now }
    ensures way { result ≡ follow (map step_in steps.now) (parse image.now) from }
    ensures inside { result.found ≤ length steps.now }
{
    let mut place = from;
    for (found, step) in steps.iter().enumerate() {
        let child = live_child(image, place, *step);
        if child == 0 {
            return Way { found, place };
        }
        place = child;
    }
    Way {
        found: steps.len(),
        place,
    }
}

fn has_edge(image: &[u32], place: u32, step: Step) -> bool
    requires { Formed image.now }
    ensures { result ≡ is_edge (edge_for (parse image.now) place (step_in step)) }
{
    match get(image, edge_of(place, step, 0)) {
        Transition::Live(_) => true,
        Transition::Dead => true,
        Transition::Absent => false,
    }
}

// How many edges a new step's prunes give back.
fn gives(image: &[u32], place: u32, step: Step) -> u32
    requires formed { Formed image.now }
    requires place { Place (length (parse image.now).shapes) place }
    ensures { result ≡ gives (parse image.now) place (step_in step) }
{
    let wanted = edge_of(place, step, 0);
    let shape = get_shape(image, place);
    let counters = shape.counters;
    let wraps = counter(counters, wanted.kind) == 255;
    if has_edge(image, place, step) | wraps {
        return dead_edges(image, place, wanted.kind);
    }
    0
}

// Every parent of a later step is new: it has nothing to prune.
pub fn first_gives(image: &[u32], place: u32, steps: &[Step]) -> u32
    requires formed { Formed image.now }
    requires place { Place (length (parse image.now).shapes) place }
    ensures { result ≡ first_gives (parse image.now) place (map step_in steps.now) }
{
    match steps {
        [first, ..] => gives(image, place, *first),
        [] => 0,
    }
}
