// The edges that lead from a shape to the children that its steps made.
// A dead edge is one whose child was swept.
#![tactic(auto)]

ghost use Rattle.std.specs.Prelude.{◌≡◌, ◌+◌, ◌%◌, ◌≤◌, length};
ghost use Rattle.store.specs.Lists.{first, keep, lowest};
ghost use Rattle.store.specs.Layout.{parse};
ghost use Rattle.store.specs.Image.{Formed, Place, Becomes};
ghost use Rattle.store.specs.Model.{free_edge, edge_at, put_edge, shape_at};
ghost use Rattle.rules.specs.Placing.{step_in};
ghost use Rattle.rules.specs.Steps.{edge_of, alike, dead, prune, with_edges, pruned, counted};
ghost use Rattle.rules.specs.Steps.{counter, set_counter, put_counter};
ghost use Rattle.forward_transition.specs.Transitions.{transition_of, unless_dead, at_limit};

use rules::Step;
use store::image::{edge_count, get_edge, get_shape, lowest_free_edge, put_edge, put_shape};
use store::{Counters, Edge, EdgeKind};

// What the edges say of a step: its child, that its child was swept, or that none was made: three answers, which
// no Option or Result has.
#[derive(Clone, Copy)]
pub enum Transition {
    Live(u32),
    Dead,
    Absent,
}

// The same edge, but for its child. By hand, in two steps: with the derived == a scan takes a third longer, and an
// insert that makes a child has to stay under twice the time of the C.
fn agree(e: Edge, wanted: Edge) -> bool
    ensures { result ≡ alike wanted e }
{
    if wanted.parent == e.parent && wanted.kind == e.kind {
        return wanted.label == e.label && wanted.attributes == e.attributes;
    }
    false
}

fn is_dead(e: Edge, parent: u32, kind: u32) -> bool
    ensures { result ≡ dead parent kind e }
{
    e.parent == parent && e.kind == kind && e.child == 0
}

// A prototype's edge has no attributes.
pub fn edge_of(parent: u32, step: Step, child: u32) -> Edge
    ensures { result ≡ edge_of parent (step_in step) child }
{
    match step {
        Step::Insert { key, attributes } | Step::Configure { key, attributes } => Edge {
            parent,
            kind: EdgeKind::PROPERTY,
            label: key,
            attributes,
            child,
        },
        Step::Prototype(to) => Edge {
            parent,
            kind: EdgeKind::PROTOTYPE,
            label: to,
            attributes: 0,
            child,
        },
    }
}

// The child of `wanted` is not looked at.
pub fn get(image: &[u32], wanted: Edge) -> Transition
    requires { Formed image.now }
    ensures { result ≡ transition_of (first (alike wanted) (parse image.now).edges) }
{
    let count = edge_count(image);
    for passed in 0..count {
        let e = get_edge(image, passed + 1);
        if agree(e, wanted) {
            if e.child == 0 {
                return Transition::Dead;
            }
            return Transition::Live(e.child);
        }
    }
    Transition::Absent
}

// The edge at a place is freed if it is a dead one of the parent's, of that kind.
fn free_if_dead(image: &mut [u32], place: u32, parent: u32, kind: u32)
    requires formed { Formed image.old }
    requires place { Place (length (parse image.old).edges) place }
    ensures { Becomes image.old image.new
        (put_edge (parse image.old) place
        (unless_dead parent kind (edge_at (parse image.old) place))) }
{
    if is_dead(get_edge(image, place), parent, kind) {
        put_edge(image, place, Edge::default());
    }
}

pub fn prune(image: &mut [u32], parent: u32, kind: u32)
    requires { Formed image.old }
    ensures { Becomes image.old image.new
        (with_edges (parse image.old)
        (prune parent kind (parse image.old).edges)) }
{
    let count = edge_count(image);
    for done in 0..count {
        free_if_dead(image, done + 1, parent, kind);
    }
}

// How many edges a prune would free.
pub fn dead_edges(image: &[u32], parent: u32, kind: u32) -> u32
    requires { Formed image.now }
    ensures { result ≡ length (keep (dead parent kind) (parse image.now).edges) }
{
    let count = edge_count(image);
    let mut found = 0;
    for seen in 0..count {
        found += u32::from(is_dead(get_edge(image, seen + 1), parent, kind));
    }
    found
}

// A kind is a number here, an EdgeKind: `counter` in Steps.antt tells 0 from every other number.
pub fn counter(counters: Counters, kind: u32) -> u32
    ensures { result ≡ counter kind counters }
{
    if kind == EdgeKind::PROPERTY {
        counters.property
    } else {
        counters.prototype
    }
}

fn set_counter(counters: Counters, kind: u32, value: u32) -> Counters
    ensures { result ≡ set_counter kind value counters }
{
    if kind == EdgeKind::PROPERTY {
        Counters {
            property: value,
            ..counters
        }
    } else {
        Counters {
            prototype: value,
            ..counters
        }
    }
}

fn put_counter(image: &mut [u32], parent: u32, kind: u32, value: u8)
    requires formed { Formed image.old }
    requires place { Place (length (parse image.old).shapes) parent }
    ensures { Becomes image.old image.new
        (put_counter (parse image.old) parent kind value) }
{
    let mut shape = get_shape(image, parent);
    let counters = shape.counters;
    shape.counters = set_counter(counters, kind, value as u32);
    put_shape(image, parent, shape);
}

// A dead edge was met: the count of insertions starts anew.
pub fn prune_transitions(image: &mut [u32], parent: u32, kind: u32)
    requires formed { Formed image.old }
    requires place { Place (length (parse image.old).shapes) parent }
    ensures { Becomes image.old image.new
        (pruned (parse image.old) parent kind) }
{
    prune(image, parent, kind);
    put_counter(image, parent, kind, 0);
}

fn insertion_count(image: &[u32], parent: u32, kind: u32) -> u8
    requires formed { Formed image.now }
    requires place { Place (length (parse image.now).shapes) parent }
    requires parent_bound { counter kind (shape_at (parse image.now) parent).counters ≤ 255 }
    ensures { result ≡ counter kind (shape_at (parse image.now) parent).counters }
{
    let shape = get_shape(image, parent);
    let counters = shape.counters;
    counter(counters, kind) as u8
}

fn prune_at_limit(image: &mut [u32], parent: u32, kind: u32, old: u8)
    requires { Formed image.old }
    ensures { Becomes image.old image.new
        (at_limit old (parse image.old) parent kind) }
{
    if old == 255 {
        prune(image, parent, kind);
    }
}

fn raised(old: u8) -> u8
    ensures { result ≡ (old + 1) % 256 }
{
    old.wrapping_add(1)
}

// An edge will be added: every 256th insertion prunes, as the counter wraps.
pub fn count_up(image: &mut [u32], parent: u32, kind: u32)
    requires formed { Formed image.old }
    requires place { Place (length (parse image.old).shapes) parent }
    requires parent_bound { counter kind (shape_at (parse image.old) parent).counters ≤ 255 }
    ensures { Becomes image.old image.new
        (counted (parse image.old) parent kind) }
{
    let old = insertion_count(image, parent, kind);
    prune_at_limit(image, parent, kind, old);
    put_counter(image, parent, kind, raised(old));
}

// The edge takes the lowest free place.
pub fn add_edge(image: &mut [u32], e: Edge)
    requires formed { Formed image.old }
    requires bound { 1 ≤ lowest free_edge 1 (parse image.old).edges }
    ensures { Becomes image.old image.new
        (put_edge (parse image.old)
        (lowest free_edge 1 (parse image.old).edges) e) }
{
    let place = lowest_free_edge(image);
    put_edge(image, place, e);
}
