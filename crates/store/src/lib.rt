// The records of the lent image: a shape, an entry of a table, an edge.
// They are the model's records too, so that code and definitions speak of the same things.
#![tactic(auto)]

use slot::SlotIndex;

pub mod image;
mod records;
pub mod rows;

// Document 01's letters: S shapes, T tables, K keys per table, E edges.
#[derive(Clone, Copy)]
pub struct Limits {
    pub S: u32,
    pub T: u32,
    pub K: u32,
    pub E: u32,
}

// How many edges of each kind were added since the last prune.
#[derive(Clone, Copy, Default)]
pub struct Counters {
    pub property: u32,
    pub prototype: u32,
}

// A record's words are plain numbers, since a lent image may hold any: `parse` reads them as such.
// These three types have no values: they hold the names of such numbers.

// "state (1 shared, 2 unique)"; a free record is zero.
#[derive(Clone, Copy)]
pub struct ShapeState {}

impl ShapeState {
    pub const FREE: u32 = 0;

    pub const SHARED: u32 = 1;

    pub const UNIQUE: u32 = 2;
}

// "step kind (0 insert, 1 configure, 2 prototype)"
#[derive(Clone, Copy)]
pub struct StepKind {}

impl StepKind {
    pub const INSERT: u32 = 0;

    pub const CONFIGURE: u32 = 1;

    pub const PROTOTYPE: u32 = 2;
}

// "kind (0 property, 1 prototype)"
#[derive(Clone, Copy)]
pub struct EdgeKind {}

impl EdgeKind {
    pub const PROPERTY: u32 = 0;

    pub const PROTOTYPE: u32 = 1;
}

#[derive(Clone, Copy, Default)]
pub struct Shape {
    // a ShapeState
    pub state: u32,
    pub holds: u32,
    // 0 for none
    pub previous: u32,
    // a StepKind
    pub step: u32,
    pub transitions: u32,
    pub properties: u32,
    pub prototype: u32,
    pub table: u32,
    pub counters: Counters,
}

#[derive(Clone, Copy, Default)]
pub struct Entry {
    pub key: u32,
    pub attributes: u32,
    pub slot: SlotIndex,
}

#[derive(Clone, Copy, Default)]
pub struct Edge {
    pub parent: u32,
    // an EdgeKind
    pub kind: u32,
    // the key, or the prototype
    pub label: u32,
    pub attributes: u32,
    // 0 for a dead edge
    pub child: u32,
}
