// A cursor walks what a slot reaches, over any reading interface: into each object before its children, one event at a time. It has no
// memory of words, so whoever walks may change words that the walk has left.
#![tactic(auto)]

ghost use Rattle.std.specs.Prelude.{◌≡◌, ◌≤◌, length};

use walk::held::Held;

mod objects;
mod walking;

// An object begun, and the row and the number of the pointer that comes next.
#[derive(Clone, Copy, Debug, PartialEq, Eq)]
pub struct Frame {
    pub held: Held,
    pub row: u32,
    pub pointer: u32,
}

// At most 64 objects begun, each below the one before it. The frames are an array, and no `ArrayVec`, so that a cursor is `Copy`: a walk can be
// gone on with from one place twice.
#[derive(Clone, Copy)]
pub struct Cursor {
    depth: usize,
    frames: [Frame; 64],
    ghost few: { depth ≤ 64 },
    ghost whole: { length frames ≡ 64 },
}

// What a cursor met: a null pointer, an object that begins or ends, or an object with 64 others above it, which is passed over.
#[derive(Clone, Copy, Debug, PartialEq, Eq)]
pub enum Event {
    Null,
    Entered(Frame),
    TooDeep,
    Left(Frame),
}
