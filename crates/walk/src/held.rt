// What a slot holds: null, or an object with its place and its shape.
ghost use Rattle.std.specs.Prelude.{◌≡◌, ◌+◌};
ghost use Rattle.tree.specs.Words.{word as memory};
ghost use Rattle.tree.specs.Value.{slot};
ghost use Rattle.tree.specs.Decode.{shape_at};
ghost use Rattle.walk.specs.Spots.{counted_word};
ghost use Rattle.walk.specs.Landings.{landing_of};
ghost use Rattle.walk.specs.Shapes.{shape_meant};
ghost use Rattle.walk.specs.Holding.{Holds};

use super::landing::{Landing, follow};
use super::shape::Shape;
use super::spot::{Spot, pointer_at, word_at};
use segments::reading::Reading;
use wire::pointers::WirePointerKind;
use wire::sizes::ElementSize;

// An object: where it lies, and its shape.
#[derive(Clone, Copy, Debug, PartialEq, Eq)]
pub struct Held {
    pub landing: Landing,
    pub shape: Shape,
}

impl Held {
    // The slot of pointer `j` of row `i`, as far as 64 bits count.
    pub fn slot(self, i: u32, j: u32) -> Option<Spot>
        ensures value { result ≡ counted_word self.landing.start.segment (self.landing.start.word + slot (shape_meant self.shape) i j) }
    {
        self.landing.start.checked_add(self.shape.slot(i, j))
    }
}

// The shape of the object of this landing: what the pointer that describes it says, and for a struct list its tag.
#[tactic(auto, using(crate::proofs::Shapes::shape_struct, crate::proofs::Shapes::shape_rows, crate::proofs::Shapes::not_struct))]
pub fn shape_of<R: Reading>(reading: &R, landing: Landing) -> Shape
    ensures value { shape_meant result ≡ shape_at (memory (R.Reading.segments reading.now)) (landing_of landing) }
{
    let pointer = landing.pointer;
    match pointer.kind() {
        WirePointerKind::Struct => Shape::Structure(pointer.struct_size()),
        _ => match pointer.element_size() {
            ElementSize::InlineComposite => {
                let tag = pointer_at(reading, landing.start);
                Shape::Composite(tag.row_count(), tag.struct_size())
            }
            element => Shape::Plain(element, pointer.element_count()),
        },
    }
}

// What the slot holds, whatever the words are; none where it is null.
pub fn hold<R: Reading>(reading: &R, slot: Spot) -> Option<Held>
    ensures value { Holds (memory (R.Reading.segments reading.now)) slot.segment slot.word result }
{
    if word_at(reading, slot) == 0 {
        return None;
    }
    let landing = follow(reading, slot);
    let shape = shape_of(reading, landing);
    Some(Held { landing, shape })
}
