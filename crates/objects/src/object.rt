// A new object: its shape, its slot and where it begins.
ghost use Rattle.std.specs.Prelude.{◌≡◌, ℕ, ◌-◌, ◌^◌, ◌<◌, Bool, false};
ghost use Rattle.law.specs.Machine.{too_large};
ghost use Rattle.law.specs.Exact.{slot_word};
ghost use Rattle.walk.specs.Shapes.{shape_meant};

use super::pointer::pointer_to;
use walk::shape::Shape;
use walk::spot::Spot;
use wire::pointers::WirePointer;

// An object of this shape that begins at `start`, or will, for the slot. Where the slot is in another segment, the word before the object
// is its landing pad; an empty struct has no words and begins where its slot stands.
#[derive(Clone, Copy, Debug, PartialEq, Eq)]
pub struct NewObject {
    pub shape: Shape,
    pub slot: Spot,
    pub start: Spot,
}

impl NewObject {
    // The pointer of the slot.
    pub fn slot_pointer(self) -> WirePointer
        ensures value { too_large (shape_meant self.shape) ≡ false → self.start.segment < 2 ^ 32 → self.start.word - 1 < 2 ^ 29 → result.word ≡ slot_word self.slot.segment self.slot.word self.start.segment self.start.word (shape_meant self.shape) }
    {
        if self.shape.has_no_words() {
            return WirePointer::empty_struct();
        }
        if self.start.segment == self.slot.segment {
            return pointer_to(self.shape, self.slot.word, self.start.word);
        }
        WirePointer::single_far(self.start.segment, self.start.word.saturating_sub(1))
    }
}
