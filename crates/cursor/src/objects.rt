// One object: how it begins, and the pointer that comes next.
ghost use Rattle.std.specs.Prelude.{◌≡◌, ◌^◌, ◌<◌, nat_lt};
ghost use Rattle.tree.specs.Value.{rows};
ghost use Rattle.tree.specs.Words.{word as memory};
ghost use Rattle.walk.specs.Spots.{counted_word};
ghost use Rattle.walk.specs.Shapes.{shape_meant};
ghost use Rattle.cursor.specs.Begun.{no_frame, begun_of, begun, next_word, passed};
ghost use Rattle.cursor.specs.Steps.{Child};
ghost use Rattle.cursor.specs.Weight.{left};

use super::Frame;
use segments::reading::Reading;
use walk::held::{Held, shape_of};
use walk::landing::{Landing, follow};
use walk::shape::Shape;
use walk::spot::{Spot, word_at};
use wire::pointers::WirePointer;
use wire::sizes::StructSize;

// What stands where no object does.
impl Default for Frame {
    ghost is_default = { λ f. f ≡ no_frame };

    fn default() -> Frame {
        let nowhere = Spot {
            segment: 0,
            word: 0,
        };
        let landing = Landing {
            pointer: WirePointer::null(),
            start: nowhere,
            pad: nowhere,
            pads: 0,
        };
        let shape = Shape::Structure(StructSize {
            data: 0,
            pointers: 0,
        });
        Frame {
            held: Held { landing, shape },
            row: 0,
            pointer: 0,
        }
    }
}

impl Frame {
    // The object of the slot, which begins.
    pub(crate) fn begin<R: Reading>(reading: &R, slot: Spot) -> Frame
        ensures value { begun_of result ≡ begun (memory (R.Reading.segments reading.now)) slot.segment slot.word }
        ensures light { left (begun_of result) < 2 ^ 66 }
    {
        let landing = follow(reading, slot);
        let shape = shape_of(reading, landing);
        let row = if shape.pointers() == 0 {
            shape.rows()
        } else {
            0
        };
        Frame {
            held: Held { landing, shape },
            row,
            pointer: 0,
        }
    }

    // Whether a pointer comes next.
    pub(crate) fn has_more(self) -> bool
        ensures value { result ≡ nat_lt self.row (rows (shape_meant self.held.shape)) }
    {
        self.row < self.held.shape.rows()
    }

    // The slot of the pointer that comes next, as far as 64 bits count.
    pub(crate) fn slot(self) -> Option<Spot>
        ensures value { result ≡ counted_word self.held.landing.start.segment (next_word (begun_of self)) }
    {
        self.held.slot(self.row, self.pointer)
    }

    // The object of that slot, which begins; none where the slot is null, which is seen before anything is made for an object.
    pub(crate) fn child<R: Reading>(self, reading: &R) -> Option<Frame>
        ensures value { Child (memory (R.Reading.segments reading.now)) (begun_of self) result }
    {
        let slot = self.slot()?;
        if word_at(reading, slot) == 0 {
            return None;
        }
        Some(Frame::begin(reading, slot))
    }

    // After that pointer.
    pub(crate) fn pass(self) -> Frame
        requires { self.row < rows (shape_meant self.held.shape) }
        ensures value { begun_of result ≡ passed (begun_of self) }
        ensures lighter { left (begun_of result) < left (begun_of self) }
    {
        if self.pointer as u64 + 1 < self.held.shape.pointers() as u64 {
            Frame {
                pointer: self.pointer + 1,
                ..self
            }
        } else {
            Frame {
                row: self.row + 1,
                pointer: 0,
                ..self
            }
        }
    }
}
