// Where a slot leads: by itself, over one landing pad word, or over two.
ghost use Rattle.std.specs.Prelude.{◌≡◌, ℕ};
ghost use Rattle.tree.specs.Words.{word as memory};
ghost use Rattle.tree.specs.Shows.{land};
ghost use Rattle.walk.specs.Landings.{landing_of};

use super::spot::{Spot, pointer_at};
use segments::reading::Reading;
use wire::pointers::WirePointer;

// The pointer that describes an object, where the object begins, and the landing pads before it: where they begin, and how many.
#[derive(Clone, Copy, Debug, PartialEq, Eq)]
pub struct Landing {
    pub pointer: WirePointer,
    pub start: Spot,
    pub pad: Spot,
    pub pads: usize,
}

// Where the slot leads, whatever the words are.
#[tactic(auto, using(crate::proofs::Landings::lands_direct, crate::proofs::Landings::lands_single, crate::proofs::Landings::lands_double))]
pub fn follow<R: Reading>(reading: &R, slot: Spot) -> Landing
    ensures value { landing_of result ≡ land (memory (R.Reading.segments reading.now)) slot.segment slot.word }
{
    let pointer = pointer_at(reading, slot);
    if !pointer.is_far() {
        return Landing {
            pointer,
            start: Spot {
                word: pointer.target(slot.word),
                ..slot
            },
            pad: slot,
            pads: 0,
        };
    }
    let pad = Spot {
        segment: pointer.far_segment(),
        word: pointer.far_word(),
    };
    let landed = pointer_at(reading, pad);
    if !pointer.is_double_far() {
        return Landing {
            pointer: landed,
            start: Spot {
                word: landed.target(pad.word),
                ..pad
            },
            pad,
            pads: 1,
        };
    }
    let second = Spot {
        word: pad.word + 1,
        ..pad
    };
    Landing {
        pointer: pointer_at(reading, second),
        start: Spot {
            segment: landed.far_segment(),
            word: landed.far_word(),
        },
        pad,
        pads: 2,
    }
}
