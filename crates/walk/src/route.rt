// Paths: the slots to which their steps lead.
ghost use Rattle.std.specs.Prelude.{◌≡◌};
ghost use Rattle.tree.specs.Words.{word as memory};
ghost use Rattle.law.specs.Machine.{meets};
ghost use Rattle.walk.specs.Spots.{spot_at};
ghost use Rattle.walk.specs.Showing.{OfRoot};
ghost use Rattle.walk.specs.Shapes.{shape_meant};
ghost use Rattle.walk.specs.Slots.{step_of, steps_of, next_slot, slots_along, place_in};

use super::held::hold;
use super::shape::Shape;
use super::spot::Spot;
use path::step::Step;
use segments::reading::Reading;

// The step, counted from 0, that goes nowhere: it meets null, another kind or a number out of range.
#[derive(Clone, Copy, Debug, PartialEq, Eq)]
pub struct Nowhere {
    pub step: usize,
}

impl Shape {
    // Whether the step goes into an object of this shape.
    pub fn meets(self, step: Step) -> bool
        ensures value { result ≡ meets (shape_meant self) (step_of step) }
    {
        step.kind == self.step_kind()
            && step.element < self.rows()
            && step.pointer < self.pointers()
    }
}

// The slot to which a step leads from this slot.
pub fn next_slot<R: Reading>(reading: &R, slot: Spot, step: Step) -> Option<Spot>
    ensures value { result ≡ next_slot (memory (R.Reading.segments reading.now)) slot (step_of step) }
{
    let held = hold(reading, slot)?;
    if !held.shape.meets(step) {
        return None;
    }
    held.slot(step.element, step.pointer)
}

// The slot at the end of the path, from the root word on. On a sound message it is where the tree says.
pub fn resolve<R: Reading>(reading: &R, path: &[Step]) -> Result<Spot, Nowhere>
    ensures value { result ≡ slots_along (memory (R.Reading.segments reading.now)) (spot_at 0 0) path.now 0 }
    ensures sound { OfRoot (memory (R.Reading.segments reading.now)) (λ v. result ≡ place_in (memory (R.Reading.segments reading.now)) v (steps_of path.now)) }
{
    let mut slot = Spot {
        segment: 0,
        word: 0,
    };
    for (i, step) in path.iter().enumerate() {
        slot = next_slot(reading, slot, *step).ok_or(Nowhere { step: i })?;
    }
    Ok(slot)
}
