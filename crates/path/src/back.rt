// What is shown of a path is read back as the same path: the public function here shows its argument and reads that.
ghost use Rattle.std.specs.Prelude.{◌≡◌, MatchResult};
ghost use Rattle.path.specs.Paths.{AllFit, Fit};
ghost use Rattle.path.specs.declared.step.PathFault.TheVariants.{Memory};

use crate::place::{Place, read_place};
use crate::step::{PathFault, Step};
use std::alloc::Global;

// The numbers of a step have 32 bits, whatever they are.
fn step_fits(step: Step)
    ensures { Fit step }
{
    let Step {
        kind: _,
        element: _,
        pointer: _,
    } = step;
}

fn steps_fit(steps: &[Step])
    ensures { AllFit steps.now }
{
    for step in steps {
        step_fits(*step);
    }
}

pub fn reread_place(heap: Global, place: &Place) -> Result<Place, PathFault>
    ensures { MatchResult result (λ again. again.steps.items ≡ place.now.steps.items) (λ e. e ≡ Memory) }
{
    steps_fit(place.steps.as_slice());
    let text = place.to_string(heap)?;
    read_place(heap, text.as_str())
}
