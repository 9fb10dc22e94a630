// A path: `/` for the root, or steps, each with a `/` before it.
ghost use Rattle.std.specs.Prelude.{List, ◌∷◌, Some, MatchResult};
ghost use Rattle.path.specs.Paths.{Steps, PathText, Unless, shown_path};
ghost use Rattle.path.specs.declared.step.Step.{Step as AStep};

use crate::step::{PathFault, Step, read_step};
use std::alloc::Global;
use std::fmt;

// Where a call goes: the steps from the root.
#[derive(Drop)]
pub struct Place {
    pub steps: Vec<Step>,
}

// The steps of what stands after the first slash.
fn read_steps(heap: Global, word: &str) -> Result<Vec<Step>, PathFault>
    ensures { MatchResult result (λ v. Steps (47 ∷ word.now) v.items) (λ e. Unless e ((ss : List AStep) → Steps (47 ∷ word.now) ss → ⊥)) }
{
    let mut steps = Vec::new(heap);
    for piece in word.split('/') {
        steps.push(read_step(piece)?)?;
    }
    Ok(steps)
}

pub fn read_place(heap: Global, word: &str) -> Result<Place, PathFault>
    ensures { MatchResult result (λ p. PathText word.now p.steps.items) (λ e. Unless e ((ss : List AStep) → PathText word.now ss → ⊥)) }
{
    let rest = word.strip_prefix('/').ok_or(PathFault::NoSlash)?;
    if rest.is_empty() {
        return Ok(Place {
            steps: Vec::new(heap),
        });
    }
    Ok(Place {
        steps: read_steps(heap, rest)?,
    })
}

impl fmt::Display for Place {
    ghost output = { λ p. Some (shown_path p.steps.items) };

    fn fmt<W: fmt::Write>(&self, f: &mut fmt::Formatter<W>) -> fmt::Result {
        if self.steps.is_empty() {
            return write!(f, "/");
        }
        for step in self.steps.iter() {
            write!(f, "/{step}")?;
        }
        Ok(())
    }
}
