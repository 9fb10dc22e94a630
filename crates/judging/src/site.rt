// The place of a call: its path is judged and followed, and the object there is described.
ghost use Rattle.std.specs.Prelude.{◌≡◌, if◌then◌else◌};
ghost use Rattle.std.specs.List.{list_any};
ghost use Rattle.wire.specs.Sizes.{code_of};
ghost use Rattle.tree.specs.Words.{word as memory};
ghost use Rattle.tree.specs.Value.{Value};
ghost use Rattle.law.specs.Machine.{bad_step, bad_path};
ghost use Rattle.walk.specs.Slots.{steps_of};
ghost use Rattle.judging.specs.Rulings.{ruling_of, home_of};
ghost use Rattle.walk.specs.Showing.{OfRoot};
ghost use Rattle.judging.specs.Sites.{step_bad, Met, meant, shape_in, shape_held, Hosts, Judged};

use super::objections::check_number;
use super::ruling::Ruling;
use number::home::NumberAt;
use path::step::Step;
use segments::reading::Reading;
use walk::held::{Held, hold};
use walk::route::resolve;
use walk::shape::Shape;
use walk::spot::Spot;
use wire::sizes::ElementSize;

// The slot at a path's end, and the object to which it leads, if it is not null.
#[derive(Clone, Copy, Debug, PartialEq, Eq)]
pub struct Site {
    pub slot: Spot,
    pub object: Option<Held>,
}

impl Site {
    // The shape of the object, if there is one.
    pub fn shape(self) -> Option<Shape>
        ensures value { meant result ≡ shape_held self.object }
    {
        self.object.map(|held| held.shape)
    }

    // The object, if it has such a number of this kind.
    pub fn host(self, at: NumberAt, element: ElementSize) -> Result<Held, Ruling>
        ensures value { (u : Value) → shape_held self.object ≡ shape_in u → Hosts (home_of at.home) (code_of element) at.index self.object u result }
    {
        check_number(self.shape(), at, element)?;
        self.object.ok_or(Ruling::EmptyPlace)
    }
}

// Whether the step is of no known kind, or has a number that its kind does not use.
fn bad_step(step: Step) -> bool
    ensures { result ≡ bad_step step.kind step.element step.pointer }
{
    match step.kind {
        0 => step.element > 0,
        1 => step.pointer > 0,
        2 => false,
        _ => true,
    }
}

// Whether some step is such.
fn has_bad_step(path: &[Step]) -> bool
    ensures { result ≡ list_any step_bad path.now }
{
    path.iter().any(|&step| bad_step(step))
}

// The path has at most 63 steps, each of a known kind and with no number that its kind does not use.
#[tactic(auto, using(crate::proofs::Checking::bad_path_is))]
pub fn check_path(path: &[Step]) -> Result<(), Ruling>
    ensures value { ruling_of result ≡ (if bad_path (steps_of path.now) then 1 else 0) }
{
    if path.len() > 63 || has_bad_step(path) {
        return Err(Ruling::BadPath);
    }
    Ok(())
}

// The site of a path. On words that show a tree, it or the ruling is what the tree says.
pub fn find_site<R: Reading>(reading: &R, path: &[Step]) -> Result<Site, Ruling>
    ensures value { Met (memory (R.Reading.segments reading.now)) path.now result }
    ensures sound { OfRoot (memory (R.Reading.segments reading.now)) (λ v. Judged (memory (R.Reading.segments reading.now)) v (steps_of path.now) result) }
{
    check_path(path)?;
    let slot = resolve(reading, path)?;
    Ok(Site {
        slot,
        object: hold(reading, slot),
    })
}
