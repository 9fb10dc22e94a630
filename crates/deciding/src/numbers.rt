// A call that writes a number: its place is found, and the object there has such a number.
ghost use Rattle.tree.specs.Words.{word as memory};
ghost use Rattle.walk.specs.Slots.{steps_of};
ghost use Rattle.judging.specs.Rulings.{home_of};
ghost use Rattle.walk.specs.Showing.{OfRoot};
ghost use Rattle.deciding.specs.Deciding.{Placed};

use elements::kinds::PrimitiveElement;
use judging::ruling::Ruling;
use judging::site::{Site, find_site};
use number::home::NumberAt;
use path::step::Step;
use segments::reading::Reading;
use walk::held::Held;

// The place of a number: the site, and the object there that has the number.
#[derive(Clone, Copy, Debug, PartialEq, Eq)]
pub struct NumberPlace {
    pub site: Site,
    pub held: Held,
}

// The ruling against the write of a number, whatever its bits, or its place.
pub fn decide_number<R: Reading, E: PrimitiveElement>(
    reading: &R,
    path: &[Step],
    at: NumberAt,
) -> Result<NumberPlace, Ruling>
    ensures sound { OfRoot (memory (R.Reading.segments reading.now)) (λ v. Placed (memory (R.Reading.segments reading.now)) v (steps_of path.now) (home_of at.home) E.PrimitiveElement.code at.index result) }
{
    let site = find_site(reading, path)?;
    let held = site.host(at, E::element_size())?;
    Ok(NumberPlace { site, held })
}
