// Reads: they answer from the words what the tree says, and edit nothing.
ghost use Rattle.std.specs.Prelude.{◌≡◌};
ghost use Rattle.tree.specs.Words.{word as memory};
ghost use Rattle.law.specs.Calls.{value};
ghost use Rattle.law.specs.Reads.{number};
ghost use Rattle.law.specs.Reads as queries;
ghost use Rattle.walk.specs.Holding.{Holds};
ghost use Rattle.judging.specs.Rulings.{home_of};
ghost use Rattle.walk.specs.Showing.{OfSlot};
ghost use Rattle.judging.specs.Replies.{reply, sizes_meant, look_here, Answered, Faithful};

use super::numbers::number_word;
use super::ruling::Ruling;
use super::site::{Site, find_site};
use elements::get_element;
use elements::kinds::PrimitiveElement;
use number::home::NumberAt;
use path::step::Step;
use segments::reading::Reading;
use walk::shape::Shape;
use walk::spot::word_at;

// The number in what the site holds. On a sound message its word is one of the object, so that the sum cannot wrap.
fn number_at<R: Reading, E: PrimitiveElement>(
    reading: &R,
    site: Site,
    at: NumberAt,
) -> Result<E, Ruling>
    ensures sound { Holds (memory (R.Reading.segments reading.now)) site.slot.segment site.slot.word site.object → OfSlot (memory (R.Reading.segments reading.now)) site.slot.segment site.slot.word (λ u. reply (λ e. value (E.PrimitiveElement.bits e)) result ≡ look_here u (number (home_of at.home) E.PrimitiveElement.code at.index)) }
    ensures back { Faithful E.PrimitiveElement.bits E.PrimitiveElement.value result }
{
    let element = E::element_size();
    let held = site.host(at, element)?;
    let spot = held
        .landing
        .start
        .wrapping_add(number_word(held.shape, at, element));
    Ok(get_element(word_at(reading, spot), at.index as usize))
}

// The number in the object at the path's end: its bits are those that the tree has, and it is their value.
pub fn read_number<R: Reading, E: PrimitiveElement>(
    reading: &R,
    path: &[Step],
    at: NumberAt,
) -> Result<E, Ruling>
    ensures sound { Answered (memory (R.Reading.segments reading.now)) (λ e. value (E.PrimitiveElement.bits e)) path.now (number (home_of at.home) E.PrimitiveElement.code at.index) result }
    ensures back { Faithful E.PrimitiveElement.bits E.PrimitiveElement.value result }
{
    let site = find_site(reading, path)?;
    number_at(reading, site, at)
}

// The sizes of the object there: none for null.
pub fn read_sizes<R: Reading>(reading: &R, path: &[Step]) -> Result<Option<Shape>, Ruling>
    ensures sound { Answered (memory (R.Reading.segments reading.now)) sizes_meant path.now queries.shape result }
{
    let site = find_site(reading, path)?;
    Ok(site.shape())
}
