// A call's decision: its place is found, and what the edit makes of what is there.
ghost use Rattle.tree.specs.Words.{word as memory};
ghost use Rattle.law.specs.Calls.{Typed};
ghost use Rattle.walk.specs.Slots.{steps_of};
ghost use Rattle.walk.specs.Showing.{OfRoot};
ghost use Rattle.deciding.specs.Edits.{edit_of};
ghost use Rattle.deciding.specs.Deciding.{Decided};

use super::edit::{Edit, Making};
use super::making::choose;
use judging::ruling::Ruling;
use judging::site::{Site, find_site};
use path::step::Step;
use segments::reading::Reading;
use walk::shape::Shape;

// What is to be made where, and the shape of which the sizes are answered.
#[derive(Clone, Copy, Debug, PartialEq, Eq)]
pub struct Decision {
    pub site: Site,
    pub making: Making,
    pub shape: Option<Shape>,
}

// Does nothing: it says that an edit's sections are of 16 bits and its text's bytes of 8, as their types have it.
fn typed(edit: Edit, bytes: &[u8])
    ensures { Typed (edit_of edit bytes.now) }
{
    match edit {
        Edit::InitStruct(_size) | Edit::GetStruct(_size) | Edit::GetStructList(_size) => {}
        Edit::InitStructList { size: _size, .. } => {}
        Edit::Text => {}
        Edit::InitList { .. } | Edit::Clear => {}
    }
}

// The ruling against the call, or its decision. On words that show a tree they are what the tree says.
pub fn decide<R: Reading>(
    reading: &R,
    path: &[Step],
    edit: Edit,
    bytes: &[u8],
) -> Result<Decision, Ruling>
    ensures typed { Typed (edit_of edit bytes.now) }
    ensures sound { OfRoot (memory (R.Reading.segments reading.now)) (λ v. Decided (memory (R.Reading.segments reading.now)) v (steps_of path.now) edit bytes.now result) }
{
    typed(edit, bytes);
    let site = find_site(reading, path)?;
    let making = choose(site, edit, bytes)?;
    Ok(Decision {
        site,
        making,
        shape: making.shape(site.object),
    })
}
