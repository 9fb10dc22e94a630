// Reads of a draft: they answer from the tree, and edit nothing.
ghost use Rattle.std.specs.Prelude.{◌≡◌, ℕ};
ghost use Rattle.law.specs.Calls.{value};
ghost use Rattle.law.specs.Reads.{number};
ghost use Rattle.law.specs.Reads as queries;
ghost use Rattle.judging.specs.Rulings.{home_of};
ghost use Rattle.judging.specs.Replies.{sizes_meant, Faithful};
ghost use Rattle.effects.specs.States.{source_of};
ghost use Rattle.message.specs.Drafts.{drafted, Tells};

use super::draft::Draft;
use elements::kinds::PrimitiveElement;
use judging::looks::{read_number, read_sizes};
use judging::ruling::Ruling;
use number::home::NumberAt;
use path::step::Step;
use segments::source::Source;
use walk::shape::Shape;

impl<S: Source> Draft<S> {
    // The sizes of the object at the path: none for a null place.
    pub fn get_sizes(&self, path: &[Step]) -> Result<Option<Shape>, Ruling>
        ensures tells { Tells (source_of S.Source) (drafted S.Source self.now) sizes_meant path.now queries.shape result }
    {
        read_sizes(&self.arena.source, path)
    }

    // A number: a field of the struct at the path, a field of a row of the struct list there, or an element of the plain list.
    pub fn get_number<E: PrimitiveElement>(&self, path: &[Step], at: NumberAt) -> Result<E, Ruling>
        ensures tells { Tells (source_of S.Source) (drafted S.Source self.now) (λ e. value (E.PrimitiveElement.bits e)) path.now (number (home_of at.home) E.PrimitiveElement.code at.index) result }
        ensures back { Faithful E.PrimitiveElement.bits E.PrimitiveElement.value result }
    {
        read_number(&self.arena.source, path, at)
    }
}
