// What is to be made of a slot is made.
ghost use Rattle.std.specs.Prelude.{◌≡◌};
ghost use Rattle.tree.specs.Value.{Value};
ghost use Rattle.law.specs.Law.{memory};
ghost use Rattle.deciding.specs.Edits.{making_of};
ghost use Rattle.effects.specs.States.{source_of, state};
ghost use Rattle.effects.specs.Makes.{Slot, Makes};
ghost use Rattle.performing.specs.Able.{Able};

use arena::{BuilderArena, NoSpace};
use deciding::edit::Making;
use making::clear::clear_slot;
use making::init::{init_object, init_text};
use rebuilding::rebuild::rebuild_object;
use segments::source::Source;
use walk::landing::follow;
use walk::spot::Spot;

// Makes it of the slot, and answers where the object of the slot lies then.
pub fn make<S: Source>(
    arena: &mut BuilderArena<S>,
    slot: Spot,
    making: Making,
    bytes: &[u8],
) -> Result<Spot, NoSpace<S::Fault>>
    ensures outcome { (u : Value) → Slot (state S.Source arena.old) slot.segment slot.word u → Able (memory (state S.Source arena.old)) slot.segment slot.word u making bytes.now → Makes (source_of S.Source) (state S.Source arena.old) slot.segment slot.word u (making_of making bytes.now) result (state S.Source arena.new) }
{
    match making {
        Making::Keep => Ok(follow(&arena.source, slot).start),
        Making::Wipe => {
            clear_slot(arena, slot);
            Ok(Spot {
                segment: 0,
                word: 0,
            })
        }
        Making::New(shape) => init_object(arena, slot, shape),
        Making::Spell => init_text(arena, slot, bytes),
        Making::Rebuild(held, shape) => rebuild_object(arena, slot, held, shape),
    }
}
