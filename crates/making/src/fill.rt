// A slot leads to a new object of zeros and nulls.
ghost use Rattle.std.specs.Prelude.{◌≡◌, ℕ, ◌<◌, Bool, false};
ghost use Rattle.tree.specs.Value.{Value};
ghost use Rattle.table.specs.Segments.{allocated_in};
ghost use Rattle.law.specs.Law.{State, memory};
ghost use Rattle.law.specs.Machine.{too_large};
ghost use Rattle.law.specs.Exact.{placed};
ghost use Rattle.walk.specs.Shapes.{shape_meant};
ghost use Rattle.effects.specs.States.{state, Sized, Rewritten};
ghost use Rattle.effects.specs.Makes.{Slot};
ghost use Rattle.objects.specs.Rooms.{There};

use super::clear::clear_slot;
use arena::BuilderArena;
use objects::object::NewObject;
use objects::write::{aim_slot, open_object};
use segments::source::Source;

// Replaces what the object's slot reaches by the object.
pub fn fill_slot<S: Source>(arena: &mut BuilderArena<S>, object: NewObject)
    ensures rewritten { Rewritten (state S.Source arena.old) (state S.Source arena.new) }
    ensures words { (from : State) (u : Value) → memory (state S.Source arena.old) ≡ memory from → Slot from object.slot.segment object.slot.word u → Sized (state S.Source arena.old) → too_large (shape_meant object.shape) ≡ false → object.slot.word < allocated_in (state S.Source arena.old).table object.slot.segment → There (state S.Source arena.old) object → memory (state S.Source arena.new) ≡ placed (memory (state S.Source arena.old)) object.slot.segment object.slot.word u object.start.segment object.start.word (shape_meant object.shape) }
{
    clear_slot(arena, object.slot);
    open_object(arena, object);
    aim_slot(arena, object);
}
