// A slot becomes null.
ghost use Rattle.std.specs.Prelude.{◌≡◌, ℕ, ◌<◌};
ghost use Rattle.tree.specs.Value.{Value};
ghost use Rattle.table.specs.Segments.{allocated_in};
ghost use Rattle.law.specs.Law.{State, memory};
ghost use Rattle.law.specs.Exact.{wiped};
ghost use Rattle.effects.specs.States.{state, Sized, Rewritten};
ghost use Rattle.effects.specs.Makes.{Slot};

use arena::BuilderArena;
use effects::words::write_word;
use layout::zeroing::zero_object;
use segments::source::Source;
use walk::spot::Spot;

// Zeroes the slot and all that it reaches.
pub fn clear_slot<S: Source>(arena: &mut BuilderArena<S>, slot: Spot)
    ensures rewritten { Rewritten (state S.Source arena.old) (state S.Source arena.new) }
    ensures words { (s : State) (u : Value) → memory (state S.Source arena.old) ≡ memory s → Slot s slot.segment slot.word u → Sized (state S.Source arena.old) → slot.word < allocated_in (state S.Source arena.old).table slot.segment → memory (state S.Source arena.new) ≡ wiped (memory (state S.Source arena.old)) slot.segment slot.word u }
{
    zero_object(&mut arena.source, slot);
    write_word(arena, slot, 0);
}
