// The words of a new object: its landing pad, its tag and its slot; and numbers in words.
ghost use Rattle.std.specs.Prelude.{◌≡◌, ℕ, ◌-◌, ◌^◌, ◌<◌, ◌≤◌, Bool, false};
ghost use Rattle.wire.specs.Elements.{element_put};
ghost use Rattle.tree.specs.Value.{change};
ghost use Rattle.table.specs.Segments.{allocated_in};
ghost use Rattle.law.specs.Law.{memory};
ghost use Rattle.law.specs.Machine.{too_large};
ghost use Rattle.law.specs.Exact.{padded, tagged, opened, slot_word};
ghost use Rattle.walk.specs.Shapes.{shape_meant};
ghost use Rattle.effects.specs.States.{state, Sized, Rewritten};
ghost use Rattle.objects.specs.Rooms.{There};

use super::object::NewObject;
use super::pointer::pointer_to;
use arena::BuilderArena;
use effects::words::write_word;
use elements::kinds::PrimitiveElement;
use elements::put_element;
use segments::source::Source;
use walk::shape::Shape;
use walk::spot::{Spot, word_at};
use wire::pointers::WirePointer;

// Writes the landing pad of the object, if its slot is in another segment: the word before it.
fn write_pad<S: Source>(arena: &mut BuilderArena<S>, object: NewObject)
    ensures rewritten { Rewritten (state S.Source arena.old) (state S.Source arena.new) }
    ensures words { Sized (state S.Source arena.old) → too_large (shape_meant object.shape) ≡ false → There (state S.Source arena.old) object → memory (state S.Source arena.new) ≡ padded (memory (state S.Source arena.old)) object.slot.segment object.start.segment object.start.word (shape_meant object.shape) }
{
    let NewObject { shape, slot, start } = object;
    if start.segment == slot.segment {
        return;
    }
    if shape.has_no_words() {
        return;
    }
    let pad = Spot {
        word: start.word.saturating_sub(1),
        ..start
    };
    write_word(arena, pad, pointer_to(shape, pad.word, start.word).word);
}

// Writes the tag of a struct list, its first word.
fn write_tag<S: Source>(arena: &mut BuilderArena<S>, object: NewObject)
    ensures rewritten { Rewritten (state S.Source arena.old) (state S.Source arena.new) }
    ensures words { Sized (state S.Source arena.old) → too_large (shape_meant object.shape) ≡ false → There (state S.Source arena.old) object → memory (state S.Source arena.new) ≡ tagged (memory (state S.Source arena.old)) object.start.segment object.start.word (shape_meant object.shape) }
{
    if let Shape::Composite(n, size) = object.shape {
        write_word(arena, object.start, WirePointer::tag(n, size).word);
    }
}

// Writes pad and tag of an object of zeros and nulls.
pub fn open_object<S: Source>(arena: &mut BuilderArena<S>, object: NewObject)
    ensures rewritten { Rewritten (state S.Source arena.old) (state S.Source arena.new) }
    ensures words { Sized (state S.Source arena.old) → too_large (shape_meant object.shape) ≡ false → There (state S.Source arena.old) object → memory (state S.Source arena.new) ≡ opened (memory (state S.Source arena.old)) object.slot.segment object.start.segment object.start.word (shape_meant object.shape) }
{
    write_pad(arena, object);
    write_tag(arena, object);
}

// Lets the slot lead to the object.
pub fn aim_slot<S: Source>(arena: &mut BuilderArena<S>, object: NewObject)
    ensures rewritten { Rewritten (state S.Source arena.old) (state S.Source arena.new) }
    ensures words { Sized (state S.Source arena.old) → too_large (shape_meant object.shape) ≡ false → object.slot.word < allocated_in (state S.Source arena.old).table object.slot.segment → There (state S.Source arena.old) object → memory (state S.Source arena.new) ≡ change (memory (state S.Source arena.old)) object.slot.segment object.slot.word (slot_word object.slot.segment object.slot.word object.start.segment object.start.word (shape_meant object.shape)) }
{
    write_word(arena, object.slot, object.slot_pointer().word);
}

// Puts a number of its kind at the index into the word there.
pub fn put_number<S: Source, E: PrimitiveElement>(
    arena: &mut BuilderArena<S>,
    spot: Spot,
    index: usize,
    x: E,
)
    ensures rewritten { Rewritten (state S.Source arena.old) (state S.Source arena.new) }
    ensures words { Sized (state S.Source arena.old) → spot.word < allocated_in (state S.Source arena.old).table spot.segment → memory (state S.Source arena.new) ≡ change (memory (state S.Source arena.old)) spot.segment spot.word (element_put (memory (state S.Source arena.old) spot.segment spot.word) E.PrimitiveElement.code index (E.PrimitiveElement.bits x)) }
{
    let word = word_at(&arena.source, spot);
    write_word(arena, spot, put_element::<E>(word, index, x));
}
