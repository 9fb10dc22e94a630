// A slot is initialised: its value is replaced by zeros and nulls of a shape, or by a text.
ghost use Rattle.std.specs.Prelude.{◌≡◌, ℕ, ◌+◌, ◌^◌, ◌<◌, Bool, false, length};
ghost use Rattle.tree.specs.Value.{Value};
ghost use Rattle.law.specs.Machine.{too_large, text_shape, new, spell};
ghost use Rattle.walk.specs.Shapes.{shape_meant};
ghost use Rattle.effects.specs.States.{source_of, state};
ghost use Rattle.effects.specs.Makes.{Slot, Makes};

use super::fill::fill_slot;
use arena::{BuilderArena, NoSpace};
use objects::object::NewObject;
use objects::place::place_shape;
use objects::text::spell;
use segments::source::Source;
use walk::shape::Shape;
use walk::spot::Spot;
use wire::sizes::ElementSize;

// Replaces the value of the slot by an object of this shape, and answers where it lies.
pub fn init_object<S: Source>(
    arena: &mut BuilderArena<S>,
    slot: Spot,
    shape: Shape,
) -> Result<Spot, NoSpace<S::Fault>>
    ensures outcome { (u : Value) → Slot (state S.Source arena.old) slot.segment slot.word u → too_large (shape_meant shape) ≡ false → Makes (source_of S.Source) (state S.Source arena.old) slot.segment slot.word u (new (shape_meant shape)) result (state S.Source arena.new) }
{
    let start = place_shape(arena, shape, slot)?;
    fill_slot(arena, NewObject { shape, slot, start });
    Ok(start)
}

// The shape of a text: its bytes and a zero byte, as far as 32 bits count.
fn text_shape(bytes: &[u8]) -> Shape
    ensures value { length bytes.now + 1 < 2 ^ 29 → shape_meant result ≡ text_shape bytes.now }
{
    let count = bytes.len().saturating_add(1).min(u32::MAX as usize);
    Shape::Plain(ElementSize::Byte, count as u32)
}

// Replaces the value of the slot by a text, and answers where it lies.
pub fn init_text<S: Source>(
    arena: &mut BuilderArena<S>,
    slot: Spot,
    bytes: &[u8],
) -> Result<Spot, NoSpace<S::Fault>>
    ensures outcome { (u : Value) → Slot (state S.Source arena.old) slot.segment slot.word u → length bytes.now + 1 < 2 ^ 29 → Makes (source_of S.Source) (state S.Source arena.old) slot.segment slot.word u (spell bytes.now) result (state S.Source arena.new) }
{
    let shape = text_shape(bytes);
    let text = place_shape(arena, shape, slot)?;
    fill_slot(
        arena,
        NewObject {
            shape,
            slot,
            start: text,
        },
    );
    spell(arena, text, bytes);
    Ok(text)
}
