// Where a new object goes.
ghost use Rattle.std.specs.Prelude.{◌≡◌, ℕ, ◌+◌, ◌<◌, Bool, false, length};
ghost use Rattle.tree.specs.Value.{size};
ghost use Rattle.table.specs.Segments.{allocated_in};
ghost use Rattle.table.specs.Placing.{place};
ghost use Rattle.law.specs.Machine.{too_large};
ghost use Rattle.law.specs.Exact.{place_shape};
ghost use Rattle.walk.specs.Shapes.{shape_meant};
ghost use Rattle.walk.specs.Spots.{spot_of};
ghost use Rattle.effects.specs.States.{source_of, state};
ghost use Rattle.effects.specs.Parts.{Allocates};
ghost use Rattle.objects.specs.Rooms.{Roomy};

use super::pointer::object_words;
use arena::{BuilderArena, NoSpace};
use segments::source::Source;
use walk::shape::Shape;
use walk::spot::Spot;

// Takes `n` words for a slot in segment `g`.
fn take_words<S: Source>(
    arena: &mut BuilderArena<S>,
    g: usize,
    n: u32,
) -> Result<(usize, u32), NoSpace<S::Fault>>
    ensures outcome { g < length (state S.Source arena.old).table → n < 4294967295 → Allocates (source_of S.Source) (λ k. place k g n) (n + 1) (state S.Source arena.old) result (λ p. p) (state S.Source arena.new) }
{
    arena.place(g, n)
}

// Takes the words of an object of this shape for the slot, and answers where it begins; an empty struct takes none and stands for its slot.
pub fn place_shape<S: Source>(
    arena: &mut BuilderArena<S>,
    shape: Shape,
    slot: Spot,
) -> Result<Spot, NoSpace<S::Fault>>
    ensures outcome { too_large (shape_meant shape) ≡ false → slot.word < allocated_in (state S.Source arena.old).table slot.segment → Allocates (source_of S.Source) (λ k. place_shape k slot.segment slot.word (shape_meant shape)) (size (shape_meant shape) + 1) (state S.Source arena.old) result spot_of (state S.Source arena.new) }
    ensures roomy { too_large (shape_meant shape) ≡ false → slot.word < allocated_in (state S.Source arena.old).table slot.segment → Roomy result (state S.Source arena.new).table slot.segment (shape_meant shape) }
{
    if shape.has_no_words() {
        return Ok(slot);
    }
    let (segment, word) = take_words(arena, slot.segment, object_words(shape))?;
    Ok(Spot {
        segment,
        word: word as usize,
    })
}
