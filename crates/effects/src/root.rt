// The root word of a message.
ghost use Rattle.std.specs.Prelude.{◌≡◌, ℕ};
ghost use Rattle.table.specs.Placing.{root};
ghost use Rattle.effects.specs.States.{source_of, state};
ghost use Rattle.effects.specs.Parts.{Allocates};

use arena::{BuilderArena, NoSpace};
use segments::source::Source;

// Allocates the root word if there is none, and answers where it was allocated.
pub fn ensure_root<S: Source>(
    arena: &mut BuilderArena<S>,
) -> Result<(usize, u32), NoSpace<S::Fault>>
    ensures outcome { Allocates (source_of S.Source) root 1 (state S.Source arena.old) result (λ p. p) (state S.Source arena.new) }
{
    if arena.table.allocated(0) != 0 {
        return Ok((0, 0));
    }
    arena.allocate_anywhere(1)
}
