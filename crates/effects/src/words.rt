// One word of an arena.
ghost use Rattle.std.specs.Prelude.{◌≡◌, ℕ, ◌<◌};
ghost use Rattle.tree.specs.Value.{change};
ghost use Rattle.law.specs.Law.{memory};
ghost use Rattle.table.specs.Segments.{allocated_in};
ghost use Rattle.effects.specs.States.{state, Sized, Rewritten};

use arena::BuilderArena;
use segments::source::Source;
use walk::spot::Spot;

// Puts `x` into the word there; nothing changes where there is no such word.
pub fn write_word<S: Source>(arena: &mut BuilderArena<S>, spot: Spot, x: u64)
    ensures rewritten { Rewritten (state S.Source arena.old) (state S.Source arena.new) }
    ensures words { Sized (state S.Source arena.old) → spot.word < allocated_in (state S.Source arena.old).table spot.segment → memory (state S.Source arena.new) ≡ change (memory (state S.Source arena.old)) spot.segment spot.word x }
{
    let _ = arena.source.write(spot.segment, spot.word, x);
}
