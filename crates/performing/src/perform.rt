// A whole call: an edit, or the write of a number.
ghost use Rattle.std.specs.Prelude.{◌≡◌, ℕ};
ghost use Rattle.tree.specs.Value.{Value};
ghost use Rattle.law.specs.Calls.{Call};
ghost use Rattle.law.specs.Law.{memory, Holds};
ghost use Rattle.judging.specs.Rulings.{home_of};
ghost use Rattle.effects.specs.States.{source_of, state};
ghost use Rattle.effects.specs.Makes.{Performs};
ghost use Rattle.performing.specs.Able.{Ready, ReadyNumber};

use super::make::make;
use super::whole::whole;
use arena::{BuilderArena, NoSpace};
use deciding::decision::Decision;
use elements::kinds::PrimitiveElement;
use making::set::set_number;
use number::home::NumberAt;
use segments::source::Source;
use walk::held::Held;
use walk::spot::Spot;

// Makes at the site what was decided.
pub fn perform<S: Source>(
    arena: &mut BuilderArena<S>,
    decision: Decision,
    bytes: &[u8],
) -> Result<Spot, NoSpace<S::Fault>>
    ensures outcome { (v : Value) (c : Call) → Holds (source_of S.Source) (state S.Source arena.old) v → Ready (memory (state S.Source arena.old)) v c decision.site decision.making bytes.now → Performs (source_of S.Source) (state S.Source arena.old) v c result (state S.Source arena.new) }
{
    let Decision { site, making, .. } = decision;
    whole(arena, |arena| make(arena, site.slot, making, bytes))
}

// Puts the number into the object.
pub fn perform_number<S: Source, E: PrimitiveElement + Drop>(
    arena: &mut BuilderArena<S>,
    held: Held,
    at: NumberAt,
    x: E,
) -> Result<Spot, NoSpace<S::Fault>>
    ensures outcome { (v : Value) (c : Call) → Holds (source_of S.Source) (state S.Source arena.old) v → ReadyNumber (memory (state S.Source arena.old)) v c held (home_of at.home) E.PrimitiveElement.code at.index (E.PrimitiveElement.bits x) → Performs (source_of S.Source) (state S.Source arena.old) v c result (state S.Source arena.new) }
{
    whole(arena, |arena| {
        set_number(arena, held, at, x);
        Ok(held.landing.start)
    })
}
