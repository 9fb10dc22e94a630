// A number of an object becomes another.
ghost use Rattle.std.specs.Prelude.{◌≡◌, ℕ, ◌<◌, Some, Ok, Result};
ghost use Rattle.tree.specs.Value.{Value};
ghost use Rattle.law.specs.Calls.{write};
ghost use Rattle.law.specs.Law.{memory};
ghost use Rattle.law.specs.Machine.{making, no_number_in};
ghost use Rattle.judging.specs.Rulings.{home_of};
ghost use Rattle.walk.specs.Holding.{Leads};
ghost use Rattle.effects.specs.States.{state, Rewritten};
ghost use Rattle.effects.specs.Makes.{Slot};
ghost use Rattle.making.specs.Numbers.{Numbers};

use arena::BuilderArena;
use elements::kinds::PrimitiveElement;
use judging::numbers::number_word;
use number::home::NumberAt;
use objects::write::put_number;
use segments::source::Source;
use walk::held::Held;

// Puts a number at the index into the object; one without bits changes nothing.
pub fn set_number<S: Source, E: PrimitiveElement + Drop>(
    arena: &mut BuilderArena<S>,
    held: Held,
    at: NumberAt,
    x: E,
)
    ensures rewritten { Rewritten (state S.Source arena.old) (state S.Source arena.new) }
    ensures words { (g w : ℕ) (u : Value) → Slot (state S.Source arena.old) g w u → Leads (memory (state S.Source arena.old)) g w held → no_number_in (home_of at.home) E.PrimitiveElement.code at.index u ≡ 0 → Numbers (memory (state S.Source arena.old)) g w u (making (write (home_of at.home) E.PrimitiveElement.code at.index (E.PrimitiveElement.bits x)) u) (memory (state S.Source arena.new)) }
{
    let element = E::element_size();
    if element.bits() == 0 {
        return;
    }
    let spot = held
        .landing
        .start
        .wrapping_add(number_word(held.shape, at, element));
    put_number(arena, spot, at.index as usize, x);
}
