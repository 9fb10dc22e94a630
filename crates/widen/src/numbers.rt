// The numbers of an object are written to the places of a larger one. Rows and places are numbers of a shape, with no list behind them, and so
// are the loops.
ghost use Rattle.std.specs.Prelude.{◌≡◌, ℕ, ◌<◌};
ghost use Rattle.tree.specs.Value.{rows};
ghost use Rattle.law.specs.Law.{State, memory};
ghost use Rattle.law.specs.Exact.{copied};
ghost use Rattle.walk.specs.Landings.{landing_of};
ghost use Rattle.walk.specs.Shapes.{shape_meant};
ghost use Rattle.effects.specs.States.{state, Rewritten};
ghost use Rattle.widen.specs.Numbers.{Copies, row_copied, Put};

use arena::BuilderArena;
use effects::words::write_word;
use objects::object::NewObject;
use segments::source::Source;
use walk::held::Held;
use walk::spot::word_at;

// The numbers of row `i`.
fn copy_row<S: Source>(arena: &mut BuilderArena<S>, old: Held, new: NewObject, i: u32)
    ensures rewritten { Rewritten (state S.Source arena.old) (state S.Source arena.new) }
    ensures words { (mark : State) → Copies mark (state S.Source arena.old) (landing_of old.landing) (shape_meant old.shape) new.start.segment new.start.word (shape_meant new.shape) → i < rows (shape_meant old.shape) → Put mark (row_copied (memory mark) (landing_of old.landing) (shape_meant old.shape) new.start.segment new.start.word (shape_meant new.shape) i (memory (state S.Source arena.old))) (state S.Source arena.new) }
{
    for k in 0..old.shape.places().min(new.shape.places()) {
        let from = old.landing.start.wrapping_add(old.shape.place_word(i, k));
        let x = old.shape.number_in(word_at(&arena.source, from), i);
        let to = new.start.wrapping_add(new.shape.place_word(i, k));
        write_word(arena, to, x);
    }
}

// The numbers of the old object, to the places of the new one, which is larger.
pub fn copy_numbers<S: Source>(arena: &mut BuilderArena<S>, old: Held, new: NewObject)
    ensures rewritten { Rewritten (state S.Source arena.old) (state S.Source arena.new) }
    ensures words { (mark : State) → Copies mark (state S.Source arena.old) (landing_of old.landing) (shape_meant old.shape) new.start.segment new.start.word (shape_meant new.shape) → Put mark (copied (memory mark) (landing_of old.landing) (shape_meant old.shape) new.start.segment new.start.word (shape_meant new.shape) (memory (state S.Source arena.old))) (state S.Source arena.new) }
{
    for i in 0..old.shape.rows() {
        copy_row(arena, old, new, i);
    }
}
