// The children of an object move to the slots of a larger one, in rising order. Rows and pointers are numbers of a shape, with no list behind
// them, and so are the loops.
ghost use Rattle.std.specs.Prelude.{ℕ, ◌<◌};
ghost use Rattle.tree.specs.Value.{rows};
ghost use Rattle.law.specs.Law.{State};
ghost use Rattle.walk.specs.Landings.{landing_of};
ghost use Rattle.walk.specs.Shapes.{shape_meant};
ghost use Rattle.effects.specs.States.{source_of, state};
ghost use Rattle.widen.specs.Moves.{Carries, RowMoved, ChildrenMoved};

use super::transfer::transfer_pointer;
use arena::{BuilderArena, NoSpace};
use objects::object::NewObject;
use segments::source::Source;
use walk::held::Held;

// The children of row `i`.
fn move_row<S: Source>(
    arena: &mut BuilderArena<S>,
    old: Held,
    new: NewObject,
    i: u32,
) -> Result<(), NoSpace<S::Fault>>
    ensures outcome { (mark : State) → Carries mark (state S.Source arena.old) (landing_of old.landing) (shape_meant old.shape) new.start.segment new.start.word (shape_meant new.shape) → i < rows (shape_meant old.shape) → RowMoved (source_of S.Source) mark (landing_of old.landing) (shape_meant old.shape) new.start.segment new.start.word (shape_meant new.shape) i (state S.Source arena.old) result (state S.Source arena.new) }
{
    for j in 0..old.shape.pointers() {
        let from = old.landing.start.wrapping_add(old.shape.slot(i, j));
        let to = new.start.wrapping_add(new.shape.slot(i, j));
        transfer_pointer(arena, from, to)?;
    }
    Ok(())
}

// The children of the old object, to the slots of the new one, which is larger.
pub fn move_children<S: Source>(
    arena: &mut BuilderArena<S>,
    old: Held,
    new: NewObject,
) -> Result<(), NoSpace<S::Fault>>
    ensures outcome { (mark : State) → Carries mark (state S.Source arena.old) (landing_of old.landing) (shape_meant old.shape) new.start.segment new.start.word (shape_meant new.shape) → ChildrenMoved (source_of S.Source) mark (landing_of old.landing) (shape_meant old.shape) new.start.segment new.start.word (shape_meant new.shape) (state S.Source arena.old) result (state S.Source arena.new) }
{
    for i in 0..old.shape.rows() {
        move_row(arena, old, new, i)?;
    }
    Ok(())
}
