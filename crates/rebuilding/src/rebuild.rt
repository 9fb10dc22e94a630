// An object is rebuilt in a larger shape: new words with its numbers and children, then its slot leads there.
ghost use Rattle.std.specs.Prelude.{◌≡◌, Bool, false};
ghost use Rattle.tree.specs.Value.{Value};
ghost use Rattle.law.specs.Law.{State, memory};
ghost use Rattle.law.specs.Machine.{too_large, rebuild};
ghost use Rattle.law.specs.Exact.{opened, copied, closed};
ghost use Rattle.walk.specs.Landings.{landing_of};
ghost use Rattle.walk.specs.Shapes.{shape_meant};
ghost use Rattle.walk.specs.Holding.{Leads};
ghost use Rattle.effects.specs.States.{source_of, state, Rewritten};
ghost use Rattle.effects.specs.Makes.{Slot, Makes};
ghost use Rattle.widen.specs.Numbers.{Put};
ghost use Rattle.rebuilding.specs.Growth.{Larger};
ghost use Rattle.rebuilding.specs.Steps.{Opens, Closes};

use arena::{BuilderArena, NoSpace};
use layout::zeroing::zero_landing;
use objects::object::NewObject;
use objects::place::place_shape;
use objects::write::{aim_slot, open_object};
use segments::source::Source;
use walk::held::Held;
use walk::shape::Shape;
use walk::spot::Spot;
use widen::children::move_children;
use widen::numbers::copy_numbers;

// Writes the new object's pad and tag and the numbers of the old one.
fn open_larger<S: Source>(arena: &mut BuilderArena<S>, old: Held, new: NewObject)
    ensures rewritten { Rewritten (state S.Source arena.old) (state S.Source arena.new) }
    ensures words { (mark : State) → Opens mark (state S.Source arena.old) new.slot.segment (landing_of old.landing) (shape_meant old.shape) new.start.segment new.start.word (shape_meant new.shape) → Put mark (copied (memory mark) (landing_of old.landing) (shape_meant old.shape) new.start.segment new.start.word (shape_meant new.shape) (opened (memory mark) new.slot.segment new.start.segment new.start.word (shape_meant new.shape))) (state S.Source arena.new) }
{
    open_object(arena, new);
    copy_numbers(arena, old, new);
}

// Zeroes the old object and its pads, and lets the slot lead to the new one.
fn close_old<S: Source>(arena: &mut BuilderArena<S>, old: Held, new: NewObject)
    ensures rewritten { Rewritten (state S.Source arena.old) (state S.Source arena.new) }
    ensures words { Closes (state S.Source arena.old) new.slot.segment new.slot.word (landing_of old.landing) (shape_meant old.shape) new.start.segment new.start.word (shape_meant new.shape) → memory (state S.Source arena.new) ≡ closed (memory (state S.Source arena.old)) new.slot.segment new.slot.word (landing_of old.landing) (shape_meant old.shape) new.start.segment new.start.word (shape_meant new.shape) }
{
    zero_landing(&mut arena.source, old);
    aim_slot(arena, new);
}

// Rebuilds the object to which the slot leads in a larger shape, and answers where it lies then.
pub fn rebuild_object<S: Source>(
    arena: &mut BuilderArena<S>,
    slot: Spot,
    old: Held,
    larger: Shape,
) -> Result<Spot, NoSpace<S::Fault>>
    ensures outcome { (u : Value) → Slot (state S.Source arena.old) slot.segment slot.word u → Leads (memory (state S.Source arena.old)) slot.segment slot.word old → Larger (shape_meant old.shape) (shape_meant larger) → too_large (shape_meant larger) ≡ false → Makes (source_of S.Source) (state S.Source arena.old) slot.segment slot.word u (rebuild (shape_meant larger)) result (state S.Source arena.new) }
{
    let start = place_shape(arena, larger, slot)?;
    let new = NewObject {
        shape: larger,
        slot,
        start,
    };
    open_larger(arena, old, new);
    move_children(arena, old, new)?;
    close_old(arena, old, new);
    Ok(start)
}
