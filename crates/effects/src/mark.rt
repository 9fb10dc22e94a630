// Going back to a mark after a call found no space.
ghost use Rattle.std.specs.Prelude.{◌≡◌, ℕ, List, ◌++◌};
ghost use Rattle.table.specs.Meaning.{table_of};
ghost use Rattle.table.specs.Segments.{capacities};
ghost use Rattle.law.specs.Law.{State};
ghost use Rattle.effects.specs.States.{state, Sized, Clean, Prepared, Back};

use arena::BuilderArena;
use segments::source::Source;
use table::SegmentTable;

// Goes back to the mark, the table as it was. If only new words were prepared since, all words and counts are as they were, and the
// segments granted since stay, empty.
pub fn go_back<S: Source>(arena: &mut BuilderArena<S>, mark: &SegmentTable)
    ensures back { (m : State) (met : List ℕ) → m.table ≡ table_of mark.now → Sized m → Clean m → Prepared m (state S.Source arena.old) → capacities (table_of arena.old.table) ≡ capacities m.table ++ met → Back m met (state S.Source arena.old) (state S.Source arena.new) }
{
    arena.roll_back(mark);
}
