// A whole call, or none of it: the root word is there or is allocated, then the edit is made. Where there is no space on the way, words and
// counts are as they were, and segments granted on the way stay, empty.
ghost use Rattle.std.specs.Prelude.{◌≡◌, ℕ, Result};
ghost use Rattle.std.specs.Fn.{FnOnceReturnsAtMut};
ghost use Rattle.tree.specs.Value.{Value};
ghost use Rattle.law.specs.Calls.{Call};
ghost use Rattle.law.specs.Law.{memory, Holds};
ghost use Rattle.law.specs.Machine.{fine, judge};
ghost use Rattle.effects.specs.States.{source_of, state};
ghost use Rattle.effects.specs.Makes.{Performs};
ghost use Rattle.performing.specs.Able.{Edits, Prepares};

use arena::{BuilderArena, NoSpace};
use effects::mark::go_back;
use effects::root::ensure_root;
use segments::source::Source;
use walk::spot::Spot;

// The root word, then the edit.
fn rooted<S: Source, F: FnOnce(&mut BuilderArena<S>) -> Result<Spot, NoSpace<S::Fault>>>(
    arena: &mut BuilderArena<S>,
    edit: F,
) -> Result<Spot, NoSpace<S::Fault>>
    requires { F.IsAlwaysCallable edit }
    ensures outcome { (v : Value) (c : Call) → Holds (source_of S.Source) (state S.Source arena.old) v → judge v c ≡ fine → Edits S.Source (memory (state S.Source arena.old)) v c (FnOnceReturnsAtMut F.FnOnce edit) → Prepares (source_of S.Source) (state S.Source arena.old) v c result (state S.Source arena.new) }
{
    ensure_root(arena)?;
    edit(arena)
}

// Makes the edit, which makes of the call's slot what the call makes of it.
pub(crate) fn whole<S: Source, F: FnOnce(&mut BuilderArena<S>) -> Result<Spot, NoSpace<S::Fault>>>(
    arena: &mut BuilderArena<S>,
    edit: F,
) -> Result<Spot, NoSpace<S::Fault>>
    requires { F.IsAlwaysCallable edit }
    ensures outcome { (v : Value) (c : Call) → Holds (source_of S.Source) (state S.Source arena.old) v → judge v c ≡ fine → Edits S.Source (memory (state S.Source arena.old)) v c (FnOnceReturnsAtMut F.FnOnce edit) → Performs (source_of S.Source) (state S.Source arena.old) v c result (state S.Source arena.new) }
{
    let mark = arena.table;
    let made = rooted(arena, edit);
    if made.is_err() {
        go_back(arena, &mark);
    }
    made
}
