// Lists of calls from a new draft, and one list over two sources: what holds of every list over every source.
ghost use Rattle.std.specs.Prelude.{◌≡◌, ℕ, ◌≤◌, ◌&&◌, length, take, nat_le, is_ok, OnOk, OnErr};
ghost use Rattle.tree.specs.Value.{Value};
ghost use Rattle.law.specs.Law.{Holds};
ghost use Rattle.effects.specs.States.{source_of};
ghost use Rattle.message.specs.Drafts.{drafted};
ghost use Rattle.replaying.specs.Calls.{deeds_of, replies_of};
ghost use Rattle.replaying.specs.Replays.{Built, Uncrowded, Agreed};

use super::calls::Call;
use super::replay::{TooFew, replay};
use super::reply::Reply;
use message::draft::Draft;
use segments::source::Source;

// A draft over the source on which the calls were made, with their answers in the first of the replies. Where these are too few no call is
// made.
pub fn build<S: Source>(source: S, calls: &[Call], replies: &mut [Reply]) -> Draft<S>
    ensures built { length calls.now ≤ length replies.old → Built (source_of S.Source) (deeds_of calls.now) (replies_of (take (length calls.now) replies.new)) (drafted S.Source result) }
{
    let mut draft = Draft::begin(source);
    let _ = replay(&mut draft, calls, replies);
    draft
}

// Makes the calls on two drafts, over whatever two sources. If both hold the same tree before, and no call gets "no space", answers and trees
// are the same. Where the replies are too few no call is made.
pub fn agree<S: Source, T: Source>(
    a: &mut Draft<S>,
    b: &mut Draft<T>,
    calls: &[Call],
    ys: &mut [Reply],
    zs: &mut [Reply],
) -> Result<(), TooFew>
    ensures enough { is_ok result ≡ (nat_le (length calls.now) (length ys.old) && nat_le (length calls.now) (length zs.old)) }
    ensures nothing { OnErr result ((drafted S.Source a.new ≡ drafted S.Source a.old) × (drafted T.Source b.new ≡ drafted T.Source b.old) × (ys.new ≡ ys.old) × (zs.new ≡ zs.old)) }
    ensures agreed { OnOk result ((v : Value) → Holds (source_of S.Source) (drafted S.Source a.old) v → Holds (source_of T.Source) (drafted T.Source b.old) v → Uncrowded (replies_of (take (length calls.now) ys.new)) → Uncrowded (replies_of (take (length calls.now) zs.new)) → Agreed (source_of S.Source) (source_of T.Source) (replies_of (take (length calls.now) ys.new)) (replies_of (take (length calls.now) zs.new)) (drafted S.Source a.new) (drafted T.Source b.new)) }
{
    if ys.len() < calls.len() || zs.len() < calls.len() {
        return Err(TooFew);
    }
    replay(a, calls, ys)?;
    replay(b, calls, zs)
}
