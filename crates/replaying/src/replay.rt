// A list of calls, one after another.
ghost use Rattle.std.specs.Prelude.{◌≡◌, ℕ, length, take, drop, nat_le, is_ok, OnOk, OnErr};
ghost use Rattle.tree.specs.Value.{Value};
ghost use Rattle.law.specs.Law.{Holds};
ghost use Rattle.effects.specs.States.{source_of};
ghost use Rattle.message.specs.Drafts.{drafted};
ghost use Rattle.replaying.specs.Calls.{deeds_of, replies_of};
ghost use Rattle.replaying.specs.Replays.{Replayed};

use super::calls::Call;
use super::play::play;
use super::reply::Reply;
use message::draft::Draft;
use segments::source::Source;

// There are more calls than places for their answers.
#[derive(Clone, Copy, Debug, PartialEq, Eq)]
pub struct TooFew;

// Makes the calls on the draft, and puts their answers into the first of the replies. Where these are too few nothing is done.
pub fn replay<S: Source>(
    draft: &mut Draft<S>,
    calls: &[Call],
    replies: &mut [Reply],
) -> Result<(), TooFew>
    ensures enough { is_ok result ≡ nat_le (length calls.now) (length replies.old) }
    ensures nothing { OnErr result ((drafted S.Source draft.new ≡ drafted S.Source draft.old) × (replies.new ≡ replies.old)) }
    ensures run { OnOk result ((v : Value) → Holds (source_of S.Source) (drafted S.Source draft.old) v → Replayed (source_of S.Source) (drafted S.Source draft.old) v (deeds_of calls.now) (replies_of (take (length calls.now) replies.new)) (drafted S.Source draft.new)) }
    ensures rest { drop (length calls.now) replies.new ≡ drop (length calls.now) replies.old }
{
    if replies.len() < calls.len() {
        return Err(TooFew);
    }
    for (i, call) in calls.iter().enumerate() {
        replies[i] = play(draft, call);
    }
    Ok(())
}
