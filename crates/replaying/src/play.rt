// One call.
ghost use Rattle.std.specs.Prelude.{◌≡◌, ℕ, List, []};
ghost use Rattle.effects.specs.States.{source_of};
ghost use Rattle.message.specs.Drafts.{drafted, call_of};
ghost use Rattle.sessions.specs.Sessions as deeds;
ghost use Rattle.replaying.specs.Calls.{deed_of, reply_of};
ghost use Rattle.replaying.specs.Replays.{Plays};

use super::calls::{Action, Call};
use super::numbers::{get, set};
use super::reply::{Answer, Reply};
use deciding::edit::Edit;
use message::draft::Draft;
use path::step::Step;
use segments::source::Source;

// Makes the edit; one that writes a text writes the empty one.
fn make<S: Source>(draft: &mut Draft<S>, path: &[Step], edit: Edit) -> Reply
    ensures plays { Plays (source_of S.Source) (drafted S.Source draft.old) (deeds.edit (call_of path.now edit [])) (reply_of result) (drafted S.Source draft.new) }
{
    let placed = draft.make(path, edit, &[])?;
    match edit {
        Edit::Text | Edit::Clear => Ok(Answer::Done),
        _ => Ok(Answer::Placed(placed)),
    }
}

// Makes the call on the draft.
pub fn play<S: Source>(draft: &mut Draft<S>, call: &Call) -> Reply
    ensures plays { Plays (source_of S.Source) (drafted S.Source draft.old) (deed_of call.now) (reply_of result) (drafted S.Source draft.new) }
{
    let path = call.path.as_slice();
    match &call.action {
        Action::Edit(edit) => make(draft, path, *edit),
        Action::Text(bytes) => {
            draft.set_text(path, bytes.as_slice())?;
            Ok(Answer::Done)
        }
        Action::Set(at, value) => set(draft, path, *at, *value),
        Action::Get(at, kind) => get(draft, path, *at, *kind),
        Action::Sizes => Ok(Answer::Sizes(draft.get_sizes(path)?)),
    }
}
