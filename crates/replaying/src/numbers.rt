// The write and the read of a number of any kind.
ghost use Rattle.std.specs.Prelude.{◌≡◌, ℕ};
ghost use Rattle.law.specs.Calls.{write};
ghost use Rattle.law.specs.Reads.{number};
ghost use Rattle.walk.specs.Slots.{steps_of};
ghost use Rattle.judging.specs.Rulings.{home_of};
ghost use Rattle.effects.specs.States.{source_of};
ghost use Rattle.message.specs.Drafts.{drafted};
ghost use Rattle.sessions.specs.Sessions.{edit, ask};
ghost use Rattle.replaying.specs.Calls.{code_in, bits_in, code_of_kind, reply_of};
ghost use Rattle.replaying.specs.Replays.{Plays};

use super::reply::{Answer, Reply};
use message::draft::Draft;
use number::home::NumberAt;
use number::kind::{Kind, Value};
use path::step::Step;
use segments::source::Source;

// Writes the number.
pub fn set<S: Source>(draft: &mut Draft<S>, path: &[Step], at: NumberAt, x: Value) -> Reply
    ensures plays { Plays (source_of S.Source) (drafted S.Source draft.old) (edit (record { path = steps_of path.entry.now; edit = write (home_of at.home) (code_in x) at.index (bits_in x) })) (reply_of result) (drafted S.Source draft.new) }
{
    match x {
        Value::Void => draft.set_number(path, at, ())?,
        Value::Bool(b) => draft.set_number(path, at, b)?,
        Value::U8(n) => draft.set_number(path, at, n)?,
        Value::U16(n) => draft.set_number(path, at, n)?,
        Value::U32(n) => draft.set_number(path, at, n)?,
        Value::U64(n) => draft.set_number(path, at, n)?,
        Value::I32(n) => draft.set_number(path, at, n)?,
    }
    Ok(Answer::Done)
}

// Reads the number of the kind.
pub fn get<S: Source>(draft: &Draft<S>, path: &[Step], at: NumberAt, kind: Kind) -> Reply
    ensures plays { Plays (source_of S.Source) (drafted S.Source draft.now) (ask (steps_of path.now) (number (home_of at.home) (code_of_kind kind) at.index)) (reply_of result) (drafted S.Source draft.now) }
{
    let value = match kind {
        Kind::Void => draft.get_number(path, at).map(|()| Value::Void)?,
        Kind::Bool => Value::Bool(draft.get_number(path, at)?),
        Kind::U8 => Value::U8(draft.get_number(path, at)?),
        Kind::U16 => Value::U16(draft.get_number(path, at)?),
        Kind::U32 => Value::U32(draft.get_number(path, at)?),
        Kind::U64 => Value::U64(draft.get_number(path, at)?),
        Kind::I32 => Value::I32(draft.get_number(path, at)?),
    };
    Ok(Answer::Value(value))
}
