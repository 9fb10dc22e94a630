// The arguments of a line by their place: each is there and is what the command wants, or the line has a problem at that place.
ghost use Rattle.std.specs.Prelude.{◌≡◌, ◌<◌, ◌≤◌, ◌⊎◌, List, length, MatchResult, Ok};
ghost use Rattle.number.specs.Kinds.{kind_name, ValueText};
ghost use Rattle.line.specs.Arguments.{word_at, Exactly};
ghost use Rattle.line.specs.declared.fault.Fault.TheVariants.{Memory};
ghost use Rattle.path.specs.Paths.{PathText};
ghost use Rattle.path.specs.declared.step.Step.{Step as AStep};

use crate::fault::{Fault, Problem};
use number::decimal::{Decimal, read_number};
use number::kind::{Kind, Value, read_kind, read_value};
use path::place::{Place, read_place};
use std::alloc::Global;

pub fn word_at<'a>(words: &[&'a str], at: usize) -> Result<&'a str, Problem>
    ensures { MatchResult result (λ w. (at < length words.now) × (w.now ≡ word_at words.now at)) (λ p. length words.now ≤ at) }
{
    words.get(at).copied().ok_or(Fault::MissingArgument.at(at))
}

// No word stands at this place.
pub fn ends_at(words: &[&str], at: usize) -> Result<(), Problem>
    ensures { MatchResult result (λ _. length words.now ≤ at) (λ p. at < length words.now) }
{
    if words.len() > at {
        return Err(Fault::ExtraArgument.at(at));
    }
    Ok(())
}

pub fn number_at<T: Decimal>(words: &[&str], at: usize) -> Result<T, Problem>
    ensures { Exactly (λ n. T.reads (word_at words.now at) (Ok n)) result }
{
    read_number(word_at(words, at)?).map_err(|fault| Fault::from(fault).at(at))
}

pub fn kind_at(words: &[&str], at: usize) -> Result<Kind, Problem>
    ensures { Exactly (λ k. word_at words.now at ≡ kind_name k) result }
{
    read_kind(word_at(words, at)?).ok_or(Fault::BadKind.at(at))
}

pub fn value_at(words: &[&str], at: usize, kind: Kind) -> Result<Value, Problem>
    ensures { Exactly (ValueText kind (word_at words.now at)) result }
{
    read_value(kind, word_at(words, at)?).map_err(|_| Fault::BadValue.at(at))
}

pub fn place_at(heap: Global, words: &[&str], at: usize) -> Result<Place, Problem>
    ensures { MatchResult result (λ p. PathText (word_at words.now at) p.steps.items) (λ e. (e.fault ≡ Memory) ⊎ ((ss : List AStep) → PathText (word_at words.now at) ss → ⊥)) }
{
    read_place(heap, word_at(words, at)?).map_err(|fault| Fault::from(fault).at(at))
}
