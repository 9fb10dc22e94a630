// What calls answer.
ghost use Rattle.std.specs.Prelude.{◌≡◌};
ghost use Rattle.replaying.specs.Calls.{refused_as};
ghost use Rattle.replaying.specs.declared.reply.Refusal.TheVariants.{Ruled};

use judging::ruling::Ruling;
use message::refusal::{Placed, Refused};
use number::kind::Value;
use walk::shape::Shape;

// The answer to a call: of an edit the object of the place, or only that it is done; the number or the sizes that were asked for.
#[derive(Clone, Copy, Debug, PartialEq, Eq)]
pub enum Answer {
    Placed(Option<Placed>),
    Done,
    Value(Value),
    Sizes(Option<Shape>),
}

// Why a call is refused: a ruling, or no space for a segment of this many words.
#[derive(Clone, Copy, Debug, PartialEq, Eq)]
pub enum Refusal {
    Ruled(Ruling),
    Crowded { minimum: u32 },
}

pub type Reply = Result<Answer, Refusal>;

impl From<Ruling> for Refusal {
    ghost from_gives = { λ a b. b ≡ Ruled a };

    fn from(y: Ruling) -> Refusal {
        Refusal::Ruled(y)
    }
}

impl<F: Drop> From<Refused<F>> for Refusal {
    ghost from_gives = { λ a b. b ≡ refused_as a };

    fn from(y: Refused<F>) -> Refusal {
        match y {
            Refused::Ruled(y) => Refusal::Ruled(y),
            Refused::Crowded(y) => Refusal::Crowded { minimum: y.minimum },
        }
    }
}
