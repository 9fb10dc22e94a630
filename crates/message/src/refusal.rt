// What a call answers where it is accepted, and why it is refused where it is not.
ghost use Rattle.std.specs.Prelude.{◌≡◌};
ghost use Rattle.message.specs.Refusals.{ruled, no_space};

use arena::NoSpace;
use judging::ruling::Ruling;
use walk::shape::Shape;
use walk::spot::Spot;

// A refused call: a ruling on its arguments and its place, or no space for new words.
#[derive(Clone, Copy, Debug, PartialEq, Eq)]
pub enum Refused<F> {
    Ruled(Ruling),
    Crowded(NoSpace<F>),
}

impl<F> From<Ruling> for Refused<F> {
    ghost from_gives = { λ a b. b ≡ ruled a };

    fn from(y: Ruling) -> Refused<F> {
        Refused::Ruled(y)
    }
}

impl<F> From<NoSpace<F>> for Refused<F> {
    ghost from_gives = { λ a b. b ≡ no_space a };

    fn from(y: NoSpace<F>) -> Refused<F> {
        Refused::Crowded(y)
    }
}

// The object of a place that is not null: its sizes, and where the place's pointer leads.
#[derive(Clone, Copy, Debug, PartialEq, Eq)]
pub struct Placed {
    pub shape: Shape,
    pub start: Spot,
}
