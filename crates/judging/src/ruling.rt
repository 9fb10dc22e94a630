// Rulings against a call, and the places of numbers.
ghost use Rattle.std.specs.Prelude.{◌≡◌};
ghost use Rattle.judging.specs.declared.ruling.Ruling.TheVariants as rulings;

use walk::route;
use wire::sizes;

// Why a call is refused. Each has its number in the law: 1 to 10 in this order.
#[derive(Clone, Copy, Debug, PartialEq, Eq)]
pub enum Ruling {
    // the path is too long, or has a step of no known kind or with a number that its kind does not use
    BadPath,
    // this step, counted from 0, goes nowhere
    Nowhere { step: usize },
    // a list of rows is not made by its code
    ListCode,
    // there is no object
    EmptyPlace,
    LongText,
    // there is a list where a struct is wanted
    NoStruct,
    // there is a struct where a list is wanted
    NoList,
    // bits do not become rows
    BitList,
    // no such number
    Outside,
    TooLarge,
}

impl From<route::Nowhere> for Ruling {
    ghost from_gives = { λ e y. y ≡ rulings.Nowhere e.step };

    fn from(e: route::Nowhere) -> Ruling {
        Ruling::Nowhere { step: e.step }
    }
}

impl From<sizes::TooLarge> for Ruling {
    ghost from_gives = { λ _ y. y ≡ rulings.TooLarge };

    fn from(_e: sizes::TooLarge) -> Ruling {
        Ruling::TooLarge
    }
}

impl From<sizes::UnknownCode> for Ruling {
    ghost from_gives = { λ _ y. y ≡ rulings.ListCode };

    fn from(_e: sizes::UnknownCode) -> Ruling {
        Ruling::ListCode
    }
}
