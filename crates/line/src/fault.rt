// What can be wrong with a line of a script, and with which of its words.
ghost use Rattle.std.specs.Prelude.{◌≡◌};
ghost use Rattle.line.specs.Arguments.{number_fault, path_fault, text_fault};

use number::decimal::NumberFault;
use path::step::PathFault;
use std::alloc::{AllocError, AllocFailed};
use text::hex::TextFault;

#[derive(Clone, Copy, Debug, PartialEq, Eq)]
pub enum Fault {
    UnknownWord,
    MissingArgument,
    ExtraArgument,
    BadNumber,
    NumberTooLarge,
    BadPath,
    PathNumberTooLarge,
    BadKind,
    BadValue,
    BadSource,
    BadLayer,
    TooManyLayers,
    BadHex,
    NoEndOfText,
    BadEscape,
    AfterText,
    UnexpectedText,
    NoCase,
    NoSource,
    SecondSource,
    Memory,
}

// A fault and the place of the word that has it, counted from 0.
#[derive(Clone, Copy, Debug, PartialEq, Eq)]
pub struct Problem {
    pub fault: Fault,
    pub at: usize,
}

impl Fault {
    pub fn at(self, at: usize) -> Problem
        ensures { (result.fault ≡ self) × (result.at ≡ at) }
    {
        Problem { fault: self, at }
    }
}

impl From<NumberFault> for Fault {
    ghost from_gives = { λ n f. f ≡ number_fault n };

    fn from(fault: NumberFault) -> Fault {
        match fault {
            NumberFault::NoDigits => Fault::BadNumber,
            NumberFault::TooLarge => Fault::NumberTooLarge,
        }
    }
}

impl From<PathFault> for Fault {
    ghost from_gives = { λ p f. f ≡ path_fault p };

    fn from(fault: PathFault) -> Fault {
        match fault {
            PathFault::NoSlash | PathFault::BadStep => Fault::BadPath,
            PathFault::TooLarge => Fault::PathNumberTooLarge,
            PathFault::Memory => Fault::Memory,
        }
    }
}

impl From<TextFault> for Fault {
    ghost from_gives = { λ t f. f ≡ text_fault t };

    fn from(fault: TextFault) -> Fault {
        match fault {
            TextFault::BadHex => Fault::BadHex,
            TextFault::NoEnd => Fault::NoEndOfText,
            TextFault::BadEscape => Fault::BadEscape,
            TextFault::Memory => Fault::Memory,
        }
    }
}

impl From<AllocError> for Problem {
    fn from(_e: AllocError) -> Problem {
        Fault::Memory.at(0)
    }
}

impl<T: Drop> From<AllocFailed<T>> for Problem {
    fn from(_e: AllocFailed<T>) -> Problem {
        Fault::Memory.at(0)
    }
}
