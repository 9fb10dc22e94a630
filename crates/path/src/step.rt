// One step of a path, read and shown: `pN`, `eN`, `rIpN`, or any three numbers as `k:e:p`.
ghost use Rattle.std.specs.Prelude.{◌≡◌, Some};
ghost use Rattle.path.specs.Steps.{Pointer, Element, Row, Free, StepText, Exactly, shown_step};
ghost use Rattle.path.specs.declared.step.PathFault.TheVariants.{Memory};

use number::decimal::{NumberFault, read_number};
use std::alloc::{AllocError, AllocFailed};
use std::fmt;

// Kind 0 is a pointer of a struct, 1 an element of a list of pointers, 2 a pointer of a row of a struct list. Others lead nowhere: a path may
// name any numbers, and a call refuses it by a ruling, so the kind is a number and no enum.
#[derive(Clone, Copy, Debug, PartialEq, Eq, Default)]
pub struct Step {
    pub kind: u32,
    pub element: u32,
    pub pointer: u32,
}

// Why a word is no path.
#[derive(Clone, Copy, Debug, PartialEq, Eq)]
pub enum PathFault {
    NoSlash,
    BadStep,
    TooLarge,
    Memory,
}

impl From<AllocError> for PathFault {
    ghost from_gives = { λ _ r. r ≡ Memory };

    fn from(_e: AllocError) -> PathFault {
        PathFault::Memory
    }
}

impl<T: Drop> From<AllocFailed<T>> for PathFault {
    ghost from_gives = { λ _ r. r ≡ Memory };

    fn from(_e: AllocFailed<T>) -> PathFault {
        PathFault::Memory
    }
}

impl From<NumberFault> for PathFault {
    fn from(e: NumberFault) -> PathFault {
        match e {
            NumberFault::NoDigits => PathFault::BadStep,
            NumberFault::TooLarge => PathFault::TooLarge,
        }
    }
}

fn pointer_step(digits: &str) -> Result<Step, PathFault>
    ensures { Exactly (Pointer digits.now) result }
{
    Ok(Step {
        pointer: read_number(digits)?,
        ..Step::default()
    })
}

fn element_step(digits: &str) -> Result<Step, PathFault>
    ensures { Exactly (Element digits.now) result }
{
    Ok(Step {
        kind: 1,
        element: read_number(digits)?,
        ..Step::default()
    })
}

fn row_step(word: &str) -> Result<Step, PathFault>
    ensures { Exactly (Row word.now) result }
{
    let (row, place) = word.split_once('p').ok_or(PathFault::BadStep)?;
    Ok(Step {
        kind: 2,
        element: read_number(row)?,
        pointer: read_number(place)?,
    })
}

fn free_step(word: &str) -> Result<Step, PathFault>
    ensures { Exactly (Free word.now) result }
{
    let (first, rest) = word.split_once(':').ok_or(PathFault::BadStep)?;
    let (second, third) = rest.split_once(':').ok_or(PathFault::BadStep)?;
    Ok(Step {
        kind: read_number(first)?,
        element: read_number(second)?,
        pointer: read_number(third)?,
    })
}

pub fn read_step(word: &str) -> Result<Step, PathFault>
    ensures { Exactly (StepText word.now) result }
{
    if let Some(digits) = word.strip_prefix('p') {
        return pointer_step(digits);
    }
    if let Some(digits) = word.strip_prefix('e') {
        return element_step(digits);
    }
    if let Some(rest) = word.strip_prefix('r') {
        return row_step(rest);
    }
    free_step(word)
}

impl fmt::Display for Step {
    ghost output = { λ s. Some (shown_step s) };

    fn fmt<W: fmt::Write>(&self, f: &mut fmt::Formatter<W>) -> fmt::Result {
        let Step {
            kind,
            element,
            pointer,
        } = *self;
        if kind == 0 && element == 0 {
            write!(f, "p{pointer}")
        } else if kind == 1 && pointer == 0 {
            write!(f, "e{element}")
        } else if kind == 2 {
            write!(f, "r{element}p{pointer}")
        } else {
            write!(f, "{kind}:{element}:{pointer}")
        }
    }
}
