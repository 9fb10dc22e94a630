// The order of a case's lines: its name, its source, then its calls. A fault does not stop the reading, so that every bad line is found.
ghost use Rattle.std.specs.Prelude.{◌≡◌};
ghost use Rattle.line.specs.Order.{right, faulty, after_outside, after_named, after_ready, following};

use crate::fault::Fault;

// How far a case has come: none is begun, its name is known, its source is known.
#[derive(Clone, Copy, Debug, PartialEq, Eq)]
pub enum Stage {
    Outside,
    Named,
    Ready,
}

// What a line is, by its first word.
#[derive(Clone, Copy, Debug, PartialEq, Eq)]
pub enum Sort {
    Case,
    Source,
    Call,
    End,
    Unknown,
}

// The stage after a line, and what is wrong with the line's order.
#[derive(Clone, Copy, Debug, PartialEq, Eq)]
pub struct Turn {
    pub stage: Stage,
    pub fault: Option<Fault>,
}

pub fn sort_of(verb: &str) -> Sort {
    match verb {
        "case" => Sort::Case,
        "source" => Sort::Source,
        "end" => Sort::End,
        "dump" | "frame" | "grant" | "clear" | "text" => Sort::Call,
        "struct" | "list" | "rows" | "grow-struct" | "grow-rows" => Sort::Call,
        "field" | "row" | "item" | "get-field" | "get-row" | "get-item" => Sort::Call,
        _ => Sort::Unknown,
    }
}

impl Turn {
    fn to(stage: Stage) -> Turn
        ensures { result ≡ right stage }
    {
        Turn { stage, fault: None }
    }

    fn wrong(stage: Stage, fault: Fault) -> Turn
        ensures { result ≡ faulty stage fault }
    {
        Turn {
            stage,
            fault: Some(fault),
        }
    }
}

fn after_outside(sort: Sort) -> Turn
    ensures { result ≡ after_outside sort }
{
    match sort {
        Sort::Case => Turn::to(Stage::Named),
        Sort::Unknown => Turn::to(Stage::Outside),
        Sort::Source | Sort::Call | Sort::End => Turn::wrong(Stage::Outside, Fault::NoCase),
    }
}

fn after_named(sort: Sort) -> Turn
    ensures { result ≡ after_named sort }
{
    match sort {
        Sort::Source => Turn::to(Stage::Ready),
        Sort::Unknown => Turn::to(Stage::Named),
        Sort::End => Turn::wrong(Stage::Outside, Fault::NoSource),
        Sort::Case | Sort::Call => Turn::wrong(Stage::Named, Fault::NoSource),
    }
}

fn after_ready(sort: Sort) -> Turn
    ensures { result ≡ after_ready sort }
{
    match sort {
        Sort::Case => Turn::to(Stage::Named),
        Sort::End => Turn::to(Stage::Outside),
        Sort::Source => Turn::wrong(Stage::Ready, Fault::SecondSource),
        Sort::Call | Sort::Unknown => Turn::to(Stage::Ready),
    }
}

pub fn take_turn(stage: Stage, sort: Sort) -> Turn
    ensures { result ≡ following stage sort }
{
    match stage {
        Stage::Outside => after_outside(sort),
        Stage::Named => after_named(sort),
        Stage::Ready => after_ready(sort),
    }
}
