// What a call would do, in words.
use crate::shown::{At, Counted, Quote, Sections};
use number::home::{Home, NumberAt};
use number::kind::Kind;
use script::command::{Action, Call};
use std::fmt;

// A call, to be shown as what it would do.
#[derive(Clone, Copy)]
pub struct Deed<'a>(pub &'a Call);

// A number of an object, with its kind.
#[derive(Clone, Copy)]
struct Slot(Kind, NumberAt);

impl fmt::Display for Slot {
    fn fmt<W: fmt::Write>(&self, f: &mut fmt::Formatter<W>) -> fmt::Result {
        let Slot(kind, NumberAt { home, index }) = *self;
        match home {
            Home::Field => write!(f, "{kind} field {index} of the struct"),
            Home::Row(row) => write!(f, "{kind} field {index} of row {row} of the struct list"),
            Home::Item => write!(f, "{kind} element {index} of the list"),
        }
    }
}

impl fmt::Display for Deed<'_> {
    fn fmt<W: fmt::Write>(&self, f: &mut fmt::Formatter<W>) -> fmt::Result {
        let at = At(&self.0.place);
        match &self.0.action {
            Action::Struct(size) => {
                let sections = Sections(*size);
                write!(f, "set up a struct of {sections} {at}")
            }
            Action::List { code, count } => {
                let elements = Counted(u64::from(*count), "element", "elements");
                write!(f, "set up a list of {elements} of code {code} {at}")
            }
            Action::Rows { count, size } => {
                let (rows, sections) = (Counted(u64::from(*count), "row", "rows"), Sections(*size));
                write!(f, "set up a struct list of {rows} of {sections} {at}")
            }
            Action::GrowStruct(size) => {
                let sections = Sections(*size);
                write!(f, "widen the struct {at} to {sections} at least")
            }
            Action::GrowRows(size) => {
                let sections = Sections(*size);
                write!(f, "widen each row of the list {at} to {sections} at least")
            }
            Action::Set { at: place, value } => {
                let slot = Slot(value.kind(), *place);
                write!(f, "write {value} into {slot} {at}")
            }
            Action::Text { bytes } => {
                let text = Quote(bytes.as_slice());
                write!(f, "write the text {text} {at}")
            }
            Action::Clear => write!(f, "clear what is {at}"),
            Action::Get { at: place, kind } => {
                let slot = Slot(*kind, *place);
                write!(f, "read {slot} {at}")
            }
        }
    }
}
