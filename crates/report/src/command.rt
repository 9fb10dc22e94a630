// What a command would do, in words.
use crate::action::Deed;
use crate::shown::Counted;
use script::command::{Base, Command, Layer, SourceSpec};
use script::read::Numbered;
use std::fmt;

// A command, to be shown as what it would do.
#[derive(Clone, Copy)]
pub struct Plan<'a>(pub &'a Command);

// A source, to be shown with its layers.
#[derive(Clone, Copy)]
pub struct Origin<'a>(pub &'a SourceSpec);

impl fmt::Display for Origin<'_> {
    fn fmt<W: fmt::Write>(&self, f: &mut fmt::Formatter<W>) -> fmt::Result {
        match self.0.base {
            Base::Slab { words, step } => {
                let words = Counted(u64::from(words), "word", "words");
                write!(f, "take segments from a slab of {words} in steps of {step}")?;
            }
            Base::Pages => write!(f, "take segments from eight pages of 256 words")?,
        }
        for layer in self.0.layers.iter() {
            match *layer {
                Layer::Scratch => write!(f, ", with scratch words first")?,
                Layer::Quota { limit } => {
                    let words = Counted(u64::from(limit), "word", "words");
                    write!(f, ", within a quota of {words}")?;
                }
            }
        }
        Ok(())
    }
}

impl fmt::Display for Plan<'_> {
    fn fmt<W: fmt::Write>(&self, f: &mut fmt::Formatter<W>) -> fmt::Result {
        match self.0 {
            Command::Case { name } => write!(f, "begin the case {name}"),
            Command::Source(spec) => Origin(spec).fmt(f),
            Command::Call(call) => Deed(call).fmt(f),
            Command::Dump => write!(f, "print every segment"),
            Command::Frame => write!(f, "print the framed bytes"),
            Command::Grant { minimum } => {
                let words = Counted(u64::from(*minimum), "word", "words");
                write!(f, "ask the source for a segment of {words} at least")
            }
            Command::End => write!(f, "end the case"),
        }
    }
}

// A command of a script, to be shown with the number of its line.
#[derive(Clone, Copy)]
pub struct Entry<'a>(pub &'a Numbered);

impl fmt::Display for Entry<'_> {
    fn fmt<W: fmt::Write>(&self, f: &mut fmt::Formatter<W>) -> fmt::Result {
        let Numbered { line, command } = self.0;
        let plan = Plan(command);
        write!(f, "line {line}: {plan}")
    }
}
