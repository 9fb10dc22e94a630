// A whole script: each line is a command, is blank, or has a problem that is noted with its line.
use crate::args::Args;
use crate::calls::read_call;
use crate::command::Command;
use crate::source::read_source;
use line::fault::{Fault, Problem};
use line::stage::{Sort, Stage, Turn, sort_of, take_turn};
use std::alloc::{AllocError, Global};
use text::cut::{Line, cut_line};

// A command and the number of its line, from 1.
#[derive(Drop)]
pub struct Numbered {
    pub line: usize,
    pub command: Command,
}

// What is wrong with a line, and the word that it is about.
#[derive(Drop)]
pub struct BadLine {
    pub line: usize,
    pub fault: Fault,
    pub word: String,
}

#[derive(Drop)]
pub struct Script {
    pub commands: Vec<Numbered>,
    pub bad: Vec<BadLine>,
}

// The command of a line that has words.
pub fn read_command(heap: Global, line: &Line) -> Result<Command, Problem> {
    let mut args = Args {
        words: line.words.as_slice(),
        quoted: line.quoted,
        at: 0,
    };
    let verb = args.word()?;
    if sort_of(verb) == Sort::Unknown {
        return Err(Fault::UnknownWord.at(0));
    }
    if args.quoted.is_some() && verb != "text" {
        return Err(Fault::UnexpectedText.at(args.words.len()));
    }
    let command = match verb {
        "case" => {
            let word = args.word()?;
            args.end()?;
            Command::Case {
                name: String::from_str(heap, word)?,
            }
        }
        "source" => Command::Source(read_source(heap, &mut args)?),
        "dump" => Command::Dump,
        "frame" => Command::Frame,
        "grant" => Command::Grant {
            minimum: args.number()?,
        },
        "end" => Command::End,
        _ => Command::Call(read_call(heap, verb, &mut args)?),
    };
    args.end()?;
    Ok(command)
}

// The word that a problem is about, or the last one where a word is missing.
fn blamed(heap: Global, words: &[&str], at: usize) -> Result<String, AllocError> {
    let word = words.get(at).or_else(|| words.last());
    String::from_str(heap, word.copied().unwrap_or(""))
}

impl Script {
    fn note(&mut self, line: usize, fault: Fault, word: String) -> Result<(), AllocError> {
        self.bad.push(BadLine { line, fault, word })?;
        Ok(())
    }

    // A line that has words, at its turn.
    fn take(
        &mut self,
        heap: Global,
        number: usize,
        line: &Line,
        turn: Turn,
    ) -> Result<(), AllocError> {
        let read = match turn.fault {
            Some(fault) => Err(fault.at(0)),
            None => read_command(heap, line),
        };
        match read {
            Ok(command) => self.commands.push(Numbered {
                line: number,
                command,
            })?,
            Err(Problem { fault, at }) => {
                self.note(number, fault, blamed(heap, line.words.as_slice(), at)?)?
            }
        }
        Ok(())
    }

    // A line at a stage, and the stage after it.
    fn turn(
        &mut self,
        heap: Global,
        number: usize,
        line: &Line,
        stage: Stage,
    ) -> Result<Stage, AllocError> {
        let Some(verb) = line.words.first() else {
            if line.quoted.is_some() {
                self.note(number, Fault::UnexpectedText, String::new(heap))?;
            }
            return Ok(stage);
        };
        let turn = take_turn(stage, sort_of(verb));
        self.take(heap, number, line, turn)?;
        Ok(turn.stage)
    }
}

pub fn read_script(heap: Global, text: &str) -> Result<Script, AllocError> {
    let mut script = Script {
        commands: Vec::new(heap),
        bad: Vec::new(heap),
    };
    let mut stage = Stage::Outside;
    let mut last = 0;
    for (text_line, number) in text.lines().zip(1..) {
        let line = cut_line(heap, text_line)?;
        stage = script.turn(heap, number, &line, stage)?;
        last = number;
    }
    if stage == Stage::Named {
        script.note(last, Fault::NoSource, String::from_str(heap, "the end")?)?;
    }
    Ok(script)
}
