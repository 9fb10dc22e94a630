// The words of a line, taken one after another: each reader takes the next word, and a problem is at the place of the word.
use line::args::{ends_at, kind_at, number_at, place_at, value_at, word_at};
use line::fault::Problem;
use number::decimal::Decimal;
use number::kind::{Kind, Value};
use path::place::Place;
use std::alloc::Global;
use wire::sizes::StructSize;

// The words of a line, the text in quotes behind them, if there is one, and the place of the next word.
#[derive(Clone, Copy)]
pub struct Args<'a> {
    pub words: &'a [&'a str],
    pub quoted: Option<&'a str>,
    pub at: usize,
}

impl<'a> Args<'a> {
    // Takes a word: its place.
    fn step(&mut self) -> usize {
        let at = self.at;
        self.at = at.saturating_add(1);
        at
    }

    pub fn word(&mut self) -> Result<&'a str, Problem> {
        word_at(self.words, self.step())
    }

    pub fn number<T: Decimal>(&mut self) -> Result<T, Problem> {
        number_at(self.words, self.step())
    }

    pub fn kind(&mut self) -> Result<Kind, Problem> {
        kind_at(self.words, self.step())
    }

    pub fn value(&mut self, kind: Kind) -> Result<Value, Problem> {
        value_at(self.words, self.step(), kind)
    }

    pub fn place(&mut self, heap: Global) -> Result<Place, Problem> {
        place_at(heap, self.words, self.step())
    }

    pub fn size(&mut self) -> Result<StructSize, Problem> {
        let data = self.number()?;
        let pointers = self.number()?;
        Ok(StructSize { data, pointers })
    }

    pub fn is_empty(&self) -> bool {
        self.at >= self.words.len()
    }

    // No word is left.
    pub fn end(&self) -> Result<(), Problem> {
        ends_at(self.words, self.at)
    }
}
