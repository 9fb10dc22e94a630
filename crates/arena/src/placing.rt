// Placing: where an object for a slot goes, and where a landing pad for a child goes.
ghost use Rattle.std.specs.Prelude.{ℕ};
ghost use Rattle.arena.specs.Space.{space_of, Placed, Padded};

use super::{BuilderArena, NoSpace};
use segments::source::Source;

impl<S: Source> BuilderArena<S> {
    // Takes `n` words for an object whose slot is in segment `g`: there, or anywhere with a landing pad in front. Answers the
    // object's segment and first word; where that is another segment, the pad is the word before it.
    pub fn place(&mut self, g: usize, n: u32) -> Result<(usize, u32), NoSpace<S::Fault>>
        ensures outcome { Placed g n (S.Source.fault self.old.source) (space_of S.Source self.old) result (space_of S.Source self.new) }
    {
        if let Some(w) = self.table.allocate(g, n) {
            return Ok((g, w));
        }
        let (s, w) = self.allocate_anywhere(n.saturating_add(1))?;
        Ok((s, w + 1))
    }

    // Takes a landing pad for a child in segment `g`: a word there, or two words anywhere.
    pub fn place_pad(&mut self, g: usize) -> Result<(usize, u32), NoSpace<S::Fault>>
        ensures outcome { Padded g (S.Source.fault self.old.source) (space_of S.Source self.old) result (space_of S.Source self.new) }
    {
        if let Some(w) = self.table.allocate(g, 1) {
            return Ok((g, w));
        }
        self.allocate_anywhere(2)
    }
}
