// Allocation anywhere: in the first segment that has the words left, else in one that is granted for them.
ghost use Rattle.std.specs.Prelude.{ℕ};
ghost use Rattle.arena.specs.Space.{space_of, Anywhere};

use super::{BuilderArena, NoSpace, SpaceFault};
use segments::source::Source;

impl<S: Source> BuilderArena<S> {
    // Takes `n` words anywhere, and answers their segment and the first of them.
    pub fn allocate_anywhere(&mut self, n: u32) -> Result<(usize, u32), NoSpace<S::Fault>>
        ensures outcome { Anywhere n (S.Source.fault self.old.source) (space_of S.Source self.old) result (space_of S.Source self.new) }
    {
        if let Some(p) = self.table.allocate_first(n) {
            return Ok(p);
        }
        let g = self.table.count();
        if g >= 64 {
            return Err(NoSpace {
                minimum: n,
                fault: SpaceFault::Table,
            });
        }
        let c = self.source.grant(n)?;
        self.table.add(c).unwrap();
        let w = self.table.allocate(g, n).unwrap();
        Ok((g, w))
    }
}
