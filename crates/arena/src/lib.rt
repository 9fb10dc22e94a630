// An arena: a source of segments with the table of those that it granted.
#![tactic(auto)]

ghost use Rattle.std.specs.Prelude.{◌≡◌};
ghost use Rattle.arena.specs.Faults.{source_fault};

use segments::refusal::Refusal;
use table::SegmentTable;

pub mod allocation;
pub mod mark;
pub mod placing;
pub mod rule;
pub mod zeroing;

// A source with the table of its segments.
pub struct BuilderArena<S> {
    pub source: S,
    pub table: SegmentTable,
}

// Which part had no space: the table, which has 64 segments, or the source, which granted none.
#[derive(Clone, Copy, Debug, PartialEq, Eq)]
pub enum SpaceFault<F> {
    Table,
    Source(F),
}

// No space for a segment of at least `minimum` words, and why.
#[derive(Clone, Copy, Debug, PartialEq, Eq)]
pub struct NoSpace<F> {
    pub minimum: u32,
    pub fault: SpaceFault<F>,
}

impl<F> From<Refusal<F>> for NoSpace<F> {
    ghost from_gives = { λ a b. b ≡ source_fault a };

    fn from(r: Refusal<F>) -> NoSpace<F> {
        let Refusal { minimum, fault } = r;
        NoSpace {
            minimum,
            fault: SpaceFault::Source(fault),
        }
    }
}
