// A draft: a message that is being built over a source of segments.
ghost use Rattle.std.specs.Prelude.{◌≡◌, ℕ, List, [], length, slice_index_or};
ghost use Rattle.table.specs.Segments.{allocated_in};
ghost use Rattle.law.specs.Law.{memory, Begun};
ghost use Rattle.effects.specs.States.{source_of};
ghost use Rattle.message.specs.Drafts.{drafted};

use arena::BuilderArena;
use segments::reading::Reading;
use segments::source::Source;
use table::SegmentTable;
use walk::spot::{Spot, word_at};

// Words and counts are changed only by the calls on it.
pub struct Draft<S> {
    pub(crate) arena: BuilderArena<S>,
}

impl<S: Source> Draft<S> {
    // A draft of nothing over the source, whose segments are taken back first.
    pub fn begin(mut source: S) -> Draft<S>
        ensures begun { Begun (source_of S.Source) (drafted S.Source result) }
        ensures first { (drafted S.Source result).source.first_offers ≡ S.Source.first source }
    {
        source.take_back();
        Draft {
            arena: BuilderArena {
                source,
                table: SegmentTable::new(),
            },
        }
    }

    // How many segments there are.
    pub fn count(&self) -> usize
        ensures value { result ≡ length (drafted S.Source self.now).table }
    {
        self.arena.table.count()
    }

    // How many words segment `g` has, 0 where there is none.
    pub fn capacity(&self, g: usize) -> usize
        ensures value { result ≡ length (slice_index_or (drafted S.Source self.now).source.segments g []) }
    {
        self.arena.source.length(g).unwrap_or(0)
    }

    // How many words of segment `g` are allocated, 0 where there is none.
    pub fn allocated(&self, g: usize) -> u32
        ensures value { result ≡ allocated_in (drafted S.Source self.now).table g }
    {
        self.arena.table.allocated(g)
    }

    // Word `w` of segment `g`, 0 where there is none.
    pub fn word(&self, g: usize, w: usize) -> u64
        ensures value { result ≡ memory (drafted S.Source self.now) g w }
    {
        word_at(
            &self.arena.source,
            Spot {
                segment: g,
                word: w,
            },
        )
    }
}
