// Going back to a mark, which is the table as it was: words allocated since are zero again, counts are as they were, and segments
// granted since stay, empty.
ghost use Rattle.std.specs.Prelude.{◌≡◌, ℕ, map, length};
ghost use Rattle.table.specs.Meaning.{table_of, rolled_back};
ghost use Rattle.arena.specs.Steady.{Steady};
ghost use Rattle.arena.specs.Zeroed.{rewound_words, Rewound};

use super::BuilderArena;
use super::zeroing::zero_words;
use segments::source::Source;
use table::SegmentTable;

// Zeroes the words that the table allocates and the mark does not. It goes by number, since both tables and the source are asked by it.
fn rewind_words<S: Source>(source: &mut S, table: &SegmentTable, mark: &SegmentTable)
    ensures words { S.Reading.segments source.new ≡ rewound_words (S.Reading.segments source.old) (table_of table.now) (table_of mark.now) (length (table_of table.now)) }
    ensures steady { Steady S.Source source.old source.new }
{
    for g in 0..table.count() {
        let from = mark.allocated(g);
        zero_words(source, g, from, table.allocated(g).saturating_sub(from));
    }
}

impl<S: Source> BuilderArena<S> {
    // Goes back to the mark.
    pub fn roll_back(&mut self, mark: &SegmentTable)
        ensures words { Rewound (S.Reading.segments self.old.source) (S.Reading.segments self.new.source) (table_of self.old.table) (table_of mark.now) }
        ensures sizes { map length (S.Reading.segments self.new.source) ≡ map length (S.Reading.segments self.old.source) }
        ensures table { table_of self.new.table ≡ rolled_back (table_of self.old.table) (table_of mark.now) }
        ensures steady { Steady S.Source self.old.source self.new.source }
    {
        rewind_words(&mut self.source, &self.table, mark);
        self.table.roll_back(mark);
    }
}
