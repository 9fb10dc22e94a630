// What a table is asked and how it changes.
ghost use Rattle.std.specs.Prelude.{◌≡◌, ℕ, ◌-◌, [], length, position, slice_get, nat_le};
ghost use Rattle.std.specs.Option.{option_map_or};
ghost use Rattle.table.specs.Segments.{allocated_in};
ghost use Rattle.table.specs.Meaning.{table_of, next_words, with_words, first_room, first_words, with_first_words, added, with_segment, rolled_back};

use super::{AddError, SegmentEntry, SegmentTable};

impl SegmentEntry {
    // The words left.
    fn left(&self) -> u32
        ensures { result ≡ self.now.capacity - self.now.allocated }
    {
        self.capacity - self.allocated
    }
}

// The allocated words of entry `g`, 0 where there is none.
fn allocated_at(entries: &[SegmentEntry], g: usize) -> u32
    ensures { result ≡ option_map_or (λ e. e.allocated) (slice_get entries.now g) 0 }
{
    entries.get(g).map_or(0, |e| e.allocated)
}

// The first entry with `n` words left.
fn first_with(entries: &[SegmentEntry], n: u32) -> Option<usize>
    ensures { result ≡ position (λ e. nat_le n (e.capacity - e.allocated)) entries.now }
{
    entries.iter().position(|e| n <= e.left())
}

impl SegmentTable {
    // A table without segments.
    pub fn new() -> SegmentTable
        ensures value { table_of result ≡ [] }
    {
        SegmentTable {
            count: 0,
            entries: [SegmentEntry {
                allocated: 0,
                capacity: 0,
            }; 64],
        }
    }

    // How many segments there are.
    pub fn count(&self) -> usize
        ensures value { result ≡ length (table_of self.now) }
    {
        self.count
    }

    // The allocated words of segment `g`, 0 where there is none.
    pub fn allocated(&self, g: usize) -> u32
        ensures value { result ≡ allocated_in (table_of self.now) g }
    {
        allocated_at(&self.entries[..self.count], g)
    }

    // Takes the next `n` words of segment `g`, if as many are left, and answers the first of them.
    pub fn allocate(&mut self, g: usize, n: u32) -> Option<u32>
        ensures value { result ≡ next_words (table_of self.old) g n }
        ensures after { table_of self.new ≡ with_words (table_of self.old) g n }
    {
        let e = *self.entries[..self.count].get(g)?;
        if n > e.left() {
            return None;
        }
        self.entries[g].allocated += n;
        Some(e.allocated)
    }

    // The first segment with `n` words left.
    pub fn first_fit(&self, n: u32) -> Option<usize>
        ensures value { result ≡ first_room (table_of self.now) n }
    {
        first_with(&self.entries[..self.count], n)
    }

    // Takes `n` words of the first segment that has as many left, and answers the segment and the first of them.
    #[tactic(auto, using(crate::proofs::Entries::first_taken))]
    pub fn allocate_first(&mut self, n: u32) -> Option<(usize, u32)>
        ensures value { result ≡ first_words (table_of self.old) n }
        ensures after { table_of self.new ≡ with_first_words (table_of self.old) n }
    {
        let g = self.first_fit(n)?;
        let w = self.allocate(g, n)?;
        Some((g, w))
    }

    // One more segment of `c` words, none of them allocated.
    pub fn add(&mut self, c: u32) -> Result<(), AddError>
        ensures value { result ≡ added (table_of self.old) c }
        ensures after { table_of self.new ≡ with_segment (table_of self.old) c }
    {
        if self.count >= 64 {
            return Err(AddError::Full);
        }
        if c >= 1 << 29 {
            return Err(AddError::TooLarge);
        }
        self.entries[self.count] = SegmentEntry {
            allocated: 0,
            capacity: c,
        };
        self.count += 1;
        Ok(())
    }

    // The same segments, each allocated as far as at the mark; those that came later are empty.
    pub fn roll_back(&mut self, mark: &SegmentTable)
        ensures after { table_of self.new ≡ rolled_back (table_of self.old) (table_of mark.now) }
    {
        let mut entries = self.entries;
        for (k, e) in entries[..self.count].iter_mut().enumerate() {
            e.allocated = mark.allocated(k).min(e.capacity);
        }
        self.entries = entries;
    }
}
