// The counting layer, for tests: it passes every call on to the source below, and counts the accepted writes and grants.
#![tactic(auto)]

ghost use Rattle.std.specs.Prelude.{◌≡◌, [], replicate, if◌then◌else◌, Some, None, nat_lt, slice_index};
ghost use Rattle.segments.specs.Calls.{Written, Granted};
ghost use Rattle.counting.specs.Tally.{more, after_strike, after_write, after_grant};

use segments::reading::Reading;
use segments::refusal::{Outside, Refusal};
use segments::source::Source;

// The numbers of accepted writes and grants, and how many of these writes met each of the first 256 words of segment 0. They stop at
// 2^64 - 1.
#[derive(Drop)]
struct Counts {
    writes: u64,
    grants: u64,
    hits: [u64; 256],
}

// One more.
fn bump(n: &mut u64)
    ensures more { n.new ≡ more n.old }
{
    *n = n.saturating_add(1);
}

impl Counts {
    // Counts an accepted write of word `w` of segment `g`.
    fn strike(&mut self, g: usize, w: usize)
        ensures counts { self.new ≡ after_strike g w self.old }
    {
        bump(&mut self.writes);
        if g == 0 && w < 256 {
            bump(&mut self.hits[w]);
        }
    }
}

// A source below, and what is counted of the calls on it; taking back leaves the counts.
#[derive(Drop)]
pub struct Counting<S: Source> {
    below: S,
    counts: Counts,
}

impl<S: Source> Counting<S> {
    // A counting layer over `below`, whose segments are all taken back first.
    pub fn new(mut below: S) -> Counting<S>
        ensures segments { S.Reading.segments result.below ≡ [] }
        ensures offers { S.Source.offers result.below ≡ S.Source.first below }
        ensures first { S.Source.first result.below ≡ S.Source.first below }
        ensures writes { result.counts.writes ≡ 0 }
        ensures grants { result.counts.grants ≡ 0 }
        ensures hits { result.counts.hits ≡ replicate 256 0 }
    {
        below.take_back();
        Counting {
            below,
            counts: Counts {
                writes: 0,
                grants: 0,
                hits: [0; 256],
            },
        }
    }

    // The source below.
    pub fn into_below(self) -> S
        ensures answer { result ≡ self.below }
    {
        let Counting { below, counts: _ } = self;
        below
    }

    // How many writes were accepted.
    pub fn writes(&self) -> u64
        ensures answer { result ≡ self.now.counts.writes }
    {
        self.counts.writes
    }

    // How many grants were accepted.
    pub fn grants(&self) -> u64
        ensures answer { result ≡ self.now.counts.grants }
    {
        self.counts.grants
    }

    // How many accepted writes met word `w` of segment 0, for the first 256 words; none for others.
    pub fn hits(&self, w: usize) -> Option<u64>
        ensures answer { result ≡ (if nat_lt w 256 then Some (slice_index self.now.counts.hits w) else None) }
    {
        self.counts.hits.get(w).copied()
    }
}

impl<S: Source> Reading for Counting<S> {
    ghost segments = { λ s. S.Reading.segments s.below };

    fn count(&self) -> usize {
        self.below.count()
    }

    fn length(&self, g: usize) -> Option<usize> {
        self.below.length(g)
    }

    fn read(&self, g: usize, w: usize) -> Option<u64> {
        self.below.read(g, w)
    }
}

impl<S: Source> Source for Counting<S> {
    type Fault = S::Fault;

    ghost offers = { λ s. S.Source.offers s.below };

    ghost first = { λ s. S.Source.first s.below };

    ghost fault = { λ s. S.Source.fault s.below };

    ghost bounds = { λ s. S.Source.bounds s.below };

    fn offer(&self, m: u32) -> Option<u32> {
        self.below.offer(m)
    }

    fn write(&mut self, g: usize, w: usize, v: u64) -> Result<(), Outside>
        ensures outcome { Written result (S.Reading.segments self.old.below) (S.Reading.segments self.new.below) g w v }
        ensures offers { S.Source.offers self.new.below ≡ S.Source.offers self.old.below }
        ensures first { S.Source.first self.new.below ≡ S.Source.first self.old.below }
        ensures fault { S.Source.fault self.new.below ≡ S.Source.fault self.old.below }
        ensures counts { self.new.counts ≡ after_write result g w self.old.counts }
    {
        self.below.write(g, w, v)?;
        self.counts.strike(g, w);
        Ok(())
    }

    fn grant(&mut self, m: u32) -> Result<u32, Refusal<S::Fault>>
        ensures outcome { Granted result m (S.Reading.segments self.old.below) (S.Reading.segments self.new.below) (S.Source.offers self.old.below) (S.Source.offers self.new.below) (S.Source.fault self.old.below) (S.Source.fault self.new.below) }
        ensures first { S.Source.first self.new.below ≡ S.Source.first self.old.below }
        ensures counts { self.new.counts ≡ after_grant result self.old.counts }
    {
        let c = self.below.grant(m)?;
        bump(&mut self.counts.grants);
        Ok(c)
    }

    fn take_back(&mut self)
        ensures segments { S.Reading.segments self.new.below ≡ [] }
        ensures offers { S.Source.offers self.new.below ≡ S.Source.first self.old.below }
        ensures first { S.Source.first self.new.below ≡ S.Source.first self.old.below }
        ensures counts { self.new.counts ≡ self.old.counts }
    {
        self.below.take_back();
    }
}
