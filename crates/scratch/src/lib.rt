// The scratch layer: 256 words of its own, granted first, and then whatever the source below grants.
#![tactic(auto)]

ghost use Rattle.std.specs.Prelude.{◌≡◌, [], length};
ghost use Rattle.scratch.specs.Bounds.{scratch_bounds};
ghost use Rattle.scratch.specs.Faults.{scratch_fault};
ghost use Rattle.scratch.specs.Scratched.{scratch_segments, scratch_serves, scratch_offers};

use segments::reading::Reading;
use segments::refusal::{Outside, Refusal};
use segments::source::Source;

// The words that a scratch layer holds itself.
#[derive(Drop)]
struct Own {
    words: [u64; 256],
}

// A source below, and 256 words that are the first segment if they are granted.
#[derive(Drop)]
pub struct Scratch<S: Source> {
    own: Option<Own>,
    below: S,
}

// Why a scratch layer refuses a grant: its own words do not serve, and the source below refuses it.
#[derive(Clone, Copy, Debug, PartialEq, Eq)]
pub struct ScratchFault<F> {
    pub below: F,
}

impl<S: Source> Scratch<S> {
    // A scratch layer over `below`, whose segments are all taken back first.
    pub fn new(mut below: S) -> Scratch<S>
        ensures segments { scratch_segments result.own (S.Reading.segments result.below) ≡ [] }
        ensures offers { scratch_offers (length (scratch_segments result.own (S.Reading.segments result.below))) (S.Source.offers result.below) ≡ scratch_offers 0 (S.Source.first below) }
        ensures first { scratch_offers 0 (S.Source.first result.below) ≡ scratch_offers 0 (S.Source.first below) }
        ensures below { S.Source.first result.below ≡ S.Source.first below }
    {
        below.take_back();
        Scratch { own: None, below }
    }

    // The source below.
    pub fn into_below(self) -> S
        ensures answer { result ≡ self.below }
    {
        let Scratch { own: _, below } = self;
        below
    }

    // Whether the own words serve for a grant of `m` words.
    fn serves(&self, m: u32) -> bool
        ensures answer { result ≡ scratch_serves (length (scratch_segments self.now.own (S.Reading.segments self.now.below))) m }
    {
        self.count() == 0 && (1..=256).contains(&m)
    }
}

impl<S: Source> Reading for Scratch<S> {
    ghost segments = { λ s. scratch_segments s.own (S.Reading.segments s.below) };

    fn count(&self) -> usize {
        let n = self.below.count();
        if self.own.is_some() {
            n.saturating_add(1)
        } else {
            n
        }
    }

    fn length(&self, g: usize) -> Option<usize> {
        match &self.own {
            Some(own) if g == 0 => Some(own.words.as_slice().len()),
            Some(_) => self.below.length(g - 1),
            None => self.below.length(g),
        }
    }

    fn read(&self, g: usize, w: usize) -> Option<u64> {
        match &self.own {
            Some(own) if g == 0 => own.words.get(w).copied(),
            Some(_) => self.below.read(g - 1, w),
            None => self.below.read(g, w),
        }
    }
}

impl<S: Source> Source for Scratch<S> {
    type Fault = ScratchFault<S::Fault>;

    ghost offers = { λ s. scratch_offers (length (Self.Reading.segments s)) (S.Source.offers s.below) };

    ghost first = { λ s. scratch_offers 0 (S.Source.first s.below) };

    ghost fault = { λ s m. scratch_fault (S.Source.fault s.below m) };

    ghost bounds = { λ s. scratch_bounds (length (Self.Reading.segments s)) (S.Source.offers s.below) (S.Source.bounds s.below) };

    fn offer(&self, m: u32) -> Option<u32> {
        if self.serves(m) {
            Some(256)
        } else {
            self.below.offer(m)
        }
    }

    fn write(&mut self, g: usize, w: usize, v: u64) -> Result<(), Outside> {
        let outside = Outside {
            segment: g,
            word: w,
        };
        match &mut self.own {
            Some(own) if g == 0 => {
                own.words.get(w).ok_or(outside)?;
                own.words.as_mut_slice()[w] = v;
                Ok(())
            }
            Some(_) => self.below.write(g - 1, w, v).map_err(|_| outside),
            None => self.below.write(g, w, v),
        }
    }

    fn grant(&mut self, m: u32) -> Result<u32, Refusal<ScratchFault<S::Fault>>> {
        if self.serves(m) {
            self.own = Some(Own { words: [0; 256] });
            return Ok(256);
        }
        self.below.grant(m).map_err(|Refusal { minimum, fault }| Refusal {
            minimum,
            fault: ScratchFault { below: fault },
        })
    }

    fn take_back(&mut self) {
        self.own = None;
        self.below.take_back();
    }
}
