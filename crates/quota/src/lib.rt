// The quota layer: the source below, as long as its segments have at most a limit of words in all.
#![tactic(auto)]

ghost use Rattle.std.specs.Prelude.{◌≡◌, ◌+◌, ◌≤◌, ◌↔◌, [], IsSome, nat_le};
ghost use Rattle.quota.specs.Bounds.{quota_bounds};
ghost use Rattle.quota.specs.Capped.{granted, over, quota_offers};
ghost use Rattle.quota.specs.Faults.{quota_fault};

use segments::reading::Reading;
use segments::refusal::{Outside, Refusal};
use segments::source::Source;

// A source below, and how many words its segments may have in all.
#[derive(Drop)]
pub struct Quota<S: Source> {
    below: S,
    limit: u64,
}

// Why a quota layer refuses a grant.
#[derive(Clone, Copy, Debug, PartialEq, Eq)]
pub enum QuotaFault<F> {
    // the source below refuses it
    Refused { below: F },
    // the segment that is offered below would pass the limit
    Over { capacity: u32 },
}

impl<S: Source> Quota<S> {
    // A quota layer of `limit` words over `below`, whose segments are all taken back first.
    pub fn new(mut below: S, limit: u64) -> Quota<S>
        ensures segments { S.Reading.segments result.below ≡ [] }
        ensures offers { quota_offers (S.Reading.segments result.below) result.limit (S.Source.offers result.below) ≡ quota_offers [] limit (S.Source.first below) }
        ensures first { quota_offers [] result.limit (S.Source.first result.below) ≡ quota_offers [] limit (S.Source.first below) }
        ensures below { S.Source.first result.below ≡ S.Source.first below }
    {
        below.take_back();
        Quota { below, limit }
    }

    // The source below.
    pub fn into_below(self) -> S
        ensures answer { result ≡ self.below }
    {
        let Quota { below, limit: _ } = self;
        below
    }

    // What the limit leaves beside the words granted so far and `c` more, if they stay within it. Segments are asked by number: a source has
    // no list of them.
    fn left(&self, c: u32) -> Option<u64>
        ensures answer { IsSome result ↔ (granted (S.Reading.segments self.now.below) + c ≤ self.now.limit) }
    {
        let mut left = self.limit.checked_sub(u64::from(c))?;
        for g in 0..self.below.count() {
            left = left.checked_sub(self.below.length(g).unwrap_or(0) as u64)?;
        }
        Some(left)
    }

    // Whether the words granted so far and `c` more stay within the limit.
    fn admits(&self, c: u32) -> bool
        ensures answer { result ≡ nat_le (granted (S.Reading.segments self.now.below) + c) self.now.limit }
    {
        self.left(c).is_some()
    }

    // The capacity that is offered below for `m` words, if it would pass the limit.
    fn passing(&self, m: u32) -> Option<u32>
        ensures answer { result ≡ over (granted (S.Reading.segments self.now.below)) self.now.limit (S.Source.offers self.now.below m) }
    {
        self.below.offer(m).filter(|c| !self.admits(*c))
    }
}

impl<S: Source> Reading for Quota<S> {
    ghost segments = { λ q. S.Reading.segments q.below };

    fn count(&self) -> usize {
        self.below.count()
    }

    fn length(&self, g: usize) -> Option<usize> {
        self.below.length(g)
    }

    fn read(&self, g: usize, w: usize) -> Option<u64> {
        self.below.read(g, w)
    }
}

impl<S: Source> Source for Quota<S> {
    type Fault = QuotaFault<S::Fault>;

    ghost offers = { λ q. quota_offers (S.Reading.segments q.below) q.limit (S.Source.offers q.below) };

    ghost first = { λ q. quota_offers [] q.limit (S.Source.first q.below) };

    ghost fault = { λ q m. quota_fault (S.Source.fault q.below m) (S.Source.offers q.below m) };

    ghost bounds = { λ q. quota_bounds (S.Reading.segments q.below) q.limit (S.Source.offers q.below) (S.Source.bounds q.below) };

    fn offer(&self, m: u32) -> Option<u32> {
        self.below.offer(m).filter(|c| self.admits(*c))
    }

    #[tactic(auto, using(crate::proofs::Totals::written_granted))]
    fn write(&mut self, g: usize, w: usize, v: u64) -> Result<(), Outside> {
        self.below.write(g, w, v)
    }

    fn grant(&mut self, m: u32) -> Result<u32, Refusal<QuotaFault<S::Fault>>> {
        if let Some(capacity) = self.passing(m) {
            return Err(Refusal {
                minimum: m,
                fault: QuotaFault::Over { capacity },
            });
        }
        self.below.grant(m).map_err(|Refusal { minimum, fault }| Refusal {
            minimum,
            fault: QuotaFault::Refused { below: fault },
        })
    }

    fn take_back(&mut self) {
        self.below.take_back();
    }
}
