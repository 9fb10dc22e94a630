// The slab: a source that cuts its segments one after another from words that the caller lends.
#![tactic(auto)]

ghost use Rattle.std.specs.Prelude.{◌≡◌, ◌+◌, ◌<◌, ◌≤◌, [], length, take, drop, replicate};
ghost use Rattle.arrayvec.specs.ArrayVec.{array_vec_len};
ghost use Rattle.segments.specs.Memory.{with_zeros};
ghost use Rattle.word_slab.specs.Bounds.{slab_bounds};
ghost use Rattle.word_slab.specs.Cuts.{Rises, begin, used, cuts, slab_left, slab_offers, Spanned, Found};
ghost use Rattle.word_slab.specs.Faults.{slab_fault};

use arrayvec::ArrayVec;
use segments::reading::Reading;
use segments::refusal::{Outside, Refusal};
use segments::source::Source;

// At most this many of the lent words are used.
const WORDS: usize = 0x1fff_ffff;

// Segments cut from the lent words, and where each ends: the first begins at 0, and each other where the one before it ends.
#[derive(Drop)]
pub struct Slab<'a> {
    words: &'a mut [u64],
    step: u32,
    ends: ArrayVec<usize, 64>,
    ghost rising: { Rises 0 ends.items (length words.now) },
}

// Why the slab refuses a grant, with the words that are left.
#[derive(Clone, Copy, Debug, PartialEq, Eq)]
pub enum SlabFault {
    // fewer words are left than the minimum, or the minimum is 0
    Short { left: u32 },
    // all 64 segments are cut
    Full { left: u32 },
}

impl<'a> Slab<'a> {
    // A slab over `words` that cuts at least `step` words at a time while as many are left; a step of 0 counts as 1.
    pub fn new(words: &'a mut [u64], step: u32) -> Slab<'a>
        ensures segments { cuts result.words.now result.ends.items ≡ [] }
        ensures offers { slab_offers (length result.words.now) result.step (used result.ends.items) (array_vec_len result.ends) ≡ slab_offers (length words.old) step 0 0 }
        ensures first { slab_offers (length result.words.now) result.step 0 0 ≡ slab_offers (length words.old) step 0 0 }
        ensures words { result.words.now ≡ words.old }
    {
        Slab {
            words,
            step,
            ends: ArrayVec::new(),
        }
    }

    // Where segment `g` begins, if it is cut or would be the next.
    fn begin(&self, g: usize) -> usize
        requires cut { g ≤ array_vec_len self.now.ends }
        ensures answer { result ≡ begin self.now.ends.items g }
    {
        if g == 0 { 0 } else { self.ends[g - 1] }
    }

    // How many words can still be cut.
    fn left(&self) -> u32
        ensures answer { result ≡ slab_left (length self.now.words.now) (used self.now.ends.items) }
    {
        let words = self.words.len().min(WORDS);
        words.saturating_sub(self.begin(self.ends.len())) as u32
    }

    // Why nothing is offered, where nothing is.
    fn fault(&self) -> SlabFault
        ensures answer { result ≡ slab_fault (slab_left (length self.now.words.now) (used self.now.ends.items)) (array_vec_len self.now.ends) }
    {
        let left = self.left();
        if self.ends.is_full() {
            SlabFault::Full { left }
        } else {
            SlabFault::Short { left }
        }
    }

    // Where segment `g` begins among the lent words, and how many words it has.
    #[tactic(auto, using(crate::proofs::Parts::missing))]
    fn span(&self, g: usize) -> Option<(usize, usize)>
        ensures answer { Spanned result self.now.words.now self.now.ends.items g }
    {
        let end = *self.ends.get(g)?;
        let from = self.begin(g);
        Some((from, end - from))
    }

    // Where word `w` of segment `g` lies among the lent words.
    fn find(&self, g: usize, w: usize) -> Option<usize>
        ensures answer { Found result self.now.words.now self.now.ends.items g w }
    {
        let (from, n) = self.span(g)?;
        (w < n).then(|| from + w)
    }

    // Zeroes the next `c` of the words that are left.
    #[tactic(auto, using(crate::proofs::Growth::cuts_cleared))]
    fn clear(&mut self, c: u32)
        requires fits { used self.old.ends.items + c ≤ length self.old.words.now }
        ensures zeros { take c (drop (used self.new.ends.items) self.new.words.now) ≡ replicate c 0 }
        ensures segments { cuts self.new.words.now self.new.ends.items ≡ cuts self.old.words.now self.old.ends.items }
        ensures size { length self.new.words.now ≡ length self.old.words.now }
        ensures step { self.new.step ≡ self.old.step }
        ensures ends { self.new.ends ≡ self.old.ends }
    {
        let from = self.begin(self.ends.len());
        self.words[from..from + c as usize].fill(0);
    }

    // Cuts a segment of the next `c` words, which are zero.
    #[tactic(auto, using(crate::proofs::Growth::cuts_more))]
    fn add(&mut self, c: u32)
        requires few { array_vec_len self.old.ends < 64 }
        requires fits { used self.old.ends.items + c ≤ length self.old.words.now }
        requires zeros { take c (drop (used self.old.ends.items) self.old.words.now) ≡ replicate c 0 }
        ensures segments { cuts self.new.words.now self.new.ends.items ≡ with_zeros (cuts self.old.words.now self.old.ends.items) c }
        ensures size { length self.new.words.now ≡ length self.old.words.now }
        ensures step { self.new.step ≡ self.old.step }
    {
        let end = self.begin(self.ends.len()) + c as usize;
        self.ends.push(end);
    }
}

impl Reading for Slab<'_> {
    ghost segments = { λ s. cuts s.words.now s.ends.items };

    #[tactic(auto, using(crate::proofs::Parts::cuts_length))]
    fn count(&self) -> usize {
        self.ends.len()
    }

    fn length(&self, g: usize) -> Option<usize> {
        self.span(g).map(|(_, n)| n)
    }

    fn read(&self, g: usize, w: usize) -> Option<u64> {
        let at = self.find(g, w)?;
        Some(self.words[at])
    }
}

impl Source for Slab<'_> {
    type Fault = SlabFault;

    ghost offers = { λ s. slab_offers (length s.words.now) s.step (used s.ends.items) (array_vec_len s.ends) };

    ghost first = { λ s. slab_offers (length s.words.now) s.step 0 0 };

    ghost fault = { λ s _. slab_fault (slab_left (length s.words.now) (used s.ends.items)) (array_vec_len s.ends) };

    ghost bounds = { λ s. slab_bounds (length s.words.now) s.step (used s.ends.items) (array_vec_len s.ends) };

    fn offer(&self, m: u32) -> Option<u32> {
        let left = self.left();
        let offered = left.min(m.max(self.step.max(1)));
        (!self.ends.is_full() && (1..=left).contains(&m)).then_some(offered)
    }

    fn write(&mut self, g: usize, w: usize, v: u64) -> Result<(), Outside> {
        let at = self.find(g, w).ok_or(Outside {
            segment: g,
            word: w,
        })?;
        self.words[at] = v;
        Ok(())
    }

    fn grant(&mut self, m: u32) -> Result<u32, Refusal<SlabFault>> {
        let c = self.offer(m).ok_or(Refusal {
            minimum: m,
            fault: self.fault(),
        })?;
        self.clear(c);
        self.add(c);
        Ok(c)
    }

    fn take_back(&mut self) {
        self.ends.clear();
    }
}
