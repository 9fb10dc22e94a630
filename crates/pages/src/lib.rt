// The page source: eight pages of 256 words inside it, granted one by one.
#![tactic(auto)]

ghost use Rattle.std.specs.Prelude.{◌≡◌, ℕ, ◌+◌, ◌<◌, ◌≤◌, [], length, take, slice_index_or};
ghost use Rattle.segments.specs.Memory.{with_zeros};
ghost use Rattle.pages.specs.Bounds.{page_bounds};
ghost use Rattle.pages.specs.Paged.{page_offers, Paged};
ghost use Rattle.pages.specs.Faults.{page_fault};

use segments::reading::Reading;
use segments::refusal::{Outside, Refusal};
use segments::source::Source;

// Eight pages, of which the first `used` are granted: segment g is page g. They are an array with a count, and no `ArrayVec`, whose `clear` and
// `push` would write each page once more: a page is zeroed in place when it is granted, and taking back writes no page.
#[derive(Drop)]
pub struct Pages {
    pages: [[u64; 256]; 8],
    used: usize,
    ghost few: { used ≤ 8 },
    ghost rows: { ((g : ℕ) → g < 8 → length (slice_index_or pages g []) ≡ 256) },
}

// Why a page is refused: none is left, or the minimum is 0 or does not fit into one. It has the pages that are left.
#[derive(Clone, Copy, Debug, PartialEq, Eq)]
pub struct PageFault {
    pub left: usize,
}

impl Pages {
    // Eight pages, none of them granted.
    pub fn new() -> Pages
        ensures segments { take result.used result.pages ≡ [] }
        ensures offers { page_offers result.used ≡ page_offers 0 }
    {
        Pages {
            pages: [[0; 256]; 8],
            used: 0,
        }
    }

    // Whether page `g` is granted.
    fn granted(&self, g: usize) -> bool
        ensures answer { Paged result self.now.pages self.now.used g }
    {
        g < self.used
    }

    // Zeroes the next page in place.
    fn wipe(&mut self)
        requires left { self.old.used < 8 }
        ensures page { take (self.new.used + 1) self.new.pages ≡ with_zeros (take self.old.used self.old.pages) 256 }
        ensures used { self.new.used ≡ self.old.used }
    {
        self.pages[self.used] = [0; 256];
    }
}

impl Reading for Pages {
    ghost segments = { λ p. take p.used p.pages };

    fn count(&self) -> usize {
        self.used
    }

    fn length(&self, g: usize) -> Option<usize> {
        self.granted(g).then_some(256)
    }

    fn read(&self, g: usize, w: usize) -> Option<u64> {
        if !self.granted(g) {
            return None;
        }
        if w < 256 {
            Some(self.pages[g][w])
        } else {
            None
        }
    }
}

impl Source for Pages {
    type Fault = PageFault;

    ghost offers = { λ p. page_offers p.used };

    ghost first = { λ p. page_offers 0 };

    ghost fault = { λ p _. page_fault p.used };

    ghost bounds = { λ p. page_bounds p.used };

    fn offer(&self, m: u32) -> Option<u32> {
        (self.used < 8 && (1..=256).contains(&m)).then_some(256)
    }

    fn write(&mut self, g: usize, w: usize, v: u64) -> Result<(), Outside> {
        if !self.granted(g) || w >= 256 {
            return Err(Outside {
                segment: g,
                word: w,
            });
        }
        self.pages[g][w] = v;
        Ok(())
    }

    fn grant(&mut self, m: u32) -> Result<u32, Refusal<PageFault>> {
        let Some(c) = self.offer(m) else {
            return Err(Refusal {
                minimum: m,
                fault: PageFault {
                    left: 8 - self.used,
                },
            });
        };
        self.wipe();
        self.used += 1;
        Ok(c)
    }

    fn take_back(&mut self) {
        self.used = 0;
    }
}
