// A word of a message, by its segment and its number there.
ghost use Rattle.std.specs.Prelude.{◌≡◌, ◌+◌, ◌%◌, ◌^◌};
ghost use Rattle.tree.specs.Words.{word as memory};
ghost use Rattle.walk.specs.Spots.{counted_word};

use segments::reading::Reading;
use wire::pointers::WirePointer;

// Where a slot stands, or an object or a landing pad begins.
#[derive(Clone, Copy, Debug, PartialEq, Eq)]
pub struct Spot {
    pub segment: usize,
    pub word: usize,
}

impl Spot {
    // So many words further in its segment, as far as 64 bits count.
    pub fn checked_add(self, words: usize) -> Option<Spot>
        ensures value { result ≡ counted_word self.segment (self.word + words) }
    {
        let word = self.word.checked_add(words)?;
        Some(Spot { word, ..self })
    }

    // So many words further in its segment, from 0 on again past 64 bits.
    pub fn wrapping_add(self, words: usize) -> Spot
        ensures segment { result.segment ≡ self.segment }
        ensures word { result.word ≡ (self.word + words) % 2 ^ 64 }
    {
        Spot {
            word: self.word.wrapping_add(words),
            ..self
        }
    }
}

// The word that stands there, 0 where there is none.
#[tactic(auto, using(segments::proofs::Places::word_answered), unfolding(tree::specs::Words::word))]
pub fn word_at<R: Reading>(reading: &R, spot: Spot) -> u64
    ensures value { result ≡ memory (R.Reading.segments reading.now) spot.segment spot.word }
{
    reading.read(spot.segment, spot.word).unwrap_or(0)
}

// The same as a pointer.
pub fn pointer_at<R: Reading>(reading: &R, spot: Spot) -> WirePointer
    ensures value { result.word ≡ memory (R.Reading.segments reading.now) spot.segment spot.word }
{
    WirePointer {
        word: word_at(reading, spot),
    }
}
