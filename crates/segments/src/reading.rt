// The reading interface. It stands alone: whatever means segments of words can be read, a source or not.
ghost use Rattle.std.specs.Prelude.{◌≡◌, ℕ, List};
ghost use Rattle.segments.specs.Memory.{counted, length_at, word_at};

// Segments of 64-bit words that can be read. Each call answers from the meaning and changes nothing.
pub trait Reading {
    // the segments in order, each as the list of its words
    ghost segments: { Self → List (List ℕ) };

    // How many segments there are.
    fn count(&self) -> usize
        ensures answer { result ≡ counted (segments self.now) };

    // How many words segment `g` has; none where there is no such segment.
    fn length(&self, g: usize) -> Option<usize>
        ensures answer { result ≡ length_at (segments self.now) g };

    // Word `w` of segment `g`; none where there is no such word.
    fn read(&self, g: usize, w: usize) -> Option<u64>
        ensures answer { result ≡ word_at (segments self.now) g w };
}
