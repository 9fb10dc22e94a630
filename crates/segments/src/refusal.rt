// What a source's calls are refused with.

// A write that met no word: the segment and the word that it was to replace.
#[derive(Clone, Copy, Debug, PartialEq, Eq)]
pub struct Outside {
    pub segment: usize,
    pub word: usize,
}

// A grant of `minimum` words that was refused, and why: the fault is the source's own, and a layer holds the fault from below whole
// inside its own.
#[derive(Clone, Copy, Debug, PartialEq, Eq)]
pub struct Refusal<F> {
    pub minimum: u32,
    pub fault: F,
}
