// The shape of an object: its rows with their pointers and numbers, and the words where these stand, counted from the object's first.
ghost use Rattle.std.specs.Prelude.{◌≡◌};
ghost use Rattle.tree.specs.Value.{rows, pointers, places, size, step_kind, slot, place_word};
ghost use Rattle.law.specs.Exact.{no_words};
ghost use Rattle.walk.specs.Shapes.{shape_meant, number_of};

use wire::bits::low_bits;
use wire::sizes::{ElementSize, StructSize};

// A struct, a plain list, or a struct list.
#[derive(Clone, Copy, Debug, PartialEq, Eq)]
pub enum Shape {
    Structure(StructSize),
    Plain(ElementSize, u32),
    Composite(u32, StructSize),
}

impl Shape {
    // The kind of steps that go into an object of this shape.
    pub fn step_kind(self) -> u32
        ensures value { result ≡ step_kind (shape_meant self) }
    {
        match self {
            Shape::Structure(_) => 0,
            Shape::Plain(_, _) => 1,
            Shape::Composite(_, _) => 2,
        }
    }

    // How many rows an object of this shape has.
    pub fn rows(self) -> u32
        ensures value { result ≡ rows (shape_meant self) }
    {
        match self {
            Shape::Structure(_) => 1,
            Shape::Plain(_, n) | Shape::Composite(n, _) => n,
        }
    }

    // How many pointers each row has.
    pub fn pointers(self) -> u32
        ensures value { result ≡ pointers (shape_meant self) }
    {
        match self {
            Shape::Structure(size) | Shape::Composite(_, size) => size.pointers as u32,
            Shape::Plain(ElementSize::Pointer | ElementSize::InlineComposite, _) => 1,
            Shape::Plain(_, _) => 0,
        }
    }

    // How many numbers each row has.
    pub fn places(self) -> u32
        ensures value { result ≡ places (shape_meant self) }
    {
        match self {
            Shape::Structure(size) | Shape::Composite(_, size) => size.data as u32,
            Shape::Plain(ElementSize::Pointer | ElementSize::InlineComposite, _) => 0,
            Shape::Plain(_, _) => 1,
        }
    }

    // How many words an object of this shape has.
    pub fn words(self) -> usize
        ensures value { result ≡ size (shape_meant self) }
    {
        match self {
            Shape::Structure(size) => size.total() as usize,
            Shape::Plain(element, n) => (n as usize * element.bits() as usize + 63) / 64,
            Shape::Composite(n, size) => 1 + n as usize * size.total() as usize,
        }
    }

    // Whether it is an empty struct's, which takes no words: its slot stands for it.
    pub fn has_no_words(self) -> bool
        ensures value { result ≡ no_words (shape_meant self) }
    {
        match self {
            Shape::Structure(size) => size.total() == 0,
            Shape::Plain(_, _) | Shape::Composite(_, _) => false,
        }
    }

    // The word of pointer `j` of row `i`.
    pub fn slot(self, i: u32, j: u32) -> usize
        ensures value { result ≡ slot (shape_meant self) i j }
    {
        match self {
            Shape::Structure(size) => size.data as usize + j as usize,
            Shape::Plain(_, _) => i as usize,
            Shape::Composite(_, size) => {
                1 + i as usize * size.total() as usize + size.data as usize + j as usize
            }
        }
    }

    // The word that holds number `k` of row `i`.
    pub fn place_word(self, i: u32, k: u32) -> usize
        ensures value { result ≡ place_word (shape_meant self) i k }
    {
        match self {
            Shape::Structure(_) => k as usize,
            Shape::Plain(element, _) => i as usize * element.bits() as usize / 64,
            Shape::Composite(_, size) => 1 + i as usize * size.total() as usize + k as usize,
        }
    }

    // The number of row `i` that this word holds.
    pub fn number_in(self, word: u64, i: u32) -> u64
        ensures value { result ≡ number_of (shape_meant self) word i }
    {
        match self {
            Shape::Structure(_) | Shape::Composite(_, _) => word,
            Shape::Plain(element, _) => {
                let bit = i as u64 * element.bits() as u64 % 64;
                low_bits(word >> bit, element.bits())
            }
        }
    }
}
