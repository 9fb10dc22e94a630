// The words of an object of a shape and the pointers that lead to it.
ghost use Rattle.std.specs.Prelude.{◌≡◌, ℕ, ◌^◌, ◌≤◌, Bool, false};
ghost use Rattle.tree.specs.Value.{size};
ghost use Rattle.law.specs.Machine.{too_large};
ghost use Rattle.law.specs.Exact.{pointer_word};
ghost use Rattle.walk.specs.Shapes.{shape_meant};

use walk::shape::Shape;
use wire::pointers::WirePointer;
use wire::sizes::{ElementSize, list_words, rows_words};

// The words of an object of this shape; 2^32 - 1 where it is too large, which no segment has.
pub fn object_words(shape: Shape) -> u32
    ensures value { too_large (shape_meant shape) ≡ false → result ≡ size (shape_meant shape) }
    ensures small { too_large (shape_meant shape) ≡ false → result ≤ 2 ^ 29 }
{
    match shape {
        Shape::Structure(size) => size.total(),
        Shape::Plain(element, n) => list_words(element, n).unwrap_or(u32::MAX),
        Shape::Composite(n, size) => rows_words(n, size).map_or(u32::MAX, |k| k.saturating_add(1)),
    }
}

// The pointer in word `position` to an object of this shape in word `target`.
pub fn pointer_to(shape: Shape, position: usize, target: usize) -> WirePointer
    ensures value { too_large (shape_meant shape) ≡ false → result.word ≡ pointer_word (shape_meant shape) position target }
{
    match shape {
        Shape::Structure(size) => WirePointer::to_struct(position, target, size),
        Shape::Plain(ElementSize::InlineComposite, n) => {
            WirePointer::to_list(position, target, ElementSize::Pointer, n)
        }
        Shape::Plain(element, n) => WirePointer::to_list(position, target, element, n),
        Shape::Composite(n, size) => {
            let words = n.saturating_mul(size.total());
            WirePointer::to_list(position, target, ElementSize::InlineComposite, words)
        }
    }
}
