// Where the numbers of an object stand.
ghost use Rattle.std.specs.Prelude.{◌≡◌};
ghost use Rattle.wire.specs.Sizes.{code_of};
ghost use Rattle.wire.specs.Elements.{element_word};
ghost use Rattle.law.specs.Reads.{number_word};
ghost use Rattle.walk.specs.Shapes.{shape_meant};
ghost use Rattle.judging.specs.Rulings.{home_of};

use number::home::{Home, NumberAt};
use walk::shape::Shape;
use wire::sizes::ElementSize;

// The word of a list of this kind that holds the element of this index, counted from the list's first.
fn word_of(element: ElementSize, index: u32) -> u32
    ensures { result ≡ element_word (code_of element) index }
{
    (index as u64 * element.bits() as u64 / 64) as u32
}

// The word of an object of the shape that holds the number, counted from the object's first word.
pub fn number_word(shape: Shape, at: NumberAt, element: ElementSize) -> usize
    ensures value { result ≡ number_word (shape_meant shape) (home_of at.home) (code_of element) at.index }
{
    match at.home {
        Home::Field => shape.place_word(0, word_of(element, at.index)),
        Home::Row(row) => shape.place_word(row, word_of(element, at.index)),
        Home::Item => shape.place_word(at.index, 0),
    }
}
