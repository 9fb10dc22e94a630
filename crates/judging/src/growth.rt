// Shapes against sizes: too large to be, large enough, and grown to be so.
ghost use Rattle.std.specs.Prelude.{◌≡◌, if◌then◌else◌, max};
ghost use Rattle.wire.specs.Sizes.{code_of};
ghost use Rattle.tree.specs.Value.{element_pointers};
ghost use Rattle.tree.specs.Decode.{element_of_code};
ghost use Rattle.law.specs.Machine.{enough, grown, too_large};
ghost use Rattle.walk.specs.Shapes.{shape_meant};
ghost use Rattle.judging.specs.Rulings.{ruling_of};
ghost use Rattle.judging.specs.Rows.{row_data};

use super::ruling::Ruling;
use walk::shape::Shape;
use wire::sizes::{ElementSize, StructSize, list_words, rows_words};

// Whether a pointer can describe an object of this shape.
pub fn check_size(shape: Shape) -> Result<(), Ruling>
    ensures value { ruling_of result ≡ (if too_large (shape_meant shape) then 10 else 0) }
{
    match shape {
        Shape::Structure(_) => {}
        Shape::Plain(element, n) => {
            list_words(element, n)?;
        }
        Shape::Composite(n, size) => {
            rows_words(n, size)?;
        }
    }
    Ok(())
}

// Whether an object of this shape has sections of at least these sizes.
pub fn enough(shape: Shape, size: StructSize) -> bool
    ensures value { result ≡ enough (shape_meant shape) size.data size.pointers }
{
    match shape {
        Shape::Structure(own) | Shape::Composite(_, own) => {
            size.data <= own.data && size.pointers <= own.pointers
        }
        Shape::Plain(_, _) => false,
    }
}

fn widened(own: StructSize, size: StructSize) -> StructSize
    ensures data { result.data ≡ max own.data size.data }
    ensures pointers { result.pointers ≡ max own.pointers size.pointers }
{
    StructSize {
        data: own.data.max(size.data),
        pointers: own.pointers.max(size.pointers),
    }
}

// The sections that an element of a plain list takes as a row.
fn row_size(element: ElementSize) -> StructSize
    ensures data { result.data ≡ row_data (element_of_code (code_of element)) }
    ensures pointers { result.pointers ≡ element_pointers (element_of_code (code_of element)) }
{
    let (data, pointers) = match element {
        ElementSize::Void => (0, 0),
        ElementSize::Pointer | ElementSize::InlineComposite => (0, 1),
        _ => (1, 0),
    };
    StructSize { data, pointers }
}

// The shape with sections of at least these sizes; each element of a plain list opens a row.
pub fn grown(shape: Shape, size: StructSize) -> Shape
    ensures value { shape_meant result ≡ grown (shape_meant shape) size.data size.pointers }
{
    match shape {
        Shape::Structure(own) => Shape::Structure(widened(own, size)),
        Shape::Plain(element, n) => Shape::Composite(n, widened(row_size(element), size)),
        Shape::Composite(n, own) => Shape::Composite(n, widened(own, size)),
    }
}
