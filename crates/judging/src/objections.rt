// Demands on what a place holds, which is told by its shape: none for null. A ruling is met where it is otherwise.
ghost use Rattle.std.specs.Prelude.{◌≡◌, if◌then◌else◌};
ghost use Rattle.wire.specs.Sizes.{code_of};
ghost use Rattle.tree.specs.Value.{Value};
ghost use Rattle.law.specs.Calls as calls;
ghost use Rattle.law.specs.Machine.{fits, no_number, no_number_in, no_struct, no_list};
ghost use Rattle.walk.specs.Shapes.{shape_meant};
ghost use Rattle.judging.specs.Rulings.{ruling_of, home_of};
ghost use Rattle.judging.specs.Sites.{meant, shape_in};

use super::ruling::Ruling;
use number::home::{Home, NumberAt};
use walk::shape::Shape;
use wire::sizes::ElementSize;

// Whether number `index` of this kind lies in so many data words (always, if it has no bits).
fn fits(element: ElementSize, index: u32, words: u16) -> bool
    ensures { result ≡ fits (code_of element) index words }
{
    (index as u64 + 1) * element.bits() as u64 <= 64 * words as u64
}

// The number is there, or there is none.
fn check_inside(there: bool) -> Result<(), Ruling>
    ensures { ruling_of result ≡ (if there then 0 else 9) }
{
    if there { Ok(()) } else { Err(Ruling::Outside) }
}

fn check_field(shape: Shape, element: ElementSize, index: u32) -> Result<(), Ruling>
    ensures { ruling_of result ≡ no_number calls.field (code_of element) index (shape_meant shape) }
{
    match shape {
        Shape::Structure(size) => check_inside(fits(element, index, size.data)),
        Shape::Plain(_, _) | Shape::Composite(_, _) => Err(Ruling::NoStruct),
    }
}

fn check_row(shape: Shape, row: u32, element: ElementSize, index: u32) -> Result<(), Ruling>
    ensures { ruling_of result ≡ no_number (calls.row row) (code_of element) index (shape_meant shape) }
{
    match shape {
        Shape::Structure(_) => Err(Ruling::NoList),
        Shape::Plain(_, _) => Err(Ruling::Outside),
        Shape::Composite(n, size) => check_inside(row < n && fits(element, index, size.data)),
    }
}

fn check_item(shape: Shape, element: ElementSize, index: u32) -> Result<(), Ruling>
    ensures { ruling_of result ≡ no_number calls.item (code_of element) index (shape_meant shape) }
{
    match shape {
        Shape::Structure(_) => Err(Ruling::NoList),
        Shape::Plain(kind, n) => {
            check_inside(shape.pointers() == 0 && kind == element && index < n)
        }
        Shape::Composite(_, _) => Err(Ruling::Outside),
    }
}

// There is such a number of this kind.
pub fn check_number(held: Option<Shape>, at: NumberAt, element: ElementSize) -> Result<(), Ruling>
    ensures value { (u : Value) → meant held ≡ shape_in u → ruling_of result ≡ no_number_in (home_of at.home) (code_of element) at.index u }
{
    let shape = held.ok_or(Ruling::EmptyPlace)?;
    match at.home {
        Home::Field => check_field(shape, element, at.index),
        Home::Row(row) => check_row(shape, row, element, at.index),
        Home::Item => check_item(shape, element, at.index),
    }
}

// There is a struct, or null, which can become one.
pub fn check_struct(held: Option<Shape>) -> Result<(), Ruling>
    ensures value { (u : Value) → meant held ≡ shape_in u → ruling_of result ≡ no_struct u }
{
    match held {
        None | Some(Shape::Structure(_)) => Ok(()),
        Some(_) => Err(Ruling::NoStruct),
    }
}

// There is a list whose elements can become rows, or null.
pub fn check_list(held: Option<Shape>) -> Result<(), Ruling>
    ensures value { (u : Value) → meant held ≡ shape_in u → ruling_of result ≡ no_list u }
{
    match held {
        Some(Shape::Structure(_)) => Err(Ruling::NoList),
        Some(Shape::Plain(ElementSize::Bit, _)) => Err(Ruling::BitList),
        _ => Ok(()),
    }
}
