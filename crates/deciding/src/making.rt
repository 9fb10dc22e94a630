// What each edit makes of what a slot holds, or the ruling against it.
ghost use Rattle.std.specs.Prelude.{◌≡◌, ℕ, List, Some, Option};
ghost use Rattle.tree.specs.Value.{Value, object};
ghost use Rattle.law.specs.Machine.{new};
ghost use Rattle.walk.specs.declared.held.Held.{Held as Object};
ghost use Rattle.walk.specs.Shapes.{shape_meant};
ghost use Rattle.judging.specs.Sites.{shape_in, shape_held};
ghost use Rattle.deciding.specs.declared.edit.Edit.TheVariants.{InitList, GetStruct, GetStructList, Text};
ghost use Rattle.deciding.specs.Choosing.{Chooses, Gives, growing};

use super::edit::{Edit, Making};
use judging::growth::{check_size, enough, grown};
use judging::objections::{check_list, check_struct};
use judging::ruling::Ruling;
use judging::site::Site;
use walk::held::Held;
use walk::shape::Shape;
use wire::sizes::{ElementSize, StructSize};

// A new object, unless its shape is too large.
fn fresh(shape: Shape) -> Result<Making, Ruling>
    ensures { (o : Option Object) (u : Value) → Gives (new (shape_meant shape)) o u result }
{
    check_size(shape)?;
    Ok(Making::New(shape))
}

// The object as it is, if its sections are large enough, and otherwise a larger one.
fn grow(held: Held, size: StructSize) -> Result<Making, Ruling>
    ensures { (dat : ℕ → ℕ → ℕ) (kid : ℕ → ℕ → Value) → Gives (growing (shape_meant held.shape) size) (Some held) (object (shape_meant held.shape) dat kid) result }
{
    if enough(held.shape, size) {
        return Ok(Making::Keep);
    }
    let shape = grown(held.shape, size);
    check_size(shape)?;
    Ok(Making::Rebuild(held, shape))
}

// A plain list, of any code but that of rows.
fn init_list(code: u32, count: u32) -> Result<Making, Ruling>
    ensures { (bs : List ℕ) (o : Option Object) (u : Value) → Chooses (InitList code count) bs o u result }
{
    match ElementSize::try_from(code)? {
        ElementSize::InlineComposite => Err(Ruling::ListCode),
        element => fresh(Shape::Plain(element, count)),
    }
}

// A struct of at least these sections: a new one, if there is none.
fn get_struct(site: Site, size: StructSize) -> Result<Making, Ruling>
    ensures { (bs : List ℕ) (u : Value) → shape_held site.object ≡ shape_in u → Chooses (GetStruct size) bs site.object u result }
{
    check_struct(site.shape())?;
    match site.object {
        Some(held) => grow(held, size),
        None => fresh(Shape::Structure(size)),
    }
}

// A struct list with rows of at least these sections, unless there is none.
fn get_struct_list(site: Site, size: StructSize) -> Result<Making, Ruling>
    ensures { (bs : List ℕ) (u : Value) → shape_held site.object ≡ shape_in u → Chooses (GetStructList size) bs site.object u result }
{
    check_list(site.shape())?;
    match site.object {
        Some(held) => grow(held, size),
        None => Ok(Making::Keep),
    }
}

// A text, which has a zero byte more.
fn text(bytes: &[u8]) -> Result<Making, Ruling>
    ensures { (o : Option Object) (u : Value) → Chooses Text bytes.now o u result }
{
    if bytes.len() >= (1 << 29) - 1 {
        return Err(Ruling::LongText);
    }
    Ok(Making::Spell)
}

// What the edit makes of what is there.
pub(crate) fn choose(site: Site, edit: Edit, bytes: &[u8]) -> Result<Making, Ruling>
    ensures value { (u : Value) → shape_held site.object ≡ shape_in u → Chooses edit bytes.now site.object u result }
{
    match edit {
        Edit::InitStruct(size) => fresh(Shape::Structure(size)),
        Edit::InitList { code, count } => init_list(code, count),
        Edit::InitStructList { count, size } => fresh(Shape::Composite(count, size)),
        Edit::GetStruct(size) => get_struct(site, size),
        Edit::GetStructList(size) => get_struct_list(site, size),
        Edit::Text => text(bytes),
        Edit::Clear => Ok(Making::Wipe),
    }
}
