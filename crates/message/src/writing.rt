// The edits of a draft. Each is judged in full before anything changes, and is made whole or not at all.
ghost use Rattle.std.specs.Prelude.{◌≡◌, ℕ, List, []};
ghost use Rattle.law.specs.Calls as calls;
ghost use Rattle.law.specs.Calls.{Typed, write};
ghost use Rattle.walk.specs.Slots.{steps_of};
ghost use Rattle.judging.specs.Rulings.{home_of};
ghost use Rattle.deciding.specs.declared.edit.Edit.TheVariants.{InitStruct, InitList, InitStructList, GetStruct, GetStructList, Text, Clear};
ghost use Rattle.effects.specs.States.{source_of};
ghost use Rattle.message.specs.Drafts.{drafted, KeepsTheLaw, call_of};
ghost use Rattle.message.specs.Refusals.{reply_of, done_of, placed_as};

use super::draft::Draft;
use super::refusal::{Placed, Refused};
use deciding::decision::decide;
use deciding::edit::Edit;
use deciding::numbers::decide_number;
use elements::kinds::PrimitiveElement;
use number::home::NumberAt;
use path::step::Step;
use performing::perform::{perform, perform_number};
use segments::source::Source;
use walk::shape::Shape;
use walk::spot::Spot;
use wire::sizes::StructSize;

// The object of this shape, where the place's pointer leads; none for a null place.
fn placed(shape: Option<Shape>, start: Spot) -> Option<Placed>
    ensures value { result ≡ placed_as shape start }
{
    shape.map(|shape| Placed { shape, start })
}

// The number itself, of which it is then known that its bits are those of its kind.
fn known<E: PrimitiveElement>(x: E) -> E
    ensures same { result ≡ x }
    ensures typed { (h : calls.Home) (i : ℕ) → Typed (write h E.PrimitiveElement.code i (E.PrimitiveElement.bits x)) }
{
    E::from_bits(x.to_bits())
}

impl<S: Source> Draft<S> {
    // Any edit; the bytes are those of a text.
    pub fn make(
        &mut self,
        path: &[Step],
        what: Edit,
        bytes: &[u8],
    ) -> Result<Option<Placed>, Refused<S::Fault>>
        ensures lawful { KeepsTheLaw (source_of S.Source) (drafted S.Source self.old) (call_of path.now what bytes.now) (reply_of what result) (drafted S.Source self.new) }
    {
        let decision = decide(&self.arena.source, path, what, bytes)?;
        let start = perform(&mut self.arena, decision, bytes)?;
        Ok(placed(decision.shape, start))
    }

    // Replaces the value at the path by a struct of zeros and nulls.
    pub fn init_struct_pointer(
        &mut self,
        path: &[Step],
        size: StructSize,
    ) -> Result<Option<Placed>, Refused<S::Fault>>
        ensures lawful { KeepsTheLaw (source_of S.Source) (drafted S.Source self.old) (call_of path.now (InitStruct size) []) (reply_of (InitStruct size) result) (drafted S.Source self.new) }
    {
        self.make(path, Edit::InitStruct(size), &[])
    }

    // Replaces it by a plain list of `count` elements of the code, all zero or null.
    pub fn init_list_pointer(
        &mut self,
        path: &[Step],
        code: u32,
        count: u32,
    ) -> Result<Option<Placed>, Refused<S::Fault>>
        ensures lawful { KeepsTheLaw (source_of S.Source) (drafted S.Source self.old) (call_of path.now (InitList code count) []) (reply_of (InitList code count) result) (drafted S.Source self.new) }
    {
        self.make(path, Edit::InitList { code, count }, &[])
    }

    // Replaces it by a struct list of `count` rows of zeros and nulls.
    pub fn init_struct_list_pointer(
        &mut self,
        path: &[Step],
        count: u32,
        size: StructSize,
    ) -> Result<Option<Placed>, Refused<S::Fault>>
        ensures lawful { KeepsTheLaw (source_of S.Source) (drafted S.Source self.old) (call_of path.now (InitStructList count size) []) (reply_of (InitStructList count size) result) (drafted S.Source self.new) }
    {
        self.make(path, Edit::InitStructList { count, size }, &[])
    }

    // A struct with sections of at least these sizes at the path: a null place is initialised, and a smaller struct is rebuilt larger.
    pub fn get_writable_struct_pointer(
        &mut self,
        path: &[Step],
        size: StructSize,
    ) -> Result<Option<Placed>, Refused<S::Fault>>
        ensures lawful { KeepsTheLaw (source_of S.Source) (drafted S.Source self.old) (call_of path.now (GetStruct size) []) (reply_of (GetStruct size) result) (drafted S.Source self.new) }
    {
        self.make(path, Edit::GetStruct(size), &[])
    }

    // A struct list with rows of at least these sizes at the path: a null place stays null, and a list of smaller rows or of plain
    // elements is rebuilt.
    pub fn get_writable_struct_list_pointer(
        &mut self,
        path: &[Step],
        size: StructSize,
    ) -> Result<Option<Placed>, Refused<S::Fault>>
        ensures lawful { KeepsTheLaw (source_of S.Source) (drafted S.Source self.old) (call_of path.now (GetStructList size) []) (reply_of (GetStructList size) result) (drafted S.Source self.new) }
    {
        self.make(path, Edit::GetStructList(size), &[])
    }

    // Replaces the value at the path by a list of the bytes and a zero byte.
    pub fn set_text(&mut self, path: &[Step], bytes: &[u8]) -> Result<(), Refused<S::Fault>>
        ensures lawful { KeepsTheLaw (source_of S.Source) (drafted S.Source self.old) (call_of path.now Text bytes.now) (done_of result) (drafted S.Source self.new) }
    {
        self.make(path, Edit::Text, bytes).map(|_| ())
    }

    // Makes the place null, and zeroes what was there.
    pub fn clear(&mut self, path: &[Step]) -> Result<(), Refused<S::Fault>>
        ensures lawful { KeepsTheLaw (source_of S.Source) (drafted S.Source self.old) (call_of path.now Clear []) (done_of result) (drafted S.Source self.new) }
    {
        self.make(path, Edit::Clear, &[]).map(|_| ())
    }

    // Writes a number: a field of the struct at the path, a field of a row of the struct list there, or an element of the plain list.
    pub fn set_number<E: PrimitiveElement + Drop>(
        &mut self,
        path: &[Step],
        at: NumberAt,
        x: E,
    ) -> Result<(), Refused<S::Fault>>
        ensures lawful { KeepsTheLaw (source_of S.Source) (drafted S.Source self.old) (record { path = steps_of path.entry.now; edit = write (home_of at.home) E.PrimitiveElement.code at.index (E.PrimitiveElement.bits x) }) (done_of result) (drafted S.Source self.new) }
    {
        let x = known(x);
        let place = decide_number::<S, E>(&self.arena.source, path, at)?;
        perform_number(&mut self.arena, place.held, at, x)?;
        Ok(())
    }
}
