// Edits, and what they make of a slot.
ghost use Rattle.std.specs.Prelude.{◌≡◌};
ghost use Rattle.deciding.specs.Edits.{shape_told};

use walk::held::Held;
use walk::shape::Shape;
use wire::sizes::StructSize;

// What a call asks. A text's bytes are passed beside it. A list's code is any number: one that no list has is refused by a ruling.
#[derive(Clone, Copy, Debug, PartialEq, Eq)]
pub enum Edit {
    InitStruct(StructSize),
    InitList { code: u32, count: u32 },
    InitStructList { count: u32, size: StructSize },
    GetStruct(StructSize),
    GetStructList(StructSize),
    Text,
    Clear,
}

// What is to be made of the slot.
#[derive(Clone, Copy, Debug, PartialEq, Eq)]
pub enum Making {
    // the value stays
    Keep,
    // it becomes null
    Wipe,
    // it is replaced by an object of zeros and nulls
    New(Shape),
    // it is replaced by the text
    Spell,
    // this object is rebuilt in a larger shape
    Rebuild(Held, Shape),
}

impl Making {
    // The shape of which the sizes are answered, where the slot holds this.
    pub(crate) fn shape(self, held: Option<Held>) -> Option<Shape>
        ensures { result ≡ shape_told self held }
    {
        match self {
            Making::Keep => held.map(|held| held.shape),
            Making::New(shape) | Making::Rebuild(_, shape) => Some(shape),
            Making::Wipe | Making::Spell => None,
        }
    }
}
