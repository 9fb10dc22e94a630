// The kinds of numbers in a message, and values of each kind.
ghost use Rattle.std.specs.Prelude.{◌≡◌};
ghost use Rattle.number.specs.Kinds.{kind_name, kind_of, ReadsKind, ReadsValue};
ghost use Rattle.number.specs.declared.kind.Kind.TheVariants.{Bool as BoolKind, Void as VoidKind};

use crate::decimal::{NumberFault, read_number};
use std::fmt;

#[derive(Clone, Copy, Debug, PartialEq, Eq)]
pub enum Kind {
    Bool,
    Void,
    U8,
    U16,
    U32,
    U64,
    I32,
}

#[derive(Clone, Copy, Debug, PartialEq, Eq)]
pub enum Value {
    Bool(bool),
    Void,
    U8(u8),
    U16(u16),
    U32(u32),
    U64(u64),
    I32(i32),
}

pub fn read_kind(word: &str) -> Option<Kind>
    ensures { ReadsKind word.now result }
{
    match word {
        "bool" => Some(Kind::Bool),
        "void" => Some(Kind::Void),
        "u8" => Some(Kind::U8),
        "u16" => Some(Kind::U16),
        "u32" => Some(Kind::U32),
        "u64" => Some(Kind::U64),
        "i32" => Some(Kind::I32),
        _ => None,
    }
}

fn read_bool(word: &str) -> Result<Value, NumberFault>
    ensures { ReadsValue BoolKind word.now result }
{
    match read_number::<u64>(word)? {
        0 => Ok(Value::Bool(false)),
        1 => Ok(Value::Bool(true)),
        _ => Err(NumberFault::TooLarge),
    }
}

fn read_void(word: &str) -> Result<Value, NumberFault>
    ensures { ReadsValue VoidKind word.now result }
{
    match read_number::<u64>(word)? {
        0 => Ok(Value::Void),
        _ => Err(NumberFault::TooLarge),
    }
}

pub fn read_value(kind: Kind, word: &str) -> Result<Value, NumberFault>
    ensures { ReadsValue kind word.now result }
{
    match kind {
        Kind::Bool => read_bool(word),
        Kind::Void => read_void(word),
        Kind::U8 => read_number(word).map(Value::U8),
        Kind::U16 => read_number(word).map(Value::U16),
        Kind::U32 => read_number(word).map(Value::U32),
        Kind::U64 => read_number(word).map(Value::U64),
        Kind::I32 => read_number(word).map(Value::I32),
    }
}

impl Kind {
    pub fn name(self) -> &'static str
        ensures { result.now ≡ kind_name self }
    {
        match self {
            Kind::Bool => "bool",
            Kind::Void => "void",
            Kind::U8 => "u8",
            Kind::U16 => "u16",
            Kind::U32 => "u32",
            Kind::U64 => "u64",
            Kind::I32 => "i32",
        }
    }
}

impl Value {
    pub fn kind(self) -> Kind
        ensures { result ≡ kind_of self }
    {
        match self {
            Value::Bool(_) => Kind::Bool,
            Value::Void => Kind::Void,
            Value::U8(_) => Kind::U8,
            Value::U16(_) => Kind::U16,
            Value::U32(_) => Kind::U32,
            Value::U64(_) => Kind::U64,
            Value::I32(_) => Kind::I32,
        }
    }
}

impl fmt::Display for Kind {
    fn fmt<W: fmt::Write>(&self, f: &mut fmt::Formatter<W>) -> fmt::Result {
        let name = self.name();
        write!(f, "{name}")
    }
}

impl fmt::Display for Value {
    fn fmt<W: fmt::Write>(&self, f: &mut fmt::Formatter<W>) -> fmt::Result {
        match *self {
            Value::Bool(b) => write!(f, "{b}"),
            Value::Void => write!(f, "nothing"),
            Value::U8(n) => write!(f, "{n}"),
            Value::U16(n) => write!(f, "{n}"),
            Value::U32(n) => write!(f, "{n}"),
            Value::U64(n) => write!(f, "{n}"),
            Value::I32(n) => write!(f, "{n}"),
        }
    }
}
