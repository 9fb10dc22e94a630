// The commands of a script: cases, their sources and their calls.
use number::home::NumberAt;
use number::kind::{Kind, Value};
use path::place::Place;
use wire::sizes::StructSize;

// What a call does at its place.
#[derive(Drop)]
pub enum Action {
    Struct(StructSize),
    List { code: u32, count: u32 },
    Rows { count: u32, size: StructSize },
    GrowStruct(StructSize),
    GrowRows(StructSize),
    Set { at: NumberAt, value: Value },
    Text { bytes: Vec<u8> },
    Clear,
    Get { at: NumberAt, kind: Kind },
}

#[derive(Drop)]
pub struct Call {
    pub place: Place,
    pub action: Action,
}

// Where the words of a case come from, before its layers.
#[derive(Clone, Copy, Debug, PartialEq, Eq)]
pub enum Base {
    Slab { words: u32, step: u32 },
    Pages,
}

#[derive(Clone, Copy, Debug, PartialEq, Eq)]
pub enum Layer {
    Scratch,
    Quota { limit: u32 },
}

// A base and its layers, outward in order.
#[derive(Drop)]
pub struct SourceSpec {
    pub base: Base,
    pub layers: Vec<Layer>,
}

#[derive(Drop)]
pub enum Command {
    Case { name: String },
    Source(SourceSpec),
    Call(Call),
    Dump,
    Frame,
    Grant { minimum: u32 },
    End,
}
