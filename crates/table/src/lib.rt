// The table of a builder's segments, and the rule by which new words are placed.
#![tactic(auto)]

ghost use Rattle.std.specs.Prelude.{◌≡◌, ◌^◌, ◌<◌, ◌≤◌, length};

pub mod laws;
pub mod methods;

// What is allocated of a segment, and how many words it has: none beyond its capacity, which is below 2^29.
#[derive(Clone, Copy)]
pub struct SegmentEntry {
    allocated: u32,
    capacity: u32,
    ghost within: { allocated ≤ capacity },
    ghost small: { capacity < 2 ^ 29 },
}

// The segments of a builder, at most 64: the first `count` entries. It is plain and `Copy`, for each call keeps a copy of it as the mark
// to which it goes back; a list that owns its entries could not be copied so. It has no `impl Model`: a copy wants the fields back
// from the value, and the list of segments does not know the entries past the last.
#[derive(Clone, Copy)]
pub struct SegmentTable {
    count: usize,
    entries: [SegmentEntry; 64],
    ghost few: { count ≤ 64 },
    ghost whole: { length entries ≡ 64 },
}

// Why a segment is not added: there are 64, or it has 2^29 words or more.
#[derive(Clone, Copy, Debug, PartialEq, Eq)]
pub enum AddError {
    Full,
    TooLarge,
}
