// Pointer words: the parts of a word, and the word of given parts, by shifts and masks.
ghost use Rattle.std.specs.Prelude.{◌≡◌, ℕ, ◌+◌, ◌*◌, ◌%◌, ◌^◌, ◌<◌, ◌≤◌, ℤ, pos, ◌≤ℤ◌, ◌<ℤ◌, ◌==◌};
ghost use Rattle.wire.specs.Sizes.{code_of};
ghost use Rattle.wire.specs.Kinds.{kind_number};
ghost use Rattle.wire.specs.Elements.{picked, bit_of};
ghost use Rattle.wire.specs.Pointers.{pointer_kind, pointer_offset, offset_field, signed_target, pointer_target, data_words, pointer_words, list_code, list_count, far_segment, far_word, far_mark, offset_between, struct_pointer, list_pointer, struct_list_tag, single_far, double_far, empty_struct, re_aimed, unaimed};
ghost use Rattle.wire.specs.Parts.{StructParts, ListParts, TagParts, FarParts, SameObject};

use super::bits::{join, low_bits};
use super::sizes::{ElementSize, StructSize};

// What a pointer word points at, by the number of its kind.
#[derive(Clone, Copy, Debug, PartialEq, Eq)]
pub enum WirePointerKind {
    Struct = 0,
    List = 1,
    Far = 2,
    Other = 3,
}

// A word read as a pointer.
#[derive(Clone, Copy, Debug, PartialEq, Eq)]
pub struct WirePointer {
    pub word: u64,
}

// The parts of a pointer word. A part that the word's kind does not have is read all the same.
impl WirePointer {
    // So many bits of the word, from bit `from` on.
    fn field(self, from: u32, bits: u32) -> u64
        requires { from < 64 }
        ensures { result ≡ picked self.word from bits }
    {
        low_bits(self.word >> from, bits)
    }

    pub fn is_null(self) -> bool
        ensures value { result ≡ (self.word == 0) }
    {
        self.word == 0
    }

    pub fn kind(self) -> WirePointerKind
        ensures value { kind_number result ≡ pointer_kind self.word }
    {
        match self.field(0, 2) {
            0 => WirePointerKind::Struct,
            1 => WirePointerKind::List,
            2 => WirePointerKind::Far,
            _ => WirePointerKind::Other,
        }
    }

    pub fn is_far(self) -> bool
        ensures value { result ≡ (pointer_kind self.word == 2) }
    {
        self.kind() == WirePointerKind::Far
    }

    // The offset of a struct or list pointer, in words from the word after it.
    pub fn offset(self) -> i32
        ensures value { result ≡ pointer_offset self.word }
    {
        (self.field(0, 32) as u32).cast_signed() >> 2
    }

    // The word to which a struct or list pointer in word `position` leads. A place before the segment's start becomes a number
    // that no segment reaches.
    pub fn target(self, position: usize) -> usize
        ensures modular { result ≡ pointer_target position self.word }
        ensures inside { position < 2 ^ 63 → pos 0 ≤ℤ signed_target position self.word → pos result ≡ signed_target position self.word }
        ensures before { position < 2 ^ 63 → signed_target position self.word <ℤ pos 0 → 2 ^ 63 ≤ result }
    {
        position
            .wrapping_add(1)
            .wrapping_add_signed(self.offset() as isize)
    }

    // The sections of the struct, or of the rows behind a tag.
    pub fn struct_size(self) -> StructSize
        ensures data { result.data ≡ data_words self.word }
        ensures pointers { result.pointers ≡ pointer_words self.word }
    {
        StructSize {
            data: self.field(32, 16) as u16,
            pointers: self.field(48, 16) as u16,
        }
    }

    pub fn element_size(self) -> ElementSize
        ensures value { code_of result ≡ list_code self.word }
    {
        // Three bits are always a code.
        ElementSize::try_from(self.field(32, 3) as u32).unwrap()
    }

    // The elements of a list; of a struct list the words of its rows.
    pub fn element_count(self) -> u32
        ensures value { result ≡ list_count self.word }
    {
        self.field(35, 29) as u32
    }

    // The rows of a struct list, from its tag.
    pub fn row_count(self) -> u32
        ensures value { result ≡ offset_field self.word }
    {
        self.field(2, 30) as u32
    }

    pub fn far_segment(self) -> usize
        ensures value { result ≡ far_segment self.word }
    {
        self.field(32, 32) as usize
    }

    // The word of the landing pad.
    pub fn far_word(self) -> usize
        ensures value { result ≡ far_word self.word }
    {
        self.field(3, 29) as usize
    }

    // Whether the landing pad has two words.
    pub fn is_double_far(self) -> bool
        ensures value { result ≡ (far_mark self.word == 1) }
    {
        self.field(2, 1) == 1
    }
}

// The offset field of a pointer in word `position` to word `target`.
fn offset_between(position: usize, target: usize) -> u64
    ensures { result ≡ offset_between position target }
{
    low_bits(target.wrapping_sub(position).wrapping_sub(1) as u64, 30)
}

// The upper half of a struct pointer or a tag.
fn struct_half(size: StructSize) -> u64
    ensures { result ≡ size.data + size.pointers * 65536 }
{
    join(size.pointers as u64, 16, size.data as u64)
}

// The word of a kind, the 30 bits above it, and an upper half.
fn pack(kind: WirePointerKind, field: u64, half: u64) -> WirePointer
    requires field { field < 2 ^ 30 }
    requires half { half < 2 ^ 32 }
    ensures { result.word ≡ kind_number kind + field * 4 + half * 2 ^ 32 }
{
    WirePointer {
        word: join(half, 32, join(field, 2, kind as u64)),
    }
}

// A far pointer to a landing pad of one word, or of two.
fn far(segment: usize, word: usize, double: bool) -> WirePointer
    ensures { result.word ≡ 2 + bit_of double * 4 + word % 2 ^ 29 * 8 + segment % 2 ^ 32 * 2 ^ 32 }
{
    let field = join(low_bits(word as u64, 29), 1, double as u64);
    pack(WirePointerKind::Far, field, low_bits(segment as u64, 32))
}

// The word of given parts. A number keeps the lowest bits for which its field has room.
impl WirePointer {
    // The null pointer.
    pub fn null() -> WirePointer
        ensures value { result.word ≡ 0 }
    {
        WirePointer { word: 0 }
    }

    // An empty struct's slot, which is the struct itself.
    pub fn empty_struct() -> WirePointer
        ensures word { result.word ≡ empty_struct }
        ensures parts { (p : ℕ) → StructParts result.word p p 0 0 }
    {
        WirePointer { word: 0xffff_fffc }
    }

    // A pointer in word `position` to a struct in word `target`.
    pub fn to_struct(position: usize, target: usize, size: StructSize) -> WirePointer
        ensures word { result.word ≡ struct_pointer position target size.data size.pointers }
        ensures parts { StructParts result.word position target size.data size.pointers }
    {
        let offset = offset_between(position, target);
        pack(WirePointerKind::Struct, offset, struct_half(size))
    }

    // A pointer in word `position` to a list in word `target`: so many elements, of a struct list the words of its rows.
    pub fn to_list(position: usize, target: usize, element: ElementSize, count: u32) -> WirePointer
        ensures word { result.word ≡ list_pointer position target (code_of element) (count % 2 ^ 29) }
        ensures parts { ListParts result.word position target (code_of element) count }
    {
        let offset = offset_between(position, target);
        let half = join(low_bits(count as u64, 29), 3, element as u64);
        pack(WirePointerKind::List, offset, half)
    }

    // The tag of a struct list.
    pub fn tag(rows: u32, size: StructSize) -> WirePointer
        ensures word { result.word ≡ struct_list_tag (rows % 2 ^ 30) size.data size.pointers }
        ensures parts { TagParts result.word rows size.data size.pointers }
    {
        let rows = low_bits(rows as u64, 30);
        pack(WirePointerKind::Struct, rows, struct_half(size))
    }

    // A far pointer to one landing pad word.
    pub fn single_far(segment: usize, word: usize) -> WirePointer
        ensures word { result.word ≡ single_far (segment % 2 ^ 32) (word % 2 ^ 29) }
        ensures parts { FarParts result.word segment word 0 }
    {
        far(segment, word, false)
    }

    // A far pointer to two landing pad words.
    pub fn double_far(segment: usize, word: usize) -> WirePointer
        ensures word { result.word ≡ double_far (segment % 2 ^ 32) (word % 2 ^ 29) }
        ensures parts { FarParts result.word segment word 1 }
    {
        far(segment, word, true)
    }

    // The struct or list pointer in word `position` to the object in word `target` of which `self` tells the sizes.
    pub fn re_aimed(self, position: usize, target: usize) -> WirePointer
        ensures word { result.word ≡ re_aimed self.word position target }
        ensures parts { SameObject result.word self.word position target }
    {
        let offset = offset_between(position, target);
        pack(self.kind(), offset, self.word >> 32)
    }

    // The struct or list pointer with offset 0, for the second word of a double landing pad.
    pub fn unaimed(self) -> WirePointer
        ensures word { result.word ≡ unaimed self.word }
    {
        pack(self.kind(), 0, self.word >> 32)
    }
}
