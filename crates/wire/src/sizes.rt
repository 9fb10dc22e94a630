// Sizes of structs and lists in words, with the limits that a pointer word sets.
ghost use Rattle.std.specs.Prelude.{◌≡◌, ℕ, ◌+◌};
ghost use Rattle.wire.specs.Sizes.{code_of, Decodes, element_bits, sized_list, sized_rows};

// The sections of a struct: words of data, then pointers.
#[derive(Clone, Copy, Debug, PartialEq, Eq)]
pub struct StructSize {
    pub data: u16,
    pub pointers: u16,
}

// What the elements of a list are, by its code.
#[derive(Clone, Copy, Debug, PartialEq, Eq)]
pub enum ElementSize {
    Void = 0,
    Bit = 1,
    Byte = 2,
    TwoBytes = 3,
    FourBytes = 4,
    EightBytes = 5,
    Pointer = 6,
    InlineComposite = 7,
}

// A code of 8 or more, which no list has.
#[derive(Clone, Copy, Debug, PartialEq, Eq)]
pub struct UnknownCode(pub u32);

// Why a list has no pointer word.
#[derive(Clone, Copy, Debug, PartialEq, Eq)]
pub enum TooLarge {
    // 2^29 elements or more
    Elements,
    // 2^30 rows or more
    Rows,
    // rows of 2^29 words or more
    Words,
}

impl StructSize {
    // The words of the struct, or of a row of these sizes.
    pub fn total(self) -> u32
        ensures value { result ≡ self.data + self.pointers }
    {
        self.data as u32 + self.pointers as u32
    }
}

impl From<ElementSize> for u32 {
    ghost from_gives = { λ size code. code ≡ code_of size };

    fn from(size: ElementSize) -> u32 {
        size as u32
    }
}

impl TryFrom<u32> for ElementSize {
    type Error = UnknownCode;

    ghost try_from_gives = { Decodes };

    fn try_from(code: u32) -> Result<ElementSize, UnknownCode> {
        match code {
            0 => Ok(ElementSize::Void),
            1 => Ok(ElementSize::Bit),
            2 => Ok(ElementSize::Byte),
            3 => Ok(ElementSize::TwoBytes),
            4 => Ok(ElementSize::FourBytes),
            5 => Ok(ElementSize::EightBytes),
            6 => Ok(ElementSize::Pointer),
            7 => Ok(ElementSize::InlineComposite),
            _ => Err(UnknownCode(code)),
        }
    }
}

impl ElementSize {
    // The bits that a list has for each of its count.
    pub fn bits(self) -> u32
        ensures value { result ≡ element_bits (code_of self) }
    {
        match self {
            ElementSize::Void => 0,
            ElementSize::Bit => 1,
            ElementSize::Byte => 8,
            ElementSize::TwoBytes => 16,
            ElementSize::FourBytes => 32,
            ElementSize::EightBytes | ElementSize::Pointer | ElementSize::InlineComposite => 64,
        }
    }
}

// The words of a list of so many elements (for code 7, the words of its rows).
pub fn list_words(element: ElementSize, count: u32) -> Result<u32, TooLarge>
    ensures value { result ≡ sized_list (code_of element) count }
{
    if count >= 1 << 29 {
        return Err(TooLarge::Elements);
    }
    let bits = count as u64 * element.bits() as u64;
    Ok(bits.div_ceil(64) as u32)
}

// The words of the rows of a struct list.
pub fn rows_words(rows: u32, size: StructSize) -> Result<u32, TooLarge>
    ensures value { result ≡ sized_rows rows size.data size.pointers }
{
    if rows >= 1 << 30 {
        return Err(TooLarge::Rows);
    }
    let words = rows as u64 * size.total() as u64;
    if words >= 1 << 29 {
        return Err(TooLarge::Words);
    }
    Ok(words as u32)
}
