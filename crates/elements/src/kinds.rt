// The kinds of elements of lists of code 0 to 5: what they have in common, and the seven kinds.
ghost use Rattle.std.specs.Prelude.{ℕ, ◌%◌, ◌<◌, ◌^◌, ◌≡◌, Bool, true, false};
ghost use Rattle.std.proofs.Common.{SFits, to_z, of_z, rules};
ghost use Rattle.std.specs.Int.{w32};
ghost use Rattle.wire.specs.Sizes.{code_of, element_bits};
ghost use Rattle.wire.specs.Elements.{bit_of, flag_of};
ghost use Rattle.elements.specs.Laws.{ElementLaws};

use wire::bits::low_bits;
use wire::sizes::ElementSize;

// A kind of element: the code of its lists, and values that turn into as many bits and back without loss.
pub trait PrimitiveElement: Sized {
    ghost code: { ℕ };

    // the values of the type
    ghost fits: { Self → Type 0 };

    ghost bits: { Self → ℕ };

    ghost value: { ℕ → Self };

    fn element_size() -> ElementSize
        ensures value { code_of result ≡ code };

    fn to_bits(self) -> u64
        ensures bits { result ≡ bits self }
        ensures fits { fits self };

    // The value of the lowest bits of b.
    fn from_bits(b: u64) -> Self
        ensures value { result ≡ value (b % 2 ^ element_bits code) };

    ghost laws: { ElementLaws code fits bits value };
}

impl PrimitiveElement for () {
    ghost code = { 0 };

    ghost fits = { λ _. Unit {0} };

    ghost bits = { λ _. 0 };

    ghost value = { λ _. tt };

    ghost laws = { Prim.search rules };

    fn element_size() -> ElementSize {
        ElementSize::Void
    }

    fn to_bits(self) -> u64 {
        0
    }

    fn from_bits(_b: u64) -> Self {}
}

impl PrimitiveElement for bool {
    ghost code = { 1 };

    ghost fits = { λ _. Unit {0} };

    ghost bits = { bit_of };

    ghost value = { flag_of };

    ghost laws = { Prim.search rules };

    fn element_size() -> ElementSize {
        ElementSize::Bit
    }

    fn to_bits(self) -> u64 {
        u64::from(self)
    }

    fn from_bits(b: u64) -> Self {
        low_bits(b, 1) == 1
    }
}

impl PrimitiveElement for u8 {
    ghost code = { 2 };

    ghost fits = { λ x. x < 2 ^ 8 };

    ghost bits = { λ x. x };

    ghost value = { λ b. b };

    ghost laws = { Prim.search rules };

    fn element_size() -> ElementSize {
        ElementSize::Byte
    }

    fn to_bits(self) -> u64 {
        self as u64
    }

    fn from_bits(b: u64) -> Self {
        low_bits(b, 8) as u8
    }
}

impl PrimitiveElement for u16 {
    ghost code = { 3 };

    ghost fits = { λ x. x < 2 ^ 16 };

    ghost bits = { λ x. x };

    ghost value = { λ b. b };

    ghost laws = { Prim.search rules };

    fn element_size() -> ElementSize {
        ElementSize::TwoBytes
    }

    fn to_bits(self) -> u64 {
        self as u64
    }

    fn from_bits(b: u64) -> Self {
        low_bits(b, 16) as u16
    }
}

impl PrimitiveElement for u32 {
    ghost code = { 4 };

    ghost fits = { λ x. x < 2 ^ 32 };

    ghost bits = { λ x. x };

    ghost value = { λ b. b };

    ghost laws = { Prim.search rules };

    fn element_size() -> ElementSize {
        ElementSize::FourBytes
    }

    fn to_bits(self) -> u64 {
        self as u64
    }

    fn from_bits(b: u64) -> Self {
        low_bits(b, 32) as u32
    }
}

impl PrimitiveElement for u64 {
    ghost code = { 5 };

    ghost fits = { λ x. x < 2 ^ 64 };

    ghost bits = { λ x. x };

    ghost value = { λ b. b };

    ghost laws = { Prim.search rules };

    fn element_size() -> ElementSize {
        ElementSize::EightBytes
    }

    fn to_bits(self) -> u64 {
        self
    }

    fn from_bits(b: u64) -> Self {
        b
    }
}

// As the unsigned number of the same bits, in two's complement.
impl PrimitiveElement for i32 {
    ghost code = { 4 };

    ghost fits = { SFits w32 };

    ghost bits = { of_z w32 };

    ghost value = { to_z w32 };

    ghost laws = { Prim.search rules };

    fn element_size() -> ElementSize {
        u32::element_size()
    }

    fn to_bits(self) -> u64 {
        self.cast_unsigned().to_bits()
    }

    fn from_bits(b: u64) -> Self {
        u32::from_bits(b).cast_signed()
    }
}
