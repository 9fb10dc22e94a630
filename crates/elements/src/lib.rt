// Numbers, flags and nothing as the elements of lists: their kinds, and their bits in a word.
#![tactic(auto)]

ghost use Rattle.std.specs.Prelude.{ℕ, ◌+◌, ◌<◌, ◌≤◌, ◌^◌, ◌≡◌};
ghost use Rattle.wire.specs.Sizes.{code_of};
ghost use Rattle.wire.specs.Elements.{patched, element_word, element_bit, element_in, element_put};

use kinds::PrimitiveElement;
use wire::bits::low_bits;
use wire::sizes::ElementSize;

pub mod kinds;

// The word with its n bits from bit k on replaced by b.
#[tactic(auto, using(wire::proofs::Splices::swapped, wire::proofs::Splices::patched_lt, wire::proofs::Splices::shifted_up))]
fn splice(word: u64, k: u32, n: u32, b: u64) -> u64
    requires below { k < 64 }
    requires room { k + n ≤ 64 }
    requires bits { b < 2 ^ n }
    ensures { result ≡ patched word k n b }
{
    let old = low_bits(word >> k, n);
    word - (old << k) + (b << k)
}

// The word of a list of this kind that holds the element of this index, counted from the list's first word.
pub fn element_word_of(element: ElementSize, index: usize) -> usize
    ensures value { result ≡ element_word (code_of element) index }
{
    let bits = element.bits() as usize;
    if bits == 0 {
        return 0;
    }
    index / (64 / bits)
}

// The same for a kind of element that is known by its type.
pub fn element_word<E: PrimitiveElement>(index: usize) -> usize
    ensures value { result ≡ element_word E.PrimitiveElement.code index }
{
    element_word_of(E::element_size(), index)
}

// The lowest bit of the element of this index in its word.
fn element_bit(element: ElementSize, index: usize) -> u32
    requires { code_of element < 6 }
    ensures { result ≡ element_bit (code_of element) index }
{
    ((index % 64) as u32 * element.bits()) % 64
}

// The element of this index, from the word that holds it.
pub fn get_element<E: PrimitiveElement>(word: u64, index: usize) -> E
    ensures value { result ≡ E.PrimitiveElement.value (element_in word E.PrimitiveElement.code index) }
{
    E::from_bits(word >> element_bit(E::element_size(), index))
}

// The word with the element of this index replaced, which is read back, and no other.
#[tactic(auto, using(wire::proofs::Splices::element_back))]
pub fn put_element<E: PrimitiveElement>(word: u64, index: usize, x: E) -> u64
    ensures word { result ≡ element_put word E.PrimitiveElement.code index (E.PrimitiveElement.bits x) }
    ensures back { E.PrimitiveElement.value (element_in result E.PrimitiveElement.code index) ≡ x }
    ensures others { (j : ℕ) → element_word E.PrimitiveElement.code j ≡ element_word E.PrimitiveElement.code index → (j ≡ index → ⊥) → element_in result E.PrimitiveElement.code j ≡ element_in word E.PrimitiveElement.code j }
{
    let element = E::element_size();
    splice(
        word,
        element_bit(element, index),
        element.bits(),
        x.to_bits(),
    )
}
