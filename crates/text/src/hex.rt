// The bytes of a text in hex, two digits a byte, or `-` for none.
ghost use Rattle.std.specs.Prelude.{◌≡◌, ℕ, ◌≤◌, List, length, MatchResult, slice_index};
ghost use Rattle.text.specs.Texts.{hex_digit, byte_of, HexPairs, HexText, Unless};
ghost use Rattle.text.specs.declared.hex.TextFault.TheVariants.{Memory};

use std::alloc::{AllocError, AllocFailed, Global};

// Why a word is no text.
#[derive(Clone, Copy, Debug, PartialEq, Eq)]
pub enum TextFault {
    BadHex,
    NoEnd,
    BadEscape,
    Memory,
}

impl From<AllocError> for TextFault {
    ghost from_gives = { λ _ r. r ≡ Memory };

    fn from(_e: AllocError) -> TextFault {
        TextFault::Memory
    }
}

impl<T: Drop> From<AllocFailed<T>> for TextFault {
    ghost from_gives = { λ _ r. r ≡ Memory };

    fn from(_e: AllocFailed<T>) -> TextFault {
        TextFault::Memory
    }
}

pub fn hex_digit(b: u8) -> Option<u8>
    ensures { result ≡ hex_digit b }
{
    match b {
        b'0'..=b'9' => Some(b - b'0'),
        b'a'..=b'f' => Some(b - b'a' + 10),
        b'A'..=b'F' => Some(b - b'A' + 10),
        _ => None,
    }
}

pub fn hex_byte(high: u8, low: u8) -> Option<u8>
    ensures { result ≡ byte_of high low }
{
    Some(16 * hex_digit(high)? + hex_digit(low)?)
}

// A last digit alone writes no byte.
fn pair_byte(pair: &[u8]) -> Option<u8>
    ensures { length pair.now ≤ 2 → result ≡ byte_of (slice_index pair.now 0) (slice_index pair.now 1) }
{
    match pair {
        [high, low] => hex_byte(*high, *low),
        _ => None,
    }
}

fn hex_pairs(heap: Global, text: &[u8]) -> Result<Vec<u8>, TextFault>
    ensures { MatchResult result (λ v. HexPairs text.now v.items) (λ e. Unless e ((vs : List ℕ) → HexPairs text.now vs → ⊥)) }
{
    let mut bytes = Vec::new(heap);
    for pair in text.chunks(2) {
        bytes.push(pair_byte(pair).ok_or(TextFault::BadHex)?)?;
    }
    Ok(bytes)
}

pub fn read_hex(heap: Global, word: &str) -> Result<Vec<u8>, TextFault>
    ensures { MatchResult result (λ v. HexText word.now v.items) (λ e. Unless e ((vs : List ℕ) → HexText word.now vs → ⊥)) }
{
    if word == "-" {
        return Ok(Vec::new(heap));
    }
    hex_pairs(heap, word.as_bytes())
}
