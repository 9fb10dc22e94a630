// Text in quotes: every byte stands for itself, but `\"`, `\\` and `\xHH` for a quote, a backslash and the byte HH.
ghost use Rattle.std.specs.Prelude.{◌≡◌, ℕ, ◌<◌, ◌≤◌, List, length, MatchResult, slice_index};
ghost use Rattle.text.specs.Quotes.{hexed, escaped, letter_of, Used, Quoted};
ghost use Rattle.text.specs.Texts.{byte_of, Unless};

use crate::hex::{TextFault, hex_byte};
use std::alloc::Global;

// What a text in quotes goes on with: the closing quote, or a byte, with how many bytes spell it.
#[derive(Clone, Copy, Debug, PartialEq, Eq)]
pub enum Letter {
    Close,
    Byte(u8, usize),
}

fn hex_letter(high: u8, low: u8) -> Result<Letter, TextFault>
    ensures { result ≡ hexed (byte_of high low) }
{
    let byte = hex_byte(high, low).ok_or(TextFault::BadEscape)?;
    Ok(Letter::Byte(byte, 4))
}

// After a backslash.
fn escape(text: &[u8]) -> Result<Letter, TextFault>
    ensures { result ≡ escaped (slice_index text.now 0) (slice_index text.now 1) (slice_index text.now 2) }
{
    match text {
        [b'"', ..] => Ok(Letter::Byte(b'"', 2)),
        [b'\\', ..] => Ok(Letter::Byte(b'\\', 2)),
        [b'x', high, low, ..] => hex_letter(*high, *low),
        _ => Err(TextFault::BadEscape),
    }
}

fn next_letter(text: &[u8]) -> Result<Letter, TextFault>
    ensures is { result ≡ letter_of text.now }
    ensures used { Used (length text.now) result }
{
    match text {
        [] => Err(TextFault::NoEnd),
        [b'"', ..] => Ok(Letter::Close),
        [b'\\', rest @ ..] => escape(rest),
        [byte, ..] => Ok(Letter::Byte(*byte, 1)),
    }
}

// Reads from behind the opening quote. Answers the bytes, and how many were used, the closing quote among them; so the count is kept, and no
// slice that gets shorter.
pub fn read_quoted(heap: Global, text: &[u8]) -> Result<(Vec<u8>, usize), TextFault>
    ensures { MatchResult result (λ q. Quoted text.now q.0.items q.1 × (q.1 ≤ length text.now)) (λ e. Unless e ((vs : List ℕ) (n : ℕ) → Quoted text.now vs n → ⊥)) }
{
    let mut bytes = Vec::new(heap);
    let mut at = 0;
    loop {
        match next_letter(&text[at..])? {
            Letter::Close => return Ok((bytes, at + 1)),
            Letter::Byte(byte, used) => {
                bytes.push(byte)?;
                at += used;
            }
        }
    }
}
