// The bytes of a text in words, byte i of the text in byte i of its words.
ghost use Rattle.std.specs.Prelude.{◌≡◌, ℕ, ◌+◌, ◌^◌, ◌<◌, ◌≤◌, slice_index};
ghost use Rattle.tree.specs.Value.{size};
ghost use Rattle.table.specs.Segments.{allocated_in};
ghost use Rattle.law.specs.Law.{memory};
ghost use Rattle.law.specs.Machine.{text_shape};
ghost use Rattle.law.specs.Exact.{text_word, spelled};
ghost use Rattle.effects.specs.States.{state, Sized, Rewritten};

use arena::BuilderArena;
use effects::words::write_word;
use segments::source::Source;
use walk::spot::Spot;

// Byte `i`, 0 past the end.
fn byte_at(bytes: &[u8], i: usize) -> u64
    ensures value { result ≡ slice_index bytes.now i }
    ensures small { result < 256 }
{
    bytes.get(i).copied().unwrap_or(0) as u64
}

// Word `k` of the text.
fn text_word(bytes: &[u8], k: usize) -> u64
    requires { k < 2 ^ 61 }
    ensures value { result ≡ text_word bytes.now k }
{
    let at = k * 8;
    byte_at(bytes, at)
        + byte_at(bytes, at + 1) * 0x100
        + byte_at(bytes, at + 2) * 0x1_0000
        + byte_at(bytes, at + 3) * 0x100_0000
        + byte_at(bytes, at + 4) * 0x1_0000_0000
        + byte_at(bytes, at + 5) * 0x100_0000_0000
        + byte_at(bytes, at + 6) * 0x1_0000_0000_0000
        + byte_at(bytes, at + 7) * 0x100_0000_0000_0000
}

// Writes the bytes and a zero byte into the words from `start` on, each word once: by the word's number, since the last word may have no byte.
pub fn spell<S: Source>(arena: &mut BuilderArena<S>, start: Spot, bytes: &[u8])
    ensures rewritten { Rewritten (state S.Source arena.old) (state S.Source arena.new) }
    ensures words { Sized (state S.Source arena.old) → start.word + size (text_shape bytes.now) ≤ allocated_in (state S.Source arena.old).table start.segment → memory (state S.Source arena.new) ≡ spelled (memory (state S.Source arena.old)) start.segment start.word bytes.now }
{
    for k in 0..bytes.len() / 8 + 1 {
        let spot = Spot {
            word: start.word.saturating_add(k),
            ..start
        };
        write_word(arena, spot, text_word(bytes, k));
    }
}
