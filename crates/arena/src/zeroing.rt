// Words of a source set back to zero.
ghost use Rattle.std.specs.Prelude.{◌≡◌, ℕ};
ghost use Rattle.arena.specs.Steady.{Steady};
ghost use Rattle.arena.specs.Zeroed.{zeroed_words, Zeroed};

use segments::source::Source;

// Zeroes the `n` words from word `from` of segment `g` on, and no other; words that there are not are passed over.
pub fn zero_words<S: Source>(source: &mut S, g: usize, from: u32, n: u32)
    ensures words { S.Reading.segments source.new ≡ zeroed_words (S.Reading.segments source.old) g from n }
    ensures pointwise { Zeroed (S.Reading.segments source.old) (S.Reading.segments source.new) g from n }
    ensures steady { Steady S.Source source.old source.new }
{
    let from = from as usize;
    for w in from..from + n as usize {
        let _ = source.write(g, w, 0);
    }
}
