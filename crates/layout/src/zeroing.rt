// Zeroing of what a slot reaches: each object, with the landing pads before it, when the walk leaves it.
ghost use Rattle.std.specs.Prelude.{◌≡◌, map, length};
ghost use Rattle.tree.specs.Words.{word as memory};
ghost use Rattle.walk.specs.Landings.{landing_of};
ghost use Rattle.walk.specs.Shapes.{shape_meant};
ghost use Rattle.arena.specs.Steady.{Steady};
ghost use Rattle.layout.specs.Clears.{Clears, Empties};
ghost use Rattle.layout.specs.Emptied.{object_words, span_emptied, emptied, Handled};

use arena::zeroing::zero_words;
use cursor::{Cursor, Event};
use segments::source::Source;
use walk::held::Held;
use walk::shape::Shape;
use walk::spot::Spot;

// The words of the object: of a struct list the tag and as many as its pointer counts, whatever its tag says; so the shape alone does not tell.
fn object_words(held: Held) -> u32
    ensures value { result ≡ object_words held.landing.pointer.word (shape_meant held.shape) }
{
    match held.shape {
        Shape::Structure(_) | Shape::Plain(_, _) => held.shape.words() as u32,
        Shape::Composite(_, _) => held.landing.pointer.element_count() + 1,
    }
}

// Zeroes `n` words from the start on. Where 32 bits do not count the first of them, no segment of a builder reaches so far, and nothing
// is done.
fn zero_span<S: Source>(source: &mut S, start: Spot, n: u32)
    ensures words { S.Reading.segments source.new ≡ span_emptied (S.Reading.segments source.old) start.segment start.word n }
    ensures steady { Steady S.Source source.old source.new }
{
    if let Ok(word) = u32::try_from(start.word) {
        zero_words(source, start.segment, word, n);
    }
}

// Zeroes the object, then its landing pads.
fn zero_spans<S: Source>(source: &mut S, held: Held)
    ensures words { S.Reading.segments source.new ≡ emptied (S.Reading.segments source.old) (landing_of held.landing) (shape_meant held.shape) }
    ensures steady { Steady S.Source source.old source.new }
{
    let landing = held.landing;
    zero_span(source, landing.start, object_words(held));
    zero_span(source, landing.pad, landing.pads.min(2) as u32);
}

// Zeroes the object's own words, its tag among them, and its landing pads; not what lies below it.
pub fn zero_landing<S: Source>(source: &mut S, held: Held)
    ensures words { S.Reading.segments source.new ≡ emptied (S.Reading.segments source.old) (landing_of held.landing) (shape_meant held.shape) }
    ensures own { Empties (memory (S.Reading.segments source.old)) (memory (S.Reading.segments source.new)) (landing_of held.landing) (shape_meant held.shape) }
    ensures lengths { map length (S.Reading.segments source.new) ≡ map length (S.Reading.segments source.old) }
    ensures steady { Steady S.Source source.old source.new }
{
    zero_spans(source, held);
}

// What zeroing does at an event: an object that the walk leaves is zeroed.
fn handle<S: Source>(source: &mut S, event: Event)
    ensures words { Handled event (S.Reading.segments source.old) (S.Reading.segments source.new) }
    ensures steady { Steady S.Source source.old source.new }
{
    if let Event::Left(frame) = event {
        zero_landing(source, frame.held);
    }
}

// Zeroes the object to which the slot leads, with its tag and landing pads and all that lies below it. The slot itself stays as it is.
pub fn zero_object<S: Source>(source: &mut S, slot: Spot)
    ensures cleared { Clears (memory (S.Reading.segments source.old)) (memory (S.Reading.segments source.new)) slot.segment slot.word }
    ensures lengths { map length (S.Reading.segments source.new) ≡ map length (S.Reading.segments source.old) }
    ensures steady { Steady S.Source source.old source.new }
{
    let mut cursor = Cursor::at(source, slot);
    while let Some(event) = cursor.advance(source) {
        handle(source, event);
    }
}
