// The walk itself.
ghost use Rattle.std.specs.Prelude.{◌≡◌, [], ◌∷◌, length, if◌then◌else◌, nat_lt};
ghost use Rattle.tree.specs.Words.{word as memory};
ghost use Rattle.cursor.specs.Begun.{begun_of, stack};
ghost use Rattle.cursor.specs.Steps.{starting, Advanced, Popped};
ghost use Rattle.cursor.specs.Weight.{Lighter};

use super::{Cursor, Event, Frame};
use segments::reading::Reading;
use walk::spot::{Spot, word_at};

impl Cursor {
    // No object.
    fn new() -> Cursor
        ensures value { stack result ≡ [] }
    {
        let nothing = Frame::default();
        Cursor {
            depth: 0,
            frames: [nothing; 64],
        }
    }

    // One object more; false where there are 64.
    fn push(&mut self, frame: Frame) -> bool
        ensures value { result ≡ nat_lt (length (stack self.old)) 64 }
        ensures after { stack self.new ≡ (if result then begun_of frame ∷ stack self.old else stack self.old) }
    {
        let n = self.depth;
        if n >= 64 {
            return false;
        }
        self.frames[n] = frame;
        self.depth = n + 1;
        true
    }

    // Takes the newest object away.
    fn pop(&mut self) -> Option<Frame>
        ensures outcome { Popped result (stack self.old) (stack self.new) }
    {
        if self.depth == 0 {
            return None;
        }
        let n = self.depth - 1;
        self.depth = n;
        Some(self.frames[n])
    }

    // The object of the slot begins, unless the slot is null.
    pub fn at<R: Reading>(reading: &R, slot: Spot) -> Cursor
        ensures value { stack result ≡ starting (memory (R.Reading.segments reading.now)) slot.segment slot.word }
    {
        let mut cursor = Cursor::new();
        if word_at(reading, slot) != 0 {
            let _ = cursor.push(Frame::begin(reading, slot));
        }
        cursor
    }

    // Goes on by one event; none when all is walked.
    pub fn advance<R: Reading>(&mut self, reading: &R) -> Option<Event>
        ensures event { Advanced (memory (R.Reading.segments reading.now)) result (stack self.old) (stack self.new) }
        ensures lighter { Lighter result (stack self.old) (stack self.new) }
    {
        let frame = self.pop()?;
        if !frame.has_more() {
            return Some(Event::Left(frame));
        }
        let _ = self.push(frame.pass());
        match frame.child(reading) {
            None => Some(Event::Null),
            Some(child) => {
                if self.push(child) {
                    Some(Event::Entered(child))
                } else {
                    Some(Event::TooDeep)
                }
            }
        }
    }
}
