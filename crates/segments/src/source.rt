// The source interface: segments that can be read, written, granted and taken back.
ghost use Rattle.std.specs.Prelude.{◌≡◌, ℕ, [], Option};
ghost use Rattle.segments.specs.Calls.{Written, Granted};
ghost use Rattle.segments.specs.Memory.{Bounded};

use super::reading::Reading;
use super::refusal::{Outside, Refusal};
use std::fmt::Debug;

// What segments are granted from. Besides its segments it means its offers, its first offers, and the fault that a refused grant
// has; the one law is `bounds`.
pub trait Source: Reading {
    // why a grant is refused
    type Fault: Debug + Drop;

    // for each minimum, the capacity of the segment that a grant would add, or nothing
    ghost offers: { Self → ℕ → Option ℕ };

    // the offers once every segment is taken back
    ghost first: { Self → ℕ → Option ℕ };

    // for each minimum, why a grant is refused if nothing is offered
    ghost fault: { Self → ℕ → Self.Fault };

    // the law: a capacity offered for m is at least m and below 2^29, and nothing is offered for 0
    ghost bounds: { (s : Self) → Bounded (offers s) };

    // The capacity of the segment that a grant of `m` words would add.
    fn offer(&self, m: u32) -> Option<u32>
        ensures answer { result ≡ offers self.now m };

    // Puts `v` into word `w` of segment `g`, and is refused where there is no such word.
    fn write(&mut self, g: usize, w: usize, v: u64) -> Result<(), Outside>
        ensures outcome { Written result (Self.Reading.segments self.old) (Self.Reading.segments self.new) g w v }
        ensures offers { offers self.new ≡ offers self.old }
        ensures first { first self.new ≡ first self.old }
        ensures fault { fault self.new ≡ fault self.old };

    // Adds a zero segment of the capacity that is offered for `m` words, which it answers, and is refused where nothing is offered.
    fn grant(&mut self, m: u32) -> Result<u32, Refusal<Self::Fault>>
        ensures outcome { Granted result m (Self.Reading.segments self.old) (Self.Reading.segments self.new) (offers self.old) (offers self.new) (fault self.old) (fault self.new) }
        ensures first { first self.new ≡ first self.old };

    // Takes every segment back.
    fn take_back(&mut self)
        ensures segments { Self.Reading.segments self.new ≡ [] }
        ensures offers { offers self.new ≡ first self.old }
        ensures first { first self.new ≡ first self.old };
}
