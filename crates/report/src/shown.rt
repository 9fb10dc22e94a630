// Small texts that several messages use: a count with its noun, the sections of a struct, a place, a text in quotes.
use path::place::Place;
use std::fmt;
use wire::sizes::StructSize;

// A number with the noun that it counts, for one and for any other number.
#[derive(Clone, Copy)]
pub struct Counted(pub u64, pub &'static str, pub &'static str);

impl fmt::Display for Counted {
    fn fmt<W: fmt::Write>(&self, f: &mut fmt::Formatter<W>) -> fmt::Result {
        let Counted(count, one, many) = *self;
        let noun = if count == 1 { one } else { many };
        write!(f, "{count} {noun}")
    }
}

// The words of data and the pointers of a struct.
#[derive(Clone, Copy)]
pub struct Sections(pub StructSize);

impl fmt::Display for Sections {
    fn fmt<W: fmt::Write>(&self, f: &mut fmt::Formatter<W>) -> fmt::Result {
        let data = Counted(u64::from(self.0.data), "data word", "data words");
        let pointers = Counted(u64::from(self.0.pointers), "pointer", "pointers");
        write!(f, "{data} and {pointers}")
    }
}

// Where a call goes, in words.
#[derive(Clone, Copy)]
pub struct At<'a>(pub &'a Place);

impl fmt::Display for At<'_> {
    fn fmt<W: fmt::Write>(&self, f: &mut fmt::Formatter<W>) -> fmt::Result {
        let place = self.0;
        if place.steps.is_empty() {
            write!(f, "at the root")
        } else {
            write!(f, "at {place}")
        }
    }
}

// Bytes in quotes, as a script may write them.
#[derive(Clone, Copy)]
pub struct Quote<'a>(pub &'a [u8]);

impl fmt::Display for Quote<'_> {
    fn fmt<W: fmt::Write>(&self, f: &mut fmt::Formatter<W>) -> fmt::Result {
        write!(f, "\"")?;
        for b in self.0 {
            match *b {
                b'"' => write!(f, "\\\"")?,
                b'\\' => write!(f, "\\\\")?,
                b' '..=b'~' => {
                    let c = char::from(*b);
                    write!(f, "{c}")?
                }
                _ => write!(f, "\\x{b:02x}")?,
            }
        }
        write!(f, "\"")
    }
}
