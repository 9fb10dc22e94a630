// A bad line in words.
use line::fault::Fault;
use script::read::BadLine;
use std::fmt;

// A bad line, to be shown with its number.
#[derive(Clone, Copy)]
pub struct Told<'a>(pub &'a BadLine);

impl fmt::Display for Told<'_> {
    fn fmt<W: fmt::Write>(&self, f: &mut fmt::Formatter<W>) -> fmt::Result {
        let BadLine { line, fault, word } = self.0;
        write!(f, "line {line}: ")?;
        match fault {
            Fault::UnknownWord => write!(f, "`{word}` is no command"),
            Fault::MissingArgument => write!(f, "an argument is missing after `{word}`"),
            Fault::ExtraArgument => write!(f, "there is an argument too many at `{word}`"),
            Fault::BadNumber => write!(f, "`{word}` is no decimal number"),
            Fault::NumberTooLarge => write!(f, "the number `{word}` is too large here"),
            Fault::BadPath => write!(f, "`{word}` is no path"),
            Fault::PathNumberTooLarge => write!(
                f,
                "the path `{word}` has a number of 2^32 or more"
            ),
            Fault::BadKind => write!(
                f,
                "`{word}` is no kind: it must be bool, void, u8, u16, u32, u64 or i32"
            ),
            Fault::BadValue => write!(f, "`{word}` is no value of that kind"),
            Fault::BadSource => write!(f, "`{word}` is no source: it must be slab or pages"),
            Fault::BadLayer => write!(f, "`{word}` is no layer: it must be scratch or quota"),
            Fault::TooManyLayers => write!(
                f,
                "`{word}` is a fourth layer: a source has three at most"
            ),
            Fault::BadHex => write!(
                f,
                "`{word}` is no text in hex: two digits a byte, or - for none"
            ),
            Fault::NoEndOfText => write!(f, "the text in quotes has no end"),
            Fault::BadEscape => write!(
                f,
                "the text in quotes has an unknown escape: only \\\", \\\\ and \\xHH are known"
            ),
            Fault::AfterText => write!(f, "something stands behind the text in quotes"),
            Fault::UnexpectedText => write!(f, "a text in quotes has no place here"),
            Fault::NoCase => write!(f, "`{word}` stands outside a case"),
            Fault::NoSource => write!(f, "the case names no source before `{word}`"),
            Fault::SecondSource => write!(
                f,
                "the case has a source already, so this one comes too late"
            ),
            Fault::Memory => write!(f, "there is not enough memory to read it"),
        }
    }
}
