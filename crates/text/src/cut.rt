// A line cut into its words: up to a comment, or up to the quote that opens a text.
ghost use Rattle.text.specs.Lines.{Uncommented, CutAt};

use std::alloc::{AllocError, Global};

// The words of a line, and what stands behind an opening quote, if there is one.
#[derive(Drop)]
pub struct Line<'a> {
    pub words: Vec<&'a str>,
    pub quoted: Option<&'a str>,
}

fn before_comment(line: &str) -> &str
    ensures { Uncommented line.now result.now }
{
    line.split_once('#').map_or(line, |(head, _)| head)
}

// What stands before a comment or an opening quote, and what stands behind that quote.
pub fn split_quote(line: &str) -> (&str, Option<&str>)
    ensures { CutAt line.now result.0.now result.1 }
{
    match line.split_once('"') {
        Some((head, rest)) if !head.contains('#') => (head, Some(rest)),
        _ => (before_comment(line), None),
    }
}

pub fn cut_line<'a>(heap: Global, line: &'a str) -> Result<Line<'a>, AllocError> {
    let (head, quoted) = split_quote(line);
    let words = head.split_whitespace().collect(heap)?;
    Ok(Line { words, quoted })
}
