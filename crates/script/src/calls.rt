// The calls of a case, each read from the words behind its verb.
use crate::args::Args;
use crate::command::{Action, Call};
use line::fault::{Fault, Problem};
use number::home::{Home, NumberAt};
use number::kind::Kind;
use std::alloc::Global;
use text::hex::read_hex;
use text::quoted::read_quoted;

// The kind of a number, and its index at its home.
fn number_at(home: Home, args: &mut Args) -> Result<(Kind, NumberAt), Problem> {
    let kind = args.kind()?;
    let index = args.number()?;
    Ok((kind, NumberAt { home, index }))
}

fn set_action(home: Home, args: &mut Args) -> Result<Action, Problem> {
    let (kind, at) = number_at(home, args)?;
    let value = args.value(kind)?;
    Ok(Action::Set { at, value })
}

fn get_action(home: Home, args: &mut Args) -> Result<Action, Problem> {
    let (kind, at) = number_at(home, args)?;
    Ok(Action::Get { at, kind })
}

// Blank, or blank up to a comment.
fn is_blank(rest: &[u8]) -> bool {
    rest.iter()
        .find(|b| !matches!(b, b' ' | b'\t' | b'\r'))
        .is_none_or(|b| *b == b'#')
}

fn quoted_bytes(heap: Global, text: &[u8]) -> Result<Vec<u8>, Fault> {
    let (bytes, used) = read_quoted(heap, text)?;
    if is_blank(&text[used..]) {
        Ok(bytes)
    } else {
        Err(Fault::AfterText)
    }
}

// A text in quotes, which stands behind the words, or in hex, which is the next word.
fn text_action(heap: Global, args: &mut Args) -> Result<Action, Problem> {
    let at = args.at;
    let read = match args.quoted {
        Some(rest) => {
            args.end()?;
            quoted_bytes(heap, rest.as_bytes())
        }
        None => {
            let word = args.word()?;
            args.end()?;
            read_hex(heap, word).map_err(Fault::from)
        }
    };
    let bytes = read.map_err(|fault| fault.at(at))?;
    Ok(Action::Text { bytes })
}

// The action that the line's first word names.
fn read_action(heap: Global, verb: &str, args: &mut Args) -> Result<Action, Problem> {
    match verb {
        "struct" => Ok(Action::Struct(args.size()?)),
        "list" => {
            let code = args.number()?;
            let count = args.number()?;
            Ok(Action::List { code, count })
        }
        "rows" => {
            let count = args.number()?;
            let size = args.size()?;
            Ok(Action::Rows { count, size })
        }
        "grow-struct" => Ok(Action::GrowStruct(args.size()?)),
        "grow-rows" => Ok(Action::GrowRows(args.size()?)),
        "field" => set_action(Home::Field, args),
        "row" => set_action(Home::Row(args.number()?), args),
        "item" => set_action(Home::Item, args),
        "text" => text_action(heap, args),
        "clear" => Ok(Action::Clear),
        "get-field" => get_action(Home::Field, args),
        "get-row" => get_action(Home::Row(args.number()?), args),
        "get-item" => get_action(Home::Item, args),
        _ => Err(Fault::UnknownWord.at(0)),
    }
}

// A call: its place, and the action with its arguments, which end the line.
pub fn read_call(heap: Global, verb: &str, args: &mut Args) -> Result<Call, Problem> {
    let place = args.place(heap)?;
    let action = read_action(heap, verb, args)?;
    args.end()?;
    Ok(Call { place, action })
}
