// Scripts: cases of calls on a message, one command a line, each read into a typed command or a typed fault.
#![tactic(auto)]

mod args;
mod calls;
pub mod command;
pub mod read;
mod source;
