// The command line tool: reads a script of calls and says what it would do.
#![tactic(auto)]

ghost use Rattle.std.specs.Prelude.{ℕ, ◌≤◌, length};

mod drive;

use anyhow::anyhow;
use drive::run_case;
use report::bad::Told;
use report::command::Entry;
use script::command::Command;
use script::read::{Numbered, Script, read_script};
use std::process::ExitCode;
use std::{env, fs};

// What the tool is asked to do.
enum Request {
    Help,
    Run(String),
    Answers(String),
}

fn help(rt: &HostRuntime) -> anyhow::Result<()> {
    println!(rt; "round run FILE       read a script of calls, and say what each line would do")?;
    println!(rt;
        "round answers FILE   the answers of a script's calls; nothing is built yet, so each is skipped"
    )?;
    println!(rt; "round help           this text")?;
    println!(rt; "docs/SCRIPTS.md says what a script is.")?;
    Ok(())
}

fn asked(rt: &HostRuntime) -> anyhow::Result<Request> {
    let mut args = env::args(rt)?.skip(1);
    let Some(verb) = args.next() else {
        return Ok(Request::Help);
    };
    let file = args.next();
    if args.next().is_some() {
        return Err(anyhow!("too many arguments: see `round help`"));
    }
    match (verb.as_str(), file) {
        ("run", Some(file)) => Ok(Request::Run(file)),
        ("answers", Some(file)) => Ok(Request::Answers(file)),
        ("help", None) => Ok(Request::Help),
        ("run" | "answers", None) => Err(anyhow!("no file is named: see `round help`")),
        _ => Err(anyhow!("no such command: see `round help`")),
    }
}

// Reads a script whole, or prints every bad line of it.
fn load(rt: &HostRuntime, file: &str) -> anyhow::Result<Script> {
    let text = match fs::read_to_string(rt, file) {
        Ok(text) => text,
        Err(e) => {
            eprintln!(rt; "{file}: {e}")?;
            return Err(anyhow!("the file cannot be read"));
        }
    };
    let script = read_script(rt.alloc(), text.as_str())?;
    for bad in script.bad.iter() {
        let told = Told(bad);
        eprintln!(rt; "{file}: {told}")?;
    }
    if script.bad.is_empty() {
        Ok(script)
    } else {
        Err(anyhow!("the script has bad lines"))
    }
}

// How many lines of a case follow its source.
fn case_length(lines: &[Numbered]) -> usize
    ensures bound { result ≤ length lines.now }
{
    lines
        .iter()
        .position(|numbered| matches!(&numbered.command, Command::Case { .. } | Command::End))
        .unwrap_or(lines.len())
}

// Says each line, and runs those of a case over the source that it names.
fn run(rt: &HostRuntime, file: &str) -> anyhow::Result<()> {
    let script = load(rt, file)?;
    let mut rest = script.commands.as_slice();
    while let Some((numbered, after)) = rest.split_first() {
        let entry = Entry(numbered);
        println!(rt; "{entry}")?;
        rest = after;
        if let Command::Source(spec) = &numbered.command {
            let (lines, others) = after.split_at(case_length(after));
            run_case(rt, spec, lines)?;
            rest = others;
        }
    }
    Ok(())
}

fn answers(rt: &HostRuntime, file: &str) -> anyhow::Result<()> {
    let script = load(rt, file)?;
    for numbered in script.commands.iter() {
        match &numbered.command {
            Command::Case { name } => println!(rt; "case {name}")?,
            Command::Source(_) | Command::End => {}
            _ => println!(rt; "skip nothing is built yet")?,
        }
    }
    Ok(())
}

fn work(rt: &HostRuntime) -> anyhow::Result<()> {
    match asked(rt)? {
        Request::Help => help(rt),
        Request::Run(file) => run(rt, file.as_str()),
        Request::Answers(file) => answers(rt, file.as_str()),
    }
}

// A failed write to standard error is passed over: the status tells of the failure all the same.
fn main(rt: HostRuntime) -> ExitCode {
    match work(&rt) {
        Ok(()) => ExitCode::SUCCESS,
        Err(e) => {
            let _ = eprintln!(rt; "round: {e}");
            ExitCode::FAILURE
        }
    }
}
