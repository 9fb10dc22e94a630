// Runs scripts through the library, good lines and bad ones, and prints what it makes of them.
#![tactic(auto)]

use report::bad::Told;
use report::command::Entry;
use script::read::read_script;
use std::{env, fs};

fn show(rt: &HostRuntime, file: &str) -> anyhow::Result<()> {
    let text = fs::read_to_string(rt, file)?;
    let script = read_script(rt.alloc(), text.as_str())?;
    println!(rt; "== {file}")?;
    for numbered in script.commands.iter() {
        let entry = Entry(numbered);
        println!(rt; "{entry}")?;
    }
    for bad in script.bad.iter() {
        let told = Told(bad);
        println!(rt; "bad {told}")?;
    }
    Ok(())
}

fn work(rt: &HostRuntime) -> anyhow::Result<()> {
    for file in env::args(rt)?.skip(1) {
        show(rt, file.as_str())?;
    }
    Ok(())
}

fn main(rt: HostRuntime) -> anyhow::Result<()> {
    work(&rt)
}
