//! `daybook JOURNAL` makes the calls of a journal, one to a line, and prints what became of each.

#![tactic(auto)]

mod output;
mod run;

use crate::output::Output;
use crate::run::Journal;
use anyhow::anyhow;
use std::process::ExitCode;
use std::{env, fs};

fn run_journal(rt: &HostRuntime, path: &str) -> anyhow::Result<()> {
    let text = fs::read(rt, path)?;
    let mut output = Output::new(rt)?;
    let mut journal = Journal {
        rt,
        path,
        output: &mut output,
    };
    journal.run(text.as_slice())?;
    output.finish()?;
    Ok(())
}

fn run_arguments(rt: &HostRuntime) -> anyhow::Result<()> {
    let mut arguments = env::args(rt)?;
    let _program = arguments.next();
    match (arguments.next(), arguments.next()) {
        (Some(path), None) => run_journal(rt, path.as_str()),
        _ => Err(anyhow!("usage: daybook JOURNAL")),
    }
}

// What went wrong is printed here, once; so an error is not returned, since a returned one is printed too.
fn main(rt: HostRuntime) -> anyhow::Result<ExitCode> {
    match run_arguments(&rt) {
        Ok(()) => Ok(ExitCode::SUCCESS),
        Err(error) => {
            eprintln!(rt; "daybook: {error}")?;
            Ok(ExitCode::FAILURE)
        }
    }
}
