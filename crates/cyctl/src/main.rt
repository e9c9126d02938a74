//! `cyctl` replays a written list of steps of a connector, and checks its settings.
#![tactic(auto)]

mod check;
mod input;
mod laws;
mod output;
mod tool;

use input::StdSource;
use output::StdSink;
use std::io::ErrorKind;
use std::process::ExitCode;
use std::{env, io};
use tool::{Refusal, refuse, tool};

/// The words of the command line.
fn words(rt: &HostRuntime) -> io::Result<Vec<String>> {
    let words = env::args(rt)?.skip(1).collect(rt.alloc())?;
    Ok(words)
}

fn main(rt: HostRuntime) -> ExitCode {
    let mut source = StdSource::new(rt.stdin());
    let mut sink = StdSink::new(rt.stdout());
    let words = match words(&rt) {
        Ok(words) => words,
        Err(error) if error.kind() == ErrorKind::OutOfMemory => {
            return ExitCode::from(refuse(&mut sink, Refusal::NoMemory));
        }
        // Words that are no text are none of the forms.
        Err(_) => Vec::new(rt.alloc()),
    };
    ExitCode::from(tool(rt.alloc(), &words, &mut source, &mut sink))
}
