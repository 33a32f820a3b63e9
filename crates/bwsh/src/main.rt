//! `bwsh`: runs a batch file, or a stream of lines, on a store and prints the answers.
#![tactic(auto)]

mod asks;
mod context;
mod copying;
mod disk;
mod explain;
mod laws;
mod line;
mod notes;
mod number;
mod opening;
mod options;
mod order;
mod output;
mod program;
mod progress;
mod running;
mod session;
mod show;
mod source;
mod text;
mod token;
mod words;

use crate::program::run_program;
use std::process::ExitCode;

fn main(rt: HostRuntime) -> ExitCode {
    let status = run_program(&rt, &mut rt.stdin(), &mut rt.stdout(), &mut rt.stderr());
    ExitCode::from(status)
}
