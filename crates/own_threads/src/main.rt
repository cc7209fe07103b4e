//! An example of the libraries' use: `own_threads` judges the bundle on its standard input by two
//! threads of its own, each with its own order of posts, and writes the report.
#![tactic(auto)]

mod boards;
mod program;
mod report;
mod sections;

use crate::program::{check, status_of};
use cube_report::Counted;
use std::process::ExitCode;

fn main(rt: HostRuntime) -> ExitCode {
    let mut input = Counted::new(rt.stdin());
    let mut output = Counted::new(rt.stdout());
    let run = check(&rt, rt.alloc(), &mut input, &mut output);
    if let Err(fault) = run {
        let _ = eprintln!(rt; "own_threads: {fault}");
    }
    ExitCode::from(status_of(run))
}
