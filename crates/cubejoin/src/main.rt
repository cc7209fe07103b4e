//! `cubejoin` joins reports of `cubeboard` on one formula and its cubes and prints their report.
#![tactic(auto)]

use join_command::{Counted, FileStore, SystemFiles, join_command, own_words};
use std::process::ExitCode;

fn main(rt: HostRuntime) -> ExitCode {
    let mut errors = Counted::new(rt.stderr());
    let status = match own_words(&rt, &mut errors) {
        Ok(words) => join_command(
            &rt,
            &mut FileStore::new(SystemFiles::new(&rt)),
            &words,
            &mut Counted::new(rt.stdout()),
            &mut errors,
        ),
        Err(status) => status,
    };
    ExitCode::from(status)
}
