//! `cubeboard` checks refutations made by cube-and-conquer and prints a report.
#![tactic(auto)]

use cube_command::{
    Counted, FileStore, Metered, MeteredFiles, NoGate, Progress, SystemFiles, SystemLog, command,
    own_words,
};
use cube_explain::Teller;
use std::io::IsTerminal;
use std::process::ExitCode;

fn main(rt: HostRuntime) -> ExitCode {
    let mut errors = Counted::new(rt.stderr());
    let progress = Progress::new(&rt, rt.stderr().is_terminal());
    let status = match own_words(&rt, &mut errors) {
        Ok(words) => command(
            &rt,
            &mut FileStore::new(MeteredFiles::new(SystemFiles::new(&rt), &progress)),
            &words,
            &mut Counted::new(Metered::new(rt.stdin(), &progress)),
            &mut Counted::new(rt.stdout()),
            &mut errors,
            &NoGate,
            &progress,
            &Teller::new(&rt),
            &SystemLog::new(&rt),
        ),
        Err(status) => status,
    };
    ExitCode::from(status)
}
