//! The tests of what `cubeboard` writes and tells beside its report: pictures, records, progress.
#![tactic(auto)]

#[cfg(test)]
mod calls;
#[cfg(test)]
mod made_tests;
#[cfg(test)]
mod progress_tests;
