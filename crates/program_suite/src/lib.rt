//! The tests of the program `cubeboard`, over the public call that `main` makes, and of reports.
#![tactic(auto)]

#[cfg(test)]
mod command_gate_tests;
#[cfg(test)]
mod command_tests;
#[cfg(test)]
mod report_tests;
#[cfg(test)]
mod section_tests;
