//! The tests of the program `cubejoin`, over the public call that `main` makes.
#![tactic(auto)]

#[cfg(test)]
mod join_tests;
