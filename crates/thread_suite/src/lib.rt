//! The tests of the libraries that threads share, over their public calls.
#![tactic(auto)]

#[cfg(test)]
mod cases;
#[cfg(test)]
mod crew_tests;
#[cfg(test)]
mod gates;
#[cfg(test)]
mod hall_tests;
#[cfg(test)]
mod hall_thread_tests;
#[cfg(test)]
mod jobs_tests;
#[cfg(test)]
mod leaves_tests;
#[cfg(test)]
mod while_read_tests;
