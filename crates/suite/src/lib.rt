//! The tests of the libraries that start no threads, over their public calls.
#![tactic(auto)]

#[cfg(test)]
mod binary_parts_tests;
#[cfg(test)]
mod binary_tests;
#[cfg(test)]
mod boards_tests;
#[cfg(test)]
mod case_tests;
#[cfg(test)]
mod cases;
#[cfg(test)]
mod icnf_tests;
#[cfg(test)]
mod judges;
#[cfg(test)]
mod judging_tests;
#[cfg(test)]
mod label_line_tests;
#[cfg(test)]
mod labelled_tests;
#[cfg(test)]
mod literals;
#[cfg(test)]
mod lrat_text_tests;
#[cfg(test)]
mod map_tests;
#[cfg(test)]
mod parts_tests;
#[cfg(test)]
mod plain;
#[cfg(test)]
mod random_tests;
#[cfg(test)]
mod reading_tests;
#[cfg(test)]
mod tidy_tests;
#[cfg(test)]
mod tree_tests;
#[cfg(test)]
mod words_tests;
