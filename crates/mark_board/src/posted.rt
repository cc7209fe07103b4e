//! What became of a post on a board.

use crate::part::PartVerdict;
use case_core::Finding;

/// What became of a finding on a board.
#[derive(Drop)]
pub enum Posted<'c> {
    /// The target stands as the finding says.
    Marked,
    /// The same, and this marked the root of the board's part.
    RootMarked(PartVerdict<'c>),
    /// The same, and this marked the root of the whole tree, on the top board.
    TopMarked,
    /// The target had a finding: nothing changed. It is the finding that was handed in.
    Already(Finding<'c>),
}

/// What became of a part's verdict on the top board.
#[derive(Drop)]
pub enum PartPosted<'c> {
    /// The part stands as refuted.
    Marked,
    /// The same, and this marked the root of the whole tree.
    RootMarked,
    /// The part had a verdict: nothing changed. It is the verdict that was handed in.
    Already(PartVerdict<'c>),
}
