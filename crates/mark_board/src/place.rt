//! The places of the boards of a cut.

/// Where a board stands: one of the parts of a cut, by its number from 0 in tree order, or above
/// them.
#[derive(Clone, Copy, Debug, PartialEq, Eq)]
pub enum Place {
    /// The part of this number.
    Part(u32),
    /// Above the parts: the inner nodes above the cut, with the parts as leaves.
    Top,
}
