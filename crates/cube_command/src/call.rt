//! What a call of the program goes by.

use command_words::Request;
use std::alloc::AllocError;

/// What a call of the program goes by: what it waits by and has memory from, what its words ask
/// for, and the gate of its run.
pub(crate) struct Call<'r, 'a, R, G> {
    pub(crate) rt: &'r R,
    pub(crate) request: &'a Request<'a>,
    pub(crate) gate: &'a G,
}

// It is `Copy`, since what isn't is dropped, and a derived `Drop` would ask for one of `R` and `G`.
// A derived `Copy` would ask that they are `Copy`, too.
impl<'r, 'a, R, G> Clone for Call<'r, 'a, R, G> {
    fn clone(&self) -> Result<Self, AllocError> {
        Ok(*self)
    }
}

impl<'r, 'a, R, G> Copy for Call<'r, 'a, R, G> {}
