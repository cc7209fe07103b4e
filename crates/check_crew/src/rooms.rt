//! Lists of bytes that are used again: memory isn't given back and asked for proof by proof.

ghost use Rattle.std.specs.Prelude.{◌≡◌, []};

use std::alloc::{AllocError, Global};

/// Lists of bytes that were used, which have room for so many bytes together at most.
#[derive(Drop)]
pub(crate) struct Rooms {
    free: Vec<Vec<u8>>,
    /// For so many bytes they have room.
    bytes: usize,
    most: usize,
}

impl Rooms {
    /// No list yet; there may be so many, which have room for so many bytes together.
    pub(crate) fn new(alloc: Global, count: usize, most: usize) -> Result<Rooms, AllocError> {
        Ok(Rooms {
            free: Vec::with_capacity(alloc, count)?,
            bytes: 0,
            most,
        })
    }

    /// A list: one that was used, where there is one.
    pub(crate) fn take(&mut self, alloc: Global) -> Vec<u8> {
        match self.free.pop() {
            Some(list) => {
                self.bytes = self.bytes.saturating_sub(list.capacity());
                list
            }
            None => Vec::new(alloc),
        }
    }

    /// Keeps a list that was used, if it isn't too much.
    pub(crate) fn keep(&mut self, list: Vec<u8>) {
        let bytes = self.bytes.saturating_add(list.capacity());
        if bytes <= self.most && self.free.len() < self.free.capacity() {
            self.bytes = bytes;
            self.free.push_reserved(list);
        }
    }
}
