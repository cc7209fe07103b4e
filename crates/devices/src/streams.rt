//! A reader and a writer in memory that count their calls, and fail at one of them.
ghost use Rattle.std.specs.Prelude.{Some, [], ◌≡◌};

use cube_report::{Sink, Source};
use std::alloc::Global;
use std::io;

/// A reader of 16 bytes a call that fails at one of its calls, counted from 1, with the fault that
/// a signal makes; at none where that is 0.
#[derive(Drop)]
pub struct Broken<'t> {
    pub left: &'t [u8],
    pub calls: u64,
    pub fails_at: u64,
    pub failed: u64,
}

impl<'t> Broken<'t> {
    /// A reader of these bytes that fails at this call.
    pub fn new(bytes: &'t [u8], fails_at: u64) -> Broken<'t>
        ensures bytes { result.left.now ≡ bytes.now }
        ensures calls { result.calls ≡ 0 }
        ensures at { result.fails_at ≡ fails_at }
        ensures none { result.failed ≡ 0 }
    {
        Broken {
            left: bytes,
            calls: 0,
            fails_at,
            failed: 0,
        }
    }
}

impl<'t> Source for Broken<'t> {
    ghost remaining = { λ s. Some s.left.now };

    ghost failures = { λ s. s.failed };

    fn read(&mut self, buffer: &mut [u8]) -> io::Result<usize> {
        self.calls = self.calls.wrapping_add(1);
        if self.calls == self.fails_at {
            self.failed += 1;
            return Err(io::Error::from(io::ErrorKind::Interrupted));
        }
        let count = self.left.len().min(buffer.len()).min(16);
        let (now, later) = self.left.split_at(count);
        buffer[..count].copy_from_slice(now);
        self.left = later;
        Ok(count)
    }
}

/// A writer that takes one byte a call and fails at one of its calls, counted from 1; at none where
/// that is 0.
#[derive(Drop)]
pub struct Narrow {
    pub written: Vec<u8>,
    pub calls: u64,
    pub fails_at: u64,
    pub failed: u64,
}

impl Narrow {
    /// A writer that fails at this call.
    pub fn new(alloc: Global, fails_at: u64) -> Narrow
        ensures nothing { result.written.items ≡ [] }
        ensures calls { result.calls ≡ 0 }
        ensures at { result.fails_at ≡ fails_at }
        ensures none { result.failed ≡ 0 }
    {
        Narrow {
            written: Vec::new(alloc),
            calls: 0,
            fails_at,
            failed: 0,
        }
    }
}

impl Sink for Narrow {
    ghost contents = { λ s. Some s.written.items };

    ghost failures = { λ s. s.failed };

    ghost allows = { λ _ _. Unit {0} };

    fn write(&mut self, bytes: &[u8]) -> io::Result<usize> {
        self.calls = self.calls.wrapping_add(1);
        let Some(first) = bytes.first() else {
            return Ok(0);
        };
        if self.calls == self.fails_at || self.written.push(*first).is_err() {
            self.failed += 1;
            return Err(io::Error::from(io::ErrorKind::Interrupted));
        }
        Ok(1)
    }
}
