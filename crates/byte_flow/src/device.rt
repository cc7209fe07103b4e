//! Readers and writers that count their failed calls.
ghost use Rattle.std.specs.Prelude.{◌≡◌, ℕ, List, Option, ◌<◌, ◌^◌, ◌-◌, length, drop, IfOk};
ghost use Rattle.std.specs.Io.{ReadsAtMost, WritesAtMost};
ghost use Rattle.std.specs.Io.KnownBytes.{ReadConsumes, WriteAppends};
ghost use Rattle.byte_flow.specs.Device.{CountsFailures};

use std::io;
use std::io::{ErrorKind, Read, Write};

/// What can be read from, with the number of calls that failed.
pub trait Source {
    // The bytes that reads will give from here on, where they are known.
    ghost remaining: { Self → Option (List ℕ) };

    // How many calls have failed so far.
    ghost failures: { Self → ℕ };

    /// Reads some bytes into the front of `buffer`, and answers how many; 0 where none are left, or
    /// the buffer is empty. The count of failed calls, which has to be below its greatest value,
    /// rises by one exactly where the call fails.
    fn read(&mut self, buffer: &mut [u8]) -> io::Result<usize>
        requires { failures self.old < 2 ^ 64 - 1 }
        ensures bound { ReadsAtMost result buffer.new }
        ensures bytes { ReadConsumes (remaining self.old) (remaining self.new) result buffer.new }
        ensures count { CountsFailures (failures self.old) (failures self.new) result };
}

/// What can be written to, with the number of calls that failed.
///
/// A sink takes no text but those that it allows. What a call ensures is said of the calls that
/// return; what a write asks for holds wherever something is written, so also on a way that never
/// returns.
pub trait Sink {
    // The bytes that the writer holds, where they are known.
    ghost contents: { Self → Option (List ℕ) };

    // How many calls have failed so far.
    ghost failures: { Self → ℕ };

    // Which texts may be written next, each as a whole.
    ghost allows: { Self → List ℕ → Type 0 };

    /// Writes a beginning of `bytes`, which have to be a text that is allowed, and answers how many
    /// it took: then the rest may be written. Of other texts, and after a failed call, nothing is
    /// known to be allowed. A write that takes none of some bytes fails. The count of failed calls,
    /// which has to be below its greatest value, rises by one exactly where the call fails.
    fn write(&mut self, bytes: &[u8]) -> io::Result<usize>
        requires count { failures self.old < 2 ^ 64 - 1 }
        requires allowed { allows self.old bytes.now }
        ensures bound { WritesAtMost result bytes.now }
        ensures bytes { WriteAppends (contents self.old) (contents self.new) result bytes.now }
        ensures takes { IfOk result (λ n. 0 < length bytes.now → 0 < n) }
        ensures rest { IfOk result (λ n. allows self.new (drop n bytes.now)) }
        ensures count { CountsFailures (failures self.old) (failures self.new) result };
}

/// A reader or a writer, and how many of its calls have failed. As a sink it allows each text.
#[derive(Drop)]
pub struct Counted<T> {
    inner: T,
    failed: u64,
}

impl<T> Counted<T> {
    /// This reader or writer, with no failed call yet.
    pub fn new(inner: T) -> Counted<T>
        ensures inner { result.inner ≡ inner }
        ensures none { result.failed ≡ 0 }
    {
        Counted { inner, failed: 0 }
    }

    /// How many of its calls have failed so far.
    pub fn failed(&self) -> u64
        ensures { result ≡ self.now.failed }
    {
        self.failed
    }

    /// The reader or the writer itself.
    pub fn into_inner(self) -> T
        ensures { result ≡ self.inner }
    {
        self.inner
    }
}

impl<T: Read> Source for Counted<T> {
    ghost remaining = { λ s. T.remaining s.inner };

    ghost failures = { λ s. s.failed };

    fn read(&mut self, buffer: &mut [u8]) -> io::Result<usize> {
        let result = self.inner.read(buffer);
        if result.is_err() {
            self.failed += 1;
        }
        result
    }
}

impl<T: Write> Sink for Counted<T> {
    ghost contents = { λ s. T.contents s.inner };

    ghost failures = { λ s. s.failed };

    ghost allows = { λ _ _. Unit {0} };

    fn write(&mut self, bytes: &[u8]) -> io::Result<usize> {
        match self.inner.write(bytes) {
            Ok(0) if !bytes.is_empty() => {
                self.failed += 1;
                Err(io::Error::from(ErrorKind::WriteZero))
            }
            Ok(count) => Ok(count),
            Err(error) => {
                self.failed += 1;
                Err(error)
            }
        }
    }
}
