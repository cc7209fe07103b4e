//! How much a run has read, told while it reads.

ghost use Rattle.std.specs.Prelude.{◌≡◌};

use cube_report::NoGate;
use file_store::{FileId, Inputs, Opener, Spared};
use std::alloc::{AllocError, Global};
use std::io;
use std::io::Read;

/// What watches a run beside its gate, from its first read to its end.
pub trait Watch {
    /// Before the first read.
    fn begins_to_read(&self) {}

    /// When the run is over, before a fault with which it ended is told.
    fn is_over(&self) {}
}

impl Watch for NoGate {}

/// What is told how many bytes readers give.
pub trait Meter {
    /// Whether it counts bytes now.
    fn is_counting(&self) -> bool;

    /// A file of this length was opened, which may be read to its end.
    fn expect(&self, length: u64);

    /// A read gave so many bytes.
    fn count(&self, bytes: usize);
}

/// A reader that tells a meter how much it gives.
#[derive(Drop)]
pub struct Metered<'a, T, M> {
    inner: T,
    meter: &'a M,
}

impl<'a, T, M> Metered<'a, T, M> {
    /// This reader, with this meter.
    pub fn new(inner: T, meter: &'a M) -> Metered<'a, T, M>
        ensures inner { result.inner ≡ inner }
        ensures meter { result.meter.now ≡ meter.now }
    {
        Metered { inner, meter }
    }
}

impl<'a, T: Read, M: Meter> Read for Metered<'a, T, M> {
    ghost remaining = { λ s. T.remaining s.inner };

    fn read(&mut self, buffer: &mut [u8]) -> io::Result<usize> {
        let result = self.inner.read(buffer);
        if let Ok(bytes) = &result {
            self.meter.count(*bytes);
        }
        result
    }
}

/// An opener whose files tell a meter how much is read of them, and which tells it how long they
/// are, as far as that can be told, while it counts.
#[derive(Drop)]
pub struct MeteredFiles<'a, F, M> {
    files: F,
    meter: &'a M,
}

impl<'a, F, M> MeteredFiles<'a, F, M> {
    /// The files of this opener, with this meter.
    pub fn new(files: F, meter: &'a M) -> MeteredFiles<'a, F, M>
        ensures files { result.files ≡ files }
        ensures meter { result.meter.now ≡ meter.now }
    {
        MeteredFiles { files, meter }
    }
}

impl<'a, F: Opener, M: Meter> Opener for MeteredFiles<'a, F, M> {
    type Opened = Metered<'a, F::Opened, M>;

    type Made = F::Made;

    ghost knows = { λ s. F.knows s.files };

    ghost files = { λ s path. F.files s.files path };

    ghost makes = { λ s path. F.makes s.files path };

    fn open(&mut self, path: &str) -> io::Result<Metered<'a, F::Opened, M>> {
        let file = self.files.open(path)?;
        if self.meter.is_counting()
            && let Some(length) = self.files.length(path)
        {
            self.meter.expect(length);
        }
        Ok(Metered::new(file, self.meter))
    }

    fn create(&mut self, path: &str, spared: &Spared) -> io::Result<F::Made> {
        self.files.create(path, spared)
    }

    fn close(&mut self, path: &str, file: F::Made) {
        self.files.close(path, file);
    }

    fn another(&self, alloc: Global) -> Result<MeteredFiles<'a, F, M>, AllocError> {
        Ok(MeteredFiles::new(self.files.another(alloc)?, self.meter))
    }

    fn length(&self, path: &str) -> Option<u64> {
        self.files.length(path)
    }

    fn is_read_once(&self, path: &str) -> bool {
        self.files.is_read_once(path)
    }

    fn file_at(&self, path: &str) -> Option<FileId> {
        self.files.file_at(path)
    }

    fn is_one(&self, one: &str, other: &str) -> bool {
        self.files.is_one(one, other)
    }

    fn files_to_spare(&self, alloc: Global, inputs: &Inputs<'_>) -> Result<Spared, AllocError> {
        self.files.files_to_spare(alloc, inputs)
    }
}
