//! Files in memory that count the calls on them, and fail at one of them.
ghost use Rattle.std.specs.Prelude.{Some, None, true, ◌≡◌, ℕ, List, map, option_map, IfOk};
ghost use Rattle.std.specs.String.{string_bytes};
ghost use Rattle.std.specs.Prelude.{IfErr};
ghost use Rattle.std.specs.IoError.{error_kind};
ghost use Rattle.bundle_files.specs.Files.{IsOpened};
ghost use Rattle.devices.specs.Shelf.{bytes_at, lies_at};

use bundle_files::{FileId, Inputs, Opener, Spared};
use cube_report::DeviceFault;
use std::alloc::{AllocError, Global};
use std::io;
use std::io::{ErrorKind, Read};
use std::sync::atomic::{AtomicU64, Ordering};
use std::sync::{Arc, OnceLock};

/// A file: its path and its bytes.
pub type File<'t> = (&'t str, &'t [u8]);

/// The bytes of the file at this path, if there is one.
fn bytes_at<'t>(files: &'t [File<'t>], path: &str) -> Option<&'t [u8]>
    ensures { option_map (λ bytes. bytes.now) result
        ≡ bytes_at (map (λ file. (file.0.now, file.1.now)) files.now) path.now }
{
    for (place, bytes) in files {
        if *place == path {
            return Some(bytes);
        }
    }
    None
}

/// A file that is read, 16 bytes a call; one that is broken fails behind its first byte.
#[derive(Drop)]
pub struct Pages<'t> {
    left: &'t [u8],
    is_broken: bool,
    is_begun: bool,
}

impl<'t> Read for Pages<'t> {
    ghost remaining = { λ s. Some s.left.now };

    fn read(&mut self, buffer: &mut [u8]) -> io::Result<usize> {
        if self.is_broken && self.is_begun {
            return Err(io::Error::from(ErrorKind::Other));
        }
        self.is_begun = true;
        let most = if self.is_broken { 1 } else { 16 };
        let count = self.left.len().min(buffer.len()).min(most);
        let (now, later) = self.left.split_at(count);
        buffer[..count].copy_from_slice(now);
        self.left = later;
        Ok(count)
    }
}

/// A file that was made: its path and its bytes.
#[derive(Drop)]
struct Made {
    path: String,
    bytes: Vec<u8>,
}

impl Made {
    /// The same file once more.
    fn copy(&self, alloc: Global) -> Result<Made, AllocError>
        ensures path { IfOk result (λ copy. string_bytes copy.path ≡ string_bytes self.now.path) }
        ensures bytes { IfOk result (λ copy. copy.bytes.items ≡ self.now.bytes.items) }
    {
        let mut bytes = Vec::new(alloc);
        bytes.extend_from_slice(&self.bytes)?;
        Ok(Made {
            path: String::from_str(alloc, self.path.as_str())?,
            bytes,
        })
    }
}

/// What a shelf shares with the openers that are made from it: how many calls there were, and the
/// paths that were asked for, in the order of the calls.
#[derive(Drop)]
struct Desk {
    calls: AtomicU64,
    asks: AtomicU64,
    paths: Vec<OnceLock<String>>,
}

impl Desk {
    /// How many paths there is room for.
    const ROOM: usize = 64;

    /// A desk before the first call.
    fn new(alloc: Global) -> Result<Desk, AllocError> {
        let mut paths = Vec::new(alloc);
        for _ in 0..Desk::ROOM {
            paths.push(OnceLock::new())?;
        }
        Ok(Desk {
            calls: AtomicU64::new(0),
            asks: AtomicU64::new(0),
            paths,
        })
    }

    /// Notes that this path was asked for, and answers whether there was room for it.
    fn note(&self, path: String) -> bool {
        let place = self.asks.fetch_add(1, Ordering::SeqCst);
        match self.paths.get(place as usize) {
            Some(slot) => slot.try_set(path).is_ok(),
            None => false,
        }
    }
}

/// These files, and one more that may be made; no others. One of its calls fails, counted from 1:
/// with `Device` where a byte of the file was read, and with `Memory` before it; none does where
/// that is 0. Openers made from it count their calls together with it.
#[derive(Drop)]
pub struct Shelf<'t> {
    alloc: Global,
    files: &'t [File<'t>],
    made: Option<Made>,
    desk: Arc<Desk>,
    fails_at: u64,
    fault: DeviceFault,
    tells_lengths: bool,
}

impl<'t> Shelf<'t> {
    /// These files, no call of which fails. `AllocError` where a growth was refused.
    pub fn new(alloc: Global, files: &'t [File<'t>]) -> Result<Shelf<'t>, AllocError>
        ensures files { IfOk result (λ shelf. shelf.files.now ≡ files.now) }
        ensures none { IfOk result (λ shelf. shelf.made ≡ None) }
        ensures at { IfOk result (λ shelf. shelf.fails_at ≡ 0) }
    {
        Shelf::failing(alloc, files, 0, DeviceFault::Device)
    }

    /// These files, where this call fails with this fault, `Memory` or `Device`. `AllocError` where
    /// a growth was refused.
    pub fn failing(
        alloc: Global,
        files: &'t [File<'t>],
        fails_at: u64,
        fault: DeviceFault,
    ) -> Result<Shelf<'t>, AllocError>
        ensures files { IfOk result (λ shelf. shelf.files.now ≡ files.now) }
        ensures none { IfOk result (λ shelf. shelf.made ≡ None) }
        ensures at { IfOk result (λ shelf. shelf.fails_at ≡ fails_at) }
        ensures fault { IfOk result (λ shelf. shelf.fault ≡ fault) }
    {
        Ok(Shelf {
            alloc,
            files,
            made: None,
            desk: Arc::new(alloc, Desk::new(alloc)?)?,
            fails_at,
            fault,
            tells_lengths: false,
        })
    }

    /// The same files, whose lengths are told.
    pub fn with_lengths(self) -> Shelf<'t>
        ensures files { result.files.now ≡ self.entry.files.now }
        ensures made { result.made ≡ self.entry.made }
        ensures at { result.fails_at ≡ self.entry.fails_at }
        ensures fault { result.fault ≡ self.entry.fault }
        ensures lengths { result.tells_lengths ≡ true }
    {
        Shelf {
            tells_lengths: true,
            ..self
        }
    }

    /// Each path that it and the openers made from it were asked for, in the order of the calls,
    /// and a line end behind it. `AllocError` where a growth was refused. A contract knows nothing
    /// of what openers share.
    pub fn asked(&self) -> Result<Vec<u8>, AllocError> {
        let mut asked = Vec::new(self.alloc);
        for slot in &self.desk.paths {
            let Some(path) = slot.get() else {
                break;
            };
            asked.extend_from_slice(path.as_bytes())?;
            asked.push(b'\n')?;
        }
        Ok(asked)
    }

    /// The path and the bytes of the file that was made, if one was.
    pub fn made(&self) -> Option<(&str, &[u8])>
        ensures { option_map {U = List ℕ × List ℕ} (λ made. (made.0.now, made.1.now)) result
            ≡ option_map (λ made. (string_bytes made.path, made.bytes.items)) self.now.made }
    {
        match &self.made {
            Some(made) => Some((made.path.as_str(), made.bytes.as_slice())),
            None => None,
        }
    }

    /// The file at this path, which is read from its beginning; the call is noted and counted.
    fn pages_of(&mut self, path: &str) -> io::Result<Pages<'t>>
        ensures files { self.new.files.now ≡ self.old.files.now }
        ensures made { self.new.made ≡ self.old.made }
        ensures opened { IfOk result (λ pages. IsOpened
            (lies_at (option_map (λ made. (string_bytes made.path, made.bytes.items)) self.old.made)
            (map (λ file. (file.0.now, file.1.now)) self.old.files.now) path.now)
            (Some pages.left.now)) }
        ensures absent { IfErr result (λ error. error_kind error ≡ ErrorKind.NotFound
            → lies_at (option_map (λ made. (string_bytes made.path, made.bytes.items))
            self.old.made) (map (λ file. (file.0.now, file.1.now)) self.old.files.now) path.now
            ≡ None) }
    {
        let has_room = self.desk.note(String::from_str(self.alloc, path)?);
        let is_broken = self.fails();
        if !has_room || is_broken && self.fault == DeviceFault::Memory {
            return Err(io::Error::from(ErrorKind::OutOfMemory));
        }
        if let Some(made) = &self.made
            && made.path.as_str() == path
        {
            return Err(io::Error::from(ErrorKind::PermissionDenied));
        }
        match bytes_at(self.files, path) {
            Some(bytes) => Ok(Pages {
                left: bytes,
                is_broken,
                is_begun: false,
            }),
            None if is_broken => Err(io::Error::from(ErrorKind::PermissionDenied)),
            None => Err(io::Error::from(ErrorKind::NotFound)),
        }
    }

    /// Counts a call, and answers whether it is the one that fails.
    fn fails(&self) -> bool {
        let before = self.desk.calls.fetch_add(1, Ordering::SeqCst);
        before.wrapping_add(1) == self.fails_at
    }
}

impl<'t> Opener for Shelf<'t> {
    type Opened = Pages<'t>;

    type Made = Vec<u8>;

    ghost knows = { λ _. true };

    ghost files = { λ s path.
        lies_at (option_map (λ made. (string_bytes made.path, made.bytes.items)) s.made)
        (map (λ file. (file.0.now, file.1.now)) s.files.now) path };

    ghost makes = { λ s path. option_map (λ made. string_bytes made.path) s.made ≡ Some path };

    fn open(&mut self, path: &str) -> io::Result<Pages<'t>> {
        self.pages_of(path)
    }

    fn create(&mut self, path: &str, _spared: &Spared) -> io::Result<Vec<u8>> {
        if self.fails() {
            return Err(io::Error::from(match self.fault {
                DeviceFault::Memory => ErrorKind::OutOfMemory,
                _ => ErrorKind::PermissionDenied,
            }));
        }
        if let Some(made) = &self.made
            && made.path.as_str() != path
        {
            return Err(io::Error::from(ErrorKind::PermissionDenied));
        }
        self.made = Some(Made {
            path: String::from_str(self.alloc, path)?,
            bytes: Vec::new(self.alloc),
        });
        Ok(Vec::new(self.alloc))
    }

    fn close(&mut self, path: &str, file: Vec<u8>) {
        if let Some(made) = &mut self.made {
            made.bytes = file;
        }
    }

    fn another(&self, alloc: Global) -> Result<Shelf<'t>, AllocError> {
        let made = match &self.made {
            Some(made) => Some(made.copy(alloc)?),
            None => None,
        };
        Ok(Shelf {
            alloc,
            files: self.files,
            made,
            desk: Arc::try_clone(&self.desk)?,
            fails_at: self.fails_at,
            fault: self.fault,
            tells_lengths: self.tells_lengths,
        })
    }

    fn length(&self, path: &str) -> Option<u64> {
        if !self.tells_lengths {
            return None;
        }
        match bytes_at(self.files, path) {
            Some(bytes) => Some(bytes.len() as u64),
            None => None,
        }
    }

    fn is_read_once(&self, _path: &str) -> bool {
        false
    }

    fn file_at(&self, _path: &str) -> Option<FileId> {
        None
    }

    fn is_one(&self, one: &str, other: &str) -> bool {
        one == other
    }

    fn files_to_spare(&self, alloc: Global, _inputs: &Inputs<'_>) -> Result<Spared, AllocError> {
        Ok(Spared::none(alloc))
    }
}
