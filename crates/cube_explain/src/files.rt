//! The files of a run, for reading alone.

use std::alloc::Global;
use std::fs::Metadata;
use std::io::Read;
use std::rt::Files;
use std::{fmt, fs, io};

/// Reads files, folders and what the system says of them, and does nothing else with them. What has
/// this bound, and not `Files`, can make, change, rename and remove no file.
pub trait ReadFiles {
    /// A file that was opened for reading.
    type Opened: Read + Drop;

    /// The names in a folder as bytes, each ended by a NUL. No read ends inside a name.
    type Names: Read + Drop;

    /// Opens the file at this path for reading; an error says why that can't be. A pipe without a
    /// writer keeps the call waiting, so `look_at` comes first.
    fn open_to_read(&self, path: &str) -> io::Result<Self::Opened>;

    /// Opens the folder at this path, so that its names can be read; an error says why that can't
    /// be.
    fn open_names(&self, path: &str) -> io::Result<Self::Names>;

    /// What the system says of the file or folder at this path, to which a link leads; an error of
    /// the kind `NotFound` says that there is none.
    fn look_at(&self, path: &str) -> io::Result<Metadata>;
}

impl<R: Files> ReadFiles for R {
    type Opened = R::File;

    type Names = R::Dir;

    fn open_to_read(&self, path: &str) -> io::Result<R::File> {
        fs::open(self, path)
    }

    fn open_names(&self, path: &str) -> io::Result<R::Dir> {
        self.open_dir(path)
    }

    fn look_at(&self, path: &str) -> io::Result<Metadata> {
        fs::metadata(self, path)
    }
}

/// Why a file isn't read again.
#[derive(Drop)]
pub(crate) enum Unread {
    /// It is no plain file. A pipe has given what it had, and to open it could wait for ever.
    Once,
    /// It is another text now.
    Changed,
    /// The system says why.
    Failed(io::Error),
}

impl fmt::Display for Unread {
    fn fmt<W: fmt::Write>(&self, f: &mut fmt::Formatter<W>) -> fmt::Result {
        match self {
            Unread::Once => f.write_str("can't be read again"),
            Unread::Changed => f.write_str("has changed since it was read"),
            Unread::Failed(error) => write!(f, "{error}"),
        }
    }
}

/// The bytes of the file at this path, which the run has read before, or why they aren't read
/// again. Only a plain file is opened.
pub(crate) fn read_again<R: ReadFiles>(
    device: &R,
    alloc: Global,
    path: &str,
) -> Result<Vec<u8>, Unread> {
    match read_plain(device, alloc, path) {
        Ok(Some(bytes)) => Ok(bytes),
        Ok(None) => Err(Unread::Once),
        Err(error) => Err(Unread::Failed(error)),
    }
}

/// The bytes of the file at this path; `None` where it is no plain file.
fn read_plain<R: ReadFiles>(device: &R, alloc: Global, path: &str) -> io::Result<Option<Vec<u8>>> {
    if !device.look_at(path)?.is_file() {
        return Ok(None);
    }
    let mut bytes = Vec::new(alloc);
    let mut file = device.open_to_read(path)?;
    file.read_to_end(&mut bytes)?;
    Ok(Some(bytes))
}

/// The file at this path, which the run has read before, opened again, or why it isn't. Only a
/// plain file is opened.
pub(crate) fn open_again<R: ReadFiles>(device: &R, path: &str) -> Result<R::Opened, Unread> {
    match open_plain(device, path) {
        Ok(Some(file)) => Ok(file),
        Ok(None) => Err(Unread::Once),
        Err(error) => Err(Unread::Failed(error)),
    }
}

/// The file at this path; `None` where it is no plain file.
fn open_plain<R: ReadFiles>(device: &R, path: &str) -> io::Result<Option<R::Opened>> {
    if !device.look_at(path)?.is_file() {
        return Ok(None);
    }
    Ok(Some(device.open_to_read(path)?))
}

/// Whether the file at this path is a binary proof, by its first byte, or why it isn't read again.
pub(crate) fn is_binary_file<R: ReadFiles>(device: &R, path: &str) -> Result<bool, Unread> {
    let mut file = open_again(device, path)?;
    let mut byte = [0u8; 1];
    match file.read(&mut byte) {
        Ok(count) => Ok(count > 0 && matches!(byte[0], b'a' | b'd')),
        Err(error) => Err(Unread::Failed(error)),
    }
}

/// Reads a byte of the plain file or the folder at this path, or says why that can't be. What is
/// neither isn't opened.
pub(crate) fn try_read<R: ReadFiles>(device: &R, path: &str) -> Result<(), Unread> {
    match read_byte(device, path) {
        Ok(true) => Ok(()),
        Ok(false) => Err(Unread::Once),
        Err(error) => Err(Unread::Failed(error)),
    }
}

/// Reads a byte of the plain file or the folder at this path; `false` where it is neither.
fn read_byte<R: ReadFiles>(device: &R, path: &str) -> io::Result<bool> {
    let found = device.look_at(path)?;
    if !found.is_file() && !found.is_dir() {
        return Ok(false);
    }
    let mut file = device.open_to_read(path)?;
    let mut byte = [0u8; 1];
    file.read(&mut byte)?;
    Ok(true)
}

/// Looks whether a file could be made at this path, as far as that is seen without making it: no
/// folder stands there, and the folder that it is to stand in does. An error says what isn't so.
pub(crate) fn try_write<R: ReadFiles>(device: &R, path: &str) -> Result<(), Unread> {
    match look_for_place(device, path) {
        Ok(()) => Ok(()),
        Err(error) => Err(Unread::Failed(error)),
    }
}

/// What `try_write` looks for, by the system's errors.
fn look_for_place<R: ReadFiles>(device: &R, path: &str) -> io::Result<()> {
    match device.look_at(path) {
        Ok(found) if found.is_dir() => Err(io::Error::from(io::ErrorKind::IsADirectory)),
        Ok(_) => Ok(()),
        Err(error) if error.kind() == io::ErrorKind::NotFound => {
            device.look_at(folder_of(path))?;
            Ok(())
        }
        Err(error) => Err(error),
    }
}

/// The folder in which the file of this path stands.
fn folder_of(path: &str) -> &str {
    match path.rsplit_once('/') {
        Some((folder, _)) if folder.is_empty() => "/",
        Some((folder, _)) => folder,
        None => ".",
    }
}
