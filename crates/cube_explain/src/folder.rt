//! The files of a folder of proofs, by their names.

use crate::files::ReadFiles;
use crate::rejected::number_of;
use crate::shown::Shown;
use std::alloc::{AllocError, Global};
use std::io::Read;
use std::{fmt, io};

/// The most names that are told.
const MOST: usize = 10;

/// The most bytes of names that are read at once.
const WINDOW: usize = 4096;

/// How many files have names of one kind, and the first of these names.
#[derive(Drop)]
pub(crate) struct Few {
    pub(crate) count: u64,
    first: Vec<Vec<u8>>,
}

/// What the files of a folder name.
#[derive(Drop)]
pub(crate) struct Names {
    /// How many are proofs of leaves.
    pub(crate) proofs: u64,
    /// Those that name a leaf, and are links to a file that isn't there.
    pub(crate) dangling: Few,
    /// Those that name no leaf.
    pub(crate) strays: Few,
}

/// A folder of proofs, by what it is read; and the leaves of the tree: how many cubes it has, and
/// how many missing leaves.
#[derive(Drop)]
pub(crate) struct Folder<'f, R> {
    pub(crate) device: &'f R,
    pub(crate) alloc: Global,
    pub(crate) path: &'f str,
    pub(crate) cubes: u32,
    pub(crate) missing: u32,
}

/// Whether digits without a zero in front spell a number from 1 up to this one.
fn is_number_up_to(digits: &[u8], most: u32) -> bool {
    match digits {
        [b'1'..=b'9', ..] => match number_of(digits) {
            Some(number) => number <= u64::from(most),
            None => false,
        },
        _ => false,
    }
}

/// Whether a byte ends a name.
fn is_name_end(byte: &u8) -> bool {
    *byte == 0
}

impl<'f, R: ReadFiles> Folder<'f, R> {
    /// What the folder's files name. An error says why the folder can't be read.
    pub(crate) fn names(&self) -> io::Result<Names> {
        let mut names = Names {
            proofs: 0,
            dangling: Few::new(self.alloc),
            strays: Few::new(self.alloc),
        };
        self.read_into(&mut names)?;
        Ok(names)
    }

    /// Counts the folder's files, and sorts the names that are kept.
    fn read_into(&self, names: &mut Names) -> io::Result<()> {
        let path = format!(in self.alloc; "{}/", self.path)?;
        let mut listing = self.device.open_names(path.as_str())?;
        self.add_read(&mut listing, names)?;
        names.dangling.first.sort()?;
        names.strays.first.sort()?;
        Ok(())
    }

    /// Counts the files of all names that are read.
    fn add_read<N: Read>(&self, listing: &mut N, names: &mut Names) -> io::Result<()> {
        let mut window = [0u8; WINDOW];
        for _ in 0..u64::MAX {
            let count = listing.read(&mut window)?;
            if count == 0 {
                break;
            }
            self.add_all(window.get(..count).unwrap_or(&[]), names)?;
        }
        Ok(())
    }

    /// Counts the files of names each of which ends with a NUL. A folder's names of itself and of
    /// the one above it are none of a file.
    fn add_all(&self, read: &[u8], names: &mut Names) -> Result<(), AllocError> {
        for name in read.split(is_name_end) {
            if !matches!(name, b"" | b"." | b"..") {
                self.add(name, names)?;
            }
        }
        Ok(())
    }

    /// Counts a file by its name.
    fn add(&self, name: &[u8], names: &mut Names) -> Result<(), AllocError> {
        if !self.names_leaf(name) {
            names.strays.add(self.alloc, name)
        } else if self.is_dangling(name)? {
            names.dangling.add(self.alloc, name)
        } else {
            names.proofs = names.proofs.saturating_add(1);
            Ok(())
        }
    }

    /// Whether a file of this name is the proof of a leaf: `K.lrat` or `mJ.lrat`.
    fn names_leaf(&self, name: &[u8]) -> bool {
        let Some(leaf) = name.strip_suffix(b".lrat") else {
            return false;
        };
        match leaf.strip_prefix(b"m") {
            Some(number) => is_number_up_to(number, self.missing),
            None => is_number_up_to(leaf, self.cubes),
        }
    }

    /// Whether a file of this name is a link to a file that isn't there.
    fn is_dangling(&self, name: &[u8]) -> Result<bool, AllocError> {
        let name = String::from_utf8_lossy(self.alloc, name)?;
        let path = format!(in self.alloc; "{}/{name}", self.path)?;
        Ok(match self.device.look_at(path.as_str()) {
            Ok(_) => false,
            Err(error) => error.kind() == io::ErrorKind::NotFound,
        })
    }
}

impl Few {
    /// None yet.
    fn new(alloc: Global) -> Few {
        Few {
            count: 0,
            first: Vec::new(alloc),
        }
    }

    /// Counts a name, and keeps it where it is one of the first.
    fn add(&mut self, alloc: Global, name: &[u8]) -> Result<(), AllocError> {
        self.count = self.count.saturating_add(1);
        if self.first.len() < MOST {
            self.first.push(Vec::from_slice(alloc, name)?)?;
        }
        Ok(())
    }
}

impl fmt::Display for Few {
    fn fmt<W: fmt::Write>(&self, f: &mut fmt::Formatter<W>) -> fmt::Result {
        write!(f, "{}:", self.count)?;
        for name in &self.first {
            write!(f, " {}", Shown(name.as_slice()))?;
        }
        f.write_str(if self.count > self.first.len() as u64 {
            " .."
        } else {
            ""
        })
    }
}
