//! Which file of a system a path names, and how one is made anew that isn't to be spared.

use crate::inputs::{FileId, Inputs, Spared};
use std::alloc::{AllocError, Global};
use std::fs::{Metadata, OpenFile, OpenOptions};
use std::io::ErrorKind;
use std::os::unix::fs::MetadataExt;
use std::path::Path;
use std::rt::Files;
use std::{fs, io};

/// The program's input, output and error output by their paths.
const INPUT: &str = "/dev/stdin";

const OUTPUT: &str = "/dev/stdout";

const ERRORS: &str = "/dev/stderr";

/// Which file this is, where it is a plain one.
fn plain_file(found: &Metadata) -> Option<FileId> {
    if found.is_file() {
        Some(FileId {
            device: found.dev(),
            number: found.ino(),
        })
    } else {
        None
    }
}

/// Which plain file a path names, links followed.
pub(crate) fn file_at<R: Files>(files: &R, path: &str) -> Option<FileId> {
    match fs::metadata(files, path) {
        Ok(found) => plain_file(&found),
        Err(_) => None,
    }
}

/// Whether what a path names, links followed, is there and is no plain file.
pub(crate) fn is_read_once<R: Files>(files: &R, path: &str) -> bool {
    match fs::metadata(files, path) {
        Ok(found) => !found.is_file(),
        Err(_) => false,
    }
}

/// Whether two paths name one plain file, be it there or not: the same file; or none is there yet,
/// and they lead to the same name in one folder. Where memory is refused for that, they may.
pub(crate) fn is_one<R: Files + AllocGlobal>(files: &R, one: &str, other: &str) -> bool {
    match (fs::metadata(files, one), fs::metadata(files, other)) {
        (Ok(first), Ok(second)) => {
            plain_file(&first).is_some() && plain_file(&first) == plain_file(&second)
        }
        (Err(_), Err(_)) => match (end_of(files, one), end_of(files, other)) {
            (Ok(first), Ok(second)) => is_one_place(files, first.as_str(), second.as_str()),
            _ => true,
        },
        _ => false,
    }
}

/// Whether two paths are the same name in one folder.
fn is_one_place<R: Files>(files: &R, one: &str, other: &str) -> bool {
    Path::new(one).file_name() == Path::new(other).file_name()
        && is_one_folder(files, folder_of(one), folder_of(other))
}

/// The most links that are followed from a path to the file that it names.
const MOST_LINKS: u32 = 40;

/// Where a path leads: itself, or what stands in the link that it names, and so on.
fn end_of<R: Files + AllocGlobal>(files: &R, path: &str) -> Result<String, AllocError> {
    let alloc = files.alloc();
    let mut end = String::from_str(alloc, path)?;
    for _ in 0..MOST_LINKS {
        let Ok(link) = fs::read_link(files, end.as_str()) else {
            return Ok(end);
        };
        let target = link.as_str();
        end = if target.starts_with('/') {
            String::from_str(alloc, target)?
        } else {
            let folder = folder_of(end.as_str());
            format!(in alloc; "{folder}/{target}")?
        };
    }
    Ok(end)
}

/// The folder in which a path names a file.
fn folder_of(path: &str) -> &str {
    match path.rsplit_once('/') {
        Some(("", _)) => "/",
        Some((folder, _)) => folder,
        None => ".",
    }
}

/// Whether two paths name one folder that is there.
fn is_one_folder<R: Files>(files: &R, one: &str, other: &str) -> bool {
    match (fs::metadata(files, one), fs::metadata(files, other)) {
        (Ok(first), Ok(second)) => first.dev() == second.dev() && first.ino() == second.ino(),
        _ => false,
    }
}

/// The plain files that a run has to spare which is asked for these.
pub(crate) fn files_to_spare<R>(
    files: &R,
    alloc: Global,
    inputs: &Inputs<'_>,
) -> Result<Spared, AllocError>
where
    R: Files + AllocGlobal + Clone + Drop,
{
    let mut spared = Spared::none(alloc);
    if let Some(formula) = inputs.formula {
        spared.add(file_at(files, formula))?;
    }
    spared.add(file_at(files, inputs.file.unwrap_or(INPUT)))?;
    spared.add(file_at(files, OUTPUT))?;
    if let Some(folder) = inputs.proofs {
        spare_proofs(files, folder, &mut spared)?;
    }
    Ok(spared)
}

/// Spares the proofs of a folder, as far as it can be read.
fn spare_proofs<R>(files: &R, folder: &str, spared: &mut Spared) -> Result<(), AllocError>
where
    R: Files + AllocGlobal + Clone + Drop,
{
    let Ok(entries) = fs::read_dir(files, folder) else {
        return Ok(());
    };
    for entry in entries {
        let Ok(entry) = entry else {
            return Ok(());
        };
        if entry.file_name().ends_with(".lrat") {
            spared.add(file_at(files, entry.path().as_str()))?;
        }
    }
    Ok(())
}

/// Makes the file at this path anew, which is written at its end. What is no plain file is opened
/// as it is, and so is the one to which the program's error output goes. `PermissionDenied` where
/// it is a file to be spared, and then nothing changes.
pub fn make_anew<R: Files>(files: &R, path: &str, spared: &Spared) -> io::Result<R::File> {
    let file = OpenOptions::new()
        .append(true)
        .create(true)
        .open(files, path)?;
    let Some(found) = plain_file(&file.metadata()?) else {
        return Ok(file);
    };
    if spared.has(found) {
        return Err(io::Error::from(ErrorKind::PermissionDenied));
    }
    if file_at(files, ERRORS) != Some(found) {
        file.set_len(0)?;
    }
    Ok(file)
}
