//! Which file a device's fault comes from, of those that a run reads or writes.

use crate::fault_places::{is_absent, path_of};
use crate::files::{ReadFiles, Unread, try_read, try_write};
use crate::run::Run;
use case_core::{Tree, read_tree};
use std::io::Eprint;

/// Tells the first file that fails, in the order in which the run comes to them: the log, the
/// formula, the file with the cubes, the proofs of leaves, the picture and the record. Where none
/// does, tells that no cause is seen, and before it the first that can't be read again, if there is
/// one.
pub(crate) fn tell_device<R: Eprint + ReadFiles>(run: &Run<'_, R>) {
    if tell_first(run, true) {
        return;
    }
    tell_first(run, false);
    run.say(
        "no cause is seen: a file may be read-only, a disk full, a call failed in its middle, or a \
         file to be written is also read, by another name",
    );
}

/// Tells the first file that fails, also as its folder isn't there, or else the first of which that
/// isn't known, since it can't be read again. Answers whether there is one.
fn tell_first<R: Eprint + ReadFiles>(run: &Run<'_, R>, fails: bool) -> bool {
    let asked = run.asked;
    let first = [
        (asked.log, true),
        (asked.formula, false),
        (asked.file, false),
    ];
    tell_one(run, &first, fails)
        || tell_proofs(run, fails)
        || tell_one(run, &[(asked.map, true), (asked.out, true)], fails)
}

/// The same of files that are given with whether they are written.
fn tell_one<R: Eprint + ReadFiles>(
    run: &Run<'_, R>,
    files: &[(Option<&str>, bool)],
    fails: bool,
) -> bool {
    for (path, is_written) in files {
        if let Some(path) = path
            && tell_file(run, path, *is_written, fails)
        {
            return true;
        }
    }
    false
}

/// The same of the file at this path.
fn tell_file<R: Eprint + ReadFiles>(
    run: &Run<'_, R>,
    path: &str,
    is_written: bool,
    fails: bool,
) -> bool {
    let tried = if is_written {
        try_write(run.device, path)
    } else {
        try_read(run.device, path)
    };
    tell_tried(run, path, tried, fails)
}

/// The same of a folder's proofs of leaves. None is looked at where the run has read no bundle.
fn tell_proofs<R: Eprint + ReadFiles>(run: &Run<'_, R>, fails: bool) -> bool {
    let Some(folder) = run.asked.proofs else {
        return false;
    };
    match read_tree(run.alloc, run.icnf) {
        Ok(tree) => tell_leaves(run, folder, &tree, fails),
        Err(_) => false,
    }
}

/// The same of the proofs of a tree's leaves. No other file is told where memory is refused.
fn tell_leaves<R: Eprint + ReadFiles>(
    run: &Run<'_, R>,
    folder: &str,
    tree: &Tree,
    fails: bool,
) -> bool {
    let cubes = tree.cube_count();
    for place in 0..tree.leaf_count() {
        let Ok(path) = path_of(run.alloc, folder, cubes, place) else {
            return true;
        };
        if tell_leaf(run, path.as_str(), fails) {
            return true;
        }
    }
    false
}

/// The same of the proof of a leaf. One that isn't there is none.
fn tell_leaf<R: Eprint + ReadFiles>(run: &Run<'_, R>, path: &str, fails: bool) -> bool {
    match try_read(run.device, path) {
        Err(unread) if is_absent(&unread) => false,
        tried => tell_tried(run, path, tried, fails),
    }
}

/// The same of the file at this path, which was tried so.
fn tell_tried<R: Eprint>(
    run: &Run<'_, R>,
    path: &str,
    tried: Result<(), Unread>,
    fails: bool,
) -> bool {
    match tried {
        Err(unread) if matches!(unread, Unread::Failed(_)) == fails => {
            run.say_of(path, unread);
            true
        }
        _ => false,
    }
}
