//! Where a line of a bundle stands: in which file, and on which of its lines.

use crate::again::label_again;
use crate::files::{ReadFiles, Unread, read_again};
use crate::lines::line_at;
use crate::parts::{BUNDLE, Part, file_part};
use crate::run::Run;
use crate::shown::{Name, Shown};
use case_core::{Tree, line_count, line_ends, read_tree};
use std::alloc::{AllocError, Global};
use std::io::{Eprint, ErrorKind};

/// Tells the line of a bundle that has this number, by the file that it stands in. Where the iCNF
/// text is kept, its faults are those of the file with the cubes: a line above that file's is one
/// of the bundle, since the file has changed. A line below the iCNF text is a label line, and read
/// again.
pub(crate) fn tell_line<R: Eprint + ReadFiles>(run: &Run<'_, R>, number: u64) {
    if let Some(path) = run.formula_alone() {
        return tell_formula_line(run, path, number);
    }
    let part = file_part(run);
    let below = number.saturating_sub(part.above);
    if number <= part.above {
        run.tell_numbered(BUNDLE, run.icnf, number);
    } else if below <= lines_in(part.text) {
        run.tell_numbered(part.from, part.text, below);
    } else {
        tell_label_line(run, &part, below);
    }
}

/// How many lines a text has, where the last one need not be ended.
fn lines_in(text: &[u8]) -> u64 {
    let ends = line_ends(text) as u64;
    if text.ends_with(b"\n") {
        ends
    } else {
        ends.saturating_add(1)
    }
}

/// Tells the line that has this number in the text of the formula's file, which has this path.
fn tell_formula_line<R: Eprint + ReadFiles>(run: &Run<'_, R>, path: &str, number: u64) {
    if let Some(formula) = run.read_or_tell(path) {
        run.tell_numbered(path, &formula, number);
    }
}

/// Tells the label line on the line of this number in the file that has a part, which is read
/// again.
fn tell_label_line<R: Eprint + ReadFiles>(run: &Run<'_, R>, part: &Part<'_>, number: u64) {
    let read = match part.file {
        Some(path) => label_again(run.device, run.alloc, path, number),
        None => Err(Unread::Once),
    };
    match read {
        Ok(Some(line)) => run.say_at(part.from, number, Shown(&line)),
        Ok(None) => run.say_at(part.from, number, Unread::Changed),
        Err(unread) => run.say_at(part.from, number, unread),
    }
}

/// Tells the line of a bundle with a folder's proofs that has this number.
pub(crate) fn tell_label<R: Eprint + ReadFiles>(run: &Run<'_, R>, number: u64) {
    let above = run.lines;
    match run.asked.proofs {
        Some(folder) if number > above => tell_in_folder(run, folder, number.saturating_sub(above)),
        _ => tell_line(run, number),
    }
}

/// Tells the line of this number among those that a folder's proofs add to a bundle, a label line
/// above each.
fn tell_in_folder<R: Eprint + ReadFiles>(run: &Run<'_, R>, folder: &str, number: u64) {
    if let Ok(tree) = read_tree(run.alloc, run.icnf) {
        tell_in_tree(run, folder, &tree, number);
    }
}

/// Tells the line of this number among those that a folder's proofs add to the bundle of a tree.
fn tell_in_tree<R: Eprint + ReadFiles>(run: &Run<'_, R>, folder: &str, tree: &Tree, number: u64) {
    let cubes = tree.cube_count();
    let mut left = number;
    for place in 0..tree.leaf_count() {
        let Ok(path) = path_of(run.alloc, folder, cubes, place) else {
            return;
        };
        match tell_behind(run, path.as_str(), left) {
            Some(behind) => left = behind,
            None => return,
        }
    }
}

/// Where a folder has the proof of the leaf in this place, where the cubes come first.
pub(crate) fn path_of(
    alloc: Global,
    folder: &str,
    cubes: u32,
    place: u32,
) -> Result<String, AllocError> {
    let (kind, leaf) = match place.checked_sub(cubes) {
        None => ("", place),
        Some(missing) => ("m", missing),
    };
    format!(in alloc; "{folder}/{kind}{}.lrat", leaf.saturating_add(1))
}

/// Tells the line of this number from a proof's label line on, where the proof has it; otherwise
/// answers its number from behind the proof on. Where the proof can't be read again, so that its
/// lines can't be counted, that is told in the line's place.
fn tell_behind<R: Eprint + ReadFiles>(run: &Run<'_, R>, path: &str, number: u64) -> Option<u64> {
    match read_again(run.device, run.alloc, path) {
        Ok(proof) => tell_in_or_behind(run, path, &proof, number),
        Err(unread) if is_absent(&unread) => Some(number),
        Err(unread) => {
            run.say_of(path, unread);
            None
        }
    }
}

/// Whether a file isn't read again since there is none.
pub(crate) fn is_absent(unread: &Unread) -> bool {
    match unread {
        Unread::Failed(error) => error.kind() == ErrorKind::NotFound,
        Unread::Once | Unread::Changed => false,
    }
}

/// Tells the line of this number from the label line on of a proof with these bytes, where it has
/// the line; otherwise answers its number from behind the proof on.
fn tell_in_or_behind<R: Eprint>(
    run: &Run<'_, R>,
    path: &str,
    proof: &[u8],
    number: u64,
) -> Option<u64> {
    let lines = line_count(proof).saturating_add(1);
    if number > lines {
        return Some(number.saturating_sub(lines));
    }
    tell_in_proof(run, path, proof, number);
    None
}

/// Tells a line of a folder's proof, where 1 is the label line above it, which the file hasn't.
fn tell_in_proof<R: Eprint>(run: &Run<'_, R>, path: &str, proof: &[u8], number: u64) {
    if number <= 1 {
        run.say(format_args!("{} is a second proof for its leaf", Name(path)));
    } else {
        run.tell(path, line_at(proof, number.saturating_sub(1)));
        run.say("a line that begins with l is a label line, also in a file of the folder");
    }
}
