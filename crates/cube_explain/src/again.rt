//! What is read again in blocks of whole lines, however long it is.

ghost use Rattle.std.specs.Prelude.{◌≡◌, ◌<◌, [], IfSome, OnOk, length};

use crate::files::{ReadFiles, Unread, open_again};
use crate::labels::have_same_words;
use crate::step_lines::StepWalk;
use byte_flow::{DeviceFault, Source};
use case_core::{LabelledText, first_word};
use std::alloc::Global;
use std::io;
use std::io::{ErrorKind, Read};

/// So many bytes of lines are looked at together, or those of one block.
const BLOCK: usize = 1 << 16;

/// A file that is read again. As a source it ends where a read fails, and keeps why.
#[derive(Drop)]
pub(crate) struct Again<F> {
    file: F,
    error: Option<io::Error>,
}

impl<F: Read> Source for Again<F> {
    ghost use Rattle.std.specs.Prelude.{None};

    ghost remaining = { λ _. None };

    ghost failures = { λ _. 0 };

    fn read(&mut self, buffer: &mut [u8]) -> io::Result<usize> {
        match self.file.read(buffer) {
            Ok(count) => Ok(count),
            Err(error) => {
                self.error = Some(error);
                Ok(0)
            }
        }
    }
}

impl<F: Drop> Again<F> {
    /// What was found in the file, or why it can't be read again.
    fn ended<T: Drop>(self, found: Result<T, DeviceFault>) -> Result<T, Unread> {
        match (self.error, found) {
            (None, Ok(found)) => Ok(found),
            (Some(error), _) => Err(Unread::Failed(error)),
            (None, Err(_)) => Err(Unread::Failed(io::Error::from(ErrorKind::OutOfMemory))),
        }
    }
}

/// The file at this path, from its beginning on.
fn reread<R: ReadFiles>(device: &R, path: &str) -> Result<Again<R::Opened>, Unread> {
    Ok(Again {
        file: open_again(device, path)?,
        error: None,
    })
}

/// The lines of the plain file at this path up to its first label line, or up to its end.
pub(crate) fn front_again<R: ReadFiles>(
    device: &R,
    alloc: Global,
    path: &str,
) -> Result<Vec<u8>, Unread> {
    let mut file = reread(device, path)?;
    let front = front_of(alloc, &mut file);
    file.ended(front)
}

/// The lines of a file up to its first label line, or up to its end.
fn front_of<F: Read + Drop>(alloc: Global, file: &mut Again<F>) -> Result<Vec<u8>, DeviceFault> {
    LabelledText::below(alloc, b"")?.front(alloc, file)
}

/// The label line on the line of this number, from 1, of the plain file at this path.
pub(crate) fn label_again<R: ReadFiles>(
    device: &R,
    alloc: Global,
    path: &str,
    number: u64,
) -> Result<Option<Vec<u8>>, Unread> {
    let mut file = reread(device, path)?;
    let label = find(alloc, &mut file, &mut [], number);
    file.ended(label)
}

/// The step of this number in the text proof that is the plain file at this path.
pub(crate) fn step_again<R: ReadFiles>(
    device: &R,
    alloc: Global,
    path: &str,
    step: u64,
) -> Result<StepWalk, Unread> {
    let mut file = reread(device, path)?;
    let walk = step_of(alloc, &mut file, step);
    file.ended(walk)
}

/// The step of this number in a file that is a text proof.
fn step_of<F: Read + Drop>(
    alloc: Global,
    file: &mut Again<F>,
    step: u64,
) -> Result<StepWalk, DeviceFault> {
    let mut walk = StepWalk::new(step);
    let mut text = LabelledText::below(alloc, b"")?;
    pass_part(alloc, &mut text, file, Some(&mut walk))?;
    Ok(walk)
}

/// A step that is looked for in the sections of a file.
#[derive(Drop)]
pub(crate) struct Sought {
    /// What the section's label says behind its `l`.
    pub(crate) name: String,
    /// How many lines of the file end before the section's first, where it was met.
    pub(crate) above: Option<u64>,
    /// The step, as far as it was met.
    pub(crate) walk: StepWalk,
}

/// Looks for steps in the sections of the plain file at this path.
pub(crate) fn steps_again<R: ReadFiles>(
    device: &R,
    alloc: Global,
    path: &str,
    sought: &mut [Sought],
) -> Result<(), Unread> {
    let mut file = reread(device, path)?;
    let found = find(alloc, &mut file, sought, 0);
    file.ended(found)?;
    Ok(())
}

/// Looks for steps in the sections of a file, up to the label line on the line of this number, from
/// 1: that line, or `None` where the file has none there.
fn find<F: Read + Drop>(
    alloc: Global,
    file: &mut Again<F>,
    sought: &mut [Sought],
    number: u64,
) -> Result<Option<Vec<u8>>, DeviceFault> {
    let mut text = LabelledText::below(alloc, b"")?;
    pass_part(alloc, &mut text, file, None)?;
    for _ in 0..u64::MAX {
        let Some(label) = text.take_label(alloc)? else {
            return Ok(None);
        };
        let above = label.lines.saturating_add(1);
        if above == number {
            return Ok(Some(label.line));
        }
        match place_of(sought, &label.line) {
            Some(at) => {
                sought[at].above = Some(above);
                pass_part(alloc, &mut text, file, Some(&mut sought[at].walk))?;
            }
            None => pass_part(alloc, &mut text, file, None)?,
        }
    }
    Ok(None)
}

/// Goes past the lines of a text up to its next label line, or up to its end, and looks there for
/// the line of a step, if one is sought.
fn pass_part<F: Read + Drop>(
    alloc: Global,
    text: &mut LabelledText,
    file: &mut Again<F>,
    mut walk: Option<&mut StepWalk>,
) -> Result<(), DeviceFault>
    ensures ready { OnOk result (text.new.ready ≡ []) }
{
    for _ in 0..u64::MAX {
        let taken = text.front_within(Vec::new(alloc), file, BLOCK)?;
        if let Some(walk) = &mut walk {
            walk.pass(alloc, &taken.lines)?;
        }
        if taken.is_part {
            return Ok(());
        }
    }
    Err(DeviceFault::Memory)
}

/// Which of the steps stands in the section of this label line.
fn place_of(sought: &[Sought], line: &[u8]) -> Option<usize>
    ensures { IfSome result (λ at. at < length sought.now) }
{
    let (_, name) = first_word(line)?;
    for at in 0..sought.len() {
        if have_same_words(name, sought[at].name.as_bytes()) {
            return Some(at);
        }
    }
    None
}
