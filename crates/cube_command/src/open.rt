//! The leaves that a report doesn't call refuted.

ghost use Rattle.std.specs.Prelude.{◌≡◌, ◌++◌, ◌≤◌, length, true, if◌then◌else◌, IfOk, OnOk};
ghost use Rattle.cube_command.specs.Open.{leaf_field, leaf_of_line, open_name, open_names};

use std::alloc::{AllocError, Global};

/// The names of the leaves that a report doesn't call refuted, where they are asked for.
/// `AllocError` where a growth was refused.
pub(crate) fn names_asked(alloc: Global, lists: bool, report: &[u8]) -> Result<Vec<u8>, AllocError>
    ensures { IfOk result (λ names. lists ≡ true → names.items ≡ open_names report.now) }
{
    if lists {
        open_names(alloc, report)
    } else {
        Ok(Vec::new(alloc))
    }
}

/// What is written to the output: these names where they are asked for, and else the report.
pub(crate) fn shown<'a>(lists: bool, report: &'a [u8], names: &'a [u8]) -> &'a [u8]
    ensures { result.now ≡ (if lists then names.now else report.now) }
{
    if lists { names } else { report }
}

/// These names, in the report's order, each with a line end.
fn open_names(alloc: Global, report: &[u8]) -> Result<Vec<u8>, AllocError>
    ensures { IfOk result (λ names. names.items ≡ open_names report.now) }
{
    let mut names = Vec::new(alloc);
    for line in report.split(|byte| *byte == b'\n') {
        add_name(&mut names, line)?;
    }
    Ok(names)
}

/// Adds the name of the leaf that a line of the report is about, unless it is refuted.
fn add_name(names: &mut Vec<u8>, line: &[u8]) -> Result<(), AllocError>
    ensures { OnOk result (names.new.items ≡ names.old.items ++ open_name line.now) }
{
    if line.ends_with(b" refuted") {
        return Ok(());
    }
    if line.starts_with(b"a ") {
        return add_number(names, b"", line);
    }
    if line.starts_with(b"m ") {
        return add_number(names, b"m", line);
    }
    Ok(())
}

/// Adds a letter, or none, the number of a leaf's line, and a line end.
fn add_number(names: &mut Vec<u8>, letter: &[u8], line: &[u8]) -> Result<(), AllocError>
    requires { 2 ≤ length line.now }
    ensures { OnOk result (names.new.items
        ≡ names.old.items ++ leaf_of_line letter.now line.now) }
{
    names.extend_from_slice(letter)?;
    names.extend_from_slice(number_in(line))?;
    names.push(b'\n')?;
    Ok(())
}

/// The second field of a line whose first has one letter.
fn number_in(line: &[u8]) -> &[u8]
    requires { 2 ≤ length line.now }
    ensures { result.now ≡ leaf_field line.now }
{
    let fields = &line[2..];
    let end = fields.iter().position(|byte| *byte == b' ');
    &fields[..end.unwrap_or(fields.len())]
}
