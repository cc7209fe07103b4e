//! The fields of which texts about nodes are made.

ghost use Rattle.std.specs.Prelude.{◌≡◌, ◌++◌, OnOk};
ghost use Rattle.std.specs.List.{flat_map};
ghost use Rattle.node_fields.specs.Fields.{number_field, literal_field, reason_field};
ghost use Rattle.node_fields.specs.Fields.{status_fields, answer_line};

use case_core::{Lit, Reason};
use itoa::Buffer;
use mark_board::Mark;
use std::alloc::AllocError;

/// Appends a space and a number. `AllocError` where a growth was refused.
pub fn write_number(text: &mut Vec<u8>, number: u64) -> Result<(), AllocError>
    ensures { OnOk result (text.new.items ≡ text.old.items ++ number_field number) }
{
    text.extend_from_slice(b" ")?;
    text.extend_from_slice(Buffer::new().format(number).as_bytes())?;
    Ok(())
}

/// Appends the literals of a path, a space before each. `AllocError` where a growth was refused.
pub fn write_path(text: &mut Vec<u8>, path: &[Lit]) -> Result<(), AllocError>
    ensures { OnOk result (text.new.items ≡ text.old.items ++ flat_map literal_field path.now) }
{
    for lit in path {
        write_literal(text, *lit)?;
    }
    Ok(())
}

fn write_literal(text: &mut Vec<u8>, lit: Lit) -> Result<(), AllocError>
    ensures { OnOk result (text.new.items ≡ text.old.items ++ literal_field lit) }
{
    let sign: &[u8] = if lit.positive() { b" " } else { b" -" };
    text.extend_from_slice(sign)?;
    text.extend_from_slice(Buffer::new().format(lit.variable()).as_bytes())?;
    Ok(())
}

/// Appends how a node stands by its own finding, a space before each word: `open`, `refuted`, or
/// `rejected` with the step and the reason. `AllocError` where a growth was refused.
pub fn write_status(text: &mut Vec<u8>, mark: Mark) -> Result<(), AllocError>
    ensures { OnOk result (text.new.items ≡ text.old.items ++ status_fields mark) }
{
    match mark {
        Mark::Open => text.extend_from_slice(b" open")?,
        Mark::Refuted => text.extend_from_slice(b" refuted")?,
        Mark::Rejected { step, reason } => {
            text.extend_from_slice(b" rejected")?;
            write_number(text, step)?;
            text.extend_from_slice(reason_name(reason))?;
        }
    }
    Ok(())
}

fn reason_name(reason: Reason) -> &'static [u8]
    ensures { result.now ≡ reason_field reason }
{
    match reason {
        Reason::Unreadable => b" unreadable",
        Reason::Id => b" id",
        Reason::Hint => b" hint",
        Reason::Unit => b" unit",
        Reason::Empty => b" empty",
        Reason::Group => b" group",
        Reason::Candidate => b" candidate",
        Reason::End => b" end",
    }
}

/// The line of the answer, by whether the root is marked.
pub fn answer(refuted: bool) -> &'static [u8]
    ensures { result.now ≡ answer_line refuted }
{
    if refuted { b"s REFUTED\n" } else { b"s OPEN\n" }
}
