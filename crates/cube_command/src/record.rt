//! The record of a run: the line that names the text of the formula, and the report.

ghost use Rattle.std.specs.Prelude.{◌≡◌, ◌++◌, ℕ, List, Some, option_map, IfOk, OnOk};
ghost use Rattle.cube_report.specs.Bundle.{icnf_text};
ghost use Rattle.cube_command.specs.Record.{digest_line};

use cube_report::icnf_part;
use sha2::{Digest, Sha256};
use std::alloc::{AllocError, Global};

/// The line that names the iCNF text of a bundle: `i `, its SHA-256 (FIPS 180-4) as 64 hexadecimal
/// digits, and a line feed. `AllocError` where a growth was refused.
pub fn digest_line_of(alloc: Global, bundle: &[u8]) -> Result<Vec<u8>, AllocError>
    ensures { IfOk result (λ line. line.items ≡ digest_line (icnf_text bundle.now)) }
{
    line_of(alloc, icnf_part(bundle))
}

/// The line that names this text.
fn line_of(alloc: Global, icnf: &[u8]) -> Result<Vec<u8>, AllocError>
    ensures { IfOk result (λ line. line.items ≡ digest_line icnf.now) }
{
    let digits = hex::encode(alloc, Sha256::digest(icnf))?;
    let mut line = Vec::new(alloc);
    line.extend_from_slice(b"i ")?;
    line.extend_from_slice(digits.as_bytes())?;
    line.push(b'\n')?;
    Ok(line)
}

/// The line that names the iCNF text of a bundle, where a file for the record is asked for.
pub(crate) fn begin_record(
    alloc: Global,
    out: Option<&str>,
    icnf: &[u8],
) -> Result<Vec<u8>, AllocError>
    ensures { IfOk result (λ begun. (path : List ℕ)
        → option_map (λ path. path.now) out.entry ≡ Some path
        → begun.items ≡ digest_line icnf.now) }
{
    match out {
        Some(_) => line_of(alloc, icnf),
        None => Ok(Vec::new(alloc)),
    }
}

/// Puts the report behind that line, where a file for the record is asked for.
pub(crate) fn end_record(
    begun: &mut Vec<u8>,
    out: Option<&str>,
    report: &[u8],
) -> Result<(), AllocError>
    ensures { OnOk result ((path : List ℕ)
        → option_map (λ path. path.now) out.entry ≡ Some path
        → begun.new.items ≡ begun.old.items ++ report.now) }
{
    if out.is_some() {
        begun.extend_from_slice(report)?;
    }
    Ok(())
}
