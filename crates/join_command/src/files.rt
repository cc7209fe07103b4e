//! The files of a join, read one at a time.

ghost use Rattle.std.specs.Prelude.{◌≡◌, ◌≢◌, ◌<◌, ◌^◌, ◌-◌, ◌++◌, ℕ, List, Some, None, map};
ghost use Rattle.std.specs.Prelude.{IfOk, IfErr, MatchOption, OnOk, option_map};
ghost use Rattle.cube_report.specs.Mark.{Mark};
ghost use Rattle.bundle_files.specs.Files.{IsGivenAt};
ghost use Rattle.cube_report.specs.Device.{IsDeviceFault};
ghost use Rattle.bundle_files.specs.Formula.{IsHandedFrom, IsReadFrom, sources_by};
ghost use Rattle.cube_join.specs.Joined.{IsJoinedSoFar, IsLegible, IsToldBy, joined};
ghost use Rattle.cube_join.specs.Joined.{none_marked};
ghost use Rattle.join_command.specs.Program.{AreTextsAt, behind_each, line_before};
ghost use Rattle.join_command.specs.Inner.Files.{AreNotAdded, IsNotAdded, IsUnreadBundle};
ghost use Rattle.join_command.specs.Inner.Files.{lies_handed};

use crate::fault::JoinFault;
use bundle_files::{Store, append_file, read_from};
use cube_command::digest_line_of;
use cube_join::Join;
use cube_report::{Counted, DeviceFault, Fault};
use std::alloc::{AllocError, Global};
use std::io;

/// The bundle of FILE, under the formula that has a file of its own, as `cubeboard` reads it.
/// `Device` where a call failed or a file isn't there, `Memory` where a growth was refused; any
/// other fault is one of the formula's file, or tells that FILE adds clauses to it.
pub(crate) fn read_asked<D: Store>(
    alloc: Global,
    store: &mut D,
    formula: Option<&str>,
    file: &str,
) -> Result<Vec<u8>, Fault>
    requires store { D.failures store.old < 2 ^ 64 - 1 }
    ensures held { D.held store.new ≡ D.held store.old }
    ensures bundle { IfOk result (λ bundle. IsReadFrom (D.held store.old)
        (sources_by (option_map (λ path. path.now) formula.entry) (Some file.now)) None
        bundle.items) }
    ensures handed { IfOk result (λ bundle. IsHandedFrom D.hands
        (sources_by (option_map (λ path. path.now) formula.entry) (Some file.now)) None
        bundle.items) }
    ensures ok { OnOk result (D.failures store.new ≡ D.failures store.old) }
    ensures err { IfErr result (IsUnreadBundle (D.held store.old)
        (sources_by (option_map (λ path. path.now) formula.entry) (Some file.now))
        (D.failures store.old) (D.failures store.new)) }
{
    // FILE is always there, so that this isn't read.
    let mut input = Counted::new(io::empty());
    match read_from(alloc, store, &mut input, formula, Some(file), false) {
        Ok(read) => Ok(read.bundle),
        Err(fault) => Err(fault_of_reading(fault)),
    }
}

/// The fault of a reading, which starts no thread: a fault that says so would be want of memory.
fn fault_of_reading(fault: Fault) -> Fault
    ensures thread { fault ≡ Fault.Thread → result ≡ Fault.Memory }
    ensures other { fault ≢ Fault.Thread → result ≡ fault }
{
    match fault {
        Fault::Thread => Fault::Memory,
        other => other,
    }
}

/// The bytes of the file at this path. `Device` where a call failed, as it does where no file is
/// there; `Memory` where a growth was refused.
pub(crate) fn read_whole<D: Store>(
    alloc: Global,
    store: &mut D,
    path: &str,
) -> Result<Vec<u8>, DeviceFault>
    requires store { D.failures store.old < 2 ^ 64 - 1 }
    ensures held { D.held store.new ≡ D.held store.old }
    ensures text { IfOk result (λ text. IsGivenAt (D.held store.old) path.now (Some text.items)) }
    ensures handed { IfOk result (λ text. D.hands path.now text.items) }
    ensures ok { OnOk result (D.failures store.new ≡ D.failures store.old) }
    ensures err { IfErr result (IsDeviceFault (D.failures store.old) (D.failures store.new)) }
{
    let mut text = Vec::new(alloc);
    append_file(store, path, &mut text)?;
    Ok(text)
}

/// The line that names the iCNF text of this bundle, which stands before the report in each RECORD;
/// nothing where these are plain reports.
pub(crate) fn line_before(
    alloc: Global,
    unbound: bool,
    bundle: &[u8],
) -> Result<Vec<u8>, AllocError>
    ensures { IfOk result (λ line. line.items ≡ line_before unbound bundle.now) }
{
    if unbound {
        Ok(Vec::new(alloc))
    } else {
        digest_line_of(alloc, bundle)
    }
}

/// What stands in a text behind the line with which it has to begin.
fn behind_line<'t>(text: &'t [u8], line: &[u8]) -> Option<&'t [u8]>
    ensures { MatchOption result ((report : List ℕ) → text.now ≢ line.now ++ report)
        (λ report. text.now ≡ line.now ++ report.now) }
{
    text.strip_prefix(line)
}

/// Reads the RECORD of this number, from 1, and joins the report behind the line with which it has
/// to begin.
fn join_file<D: Store>(
    alloc: Global,
    store: &mut D,
    join: &mut Join<'_>,
    line: &[u8],
    path: &str,
    number: u64,
) -> Result<(), JoinFault>
    requires store { D.failures store.old < 2 ^ 64 - 1 }
    requires legible { IsLegible join.old.tree }
    ensures held { D.held store.new ≡ D.held store.old }
    ensures tree { join.new.tree ≡ join.old.tree }
    ensures joined { OnOk result ((report : List ℕ)
        × lies_handed (D.held store.old) D.hands path.now (line.now ++ report)
        × (told : List Mark) × IsToldBy join.old.tree report told
        × (join.new.marks ≡ joined join.old.marks told)) }
    ensures ok { OnOk result (D.failures store.new ≡ D.failures store.old) }
    ensures err { IfErr result (IsNotAdded (D.held store.old) line.now join.old.tree path.now number
        (D.failures store.old) (D.failures store.new)) }
{
    let text = read_whole(alloc, store, path)?;
    let Some(report) = behind_line(&text, line) else {
        return Err(JoinFault::Stranger(number));
    };
    let is_report = join.add(alloc, report)?;
    if !is_report {
        return Err(JoinFault::Stranger(number));
    }
    Ok(())
}

/// Reads all RECORDs, one at a time, and joins them.
pub(crate) fn join_files<D: Store>(
    alloc: Global,
    store: &mut D,
    join: &mut Join<'_>,
    line: &[u8],
    paths: &[&str],
) -> Result<(), JoinFault>
    requires store { D.failures store.old < 2 ^ 64 - 1 }
    requires legible { IsLegible join.old.tree }
    requires none { join.old.marks ≡ none_marked join.old.tree }
    ensures held { D.held store.new ≡ D.held store.old }
    ensures tree { join.new.tree ≡ join.old.tree }
    ensures joined { OnOk result ((reports : List (List ℕ))
        × AreTextsAt (lies_handed (D.held store.old) D.hands) (map (λ path. path.now) paths.now)
        (behind_each line.now reports)
        × IsJoinedSoFar join.old.tree reports join.new.marks) }
    ensures ok { OnOk result (D.failures store.new ≡ D.failures store.old) }
    ensures err { IfErr result (AreNotAdded (D.held store.old) line.now join.old.tree
        (map (λ path. path.now) paths.now) (D.failures store.old) (D.failures store.new)) }
{
    for index in 0..paths.len() {
        join_file(alloc, store, join, line, paths[index], index as u64 + 1)?;
    }
    Ok(())
}
