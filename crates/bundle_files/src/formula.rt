//! A formula in a DIMACS file of its own: the bundle that it makes with a text of cubes and proofs.

ghost use Rattle.std.specs.Prelude.{◌≡◌, ◌≢◌, ◌<◌, ◌≤◌, ◌^◌, ◌-◌, ◌+◌, ◌++◌, ℕ, List, []};
ghost use Rattle.std.specs.Prelude.{Some};
ghost use Rattle.std.specs.Prelude.{None, OnOk, IfOk, IfErr, IfSome, option_map, length, take};
ghost use Rattle.std.specs.Prelude.{drop, Option};
ghost use Rattle.std.specs.Bool.{OnTrue, OnFalse};
ghost use Rattle.case_core.specs.Tokens.{line_tokens};
ghost use Rattle.case_core.specs.Dimacs.{greatest_of};
ghost use Rattle.case_core.specs.Sections.{IsCaseOf};
ghost use Rattle.cube_report.specs.Faults.{IsInputFault};
ghost use Rattle.file_store.specs.Files.{StaysAllowed, may_lie_at};
ghost use Rattle.bundle_files.specs.Formula.{header_over, IsFormulaFault, IsOverwritten, IsReadBy};
ghost use Rattle.bundle_files.specs.Formula.{ArePlainLines, HasCount, IsBundleBy, IsFormulaFront};
ghost use Rattle.bundle_files.specs.Inner.Formula.{HasProblem, IsFirstLine};
ghost use Rattle.bundle_files.specs.Inner.Formula.{IsFaultyFormula, IsOtherCount};
ghost use Rattle.bundle_files.specs.Judging.{IsJudgingFault};

use case_core::{
    Case, Formula, Problem, TextFault, first_word, icnf_part, is_comment, read_bundle, read_icnf,
    read_problem, split_line,
};
use cube_report::{Fault, Source};
use file_store::{Store, append_file, append_given};
use std::alloc::Global;

/// A bundle that was read, and its case where that was made on the way.
#[derive(Drop)]
pub struct ReadBundle {
    /// The bytes.
    pub bundle: Vec<u8>,
    /// The case that they stand for.
    pub case: Option<Case>,
}

/// Whether a line has no token.
fn is_bare(line: &[u8]) -> bool
    ensures bare { OnTrue result ((n : ℕ) → line_tokens n line.now ≡ []) }
    ensures other { OnFalse result ((n : ℕ) → line_tokens n line.now ≢ []) }
{
    is_comment(line) || first_word(line).is_none()
}

/// Where the first line with a token begins, and how long it is.
fn first_line(text: &[u8]) -> (usize, usize)
    requires { HasProblem text.now }
    ensures { IsFirstLine text.now result.0 result.1 }
{
    let mut rest = text;
    loop {
        let (line, below) = split_line(rest);
        if !is_bare(line) {
            return (text.len() - rest.len(), line.len());
        }
        let Some(next) = below else {
            return (0, 0);
        };
        rest = next;
    }
}

/// Makes a line a header and blanks.
fn write_header(line: &mut [u8])
    requires { 8 ≤ length line.old }
    ensures { line.new ≡ header_over line.old }
{
    let (header, blanks) = line.split_at_mut(8);
    header.copy_from_slice(b"p inccnf");
    blanks.fill(b' ');
}

/// Makes a part of a text a header and blanks.
fn write_header_at(text: &mut [u8], start: usize, count: usize)
    requires inside { start + count ≤ length text.old }
    requires long { 8 ≤ count }
    ensures { text.new ≡ take start text.old ++ (header_over (take count (drop start text.old))
        ++ drop (start + count) text.old) }
{
    write_header(&mut text[start..start + count]);
}

/// Makes the problem line of a DIMACS text a header of the same length, in its place.
fn overwrite_header(text: &mut [u8])
    requires { HasProblem text.old }
    ensures { IsOverwritten text.old text.new }
{
    let (start, count) = first_line(text);
    write_header_at(text, start, count);
}

/// What stands in a bundle before its own text was read: nothing, or the text of a formula's file
/// with a header over its problem line, and a line end.
#[derive(Drop)]
pub struct BegunBundle {
    /// The bytes.
    pub(crate) text: Vec<u8>,
    /// What the problem line of the formula's file says.
    pub(crate) said: Option<Problem>,
}

/// A bundle is begun: with the text of the file at this path, a DIMACS text, if there is one.
///
/// `Device` where the file can't be read or isn't there, `Memory` where a growth was refused. Any
/// other fault is one of that file.
pub fn begin_bundle<D: Store>(
    alloc: Global,
    store: &mut D,
    formula: Option<&str>,
) -> Result<BegunBundle, Fault>
    // One more failed read can be counted.
    requires { D.failures store.old < 2 ^ 64 - 1 }
    // The store holds what it held.
    ensures held { D.held store.new ≡ D.held store.old }
    ensures allowed { StaysAllowed (D.allows store.old) (D.allows store.new) }
    // It is what stands before the bundle's own text, by what lies there and by what one reading of
    // the file handed over.
    ensures read { IfOk result (λ begun. IsFormulaFront (may_lie_at (D.held store.old))
        (option_map (λ path. path.now) formula.entry) begun.said begun.text.items) }
    ensures handed { IfOk result (λ begun. IsFormulaFront D.hands
        (option_map (λ path. path.now) formula.entry) begun.said begun.text.items) }
    ensures plain { IfOk result (λ begun. ArePlainLines begun.text.items) }
    // A fault of the input is one of the formula's file.
    ensures fault { IfErr result (λ fault. IsInputFault fault → (file input : Option (List ℕ))
        → IsFormulaFault (D.held store.old) (option_map (λ path. path.now) formula.entry) file
        input fault) }
    // The device is at fault exactly where a read failed.
    ensures ok { OnOk result (D.failures store.new ≡ D.failures store.old) }
    ensures err { IfErr result (IsJudgingFault (D.failures store.old) (D.failures store.new)) }
{
    match formula {
        Some(path) => read_formula(alloc, store, path),
        None => Ok(BegunBundle {
            text: Vec::new(alloc),
            said: None,
        }),
    }
}

/// The same with the text of the file at this path.
fn read_formula<D: Store>(alloc: Global, store: &mut D, path: &str) -> Result<BegunBundle, Fault>
    requires { D.failures store.old < 2 ^ 64 - 1 }
    ensures held { D.held store.new ≡ D.held store.old }
    ensures allowed { StaysAllowed (D.allows store.old) (D.allows store.new) }
    ensures read { IfOk result
        (λ begun. IsFormulaFront (may_lie_at (D.held store.old)) (Some path.now)
        begun.said begun.text.items) }
    ensures handed { IfOk result (λ begun. IsFormulaFront D.hands (Some path.now) begun.said
        begun.text.items) }
    ensures fault { IfErr result (λ fault. IsInputFault fault
        → IsFaultyFormula (D.held store.old) path.now fault) }
    ensures ok { OnOk result (D.failures store.new ≡ D.failures store.old) }
    ensures err { IfErr result (IsJudgingFault (D.failures store.old) (D.failures store.new)) }
{
    let mut text = Vec::new(alloc);
    append_file(store, path, &mut text)?;
    let problem = read_problem(&text)?;
    overwrite_header(&mut text);
    text.push(b'\n')?;
    Ok(BegunBundle {
        text,
        said: Some(problem),
    })
}

/// Whether a bundle has as many clauses as a problem line says. A bundle with a fault has no
/// clauses that could be counted, and the run tells the fault.
fn check_count(alloc: Global, bundle: &[u8], said: Problem) -> Result<(), Fault>
    ensures ok { OnOk result (HasCount (Some said) bundle.now) }
    ensures err { IfErr result (IsOtherCount (Some said) bundle.now) }
{
    match read_icnf(alloc, icnf_part(bundle)) {
        Ok(file) => check_formula(&file.formula, said),
        Err(fault) => memory_alone(fault),
    }
}

/// Want of memory, and nothing of another fault.
fn memory_alone(fault: TextFault) -> Result<(), Fault>
    ensures ok { OnOk result (fault ≢ TextFault.Memory) }
    ensures err { IfErr result (λ told. told ≡ Fault.Memory) }
{
    match fault {
        TextFault::Memory => Err(Fault::Memory),
        _ => Ok(()),
    }
}

/// Whether a formula has as many clauses as a problem line says.
pub(crate) fn check_formula(formula: &Formula, said: Problem) -> Result<(), Fault>
    ensures ok { OnOk result (length formula.now ≡ said.clauses) }
    ensures err { IfErr result (λ fault. (length formula.now ≢ said.clauses)
        × (fault ≡ Fault.Counts said.variables said.clauses (greatest_of formula.now)
        (length formula.now))) }
{
    let found = formula.clauses().len() as u64;
    if found == said.clauses {
        return Ok(());
    }
    Err(Fault::Counts {
        variables: said.variables,
        clauses: said.clauses,
        greatest: u64::from(formula.greatest_variable()),
        found,
    })
}

/// Whether a bundle has as many clauses as a problem line says: its case, where it is one. Where it
/// isn't, the run tells why, unless the count is told.
fn read_counted(alloc: Global, bundle: &[u8], said: Problem) -> Result<Option<Case>, Fault>
    ensures ok { OnOk result (HasCount (Some said) bundle.now) }
    ensures case { IfOk result (λ some. IfSome some (IsCaseOf bundle.now)) }
    ensures err { IfErr result (IsOtherCount (Some said) bundle.now) }
{
    match read_bundle(alloc, bundle) {
        Ok(case) => {
            check_formula(case.formula(), said)?;
            Ok(Some(case))
        }
        Err(_) => {
            check_count(alloc, bundle, said)?;
            Ok(None)
        }
    }
}

/// The same where there may be no problem line, with the case only where it is wanted, and where
/// there is one.
pub(crate) fn count_or_read(
    alloc: Global,
    bundle: &[u8],
    said: Option<Problem>,
    wants_case: bool,
) -> Result<Option<Case>, Fault>
    ensures ok { OnOk result (HasCount said bundle.now) }
    ensures case { IfOk result (λ some. IfSome some (IsCaseOf bundle.now)) }
    ensures err { IfErr result (IsOtherCount said bundle.now) }
{
    let Some(said) = said else {
        return Ok(None);
    };
    if wants_case {
        return read_counted(alloc, bundle, said);
    }
    check_count(alloc, bundle, said)?;
    Ok(None)
}

/// The bundle that is read: the bytes of the file at this path, or those of the input where there
/// is none. Where the formula has a file of its own, a DIMACS text (1993), they stand below it, and
/// add no clause: that file's text comes first, with its problem line overwritten in its place by
/// `p inccnf` and blanks, and then a line end.
///
/// So that no clause is added, the clauses of the whole are counted; where the case is wanted, it
/// is what they are counted by, and it is handed on.
///
/// `Device` where a call failed, or no file is at a path, and `Memory` where a growth was refused.
/// Any other fault is one of the formula's file, or tells that the other bytes have clauses.
pub fn read_from<D: Store, I: Source>(
    alloc: Global,
    store: &mut D,
    input: &mut I,
    formula: Option<&str>,
    file: Option<&str>,
    wants_case: bool,
) -> Result<ReadBundle, Fault>
    requires store { D.failures store.old < 2 ^ 64 - 1 }
    requires input { I.failures input.old < 2 ^ 64 - 1 }
    // The store holds what it held.
    ensures held { D.held store.new ≡ D.held store.old }
    ensures allowed { StaysAllowed (D.allows store.old) (D.allows store.new) }
    // The bundle is that of the files or of the input.
    ensures bundle { IfOk result (λ read. IsReadBy (D.held store.old)
        (option_map (λ path. path.now) formula.entry) (option_map (λ path. path.now) file.entry)
        (I.remaining input.old) read.bundle.items) }
    // It is made of what one reading of each file handed over.
    ensures handed { IfOk result (λ read. IsBundleBy D.hands
        (option_map (λ path. path.now) formula.entry) (option_map (λ path. path.now) file.entry)
        (I.remaining input.old) read.bundle.items) }
    // A case that is handed on is the bundle's.
    ensures case { IfOk result (λ read. IfSome read.case (IsCaseOf read.bundle.items)) }
    // A fault of the input is one of the formula's file, or of clauses behind it.
    ensures fault { IfErr result (λ fault. IsInputFault fault → IsFormulaFault (D.held store.old)
        (option_map (λ path. path.now) formula.entry) (option_map (λ path. path.now) file.entry)
        (I.remaining input.old) fault) }
    // The device is at fault exactly where a call failed; a file that isn't there fails its call.
    ensures ok { OnOk result
        ((D.failures store.new ≡ D.failures store.old) ×
        (I.failures input.new ≡ I.failures input.old)) }
    ensures err { IfErr result (IsJudgingFault (D.failures store.old + I.failures input.old)
        (D.failures store.new + I.failures input.new)) }
    // Where a file is asked for, the input isn't touched.
    ensures kept { IfSome file.entry (λ _. input.new ≡ input.old) }
{
    let BegunBundle { text, said } = begin_bundle(alloc, store, formula)?;
    let mut bundle = text;
    append_given(store, input, file, &mut bundle)?;
    let case = count_or_read(alloc, &bundle, said, wants_case)?;
    Ok(ReadBundle { bundle, case })
}
