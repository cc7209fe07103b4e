//! What is told on standard error.

ghost use Rattle.std.specs.Prelude.{◌≡◌};

use crate::again::{Sought, step_again, steps_again};
use crate::faults::tell_fault;
use crate::files::{ReadFiles, Unread, is_binary_file, read_again};
use crate::folder::{Few, Folder, Names};
use crate::header::tell_ignored;
use crate::looks::Looks;
use crate::reasons::advice_on;
use crate::rejected::{Rejected, Rejections, rejections_in};
use crate::run::Run;
use crate::shown::{Name, Shown};
use crate::step_lines::StepWalk;
use case_core::{Case, Formula, binary_text, read_bundle};
use run_terms::{Asked, Explain, Fault, Kept};
use sha2::{Digest, Sha256};
use std::alloc::{AllocError, Global};
use std::fmt::Display;
use std::io::{Eprint, ErrorKind};

/// Tells a person of a run in lines on the standard error of a device, each of which begins with
/// `explain: `. For that it reads files of the run again by that device, and it can do nothing else
/// with them. What can't be written then is left out.
#[derive(Clone, Copy)]
pub struct Teller<'a, R> {
    device: &'a R,
}

impl<'a, R> Teller<'a, R> {
    /// One that tells on the standard error of this device, and reads files by it.
    pub fn new(device: &'a R) -> Teller<'a, R>
        ensures { result.device.now ≡ device.now }
    {
        Teller { device }
    }
}

impl<'a, R: Eprint + ReadFiles> Explain for Teller<'a, R> {
    fn tell_read(&self, alloc: Global, asked: &Asked<'_>, icnf: &[u8]) {
        if let Ok(case) = read_bundle(alloc, icnf) {
            tell_case(&run_of(self.device, alloc, asked, icnf, 0), &case);
        }
    }

    fn tell_report(&self, alloc: Global, asked: &Asked<'_>, report: &[u8]) {
        tell_judgements(&run_of(self.device, alloc, asked, b"", 0), report);
    }

    fn tell_fault(&self, alloc: Global, asked: &Asked<'_>, kept: Kept<'_>, fault: Fault) {
        tell_fault(
            &run_of(self.device, alloc, asked, kept.icnf, kept.lines),
            fault,
        );
    }
}

/// The run that is told of by this device, where this iCNF text is kept of its bundle, and so many
/// of its lines stand above a folder's proofs.
fn run_of<'r, R>(
    device: &'r R,
    alloc: Global,
    asked: &Asked<'r>,
    icnf: &'r [u8],
    lines: u64,
) -> Run<'r, R> {
    Run {
        device,
        alloc,
        asked: *asked,
        icnf,
        lines,
    }
}

/// How many literals a formula has.
fn literals_of(formula: &Formula) -> u64 {
    let mut sum = 0u64;
    for clause in formula.clauses() {
        sum = sum.saturating_add(clause.lits().len() as u64);
    }
    sum
}

/// Tells what was read, where it is this case.
fn tell_case<R: Eprint + ReadFiles>(run: &Run<'_, R>, case: &Case) {
    tell_formula(run, case.formula());
    tell_ignored(run);
    tell_digest(run);
    tell_tree(run, case);
    tell_folder(run, case);
}

/// Tells which formula was read.
fn tell_formula<R: Eprint>(run: &Run<'_, R>, formula: &Formula) {
    let clauses = formula.clauses().len();
    let literals = literals_of(formula);
    let greatest = formula.greatest_variable();
    let what = format_args!(
        "clauses: {clauses}; literals: {literals}; greatest variable: {greatest}"
    );
    run.say_of(run.asked.formula.unwrap_or(run.file()), what);
}

/// Tells the digest of the iCNF text, which a record names.
fn tell_digest<R: Eprint>(run: &Run<'_, R>) {
    if let Ok(digits) = hex::encode(run.alloc, Sha256::digest(run.icnf)) {
        run.say(format_args!("SHA-256 of formula and cubes: {digits}"));
    }
}

/// Tells which tree was read.
fn tell_tree<R: Eprint>(run: &Run<'_, R>, case: &Case) {
    let cubes = case.tree().cube_count();
    let missing = case.tree().missing_count();
    let what = format_args!("cubes: {cubes}; branches without a cube: {missing}");
    run.say_of(run.file(), what);
    if cubes == 0 {
        let what = "a cube begins with \"a\"; a line without it is a clause";
        run.say_of(run.file(), what);
    }
}

/// Tells what the folder of proofs has, where one is asked for.
fn tell_folder<R: Eprint + ReadFiles>(run: &Run<'_, R>, case: &Case) {
    let Some(path) = run.asked.proofs else {
        return;
    };
    let folder = Folder {
        device: run.device,
        alloc: run.alloc,
        path,
        cubes: case.tree().cube_count(),
        missing: case.tree().missing_count(),
    };
    match folder.names() {
        Ok(names) => tell_names(run, path, &names),
        Err(error) if error.kind() == ErrorKind::NotFound => {
            run.say_of(path, "there is no such folder, so no proof is added");
        }
        Err(error) => run.say_of(path, error),
    }
}

/// Tells what the files of a folder name.
fn tell_names<R: Eprint>(run: &Run<'_, R>, folder: &str, names: &Names) {
    let proofs = names.proofs;
    run.say_of(
        folder,
        format_args!("files that are proofs of leaves: {proofs}"),
    );
    tell_few(
        run,
        folder,
        "links to files that aren't there",
        &names.dangling,
    );
    tell_few(run, folder, "files that name no leaf", &names.strays);
}

/// Tells of which kind some files of a folder are, and their first names, where there are any.
fn tell_few<R: Eprint>(run: &Run<'_, R>, folder: &str, kind: &str, few: &Few) {
    if few.count > 0 {
        run.say_of(folder, format_args!("{kind}: {few}"));
    }
}

/// Tells how many proofs a report judges, and of those that it rejects.
fn tell_judgements<R: Eprint + ReadFiles>(run: &Run<'_, R>, report: &[u8]) {
    if let Ok(rejections) = rejections_in(run.alloc, report) {
        let (leaves, nodes) = (rejections.leaves, rejections.nodes);
        run.say(format_args!("proofs judged: for leaves: {leaves}, for inner nodes: {nodes}"));
        tell_rejections(run, &rejections);
    }
}

/// Tells of the proofs that a report rejects.
fn tell_rejections<R: Eprint + ReadFiles>(run: &Run<'_, R>, rejections: &Rejections<'_>) {
    if let Ok(mut steps) = steps_of(run.alloc, &rejections.first) {
        let unread = find_sections(run, &mut steps);
        tell_each(run, &rejections.first, &steps, unread);
    }
    let more = rejections.more;
    if more > 0 {
        run.say(format_args!("{more} more proofs are rejected"));
    }
}

/// The steps of rejected proofs, of which none was found yet.
fn steps_of(alloc: Global, rejected: &[Rejected<'_>]) -> Result<Vec<Sought>, AllocError> {
    let mut steps = Vec::new(alloc);
    for one in rejected {
        steps.push(Sought {
            name: label_of(alloc, one)?,
            above: None,
            walk: StepWalk::new(one.step),
        })?;
    }
    Ok(steps)
}

/// Looks for the steps in the sections of the file with the bundle; or why that isn't read again.
/// Where there is none to look for it isn't read.
fn find_sections<R: Eprint + ReadFiles>(run: &Run<'_, R>, steps: &mut [Sought]) -> Option<Unread> {
    if steps.is_empty() || run.asked.is_one_proof {
        return None;
    }
    match run.asked.file {
        Some(path) => steps_again(run.device, run.alloc, path, steps).err(),
        None => Some(Unread::Once),
    }
}

/// Tells of these rejected proofs and their steps, as far as these were found in the file with the
/// bundle, if that could be read again.
fn tell_each<R: Eprint + ReadFiles>(
    run: &Run<'_, R>,
    rejected: &[Rejected<'_>],
    steps: &[Sought],
    unread: Option<Unread>,
) {
    for (one, sought) in rejected.iter().zip(steps.iter()) {
        tell_rejection(run, one, sought, &unread);
        run.say(advice_on(one.reason));
    }
}

/// A step of a proof that was rejected: the name of the proof's leaf or node, the step's number,
/// and the file in which the proof stands.
#[derive(Clone, Copy)]
struct Step<'t> {
    name: &'t str,
    number: u64,
    from: &'t str,
}

/// Tells the step of a proof that is rejected: of a file of its own, or of a section of the bundle.
fn tell_rejection<R: Eprint + ReadFiles>(
    run: &Run<'_, R>,
    rejected: &Rejected<'_>,
    sought: &Sought,
    unread: &Option<Unread>,
) {
    let (name, number) = (sought.name.as_str(), rejected.step);
    if run.asked.is_one_proof {
        let from = run.file();
        return tell_proof(run, Step { name, number, from });
    }
    if sought.above.is_none()
        && let Some(path) = file_of(run, rejected, name)
    {
        let from = path.as_str();
        return tell_proof(run, Step { name, number, from });
    }
    let from = run.file();
    tell_section(run, Step { name, number, from }, sought, unread);
}

/// The file of the folder that is the proof of a leaf of this name, where it is there.
fn file_of<R: ReadFiles>(run: &Run<'_, R>, rejected: &Rejected<'_>, name: &str) -> Option<String> {
    let folder = run.asked.proofs?;
    if rejected.node.starts_with(b"n ") {
        return None;
    }
    let path = format!(in run.alloc; "{folder}/{name}.lrat").ok()?;
    match run.device.look_at(path.as_str()) {
        Ok(_) => Some(path),
        Err(_) => None,
    }
}

/// Tells the step of a section of the bundle, where the file with the bundle was read again.
fn tell_section<R: Eprint>(
    run: &Run<'_, R>,
    step: Step<'_>,
    sought: &Sought,
    unread: &Option<Unread>,
) {
    match (unread, sought.above) {
        (Some(unread), _) => say_rejected(run, step, format_args!(": {unread}")),
        (None, Some(above)) => tell_step(run, step, &sought.walk, above),
        (None, None) => say_rejected(run, step, format_args!(": {}", Unread::Changed)),
    }
}

/// Tells the rejected step of a proof that is a file of its own, or why it can't be read again.
fn tell_proof<R: Eprint + ReadFiles>(run: &Run<'_, R>, step: Step<'_>) {
    let told = if run.asked.is_one_proof && run.asked.file.is_none() {
        Err(Unread::Once)
    } else {
        tell_proof_at(run, step)
    };
    if let Err(unread) = told {
        say_rejected(run, step, format_args!(": {unread}"));
    }
}

/// Tells the rejected step of a file: of a text where it stands, of a binary proof as text.
fn tell_proof_at<R: Eprint + ReadFiles>(run: &Run<'_, R>, step: Step<'_>) -> Result<(), Unread> {
    if is_binary_file(run.device, step.from)? {
        let proof = read_again(run.device, run.alloc, step.from)?;
        if let Ok(Some(text)) = binary_text(run.alloc, &proof) {
            tell_binary_step(run, step, &text);
        }
    } else {
        let walk = step_again(run.device, run.alloc, step.from, step.number)?;
        tell_step(run, step, &walk, 0);
    }
    Ok(())
}

/// Tells a step that was rejected of a binary proof, by the text that it stands for.
fn tell_binary_step<R: Eprint>(run: &Run<'_, R>, step: Step<'_>, text: &[u8]) {
    let mut walk = StepWalk::new(step.number);
    if walk.pass(run.alloc, text).is_err() {
        return;
    }
    match &walk.line {
        Some(line) => say_rejected(
            run,
            step,
            format_args!(", binary LRAT: {}", Shown(&line.text)),
        ),
        None => say_absent(run, step),
    }
    if step.number == 1 {
        let what = "CaDiCaL 1.7 doesn't double the ids of binary steps: have it write text \
                    (--no-binary)";
        run.say_of(step.from, what);
    }
}

/// Tells a step that was rejected, and where it stands, with so many lines above its proof.
fn tell_step<R: Eprint>(run: &Run<'_, R>, step: Step<'_>, walk: &StepWalk, above: u64) {
    match &walk.line {
        Some(line) => {
            let (number, text) = (above.saturating_add(line.number), Shown(&line.text));
            say_rejected(run, step, format_args!(", line {number}: {text}"));
        }
        None => say_absent(run, step),
    }
    if step.number == 1 {
        match walk.looks {
            Looks::Unknown => {}
            looks => run.say_of(step.from, looks),
        }
    }
}

/// Tells that a step is rejected, and how the line goes on behind its file.
fn say_rejected<R: Eprint, D: Display + Drop>(run: &Run<'_, R>, step: Step<'_>, what: D) {
    let (name, number, from) = (step.name, step.number, Name(step.from));
    run.say(format_args!("proof for {name}: step {number} is rejected: {from}{what}"));
}

/// Tells that a file doesn't have the step that was rejected.
fn say_absent<R: Eprint>(run: &Run<'_, R>, step: Step<'_>) {
    let (name, number, from) = (step.name, step.number, Name(step.from));
    run.say(format_args!("proof for {name}: {from} has no step {number}"));
}

/// What a label for the node of a rejected proof says behind its `l`.
fn label_of(alloc: Global, rejected: &Rejected<'_>) -> Result<String, AllocError> {
    match rejected.node.strip_prefix(b"a ") {
        Some(number) => String::from_utf8_lossy(alloc, number),
        None if rejected.node.starts_with(b"m ") => format!(in alloc; "m{}", rejected.missing),
        None => String::from_utf8_lossy(alloc, rejected.node),
    }
}
