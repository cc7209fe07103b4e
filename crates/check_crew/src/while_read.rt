//! A run over a bundle that is read once: it is judged while it is read.

ghost use Rattle.std.specs.Prelude.{◌≡◌, ◌<◌, ◌≤◌, ◌^◌, ◌-◌, [], None, All, IfOk, IfErr, OnOk};
ghost use Rattle.std.specs.Prelude.{get_or, replicate, ℕ, List, Option, vec_len};
ghost use Rattle.std.specs.Prelude.{true};
ghost use Rattle.case_core.specs.Labelled.{IsBehindFront};
ghost use Rattle.case_core.specs.Sections.{IsCaseOf};
ghost use Rattle.case_core.specs.SplitTree.{size};
ghost use Rattle.mark_board.specs.declared.mark.Mark.TheVariants.{Open};
ghost use Rattle.board_hall.specs.Halls.{shared_of, IsNewPass};
ghost use Rattle.proof_folder.specs.Given.{IsJudgedAs};
ghost use Rattle.check_crew.specs.WhileRead.{IsAllRead, IsReadFault, IsReadRefused};
ghost use Rattle.check_crew.specs.WhileRead.{bundle_behind, read_fault};
ghost use Rattle.check_crew.specs.Inner.WhileRead.{AreMarksBut, IsHelper, IsReadBy};
ghost use Rattle.check_crew.specs.Inner.WhileRead.{IsReadOn, IsReadOrNot, IsReader, IsSite};

use crate::fault::{CrewFault, ReadFault};
use crate::found::{FoundProof, judge_handed};
use crate::gate::{Elsewhere, Gate};
use crate::handed::{HandedProof, NamesCase};
use crate::reader::{Kept, Reader};
use crate::rooms::Rooms;
use crate::site::{Site, post_found};
use crate::threads::work_beside;
use board_hall::{Hall, Pass};
use byte_flow::Stream;
use case_core::{Case, Examiner, LabelledText};
use crossbeam_channel::{Receiver, Sender, bounded};
use mark_board::Boards;
use run_terms::Settings;
use std::alloc::{AllocError, Global};
use std::marker::Brand;
use std::sync::Wait;
use std::thread::{Promise, Threads};

/// So many bytes of proofs others may have at a time, for each worker of the run.
const HANDED: usize = 5 << 20;

/// A worker that judges what is handed to it.
#[derive(Drop)]
struct Helper<'a, 'c, R, G, J: NamesCase> {
    site: Site<'a, 'c, R, G>,
    worker: u32,
    pass: Pass,
    proofs: Receiver<HandedProof<J>>,
    found: Sender<FoundProof<'c, J>>,
}

/// What the worker that reads hands back: how it ended, the boards with what others still have, and
/// the source that was lent.
#[derive(Drop)]
struct ReadBundle<'c, J: NamesCase, L> {
    end: Result<(), ReadFault>,
    kept: Kept<'c, J>,
    lent: L,
}

/// A source that is lent to a reader while others work. It is handed over as a type parameter,
/// since a closure hands no reference back.
trait LendsSource: Drop {
    // The texts that reads may give from here on, and how many calls have failed so far.
    ghost gives: { Self → List ℕ → Type 0 };

    ghost failures: { Self → ℕ };

    // Whether what was handed back is what was lent.
    ghost is_back: { Self → Self → Type 0 };

    /// Has a reader read the text.
    fn read_by<'a, 'c, R: Wait, G: Gate, J: NamesCase>(
        self,
        reader: Reader<'a, 'c, R, G, J>,
        text: LabelledText,
    ) -> ReadBundle<'c, J, Self>
        requires reader { IsReader J.case reader }
        requires ready { text.ready ≡ [] }
        requires count { failures self < 2 ^ 64 - 1 }
        ensures { IsReadBy gives failures is_back reader.entry.kept.boards
            reader.entry.kept.given.items text self result };
}

/// A source that is lent.
#[derive(Drop)]
struct Lent<'s, S> {
    source: &'s mut S,
}

impl<'s, S: Stream> LendsSource for Lent<'s, S> {
    ghost gives = { λ lent. S.gives lent.source.now };

    ghost failures = { λ lent. S.failures lent.source.now };

    ghost is_back = { λ lent back. back.source.ghost_name ≡ lent.source.ghost_name };

    fn read_by<'a, 'c, R: Wait, G: Gate, J: NamesCase>(
        self,
        reader: Reader<'a, 'c, R, G, J>,
        text: LabelledText,
    ) -> ReadBundle<'c, J, Lent<'s, S>> {
        let Lent { source } = self;
        let mut reader = reader;
        let mut text = text;
        let end = reader.read_all(&mut text, source);
        let kept = into_kept(reader);
        let lent = Lent { source };
        ReadBundle { end, kept, lent }
    }
}

/// What a reader keeps, where it hands out nothing more.
fn into_kept<'c, R, G, J: NamesCase>(reader: Reader<'_, 'c, R, G, J>) -> Kept<'c, J>
    ensures { result ≡ reader.entry.kept }
{
    let Reader { kept, .. } = reader;
    kept
}

/// What is handed back where nothing was read, for this fault.
fn nothing_read<'c, R, G, J: NamesCase, L>(
    reader: Reader<'_, 'c, R, G, J>,
    lent: L,
    fault: CrewFault,
) -> ReadBundle<'c, J, L>
    ensures end { result.end ≡ Err (read_fault fault) }
    ensures kept { result.kept ≡ reader.entry.kept }
    ensures lent { result.lent ≡ lent }
{
    ReadBundle {
        end: Err(ReadFault::from(fault)),
        kept: into_kept(reader),
        lent,
    }
}

/// Does nothing, but this use of a reference that was handed back ties it to the one that was lent.
fn take_back<T>(_source: &mut T)
    ensures { _source.new ≡ _source.old }
{}

/// Judges a proof that was handed to it, and hands back what is found by it. An error is a refused
/// growth.
fn judge_next<'c, R: Wait, G: Gate, J: NamesCase>(
    helper: &mut Helper<'_, 'c, R, G, J>,
    examiner: &mut Examiner<'c>,
    proof: HandedProof<J>,
) -> Result<(), AllocError>
    requires helper { IsHelper J.case helper.old }
    requires examiner { examiner.old ≡ J.case }
    ensures helper { IsHelper J.case helper.new }
    ensures examiner { examiner.new ≡ examiner.old }
{
    let site = helper.site;
    site.gate.before(helper.worker, proof.target());
    let found = judge_handed(site.alloc, examiner, proof)?;
    let read = found.read();
    let Ok(()) = helper.found.send(site.rt, found) else {
        return Err(AllocError);
    };
    post_found(site, helper.worker, &mut helper.pass, read);
    Ok(())
}

/// Judges what is handed to it until no more comes. An error is a refused growth.
fn help<R: Wait, G: Gate, J: NamesCase>(helper: Helper<'_, '_, R, G, J>) -> Result<(), AllocError>
    requires { IsHelper J.case helper }
{
    let mut helper = helper;
    let Ok(first) = helper.proofs.recv(helper.site.rt) else {
        return Ok(());
    };
    let mut examiner = Examiner::over(helper.site.alloc, helper.site.case)?;
    help_from(&mut helper, &mut examiner, first)
}

/// Judges this proof, and what is handed to it behind it.
fn help_from<'c, R: Wait, G: Gate, J: NamesCase>(
    helper: &mut Helper<'_, 'c, R, G, J>,
    examiner: &mut Examiner<'c>,
    first: HandedProof<J>,
) -> Result<(), AllocError>
    requires helper { IsHelper J.case helper.old }
    requires examiner { examiner.old ≡ J.case }
{
    let mut proof = first;
    for _ in helper.site.rt.forever() {
        judge_next(helper, examiner, proof)?;
        let Ok(following) = helper.proofs.recv(helper.site.rt) else {
            return Ok(());
        };
        proof = following;
    }
    unreachable!()
}

/// Nothing is promised of what a helper hands back.
#[derive(Clone, Copy)]
struct Unpromised;

impl Promise<Result<(), AllocError>> for Unpromised {
    ghost use Rattle.std.specs.Prelude.{⊤};

    ghost kept_by = { λ _ _. ⊤ };
}

/// Has the reader read, or, for a fault of the crew, hands back what was lent and nothing read.
fn read_or_not<'c, R, G, J, L>(
    reader: Reader<'_, 'c, R, G, J>,
    text: LabelledText,
    lent: L,
    fault: Option<CrewFault>,
) -> ReadBundle<'c, J, L>
where
    R: Wait,
    G: Gate,
    J: NamesCase,
    L: LendsSource,
    requires reader { IsReader J.case reader }
    requires ready { text.ready ≡ [] }
    requires count { L.failures lent < 2 ^ 64 - 1 }
    ensures { IsReadOrNot L.gives L.failures L.is_back reader.entry.kept.boards
        reader.entry.kept.given.items text lent result }
{
    match fault {
        Some(fault) => nothing_read(reader, lent, fault),
        None => lent.read_by(reader, text),
    }
}

/// Starts the helpers, has the reader read, and joins all that were started; answers whether each
/// of them ended well, too. Where the start of one is refused nothing is read.
fn read_with<'e, 'c: 'e, R, G, J, L>(
    site: Site<'e, 'c, R, G>,
    helpers: Vec<Helper<'e, 'c, R, G, J>>,
    reader: Reader<'e, 'c, R, G, J>,
    text: LabelledText,
    lent: L,
) -> (ReadBundle<'c, J, L>, bool)
where
    R: Threads + Wait + Sync,
    G: Gate + Sync,
    J: NamesCase + Send + Sync + 'e,
    L: LendsSource,
    requires helpers { All (IsHelper J.case) helpers.items }
    requires reader { IsReader J.case reader }
    requires ready { text.ready ≡ [] }
    requires count { L.failures lent < 2 ^ 64 - 1 }
    ensures { IsReadOrNot L.gives L.failures L.is_back reader.entry.kept.boards
        reader.entry.kept.given.items text lent result.0 }
{
    let Ok(ends) = Vec::with_capacity(site.alloc, helpers.len()) else {
        return (nothing_read(reader, lent, CrewFault::Memory), false);
    };
    let duty = |helper: Helper<R, G, J>| -> Result<(), AllocError>
        requires { IsHelper J.case helper }
    { help(helper) };
    let own = move |fault: Option<CrewFault>| -> ReadBundle<J, L>
        requires reader { IsReader J.case reader }
        requires ready { text.ready ≡ [] }
        requires count { L.failures lent < 2 ^ 64 - 1 }
        ensures { IsReadOrNot L.gives L.failures L.is_back reader.entry.kept.boards
            reader.entry.kept.given.items text lent result }
    { read_or_not(reader, text, lent, fault) };
    let (read, ends) = work_beside(site.rt, Unpromised, &duty, helpers, own, ends);
    (read, are_well(&ends))
}

/// Whether each of them ended well.
fn are_well(ends: &[Result<(), AllocError>]) -> bool {
    for end in ends {
        if end.is_err() {
            return false;
        }
    }
    true
}

/// The boards of a bundle that was read to its end, where nobody has a proof any more.
fn end_read<'c, R: Wait, J: NamesCase>(
    rt: &R,
    mut kept: Kept<'c, J>,
) -> Result<Boards<'c>, AllocError>
    requires { kept.boards.case ≡ J.case }
    ensures same { IfOk result (λ boards. (boards.case ≡ kept.entry.boards.case)
        × (boards.cut ≡ kept.entry.boards.cut)) }
    ensures marks { IfOk result (λ boards. (bundle : List ℕ)
        → AreMarksBut kept.entry.boards kept.entry.given.items bundle
        → IsJudgedAs bundle boards.case boards.marks) }
{
    kept.collect(rt);
    if kept.is_settled() {
        let Kept { boards, .. } = kept;
        Ok(boards)
    } else {
        Err(AllocError)
    }
}

/// A reader of a case and its helpers, with a pass of the hall for each.
fn open<'a, 'c, R, G, J: NamesCase>(
    site: Site<'a, 'c, R, G>,
    cut: u32,
    mut passes: Vec<Pass>,
) -> Result<(Reader<'a, 'c, R, G, J>, Vec<Helper<'a, 'c, R, G, J>>), AllocError>
    requires site { IsSite J.case site }
    requires cut { cut ≤ 6 }
    requires count { (0 < vec_len passes) × (vec_len passes ≤ 32) }
    requires passes { All (IsNewPass (shared_of site.core.now)) passes.items }
    ensures reader { IfOk result (λ opened. IsReader J.case opened.0) }
    ensures cut { IfOk result (λ opened. opened.0.kept.boards.cut ≡ cut) }
    ensures marks { IfOk result (λ opened. opened.0.kept.boards.marks
        ≡ replicate (size J.case.tree) Open) }
    ensures given { IfOk result (λ opened. (place : ℕ)
        → get_or opened.0.kept.given.items place None ≡ None) }
    ensures helpers { IfOk result (λ opened. All (IsHelper J.case) opened.1.items) }
{
    let count = passes.len();
    let (to_others, not_taken) = bounded(site.alloc, 4 * count)?;
    let Some(pass) = passes.pop() else {
        unreachable!()
    };
    let (helpers, found) = helpers_of(site, passes, &not_taken)?;
    let most = if count == 1 { 0 } else { HANDED * count };
    let kept = nothing_kept(site, cut, 8 * count, most, found)?;
    let reader = Reader {
        site,
        kept,
        pass,
        most,
        to_others,
        not_taken,
    };
    Ok((reader, helpers))
}

/// What a reader keeps before it has read: nothing is found, and nobody has a proof, of which there
/// may be so many, and so many bytes.
fn nothing_kept<'c, R, G, J: NamesCase>(
    site: Site<'_, 'c, R, G>,
    cut: u32,
    places: usize,
    most: usize,
    found: Receiver<FoundProof<'c, J>>,
) -> Result<Kept<'c, J>, AllocError>
    requires cut { cut ≤ 6 }
    ensures boards { IfOk result (λ kept. (kept.boards.case ≡ site.entry.case.now)
        × (kept.boards.cut ≡ cut)
        × (kept.boards.marks ≡ replicate (size site.entry.case.now.tree) Open)) }
    ensures given { IfOk result (λ kept. (place : ℕ)
        → get_or kept.given.items place None ≡ None) }
{
    Ok(Kept {
        boards: Boards::new(site.alloc, site.case, cut)?,
        given: no_proofs(site.alloc, places)?,
        bytes: 0,
        found,
        rooms: Rooms::new(site.alloc, places, most)?,
    })
}

/// A helper for each pass, by their numbers from 1, and what comes from them: there is room for as
/// much as they may have.
fn helpers_of<'a, 'c, R, G, J: NamesCase>(
    site: Site<'a, 'c, R, G>,
    passes: Vec<Pass>,
    proofs: &Receiver<HandedProof<J>>,
) -> Result<(Vec<Helper<'a, 'c, R, G, J>>, Receiver<FoundProof<'c, J>>), AllocError>
    requires site { IsSite J.case site }
    requires few { vec_len passes ≤ 32 }
    requires passes { All (IsNewPass (shared_of site.core.now)) passes.items }
    ensures { IfOk result (λ made. All (IsHelper J.case) made.0.items) }
{
    let (to_reader, found) = bounded(site.alloc, 8 * (passes.len() + 1))?;
    let mut helpers = Vec::with_capacity(site.alloc, passes.len())?;
    let mut worker = 1;
    for pass in passes {
        let proofs = proofs.clone()?;
        let found = to_reader.clone()?;
        helpers.push_reserved(Helper {
            site,
            worker,
            pass,
            proofs,
            found,
        });
        worker += 1;
    }
    Ok((helpers, found))
}

/// So many places without a proof.
fn no_proofs<J: NamesCase>(
    alloc: Global,
    count: usize,
) -> Result<Vec<Option<HandedProof<J>>>, AllocError>
    ensures { IfOk result (λ given. (place : ℕ) → get_or given.items place None ≡ None) }
{
    let mut given = Vec::with_capacity(alloc, count)?;
    for _ in 0..count {
        given.push_reserved(None);
    }
    Ok(given)
}

/// The boards of `case` at the cut of `settings` with the marks of a bundle that is read once,
/// whose iCNF text is the case's: a text that stands behind that, with its source. The calling
/// thread is worker 0, and reads; each other worker has a thread of its own. A section is judged
/// while it is read, or handed to another worker where that is short; all that others have at a
/// time is bounded. The text is read no further where a label line has a fault.
///
/// The gate is called as `conquer` says. All workers that were started are joined before it
/// answers.
pub fn conquer_while_read<'c, R, G, S>(
    rt: &R,
    alloc: Global,
    case: &'c Case,
    settings: Settings,
    gate: &G,
    text: LabelledText,
    source: &mut S,
) -> Result<Boards<'c>, ReadFault>
where
    R: Threads + Wait + Sync,
    G: Gate + Sync,
    S: Stream,
    // The text stands at a label line or its end, and the case is that of the iCNF text before it.
    requires ready { text.ready ≡ [] }
    requires of { (icnf : List ℕ) × IsCaseOf icnf case.now }
    requires bare { case.now.sections ≡ [] }
    // One more failed read can be counted.
    requires count { S.failures source.old < 2 ^ 64 - 1 }
    // The boards have the marks of the bundle that was given: that text, and what is behind it.
    ensures boards { (icnf : List ℕ) → IsCaseOf icnf case.now
        → IsBehindFront icnf text (S.gives source.old)
        → IfOk result (λ boards. IsAllRead boards icnf
        (bundle_behind icnf text (S.gives source.old))) }
    // They are those of that case and cut.
    ensures case { IfOk result (λ boards. (boards.case ≡ case.now) × (boards.cut ≡ settings.cut)) }
    // A fault of a label line is the first one of that bundle.
    ensures refused { (icnf : List ℕ) → IsCaseOf icnf case.now
        → IsBehindFront icnf text (S.gives source.old)
        → IfErr result (λ fault. IsReadRefused icnf
        (bundle_behind icnf text (S.gives source.old)) fault) }
    // The device is at fault exactly where a read failed.
    ensures ok { OnOk result (S.failures source.new ≡ S.failures source.old) }
    ensures err { IfErr result
        (λ fault. IsReadFault (S.failures source.old) (S.failures source.new) fault) }
{
    let workers = settings.workers() as usize;
    let (hall, passes) = Hall::open_for_proofs_elsewhere(alloc, case, settings.cut(), workers)?;
    let site = Site {
        rt,
        alloc,
        case,
        core: hall.core(),
        gate,
    };
    let elsewhere = Elsewhere {
        proofs: 0,
        bytes: 0,
    };
    gate.start(alloc, case, settings.cut(), elsewhere)?;
    let boards = read_named::<Brand, R, G, S>(site, settings.cut(), passes, text, source);
    gate.end();
    boards
}

/// The same between the gate's start and its end, of the case that `J` names, with a pass of the
/// hall for each worker.
fn read_named<'c, J, R, G, S>(
    site: Site<'_, 'c, R, G>,
    cut: u32,
    passes: Vec<Pass>,
    text: LabelledText,
    source: &mut S,
) -> Result<Boards<'c>, ReadFault>
where
    J: NamesCase + Send + Sync,
    R: Threads + Wait + Sync,
    G: Gate + Sync,
    S: Stream,
    requires site { IsSite J.case site }
    requires cut { cut ≤ 6 }
    requires passes { (0 < vec_len passes) × (vec_len passes ≤ 32)
        × All (IsNewPass (shared_of site.core.now)) passes.items }
    requires ready { text.ready ≡ [] }
    requires count { S.failures source.old < 2 ^ 64 - 1 }
    ensures boards { (icnf : List ℕ) → IsCaseOf icnf site.entry.case.now
        → IsBehindFront icnf text (S.gives source.old)
        → IfOk result (λ boards. IsAllRead boards icnf
        (bundle_behind icnf text (S.gives source.old))) }
    ensures case { IfOk result
        (λ boards. (boards.case ≡ site.entry.case.now) × (boards.cut ≡ cut)) }
    ensures refused { (icnf : List ℕ) → IsCaseOf icnf site.entry.case.now
        → IsBehindFront icnf text (S.gives source.old)
        → IfErr result (λ fault. IsReadRefused icnf
        (bundle_behind icnf text (S.gives source.old)) fault) }
    ensures ok { OnOk result (S.failures source.new ≡ S.failures source.old) }
    ensures err { IfErr result
        (λ fault. IsReadFault (S.failures source.old) (S.failures source.new) fault) }
{
    let (reader, helpers) = open::<R, G, J>(site, cut, passes)?;
    read_opened(site, helpers, reader, text, source)
}

/// The same of a hall with its reader and helpers, who have begun nothing yet.
fn read_opened<'e, 'c: 'e, R, G, J, S>(
    site: Site<'e, 'c, R, G>,
    helpers: Vec<Helper<'e, 'c, R, G, J>>,
    reader: Reader<'e, 'c, R, G, J>,
    text: LabelledText,
    source: &mut S,
) -> Result<Boards<'c>, ReadFault>
where
    R: Threads + Wait + Sync,
    G: Gate + Sync,
    J: NamesCase + Send + Sync + 'e,
    S: Stream,
    requires helpers { All (IsHelper J.case) helpers.items }
    requires reader { IsReader J.case reader }
    requires ready { text.ready ≡ [] }
    requires count { S.failures source.old < 2 ^ 64 - 1 }
    ensures same { IfOk result (λ boards. (boards.case ≡ reader.entry.kept.boards.case)
        × (boards.cut ≡ reader.entry.kept.boards.cut)) }
    ensures boards { (icnf : List ℕ)
        → IsReadOn reader.entry.kept.boards reader.entry.kept.given.items icnf
        (bundle_behind icnf text (S.gives source.old)) (S.gives source.old) text
        → IfOk result (λ boards. IsAllRead boards icnf
        (bundle_behind icnf text (S.gives source.old))) }
    ensures refused { (icnf : List ℕ)
        → IsReadOn reader.entry.kept.boards reader.entry.kept.given.items icnf
        (bundle_behind icnf text (S.gives source.old)) (S.gives source.old) text
        → IfErr result (λ fault. IsReadRefused icnf
        (bundle_behind icnf text (S.gives source.old)) fault) }
    ensures ok { OnOk result (S.failures source.new ≡ S.failures source.old) }
    ensures err { IfErr result
        (λ fault. IsReadFault (S.failures source.old) (S.failures source.new) fault) }
{
    let (read, is_well) = read_with(site, helpers, reader, text, Lent { source });
    let ReadBundle { end, kept, lent } = read;
    let Lent { source } = lent;
    take_back(source);
    end?;
    if !is_well {
        return Err(ReadFault::from(AllocError));
    }
    Ok(end_read(site.rt, kept)?)
}
