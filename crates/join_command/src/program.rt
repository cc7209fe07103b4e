//! The program: from its words and its streams to its status.

ghost use Rattle.std.specs.Prelude.{◌≡◌, ◌≢◌, ◌⊎◌, ◌<◌, ◌+◌, ◌^◌, ◌-◌, List, ℕ, map, true, false};
ghost use Rattle.std.specs.Prelude.{IfOk, IfErr, OnOk, OnErr};
ghost use Rattle.std.specs.Io.KnownBytes.{Keeps};
ghost use Rattle.cube_report.specs.Fault.TheVariants.{Memory, Device};
ghost use Rattle.cube_join.specs.Joined.{IsJoined};
ghost use Rattle.cube_command.specs.Program.{IsLineWritten, IsStatus};
ghost use Rattle.join_command.specs.Words.{AreTakenToJoin, join_asked_of};
ghost use Rattle.join_command.specs.Headline.{IsJoinedAsHanded, IsPublishedJoin, IsSoundJoin};
ghost use Rattle.join_command.specs.Headline.{IsSoundJoinAsHanded};
ghost use Rattle.join_command.specs.Program.{AllowsJoinFaults, AreRead, AreTextsAt};
ghost use Rattle.join_command.specs.Program.{IsJoinBegun, IsJoinOn, IsJoinWritten};
ghost use Rattle.join_command.specs.Program.{IsJoinRefused, IsReadingFault, behind_each};
ghost use Rattle.join_command.specs.Program.{join_fault_line};
ghost use Rattle.join_command.specs.Inner.Files.{IsUnjoined, IsUnwritten, lies_handed};
ghost use Rattle.join_command.specs.Inner.Words.{asked_in};

use crate::fault::JoinFault;
use crate::files::{join_files, line_before, read_asked};
use crate::telling::tell_join;
use crate::words::{Request, request_of};
use bundle_files::Store;
use case_core::read_tree;
use cube_command::tell_refused;
use cube_join::{Join, Joined};
use cube_report::{Sink, write_all};
use std::alloc::Global;
use std::convert::AsStr;

/// The program `cubejoin` on these words, which are those after its name: `[--formula CNF]
/// [--unbound] FILE RECORD [RECORD ..]`. FILE is a bundle as `cubeboard` reads it; its sections, if
/// it has any, aren't judged. With `--formula CNF` the clauses come from that file, a DIMACS text,
/// and FILE adds cubes, and no clause: the bundle is the one that `cubeboard` makes of the two.
/// Each RECORD is one that `cubeboard --record` wrote, with some proofs: it has to name the
/// bundle's iCNF text by its SHA-256. With `--unbound` each is a report instead, which names none.
/// The joined report goes to `output` or, where there is none, one line to `errors`. Both writers
/// have to write at once, without a buffer of their own. RECORDs are read one at a time, in order;
/// files are found by `store`, and none is written.
///
/// Answers the status: 0 for a report that says refuted, 1 for one that says open, 2 where the
/// words can't be taken or ask for help or the version, after the parser's text on `errors`, 3
/// where CNF or FILE is refused or a RECORD isn't one of their formula and cubes, 4 where memory is
/// refused, 5 where a device failed: also where CNF, FILE or a RECORD isn't there. A failed write
/// to `errors` doesn't change it.
pub fn join_command<R, D, S, O, E>(
    rt: &R,
    store: &mut D,
    words: &[S],
    output: &mut O,
    errors: &mut E,
) -> u8
where
    R: AllocGlobal,
    D: Store,
    S: AsStr,
    O: Sink,
    E: Sink,
    requires store { D.failures store.old < 2 ^ 64 - 1 }
    requires output { O.failures output.old < 2 ^ 64 - 1 }
    requires errors { E.failures errors.old < 2 ^ 64 - 1 }

    // All that is written, also where the call doesn't return. To `output`: the joined report.
    requires reports { (bundle : List ℕ) (texts : List (List ℕ)) (text : List ℕ)
        → AreRead (D.held store.old) (join_asked_of (map S.text words.now)) bundle texts
        → IsJoinOn (join_asked_of (map S.text words.now)).unbound bundle texts text
        → O.allows output.old text }
    // To `errors`: the line of a fault, which the files have where it is one of what was read; or
    // the parser's text, which no contract knows, where the words can't be taken.
    requires faults { AllowsJoinFaults (E.allows errors.old) (D.held store.old)
        (join_asked_of (map S.text words.now)) }
    requires words { ¬ AreTakenToJoin (map S.text words.now)
        → (text : List ℕ) → E.allows errors.old text }

    // Status 0: where the RECORDs that were read are what is taken for granted, that `cubeboard`
    // wrote them and that no digest collides, or with `--unbound` that they are reports on the
    // bundle's formula and cubes, the formula of the bundle that was read has no model.
    ensures sound { IsSoundJoin result (D.held store.old) (join_asked_of (map S.text words.now)) }
    // So it is of what readings handed over, one of each file, whether or not it is known what lies
    // there: a RECORD's digest and its report are those of one text.
    ensures handed { IsSoundJoinAsHanded result D.hands (join_asked_of (map S.text words.now)) }
    // With `--formula` the text of that file is a DIMACS text of a formula that by the same premise
    // has no model.
    ensures published { IsPublishedJoin result (D.held store.old)
        (join_asked_of (map S.text words.now)) }

    ensures status { IsStatus result }
    // 0: exactly the joined report was written, and it says refuted. 1: it says open.
    ensures refuted { result ≡ 0 → IsJoinWritten (D.held store.old)
        (join_asked_of (map S.text words.now)) (O.contents output.old)
        (O.contents output.new) true }
    ensures open { result ≡ 1 → IsJoinWritten (D.held store.old)
        (join_asked_of (map S.text words.now)) (O.contents output.old)
        (O.contents output.new) false }
    // Then nothing is written to `errors`.
    ensures quiet { result < 2 → errors.new ≡ errors.old }

    // No file changes.
    ensures held { D.held store.new ≡ D.held store.old }

    // With every other status but 5 nothing is written to `output`; with 5 nothing is, or a
    // beginning of the joined report where a write failed.
    ensures nothing { 1 < result → result < 5 → Keeps (O.contents output.old)
        (O.contents output.new) }
    ensures beginning { result ≡ 5 → Keeps (O.contents output.old) (O.contents output.new)
        ⊎ ((O.failures output.old < O.failures output.new)
        × IsJoinBegun (D.held store.old) (join_asked_of (map S.text words.now))
        (O.contents output.old) (O.contents output.new)) }

    // Status 2: the words can't be taken. They are refused exactly then, unless memory is refused,
    // and nothing is read.
    ensures usage { AreTakenToJoin (map S.text words.now) → result ≢ 2 }
    ensures unread { result ≡ 2 → store.new ≡ store.old }
    ensures taken { result ≢ 2 → result ≢ 4 → AreTakenToJoin (map S.text words.now) }
    // Status 3: the bundle has a fault, and its first one is told; with `--formula` that file has
    // one, or FILE has clauses; or there is none, and the first RECORD is told that doesn't name
    // the bundle's iCNF text, or has no report on its cubes.
    ensures fault { result ≡ 3 → (fault : JoinFault) × IsReadingFault fault
        × IsJoinRefused (D.held store.old) (join_asked_of (map S.text words.now)) fault
        × IsLineWritten (E.contents errors.old) (E.contents errors.new) (E.failures errors.old)
        (E.failures errors.new) (join_fault_line fault) }
    // Status 4: want of memory is told.
    ensures memory { result ≡ 4 →
        IsLineWritten (E.contents errors.old) (E.contents errors.new) (E.failures errors.old)
        (E.failures errors.new) (join_fault_line (JoinFault.Run Memory)) }
    // Status 5: a device failed, and this is told. It stands where a call failed that reads or
    // writes the report, and only there. A file that is asked for and isn't there fails its call.
    ensures device { result ≡ 5 →
        IsLineWritten (E.contents errors.old) (E.contents errors.new) (E.failures errors.old)
        (E.failures errors.new) (join_fault_line (JoinFault.Run Device)) }
    ensures failed { D.failures store.old + O.failures output.old
        < D.failures store.new + O.failures output.new → result ≡ 5 }
    ensures broken { result ≡ 5 → D.failures store.old + O.failures output.old
        < D.failures store.new + O.failures output.new }
{
    match request_of(rt.alloc(), words) {
        Ok(request) => {
            let run = run_request(rt.alloc(), store, &request, output);
            tell_join(rt.alloc(), errors, run)
        }
        Err(error) => tell_refused(rt.alloc(), errors, &error, b"cubejoin: F6 memory\n"),
    }
}

/// What the request asks for: whether the report that was written says refuted, or why there is
/// none.
fn run_request<D: Store, O: Sink>(
    alloc: Global,
    store: &mut D,
    request: &Request<'_>,
    output: &mut O,
) -> Result<bool, JoinFault>
    requires store { D.failures store.old < 2 ^ 64 - 1 }
    requires output { O.failures output.old < 2 ^ 64 - 1 }
    requires reports { (bundle : List ℕ) (texts : List (List ℕ)) (text : List ℕ)
        → AreRead (D.held store.old) (asked_in request.now) bundle texts
        → IsJoinOn request.now.unbound bundle texts text → O.allows output.old text }
    ensures held { D.held store.new ≡ D.held store.old }
    ensures written { IfOk result (IsJoinWritten (D.held store.old) (asked_in request.now)
        (O.contents output.old) (O.contents output.new)) }
    ensures handed { IfOk result (λ refuted. refuted ≡ true
        → IsJoinedAsHanded D.hands (asked_in request.now)) }
    ensures ok { OnOk result ((D.failures store.new ≡ D.failures store.old)
        × (O.failures output.new ≡ O.failures output.old)) }
    ensures nothing { IfErr result (λ fault. fault ≢ JoinFault.Run Device
        → Keeps (O.contents output.old) (O.contents output.new)) }
    ensures beginning { OnErr result (Keeps (O.contents output.old) (O.contents output.new)
        ⊎ ((O.failures output.old < O.failures output.new)
        × IsJoinBegun (D.held store.old) (asked_in request.now) (O.contents output.old)
        (O.contents output.new))) }
    ensures err { IfErr result (IsUnwritten (D.held store.old) (asked_in request.now)
        (D.failures store.old + O.failures output.old)
        (D.failures store.new + O.failures output.new)) }
{
    let bundle = read_asked(alloc, store, request.formula, request.file)?;
    let line = line_before(alloc, request.unbound, &bundle)?;
    let joined = join_all(alloc, store, bundle, &line, &request.records)?;
    write_all(output, &joined.text)?;
    Ok(joined.refuted)
}

/// The report by all RECORDs on the cubes of a bundle, each of which has to begin with this line.
fn join_all<D: Store>(
    alloc: Global,
    store: &mut D,
    bundle: Vec<u8>,
    line: &[u8],
    paths: &[&str],
) -> Result<Joined, JoinFault>
    requires store { D.failures store.old < 2 ^ 64 - 1 }
    ensures held { D.held store.new ≡ D.held store.old }
    ensures joined { IfOk result (λ joined. (reports : List (List ℕ))
        × AreTextsAt (lies_handed (D.held store.old) D.hands) (map (λ path. path.now) paths.now)
        (behind_each line.now reports)
        × IsJoined bundle.items reports joined.text.items joined.refuted) }
    ensures ok { OnOk result (D.failures store.new ≡ D.failures store.old) }
    ensures err { IfErr result (IsUnjoined (D.held store.old) bundle.items line.now
        (map (λ path. path.now) paths.now) (D.failures store.old) (D.failures store.new)) }
{
    let tree = read_tree(alloc, &bundle)?;
    let mut join = Join::new(alloc, &tree)?;
    join_files(alloc, store, &mut join, line, paths)?;
    Ok(join.report(alloc)?)
}
