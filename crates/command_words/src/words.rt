//! The words of the program: what they ask for, and the help.

ghost use Rattle.std.specs.Prelude.{◌≡◌, ◌≢◌, ◌<◌, ◌≤◌, ◌++◌, ℕ, Bool, List, None, Some, false};
ghost use Rattle.std.specs.Prelude.{map};
ghost use Rattle.std.specs.Prelude.{codes, option_map, IfOk, IfErr, IfSome, IsTrue, ◌↔◌};
ghost use Rattle.std.specs.Prelude.{MatchOption};
ghost use Rattle.clap.specs.Words.{app_of, found_of, kind_of, new_app, one_text, rule_of};
ghost use Rattle.proof_folder.specs.Added.{proof_path};
ghost use Rattle.command_words.specs.Words.{AreSpared, AreTaken, HaveTwoPaths, asked_of, cut_word};
ghost use Rattle.command_words.specs.Words.{file_word, flag_word, is_given, IsNoProof, path_word};
ghost use Rattle.command_words.specs.Words.{CanBeDone, GoesWith, SparesRead};
ghost use Rattle.command_words.specs.Words.{with_version, words_taken, workers_word};
ghost use Rattle.command_words.specs.Request.{asked_in, flag_text, HasDigits, SaysFlag, SaysNumber};
ghost use Rattle.command_words.specs.Inner.Words.{asked_found, with_flags, with_inputs, with_lists};
ghost use Rattle.command_words.specs.Inner.Words.{with_numbers, with_outputs, with_results};

use clap::builder::ValueParser;
use clap::error::ErrorKind;
use clap::{Arg, ArgAction, ArgMatches, Command, Error, value_parser};
use run_terms::Settings;
use std::alloc::{AllocError, Global};
use std::convert::AsStr;

/// What the words ask for.
#[derive(Clone, Copy)]
pub struct Request<'a> {
    /// How many workers check the proofs, and where the tree is cut.
    pub settings: Settings,
    /// The file with the formula, where it has one of its own.
    pub formula: Option<&'a str>,
    /// The one proof of the whole formula, `-` for that on the program's input, where it is given.
    pub proof: Option<&'a str>,
    /// The folder with the proofs of leaves, where one is given.
    pub proofs: Option<&'a str>,
    /// The file with the bundle, or `None` for the program's input.
    pub file: Option<&'a str>,
    /// Whether it is told how far the run is.
    pub progress: bool,
    /// Whether it is told what was read, and where faults and rejections come from.
    pub explain: bool,
    /// Whether the names of the leaves are written that aren't refuted, in the report's place.
    pub list_open: bool,
    /// The file for the picture of the tree, where one is asked for.
    pub map: Option<&'a str>,
    /// The file for the record, where one is asked for; not the picture's.
    pub out: Option<&'a str>,
    /// The file for the log, where one is asked for; another one.
    pub log: Option<&'a str>,
}

/// The version, and what `rt version` of the kit that proved it ends in: kits of one logic may have
/// several names.
const VERSION: &str = "0.1.0 (proved by a Rattle kit with logic dac8208d650f15bf)";

/// What `--help` says below the words.
const FORMATS: &str = "\
FILE is a bundle: p inccnf, clauses and cubes (iCNF), then proofs below label lines.
  1 -2 0        a clause; clause number i has the id i
  a 1 0         a cube; all must be leaves of one tree, in the order of its splits
  l 1           the text LRAT proof below is for cube 1. It starts from the m clauses
  6 0 5 3 4 0   and the k literals of the cube, unit clauses with the ids m+1 to m+k
  l m1          the same for the first branch that no cube covers
  l n 1 -2 0    the same for the inner node with this path

The report, which is the same for every N and D:
  t   the number of cubes, of branches that no cube covers, the weight of the tree
  a   a cube; m  a branch that no cube covers; n  an inner node with a proof:
      refuted, open (no proof), or rejected with the step and the reason
  o   a branch that is wholly open; w  the open weight, 0 if nothing is open
  s   REFUTED: the formula has no model; OPEN: that is not shown

Exit status: 0 REFUTED, 1 OPEN, 2 arguments or help, 3 input refused, 4 memory or
threads, 5 a read or write failed. --explain tells why a proof or input is refused.
Example: printf 'p inccnf\\n1 0\\n-1 0\\na 0\\nl 1\\n3 0 1 2 0\\n' | cubeboard";

/// What these words, without the program's name, ask for; or the parser's text, which is the help
/// or the version where that is asked for.
pub fn request_of<'a, S: AsStr>(alloc: Global, words: &'a [S]) -> Result<Request<'a>, Error>
    // The request is what the words say.
    ensures asked { IfOk result
        (λ request. asked_in request ≡ asked_of (map S.text words.now)) }
    ensures settings { IfOk result (λ request. (workers cut : ℕ)
        → SaysNumber (codes "workers") (map S.text words.now) workers → 0 < workers → workers ≤ 32
        → SaysNumber (codes "cut") (map S.text words.now) cut → cut ≤ 6
        → (request.settings.workers ≡ workers) × (request.settings.cut ≡ cut)) }
    ensures progress { IfOk result (λ request. (asked : Bool)
        → SaysFlag (codes "progress") (map S.text words.now) asked → request.progress ≡ asked) }
    ensures explain { IfOk result (λ request. (asked : Bool)
        → SaysFlag (codes "explain") (map S.text words.now) asked → request.explain ≡ asked) }
    // Only words that are taken make a request, and they are refused only for want of memory.
    ensures taken { IfOk result (λ _. AreTaken (map S.text words.now)) }
    ensures refused { IfErr result
        (λ error. AreTaken (map S.text words.now) → kind_of error ≡ ErrorKind.OutOfMemory) }
{
    let matches = parser(alloc)?.try_get_matches_from(words)?;
    let request = request_in(&matches);
    match refusal_of(&request) {
        Some(text) => Err(conflict(alloc, text)?),
        None => Ok(request),
    }
}

/// The request that was matched.
fn request_in<'a>(matches: &ArgMatches<'a>) -> Request<'a>
    ensures asked { asked_in result ≡ asked_found (found_of matches.now) }
    ensures settings { (workers cut : ℕ)
        → HasDigits (one_text (found_of matches.now) (codes "workers")) workers → 0 < workers
        → workers ≤ 32
        → HasDigits (one_text (found_of matches.now) (codes "cut")) cut → cut ≤ 6
        → (result.settings.workers ≡ workers) × (result.settings.cut ≡ cut) }
    ensures progress { (asked : Bool)
        → one_text (found_of matches.now) (codes "progress") ≡ Some (flag_text asked)
        → result.progress ≡ asked }
    ensures explain { (asked : Bool)
        → one_text (found_of matches.now) (codes "explain") ≡ Some (flag_text asked)
        → result.explain ≡ asked }
{
    Request {
        settings: settings_in(matches),
        formula: matches.get_str("formula"),
        proof: matches.get_str("proof"),
        proofs: matches.get_str("proofs"),
        file: matches.get_str("file"),
        progress: matches.get_flag("progress"),
        explain: matches.get_flag("explain"),
        list_open: is_given(matches.get_str("list-open")),
        map: matches.get_str("map"),
        out: matches.get_str("record"),
        log: matches.get_str("log"),
    }
}

/// Whether a flag is given, by the text that the parser matched for it: `true` where it is, and
/// another or none where it isn't.
pub fn is_given(text: Option<&str>) -> bool
    ensures { result ≡ is_given (option_map (λ text. text.now) text.entry) }
{
    match text {
        Some(text) => text == "true",
        None => false,
    }
}

/// Why the request can't be done, if it can't.
fn refusal_of(request: &Request<'_>) -> Option<&'static str>
    ensures none { result ≡ None → CanBeDone (asked_in request.now) }
    ensures some { IfSome result (λ _. ¬ CanBeDone (asked_in request.now)) }
{
    if !fits_proof(request.proof, request.formula, request.file, request.proofs) {
        return Some("'--proof' needs '--formula', and can't be used with FILE or '--proofs'");
    }
    clash_in(request)
}

/// Whether one proof of the whole formula, where it is asked for, has that formula's own file
/// beside it, and neither a file with cubes nor a folder of proofs.
fn fits_proof(
    proof: Option<&str>,
    formula: Option<&str>,
    file: Option<&str>,
    folder: Option<&str>,
) -> bool
    ensures { IsTrue result ↔ GoesWith (option_map (λ path. path.now) proof.entry)
        (option_map (λ path. path.now) formula.entry)
        (option_map (λ path. path.now) file.entry)
        (option_map (λ path. path.now) folder.entry) }
{
    match (proof, formula, file, folder) {
        (None, _, _, _) => true,
        (Some(_), None, _, _) => false,
        (Some(_), Some(_), Some(_), _) => false,
        (Some(_), Some(_), None, Some(_)) => false,
        (Some(_), Some(_), None, None) => true,
    }
}

/// Why the picture, the record and the log can't be written where the request says, if they can't.
fn clash_in(request: &Request<'_>) -> Option<&'static str>
    ensures none { result ≡ None → AreSpared (asked_in request.now) }
    ensures some { IfSome result (λ _. ¬ AreSpared (asked_in request.now)) }
{
    if !are_apart(request.map, request.out) {
        return Some("'--map' and '--record' can't name the same file");
    }
    if !spares_read(request.map, request) {
        return Some("'--map' can't name a file that is read");
    }
    if !spares_read(request.out, request) {
        return Some("'--record' can't name a file that is read");
    }
    if !are_apart(request.log, request.map) {
        return Some("'--log' and '--map' can't name the same file");
    }
    if !are_apart(request.log, request.out) {
        return Some("'--log' and '--record' can't name the same file");
    }
    if !spares_read(request.log, request) {
        return Some("'--log' can't name a file that is read");
    }
    None
}

/// Whether the file that is written, where one is asked for, is none of those that are read.
fn spares_read(written: Option<&str>, request: &Request<'_>) -> bool
    ensures { IsTrue result ↔ SparesRead (option_map (λ path. path.now) written.entry)
        (asked_in request.now) }
{
    if !are_apart(written, request.formula) {
        return false;
    }
    if !are_apart(written, request.file) {
        return false;
    }
    if !are_apart(written, request.proof) {
        return false;
    }
    is_no_proof(request.proofs, written)
}

/// Whether two files, where both are asked for, have two paths.
#[tactic(auto, using(crate::proofs::WordsPaths::apart_where))]
fn are_apart(one: Option<&str>, other: Option<&str>) -> bool
    ensures { IsTrue result ↔ HaveTwoPaths (option_map (λ path. path.now) one.entry)
        (option_map (λ path. path.now) other.entry) }
{
    match (one, other) {
        (Some(one), Some(other)) => one != other,
        _ => true,
    }
}

/// Whether the file that is written, where one is asked for, isn't that of a proof in the folder,
/// whichever its name is.
#[tactic(auto, using(crate::proofs::WordsPaths::no_proof_where))]
fn is_no_proof(folder: Option<&str>, written: Option<&str>) -> bool
    ensures { IsTrue result ↔ IsNoProof (option_map (λ path. path.now) folder.entry)
        (option_map (λ path. path.now) written.entry) }
{
    match (folder, written) {
        (Some(folder), Some(written)) => {
            name_in(folder.as_bytes(), written.as_bytes()).is_none()
        }
        _ => true,
    }
}

/// The name that a proof at this path of a folder would have, without its ending.
#[tactic(auto, using(crate::proofs::WordsPaths::outside))]
fn name_in<'t>(folder: &[u8], path: &'t [u8]) -> Option<&'t [u8]>
    ensures { MatchOption result ((name : List ℕ) → path.now ≢ proof_path folder.now name)
        (λ name. path.now ≡ proof_path folder.now name.now) }
{
    let inside = behind(path, folder)?;
    let name = behind(inside, b"/")?;
    before(name, b".lrat")
}

/// What stands in a text behind this beginning, where it has it.
fn behind<'t>(text: &'t [u8], front: &[u8]) -> Option<&'t [u8]>
    ensures { MatchOption result ((rest : List ℕ) → text.now ≢ front.now ++ rest)
        (λ rest. text.now ≡ front.now ++ rest.now) }
{
    text.strip_prefix(front)
}

/// What stands in a text before this ending, where it has it.
fn before<'t>(text: &'t [u8], end: &[u8]) -> Option<&'t [u8]>
    ensures { MatchOption result ((rest : List ℕ) → text.now ≢ rest ++ end.now)
        (λ rest. text.now ≡ rest.now ++ end.now) }
{
    text.strip_suffix(end)
}

/// The error of words that ask for files which can't be written there.
fn conflict(alloc: Global, text: &str) -> Result<Error, AllocError>
    ensures { IfOk result (λ error. kind_of error ≡ ErrorKind.ArgumentConflict) }
{
    parser(alloc)?.error(ErrorKind::ArgumentConflict, text)
}

/// How the run is set up, by the numbers that were matched.
fn settings_in(matches: &ArgMatches<'_>) -> Settings
    ensures workers { (workers cut : ℕ)
        → HasDigits (one_text (found_of matches.now) (codes "workers")) workers → 0 < workers
        → workers ≤ 32
        → HasDigits (one_text (found_of matches.now) (codes "cut")) cut → cut ≤ 6
        → result.workers ≡ workers }
    ensures cut { (workers cut : ℕ)
        → HasDigits (one_text (found_of matches.now) (codes "workers")) workers → 0 < workers
        → workers ≤ 32
        → HasDigits (one_text (found_of matches.now) (codes "cut")) cut → cut ≤ 6
        → result.cut ≡ cut }
{
    let workers = matches.get_one::<u32>("workers");
    let cut = matches.get_one::<u32>("cut");
    match Settings::new(workers.unwrap_or(4), cut.unwrap_or(3)) {
        Some(settings) => settings,
        None => default_settings(),
    }
}

/// Four workers at cut 3.
fn default_settings() -> Settings {
    match Settings::new(4, 3) {
        Some(settings) => settings,
        None => unreachable!(),
    }
}

/// The parser of the program's words.
fn parser<'a>(alloc: Global) -> Result<Command<'a>, AllocError>
    ensures { IfOk result (λ parser. app_of parser ≡ words_taken) }
{
    outputs(alloc)?.arg(file_word(alloc))
}

/// A parser that also takes the file for the log.
fn outputs<'a>(alloc: Global) -> Result<Command<'a>, AllocError>
    ensures { IfOk result (λ parser. app_of parser ≡ with_outputs) }
{
    results(alloc)?.arg(path_word(
        alloc,
        "log",
        "LOG",
        "Write the report's line of each proof to this file as it is judged, replacing it",
    ))
}

/// A parser that also takes the files for the picture and the record.
fn results<'a>(alloc: Global) -> Result<Command<'a>, AllocError>
    ensures { IfOk result (λ parser. app_of parser ≡ with_results) }
{
    lists(alloc)?
        .arg(path_word(
            alloc,
            "map",
            "SVG",
            "Write a picture of the tree (SVG) to this file, replacing it",
        ))?
        .arg(path_word(
            alloc,
            "record",
            "OUT",
            "Write a record, the report with the SHA-256 of formula and cubes, replacing it",
        ))
}

/// A parser that also takes what is written in the report's place.
fn lists<'a>(alloc: Global) -> Result<Command<'a>, AllocError>
    ensures { IfOk result (λ parser. app_of parser ≡ with_lists) }
{
    flags(alloc)?.arg(flag_word(
        alloc,
        "list-open",
        "Print the leaves that aren't refuted, K or mJ, one a line, instead of the report",
    ))
}

/// A parser that also takes what is told beside the report.
fn flags<'a>(alloc: Global) -> Result<Command<'a>, AllocError>
    ensures { IfOk result (λ parser. app_of parser ≡ with_flags) }
{
    inputs(alloc)?
        .arg(flag_word(
            alloc,
            "progress",
            "Print progress to standard error, once a second",
        ))?
        .arg(flag_word(
            alloc,
            "explain",
            "Print what was read, and why a proof or the input is refused, to standard error",
        ))
}

/// A parser that also takes the formula's file, one proof and the folder of proofs.
fn inputs<'a>(alloc: Global) -> Result<Command<'a>, AllocError>
    ensures { IfOk result (λ parser. app_of parser ≡ with_inputs) }
{
    numbers(alloc)?
        .arg(path_word(
            alloc,
            "formula",
            "CNF",
            "Take the clauses from this DIMACS file; FILE has the cubes",
        ))?
        .arg(path_word(
            alloc,
            "proof",
            "LRAT",
            "Check this one proof of the whole formula, text or binary; - is standard input",
        ))?
        .arg(path_word(
            alloc,
            "proofs",
            "DIR",
            "Add the proofs DIR/K.lrat and DIR/mJ.lrat, text or binary, as if below these of FILE",
        ))
}

/// A parser that takes the numbers of workers and of the cut.
fn numbers<'a>(alloc: Global) -> Result<Command<'a>, AllocError>
    ensures { IfOk result (λ parser. app_of parser ≡ with_numbers) }
{
    texts(alloc).arg(workers_word(alloc))?.arg(cut_word(alloc))
}

/// A parser that takes no words yet, with the texts of the help.
fn texts<'a>(alloc: Global) -> Command<'a>
    ensures { app_of result ≡ with_version (new_app (codes "cubeboard")) }
{
    Command::new(alloc, "cubeboard")
        .no_binary_name(true)
        .version(VERSION)
        .about("Checks a refutation made by cube-and-conquer, and prints a report.")
        .after_help(FORMATS)
}

/// The number of workers.
fn workers_word<'a>(alloc: Global) -> Arg<'a>
    ensures rule { rule_of result ≡ workers_word }
    ensures own { result.global ≡ false }
{
    Arg::new(alloc, "workers")
        .long("workers")
        .value_name("N")
        .value_parser(value_parser!(u32).range(1..=32))
        .default_value("4")
        .help("Number of threads that check proofs, 1 to 32")
}

/// The depth at which the tree is cut.
fn cut_word<'a>(alloc: Global) -> Arg<'a>
    ensures rule { rule_of result ≡ cut_word }
    ensures own { result.global ≡ false }
{
    Arg::new(alloc, "cut")
        .long("cut")
        .value_name("D")
        .value_parser(value_parser!(u32).range(0..=6))
        .default_value("3")
        .help("Depth at which the tree is cut into parts that threads mark apart, 0 to 6")
}

/// A word with a path, which isn't empty.
fn path_word<'a>(alloc: Global, name: &'a str, value: &'a str, help: &'a str) -> Arg<'a>
    ensures rule { rule_of result ≡ path_word name.entry.now }
    ensures own { result.global ≡ false }
{
    Arg::new(alloc, name)
        .long(name)
        .value_name(value)
        .value_parser(ValueParser::NonEmptyString)
        .help(help)
}

/// A word without a value.
fn flag_word<'a>(alloc: Global, name: &'a str, help: &'a str) -> Arg<'a>
    ensures rule { rule_of result ≡ flag_word name.entry.now }
    ensures own { result.global ≡ false }
{
    Arg::new(alloc, name)
        .long(name)
        .action(ArgAction::SetTrue)
        .help(help)
}

/// The bundle's file.
fn file_word<'a>(alloc: Global) -> Arg<'a>
    ensures rule { rule_of result ≡ file_word }
    ensures own { result.global ≡ false }
{
    Arg::new(alloc, "file")
        .value_name("FILE")
        .help("The bundle [default: standard input]")
}
