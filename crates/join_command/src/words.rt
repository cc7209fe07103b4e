//! The words of the program: what they ask for, and the help.

ghost use Rattle.std.specs.Prelude.{◌≡◌, false, map, option_map, codes, IfOk, IfErr};
ghost use Rattle.clap.specs.Words.{app_of, found_of, kind_of, new_app, rule_of};
ghost use Rattle.cube_command.specs.Words.{flag_word, path_word, with_version};
ghost use Rattle.join_command.specs.Words.{AreTakenToJoin, join_asked_of, needed_file_word};
ghost use Rattle.join_command.specs.Words.{records_word};
ghost use Rattle.join_command.specs.Words.{join_words};
ghost use Rattle.join_command.specs.Inner.Words.{asked_in, records_found};

use clap::builder::ValueParser;
use clap::error::ErrorKind;
use clap::{Arg, ArgAction, ArgMatches, Command, Error};
use cube_command::is_given;
use std::alloc::{AllocError, Global};
use std::convert::AsStr;

/// What the words ask for.
#[derive(Drop)]
pub(crate) struct Request<'a> {
    /// The file with the formula, where it has one of its own.
    pub formula: Option<&'a str>,
    /// The file with the bundle, or with the cubes below that formula.
    pub file: &'a str,
    /// The files with the records, in order.
    pub records: Vec<&'a str>,
    /// Whether these are plain reports, which name no formula.
    pub unbound: bool,
}

/// The version, and what `rt version` of the kit that proved it ends in: kits of one logic may have
/// several names.
const VERSION: &str = "0.1.0 (proved by a Rattle kit with logic dac8208d650f15bf)";

/// What `--help` says below the words.
const FORMATS: &str = "\
FILE is a bundle as cubeboard takes it: a formula and cubes in iCNF. With --formula
the clauses come from CNF, a DIMACS file, and FILE has the cubes. Each RECORD is one
that cubeboard --record wrote on this formula and these cubes, with some of the
proofs. With --unbound each is a report, which doesn't say of which formula it is.

The report that is written has what they say together: a node is refuted where some
RECORD says so, else rejected as the first RECORD says that rejects it, else open.

Status: 0 REFUTED, 1 OPEN, 2 words or help, 3 CNF or FILE refused, or RECORD number R
isn't one of this formula and these cubes (F15 report R), 4 memory, 5 device.
Example: cubejoin case.icnf *.record > joined";

/// What these words, without the program's name, ask for; or the parser's text, which is the help
/// or the version where that is asked for.
pub(crate) fn request_of<'a, S: AsStr>(alloc: Global, words: &'a [S]) -> Result<Request<'a>, Error>
    // The request is what the words say.
    ensures asked { IfOk result
        (λ request. asked_in request ≡ join_asked_of (map S.text words.now)) }
    // Only words that are taken make a request, and they are refused only for want of memory.
    ensures taken { IfOk result (λ _. AreTakenToJoin (map S.text words.now)) }
    ensures refused { IfErr result
        (λ error. AreTakenToJoin (map S.text words.now) → kind_of error ≡ ErrorKind.OutOfMemory) }
{
    let matches = parser(alloc)?.try_get_matches_from(words)?;
    Ok(Request {
        formula: matches.get_str("formula"),
        file: matches.get_str("file").unwrap_or(""),
        records: records_in(alloc, &matches)?,
        unbound: is_given(matches.get_str("unbound")),
    })
}

/// The RECORDs that were matched.
fn records_in<'a>(alloc: Global, matches: &ArgMatches<'a>) -> Result<Vec<&'a str>, AllocError>
    ensures { IfOk result (λ records. map (λ path. path.now) records.items
        ≡ records_found (found_of matches.now)) }
{
    let mut records = Vec::new(alloc);
    if let Some(paths) = matches.get_strs("records") {
        records.extend_from_slice(paths)?;
    }
    Ok(records)
}

/// The parser of the program's words.
fn parser<'a>(alloc: Global) -> Result<Command<'a>, AllocError>
    ensures { IfOk result (λ parser. app_of parser ≡ join_words) }
{
    texts(alloc)
        .arg(formula_word(alloc))?
        .arg(unbound_word(alloc))?
        .arg(file_word(alloc))?
        .arg(records_word(alloc))
}

/// A parser that takes no words yet, with the texts of the help.
fn texts<'a>(alloc: Global) -> Command<'a>
    ensures { app_of result ≡ with_version (new_app (codes "cubejoin")) }
{
    Command::new(alloc, "cubejoin")
        .no_binary_name(true)
        .version(VERSION)
        .about("Joins records of runs on one formula and its cubes, and prints their report.")
        .after_help(FORMATS)
}

/// The formula's own file.
fn formula_word<'a>(alloc: Global) -> Arg<'a>
    ensures rule { rule_of result ≡ path_word (codes "formula") }
    ensures own { result.global ≡ false }
{
    Arg::new(alloc, "formula")
        .long("formula")
        .value_name("CNF")
        .value_parser(ValueParser::NonEmptyString)
        .help("Take the clauses from this DIMACS file; FILE has the cubes")
}

/// Whether the records are plain reports.
fn unbound_word<'a>(alloc: Global) -> Arg<'a>
    ensures rule { rule_of result ≡ flag_word (codes "unbound") }
    ensures own { result.global ≡ false }
{
    Arg::new(alloc, "unbound")
        .long("unbound")
        .action(ArgAction::SetTrue)
        .help("Take reports, which don't say of which formula they are")
}

/// The bundle's file.
fn file_word<'a>(alloc: Global) -> Arg<'a>
    ensures rule { rule_of result ≡ needed_file_word }
    ensures own { result.global ≡ false }
{
    Arg::new(alloc, "file")
        .value_name("FILE")
        .required(true)
        .help("The file with the formula and the cubes")
}

/// The files with the records.
fn records_word<'a>(alloc: Global) -> Arg<'a>
    ensures rule { rule_of result ≡ records_word }
    ensures own { result.global ≡ false }
{
    Arg::new(alloc, "records")
        .value_name("RECORD")
        .required(true)
        .num_args(1..)
        .action(ArgAction::Append)
        .help("The files with the records")
}
