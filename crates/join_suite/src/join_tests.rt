//! The program `cubejoin` on words and files: each expected report is written by hand from the
//! formats.

use devices::{File, Shelf};
use join_command::{Counted, FileStore, join_command};
use std::process::Abort;
use std::test::Fail;

/// The four clauses, and the cubes `1 2` and `-1 2`: the branches `1 -2` and `-1 -2` are missing.
const MIXED: &[u8] = b"p inccnf\n1 2 0\n1 -2 0\n-1 2 0\n-1 -2 0\na 1 2 0\na -1 2 0\n";

/// The report on `MIXED` with the proofs of its cubes.
const CUBES: &[u8] = b"t 2 2 1152921504606846976\na 1 refuted\na 2 refuted\n\
m 1 1 -2 0 open\nm 2 -1 -2 0 open\no 1 -2 0\no -1 -2 0\nw 576460752303423488\ns OPEN\n";

/// The report on `MIXED` with the proofs of its missing leaves.
const MISSING: &[u8] = b"t 2 2 1152921504606846976\na 1 open\na 2 open\n\
m 1 1 -2 0 refuted\nm 2 -1 -2 0 refuted\no 1 2 0\no -1 2 0\nw 576460752303423488\ns OPEN\n";

/// The report on `MIXED` with all proofs.
const ALL: &[u8] = b"t 2 2 1152921504606846976\na 1 refuted\na 2 refuted\n\
m 1 1 -2 0 refuted\nm 2 -1 -2 0 refuted\nw 0\ns REFUTED\n";

/// The report on `MIXED` alone.
const BARE: &[u8] = b"t 2 2 1152921504606846976\na 1 open\na 2 open\n\
m 1 1 -2 0 open\nm 2 -1 -2 0 open\no 0\nw 1152921504606846976\ns OPEN\n";

/// A report in which the first cube's proof is rejected.
const HINT: &[u8] = b"t 2 2 1152921504606846976\na 1 rejected 1 hint\na 2 open\n\
m 1 1 -2 0 open\nm 2 -1 -2 0 open\no 0\nw 1152921504606846976\ns OPEN\n";

/// Another, in which it is rejected at its last step, whose number is the greatest.
const GREATEST: &[u8] = b"t 2 2 1152921504606846976\na 1 rejected 18446744073709551615 end\n\
a 2 open\nm 1 1 -2 0 open\nm 2 -1 -2 0 open\no 0\nw 1152921504606846976\ns OPEN\n";

/// The report on `MIXED` with the proofs of its missing leaves, and the rejected one.
const HINT_AND_MISSING: &[u8] = b"t 2 2 1152921504606846976\na 1 rejected 1 hint\na 2 open\n\
m 1 1 -2 0 refuted\nm 2 -1 -2 0 refuted\no 1 2 0\no -1 2 0\nw 576460752303423488\ns OPEN\n";

/// A report in which the node `1` is refuted and the node `-1` rejected, both by proofs of their
/// own.
const NODES: &[u8] = b"t 2 2 1152921504606846976\na 1 open\na 2 open\n\
m 1 1 -2 0 open\nm 2 -1 -2 0 open\nn 1 0 refuted\nn -1 0 rejected 2 unit\no -1 0\n\
w 576460752303423488\ns OPEN\n";

/// The same, joined with that of the cubes.
const NODES_AND_CUBES: &[u8] = b"t 2 2 1152921504606846976\na 1 refuted\na 2 refuted\n\
m 1 1 -2 0 open\nm 2 -1 -2 0 open\nn 1 0 refuted\nn -1 0 rejected 2 unit\no -1 -2 0\n\
w 288230376151711744\ns OPEN\n";

/// The report on two cubes, `1` and `-1`.
const ANOTHER_TREE: &[u8] =
    b"t 2 0 1152921504606846976\na 1 refuted\na 2 refuted\nw 0\ns REFUTED\n";

/// The record of the run on `MIXED` with the proofs of its cubes: the line with the SHA-256 of
/// `MIXED`, as `sha256sum` prints it, and the report.
const CUBES_RECORD: &[u8] = b"i 2fae1a08fffa0062e32fa793be493a8f34c5cc26e97893b23bc0525b198330ac\n\
t 2 2 1152921504606846976\na 1 refuted\na 2 refuted\n\
m 1 1 -2 0 open\nm 2 -1 -2 0 open\no 1 -2 0\no -1 -2 0\nw 576460752303423488\ns OPEN\n";

/// That of the run with the proofs of its missing leaves.
const MISSING_RECORD: &[u8] =
    b"i 2fae1a08fffa0062e32fa793be493a8f34c5cc26e97893b23bc0525b198330ac\n\
t 2 2 1152921504606846976\na 1 open\na 2 open\n\
m 1 1 -2 0 refuted\nm 2 -1 -2 0 refuted\no 1 2 0\no -1 2 0\nw 576460752303423488\ns OPEN\n";

/// The same two runs, with the formula in the file `CNF` and the cubes in `CUBES`: the line has the
/// SHA-256, as `sha256sum` prints it, of `CNF`'s text with a header and one blank over its problem
/// line, a line end, and the text of `CUBES`.
const CUBES_RECORD_UNDER: &[u8] =
    b"i 82b97748f81aa332c562c8ebcaa50eaf1c0943a055c9815d15f5b2798875d151\n\
t 2 2 1152921504606846976\na 1 refuted\na 2 refuted\n\
m 1 1 -2 0 open\nm 2 -1 -2 0 open\no 1 -2 0\no -1 -2 0\nw 576460752303423488\ns OPEN\n";

const MISSING_RECORD_UNDER: &[u8] =
    b"i 82b97748f81aa332c562c8ebcaa50eaf1c0943a055c9815d15f5b2798875d151\n\
t 2 2 1152921504606846976\na 1 open\na 2 open\n\
m 1 1 -2 0 refuted\nm 2 -1 -2 0 refuted\no 1 2 0\no -1 2 0\nw 576460752303423488\ns OPEN\n";

const FILES: &[File<'static>] = &[
    ("FILE", MIXED),
    ("cubes", CUBES),
    ("missing", MISSING),
    ("all", ALL),
    ("bare", BARE),
    ("hint", HINT),
    ("greatest", GREATEST),
    ("nodes", NODES),
    ("another", ANOTHER_TREE),
    ("empty", b""),
    (
        "longer",
        b"t 2 2 1152921504606846976\na 1 refuted\na 2 refuted\n\
m 1 1 -2 0 refuted\nm 2 -1 -2 0 refuted\nw 0\ns REFUTED\n\n",
    ),
    (
        "shorter",
        b"t 2 2 1152921504606846976\na 1 refuted\na 2 refuted\n\
m 1 1 -2 0 refuted\nm 2 -1 -2 0 refuted\nw 0\ns REFUTED",
    ),
    (
        "wrong_weight",
        b"t 2 2 1152921504606846976\na 1 open\na 2 refuted\n\
m 1 1 -2 0 refuted\nm 2 -1 -2 0 refuted\nw 0\ns REFUTED\n",
    ),
    (
        "zero_before",
        b"t 2 2 1152921504606846976\na 1 rejected 01 hint\na 2 open\n\
m 1 1 -2 0 open\nm 2 -1 -2 0 open\no 0\nw 1152921504606846976\ns OPEN\n",
    ),
    ("FAULTY", b"p inccnf\na 1 0\na 1 0\n"),
    // The four clauses and the cubes in two files, and the cubes below a fifth clause.
    ("CNF", b"p cnf 2 4\n1 2 0\n1 -2 0\n-1 2 0\n-1 -2 0\n"),
    ("CUBES", b"a 1 2 0\na -1 2 0\n"),
    ("CLAUSE", b"1 0\na 1 2 0\na -1 2 0\n"),
    ("cubes_record_under", CUBES_RECORD_UNDER),
    ("missing_record_under", MISSING_RECORD_UNDER),
    ("cubes_record", CUBES_RECORD),
    ("missing_record", MISSING_RECORD),
    // The same text with a section behind it.
    (
        "LABELLED",
        b"p inccnf\n1 2 0\n1 -2 0\n-1 2 0\n-1 -2 0\na 1 2 0\na -1 2 0\nl 1\nno proof\n",
    ),
    // Another formula with the same cubes, and a record of it.
    (
        "OTHER",
        b"p inccnf\n1 2 0\n1 -2 0\n-1 2 0\n-1 -2 1 0\na 1 2 0\na -1 2 0\n",
    ),
    (
        "other_record",
        b"i 2625c6ecc54ae6111e7c73b562f7d5e2c57ca90b55e5536ef502455709b65734\n\
t 2 2 1152921504606846976\na 1 refuted\na 2 refuted\n\
m 1 1 -2 0 open\nm 2 -1 -2 0 open\no 1 -2 0\no -1 -2 0\nw 576460752303423488\ns OPEN\n",
    ),
    (
        "line_alone",
        b"i 2fae1a08fffa0062e32fa793be493a8f34c5cc26e97893b23bc0525b198330ac\n",
    ),
    ("line_cut", b"i 2fae1a08fffa0062e32fa793be493a8f34c5cc26"),
    (
        "upper_case",
        b"i 2FAE1A08FFFA0062E32FA793BE493A8F34C5CC26E97893B23BC0525B198330AC\n\
t 2 2 1152921504606846976\na 1 refuted\na 2 refuted\n\
m 1 1 -2 0 open\nm 2 -1 -2 0 open\no 1 -2 0\no -1 -2 0\nw 576460752303423488\ns OPEN\n",
    ),
];

/// Words, and how the program ends: its status, its report and its line of errors.
type Call<'t> = (&'t [&'t str], u8, &'t [u8], &'t [u8]);

const JOINS: &[Call<'static>] = &[
    (&["--unbound", "FILE", "cubes", "missing"], 0, ALL, b""),
    (&["--unbound", "FILE", "missing", "cubes"], 0, ALL, b""),
    (&["--unbound", "FILE", "cubes"], 1, CUBES, b""),
    (&["--unbound", "FILE", "bare"], 1, BARE, b""),
    (
        &["--unbound", "FILE", "cubes", "cubes", "bare"],
        1,
        CUBES,
        b"",
    ),
    (&["--unbound", "FILE", "all", "hint", "bare"], 0, ALL, b""),
    // A refutation wins, whichever comes first; of two rejections the first.
    (&["--unbound", "FILE", "hint", "cubes"], 1, CUBES, b""),
    (&["--unbound", "FILE", "cubes", "hint"], 1, CUBES, b""),
    (
        &["--unbound", "FILE", "hint", "greatest", "missing"],
        1,
        HINT_AND_MISSING,
        b"",
    ),
    (
        &["--unbound", "FILE", "missing", "hint"],
        1,
        HINT_AND_MISSING,
        b"",
    ),
    (&["--unbound", "FILE", "greatest", "hint"], 1, GREATEST, b""),
    // Proofs of inner nodes.
    (&["--unbound", "FILE", "nodes"], 1, NODES, b""),
    (
        &["--unbound", "FILE", "nodes", "cubes"],
        1,
        NODES_AND_CUBES,
        b"",
    ),
];

const REFUSED: &[Call<'static>] = &[
    (
        &["--unbound", "FILE", "another"],
        3,
        b"",
        b"cubejoin: F15 report 1\n",
    ),
    (
        &["--unbound", "FILE", "cubes", "empty", "missing"],
        3,
        b"",
        b"cubejoin: F15 report 2\n",
    ),
    (
        &["--unbound", "FILE", "cubes", "missing", "longer"],
        3,
        b"",
        b"cubejoin: F15 report 3\n",
    ),
    (
        &["--unbound", "FILE", "shorter", "another"],
        3,
        b"",
        b"cubejoin: F15 report 1\n",
    ),
    (
        &["--unbound", "FILE", "wrong_weight"],
        3,
        b"",
        b"cubejoin: F15 report 1\n",
    ),
    (
        &["--unbound", "FILE", "zero_before"],
        3,
        b"",
        b"cubejoin: F15 report 1\n",
    ),
    (
        &["--unbound", "FILE", "FILE"],
        3,
        b"",
        b"cubejoin: F15 report 1\n",
    ),
    (
        &["--unbound", "FAULTY", "another"],
        3,
        b"",
        b"cubejoin: F7 cube 2 repeats\n",
    ),
    (
        &["--unbound", "NONE", "cubes"],
        5,
        b"",
        b"cubejoin: F13 device\n",
    ),
    (
        &["--unbound", "FILE", "cubes", "none"],
        5,
        b"",
        b"cubejoin: F13 device\n",
    ),
    // What is no report is told before what isn't there, where it stands before it.
    (
        &["--unbound", "FILE", "another", "none"],
        3,
        b"",
        b"cubejoin: F15 report 1\n",
    ),
];

const RECORDS: &[Call<'static>] = &[
    (&["FILE", "cubes_record", "missing_record"], 0, ALL, b""),
    (
        &["FILE", "missing_record", "cubes_record", "missing_record"],
        0,
        ALL,
        b"",
    ),
    (&["FILE", "cubes_record"], 1, CUBES, b""),
    // FILE's sections count neither for the digest nor for the report.
    (&["LABELLED", "cubes_record", "missing_record"], 0, ALL, b""),
    (&["OTHER", "other_record"], 1, CUBES, b""),
    // The flag may stand anywhere.
    (&["FILE", "cubes", "--unbound", "missing"], 0, ALL, b""),
];

const NO_RECORDS: &[Call<'static>] = &[
    // A record of another formula with the same cubes.
    (
        &["FILE", "cubes_record", "other_record"],
        3,
        b"",
        b"cubejoin: F15 report 2\n",
    ),
    (
        &["OTHER", "cubes_record"],
        3,
        b"",
        b"cubejoin: F15 report 1\n",
    ),
    // A report is no record, and a record is no report.
    (&["FILE", "all"], 3, b"", b"cubejoin: F15 report 1\n"),
    (
        &["--unbound", "FILE", "cubes_record"],
        3,
        b"",
        b"cubejoin: F15 report 1\n",
    ),
    (&["FILE", "line_alone"], 3, b"", b"cubejoin: F15 report 1\n"),
    (&["FILE", "line_cut"], 3, b"", b"cubejoin: F15 report 1\n"),
    (&["FILE", "upper_case"], 3, b"", b"cubejoin: F15 report 1\n"),
    (&["FILE", "empty"], 3, b"", b"cubejoin: F15 report 1\n"),
    (
        &["FAULTY", "cubes_record"],
        3,
        b"",
        b"cubejoin: F7 cube 2 repeats\n",
    ),
];

const UNDER_A_FORMULA: &[Call<'static>] = &[
    (
        &[
            "--formula",
            "CNF",
            "CUBES",
            "cubes_record_under",
            "missing_record_under",
        ],
        0,
        ALL,
        b"",
    ),
    (
        &["--formula", "CNF", "CUBES", "cubes_record_under"],
        1,
        CUBES,
        b"",
    ),
    (
        &["--formula=CNF", "--unbound", "CUBES", "cubes", "missing"],
        0,
        ALL,
        b"",
    ),
    // A record of the same clauses and cubes in one file is one of another text.
    (
        &["--formula", "CNF", "CUBES", "cubes_record"],
        3,
        b"",
        b"cubejoin: F15 report 1\n",
    ),
    (
        &["FILE", "cubes_record_under"],
        3,
        b"",
        b"cubejoin: F15 report 1\n",
    ),
    (
        &["--formula", "CNF", "CLAUSE", "cubes_record_under"],
        3,
        b"",
        b"cubejoin: F17 the header says 2 variables and 4 clauses, there are 2 and 5\n",
    ),
    // A bundle below the formula: its header is in line 7 of the two texts.
    (
        &["--formula", "CNF", "FILE", "cubes_record_under"],
        3,
        b"",
        b"cubejoin: F2 token, line 7\n",
    ),
    // The formula's file is read first.
    (
        &["--formula", "FILE", "none", "cubes_record_under"],
        3,
        b"",
        b"cubejoin: F16 no DIMACS header\n",
    ),
    (
        &["--formula", "none", "CUBES", "cubes_record_under"],
        5,
        b"",
        b"cubejoin: F13 device\n",
    ),
    (
        &["--formula", "CNF", "none", "cubes_record_under"],
        5,
        b"",
        b"cubejoin: F13 device\n",
    ),
];

/// The program on these words ends so, and asks for FILE and then for each RECORD.
fn ends_so<R: AllocGlobal + Abort>(rt: &R, call: Call<'_>) -> Result<(), Fail> {
    let (words, status, report, line) = call;
    let mut store = FileStore::new(Shelf::new(rt.alloc(), FILES)?);
    let mut output = Vec::new(rt.alloc());
    let mut errors = Vec::new(rt.alloc());
    let answer = join_command(
        rt,
        &mut store,
        words,
        &mut Counted::new(&mut output),
        &mut Counted::new(&mut errors),
    );
    assert!(rt; answer == status, "{answer} on {words:?}");
    assert!(rt;
        output.as_slice() == report && errors.as_slice() == line,
        "{words:?}"
    );
    Ok(())
}

#[test]
fn joins(rt: HostRuntime) -> Result<(), Fail> {
    for call in JOINS {
        ends_so(&rt, *call)?;
    }
    Ok(())
}

#[test]
fn refused_reports(rt: HostRuntime) -> Result<(), Fail> {
    for call in REFUSED {
        ends_so(&rt, *call)?;
    }
    Ok(())
}

#[test]
fn joins_records(rt: HostRuntime) -> Result<(), Fail> {
    for call in RECORDS {
        ends_so(&rt, *call)?;
    }
    Ok(())
}

#[test]
fn refused_records(rt: HostRuntime) -> Result<(), Fail> {
    for call in NO_RECORDS {
        ends_so(&rt, *call)?;
    }
    Ok(())
}

#[test]
fn joins_under_a_formula(rt: HostRuntime) -> Result<(), Fail> {
    for call in UNDER_A_FORMULA {
        ends_so(&rt, *call)?;
    }
    Ok(())
}

/// These words can't be taken, or ask for help or the version: the parser's text goes to standard
/// error, and nothing is read.
fn is_refused<R: AllocGlobal + Abort>(rt: &R, words: &[&str]) -> Result<(), Fail> {
    let mut store = FileStore::new(Shelf::new(rt.alloc(), FILES)?);
    let mut output = Vec::new(rt.alloc());
    let mut errors = Vec::new(rt.alloc());
    let answer = join_command(
        rt,
        &mut store,
        words,
        &mut Counted::new(&mut output),
        &mut Counted::new(&mut errors),
    );
    assert!(rt;
        answer == 2 && output.is_empty() && !errors.is_empty(),
        "{answer} on {words:?}"
    );
    assert!(rt; store.opener().asked()?.is_empty(), "{words:?}");
    Ok(())
}

#[test]
fn other_words(rt: HostRuntime) -> Result<(), Fail> {
    is_refused(&rt, &[])?;
    is_refused(&rt, &["FILE"])?;
    is_refused(&rt, &["--unbound", "FILE"])?;
    is_refused(&rt, &["--unbound", "--unbound", "FILE", "cubes"])?;
    is_refused(&rt, &["--unbound=true", "FILE", "cubes"])?;
    is_refused(&rt, &["--workers", "4", "FILE", "cubes"])?;
    is_refused(&rt, &["--formula", "CNF", "CUBES"])?;
    is_refused(&rt, &["--formula", "", "CUBES", "cubes_record_under"])?;
    is_refused(&rt, &["CUBES", "cubes_record_under", "--formula"])?;
    is_refused(&rt, &["--help"])?;
    is_refused(&rt, &["--version"])
}
