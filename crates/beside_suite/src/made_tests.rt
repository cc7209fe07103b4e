//! The files for a picture and for a record, and what comes of a run where one can't be written, or
//! the report can't. The digest was taken from `sha256sum`, of the text that is told beside it.
ghost use Rattle.std.specs.Prelude.{◌<◌, ◌^◌, ◌-◌};

use crate::calls::{DEVICE, Ending, ends_with};
use cube_command::FileStore;
use cube_report::DeviceFault;
use devices::Shelf;
use fixtures::bundles::{BOTH_CUBES, BOTH_CUBES_REPORT};
use std::process::Abort;
use std::sync::Wait;
use std::test::Fail;
use std::thread::Threads;

const MEMORY: &[u8] = b"cubeboard: F6 memory\n";

/// What `sha256sum` prints of `BOTH_CUBES` up to the end of the line `a -1 0`.
const BOTH_CUBES_LINE: &[u8] =
    b"i 45dd5c0c9e58e87a639e58bc96c763a8b1a3c6488a3c2db51b76f2d159c47ebc\n";

/// The words for a picture, and those for a record.
const MAP: &[&str] = &["--map", "tree.svg"];

const RECORD: &[&str] = &["--record", "a.record"];

/// Those for a record, and for the open leaves in the place of the report.
const LISTED: &[&str] = &["--record", "a.record", "--list-open"];

/// How the program ends where it reports.
const REPORTED: Ending<'static> = (0, BOTH_CUBES_REPORT, b"");

/// How it ends where a device fails before it reports.
const UNREPORTED: Ending<'static> = (5, b"", DEVICE);

/// What lies there in the end: no file that was made, a picture at `tree.svg`, or at `a.record` the
/// line with the digest and the report.
#[derive(Clone, Copy, PartialEq, Eq, Debug)]
enum Left {
    Nothing,
    Picture,
    Record,
    Other,
}

/// What lies on a shelf.
fn left_on(store: &FileStore<Shelf<'_>>) -> Left {
    match store.opener().made() {
        None => Left::Nothing,
        Some(("tree.svg", bytes)) if bytes.starts_with(b"<svg ") => Left::Picture,
        Some(("a.record", bytes)) => match bytes.split_at_checked(BOTH_CUBES_LINE.len()) {
            Some((line, rest)) if line == BOTH_CUBES_LINE && rest == BOTH_CUBES_REPORT => {
                Left::Record
            }
            _ => Left::Other,
        },
        Some(_) => Left::Other,
    }
}

/// The program on these words and two refuted cubes, with files and an output that fail at these
/// calls, ends so, and leaves this.
fn leaves<R: AllocGlobal + Abort + Threads + Wait + Sync>(
    rt: &R,
    words: &[&str],
    failing: (u64, DeviceFault, u64),
    ending: Ending<'_>,
    left: Left,
) -> Result<(), Fail> {
    let (file_at, fault, output_at) = failing;
    let mut store = FileStore::new(Shelf::failing(rt.alloc(), &[], file_at, fault)?);
    ends_with(
        rt,
        &mut store,
        words,
        BOTH_CUBES.as_bytes(),
        output_at,
        ending,
    );
    assert!(rt; left_on(&store) == left, "{words:?}");
    Ok(())
}

/// No call fails.
const NEVER: (u64, DeviceFault, u64) = (0, DeviceFault::Device, 0);

// The file lies at the path that the words say. Without a word none is made. A record has the whole
// report, also where that isn't written.
#[test]
fn a_file_is_made(rt: HostRuntime) -> Result<(), Fail> {
    leaves(&rt, MAP, NEVER, REPORTED, Left::Picture)?;
    leaves(&rt, RECORD, NEVER, REPORTED, Left::Record)?;
    leaves(&rt, LISTED, NEVER, (0, b"", b""), Left::Record)?;
    leaves(&rt, &[], NEVER, REPORTED, Left::Nothing)
}

// Where the file can't be written there is no report. For a record the device is at fault, also
// where it was memory that was refused.
#[test]
fn no_file_is_made(rt: HostRuntime) -> Result<(), Fail> {
    let memory = (4, b"".as_slice(), MEMORY);
    leaves(
        &rt,
        MAP,
        (1, DeviceFault::Device, 0),
        UNREPORTED,
        Left::Nothing,
    )?;
    leaves(&rt, MAP, (1, DeviceFault::Memory, 0), memory, Left::Nothing)?;
    leaves(
        &rt,
        RECORD,
        (1, DeviceFault::Device, 0),
        UNREPORTED,
        Left::Nothing,
    )?;
    leaves(
        &rt,
        RECORD,
        (1, DeviceFault::Memory, 0),
        UNREPORTED,
        Left::Nothing,
    )
}

// Both are written before the report: they are there where the report can't be written.
#[test]
fn a_file_without_a_report(rt: HostRuntime) -> Result<(), Fail> {
    leaves(
        &rt,
        MAP,
        (0, DeviceFault::Device, 1),
        UNREPORTED,
        Left::Picture,
    )?;
    leaves(
        &rt,
        RECORD,
        (0, DeviceFault::Device, 1),
        UNREPORTED,
        Left::Record,
    )
}

/// A formula's file: the clauses of `BOTH_CUBES`.
const FORMULA: &[u8] = b"p cnf 2 4\n1 2 0\n1 -2 0\n-1 2 0\n-1 -2 0\n";

/// What stands behind them there.
const CUBES: &[u8] = b"a 1 0\na -1 0\nl 1\n6 0 5 3 4 0\nl 2\n6 0 5 1 2 0\n";

/// What `sha256sum` prints of the formula's text with `p inccnf ` in its first line, an empty line,
/// and the two cubes' lines.
const BELOW_LINE: &[u8] = b"i abfdd049e6def4894652cb5e0aa36d4085d99facbbbd9430ed3c4d1e8d242837\n";

/// The program on these words and these files makes the record that begins with this line, and asks
/// for these paths.
fn records<R: AllocGlobal + Abort + Threads + Wait + Sync>(
    rt: &R,
    words: &[&str],
    line: &[u8],
    paths: &[u8],
) -> Result<(), Fail> {
    let files = [
        ("FILE", BOTH_CUBES.as_bytes()),
        ("CNF", FORMULA),
        ("CUBES", CUBES),
    ];
    let mut store = FileStore::new(Shelf::new(rt.alloc(), &files)?);
    ends_with(rt, &mut store, words, b"", 0, REPORTED);
    let asked = store.opener().asked()?;
    assert!(rt; asked.as_slice() == paths, "{words:?}");
    let mut record = Vec::new(rt.alloc());
    record.extend_from_slice(line)?;
    record.extend_from_slice(BOTH_CUBES_REPORT)?;
    let Some((path, made)) = store.opener().made() else {
        return Err(Fail::new("no record"));
    };
    assert!(rt;
        path == "a.record" && made == record.as_slice(),
        "{words:?}"
    );
    Ok(())
}

// A bundle in a file is read once.
#[test]
fn a_record_of_a_file(rt: HostRuntime) -> Result<(), Fail> {
    records(
        &rt,
        &["--record", "a.record", "--workers", "1", "FILE"],
        BOTH_CUBES_LINE,
        b"FILE\n",
    )?;
    records(
        &rt,
        &["--record", "a.record", "--formula", "CNF", "CUBES"],
        BELOW_LINE,
        b"CNF\nCUBES\n",
    )
}
