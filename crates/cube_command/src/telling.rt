//! What went wrong, as a line and as a status.

ghost use Rattle.std.specs.Prelude.{◌≡◌, ◌≢◌, ◌⊎◌, ◌<◌, ◌^◌, ◌-◌, codes, drop, List, ℕ};
ghost use Rattle.std.specs.Prelude.{MatchResult, OnOk, IfOk, IfErr};
ghost use Rattle.clap.specs.Words.{kind_of};
ghost use Rattle.std.specs.String.{string_bytes};
ghost use Rattle.cube_report.specs.Faults.{IsInputFault};
ghost use Rattle.cube_command.specs.Program.{IsLineWritten, fault_line, status_of};
ghost use Rattle.cube_command.specs.Program.{status_of_answer};
ghost use Rattle.cube_command.specs.Inner.Telling.{IsFaultWritten};

use clap::Error as WordsError;
use clap::error::ErrorKind as WordsFault;
use cube_report::{Fault, Sink, write_all};
use std::alloc::{AllocError, Global};
use std::env;
use std::env::Env;
use std::io::ErrorKind;

/// The status of a run, after a line that says what went wrong, if anything did.
pub fn tell_run<E: Sink>(alloc: Global, errors: &mut E, run: Result<bool, Fault>) -> u8
    requires errors { E.failures errors.old < 2 ^ 64 - 1 }
    requires fault { IfErr run (λ fault. E.allows errors.old (fault_line fault)) }
    requires memory { E.allows errors.old (fault_line Fault.Memory) }
    ensures told { MatchResult run
        (λ answer. (result ≡ status_of_answer answer) × (errors.new ≡ errors.old))
        (λ fault. IsFaultWritten fault result (E.contents errors.old) (E.contents errors.new)
        (E.failures errors.old) (E.failures errors.new)) }
{
    match run {
        Ok(true) => 0,
        Ok(false) => 1,
        Err(fault) => tell_fault(alloc, errors, fault),
    }
}

/// Says what went wrong, and answers the status. Where the line of a fault of the input finds no
/// memory, it is want of memory that is told.
pub fn tell_fault<E: Sink>(alloc: Global, errors: &mut E, fault: Fault) -> u8
    requires errors { E.failures errors.old < 2 ^ 64 - 1 }
    requires fault { E.allows errors.old (fault_line fault) }
    requires memory { E.allows errors.old (fault_line Fault.Memory) }
    ensures told { IsFaultWritten fault result (E.contents errors.old) (E.contents errors.new)
        (E.failures errors.old) (E.failures errors.new) }
{
    match fault {
        Fault::Memory => tell_memory(errors),
        Fault::Thread => {
            tell(errors, b"cubeboard: F14 thread\n");
            4
        }
        Fault::Device => {
            tell(errors, b"cubeboard: F13 device\n");
            5
        }
        input => tell_input(alloc, errors, input),
    }
}

/// Says which fault the input has.
fn tell_input<E: Sink>(alloc: Global, errors: &mut E, fault: Fault) -> u8
    requires errors { E.failures errors.old < 2 ^ 64 - 1 }
    requires input { IsInputFault fault }
    requires fault { E.allows errors.old (fault_line fault) }
    requires memory { E.allows errors.old (fault_line Fault.Memory) }
    ensures told { IsFaultWritten fault result (E.contents errors.old) (E.contents errors.new)
        (E.failures errors.old) (E.failures errors.new) }
{
    match fault_line(alloc, fault) {
        Ok(line) => {
            tell(errors, line.as_bytes());
            status_of(fault)
        }
        Err(_) => tell_memory(errors),
    }
}

/// The line that tells a fault.
fn fault_line(alloc: Global, fault: Fault) -> Result<String, AllocError>
    ensures { IfOk result (λ line. string_bytes line ≡ fault_line fault) }
{
    format!(in alloc; "cubeboard: {fault}\n")
}

/// Writes a line, as far as the device takes it.
pub fn tell<E: Sink>(errors: &mut E, line: &[u8])
    requires errors { E.failures errors.old < 2 ^ 64 - 1 }
    requires line { E.allows errors.old line.now }
    ensures { IsLineWritten (E.contents errors.old) (E.contents errors.new) (E.failures errors.old)
        (E.failures errors.new) line.now }
{
    let _ = write_all(errors, line);
}

/// The status of a run that ended with a fault: 3 where it is one of the input, 4 where memory or a
/// thread was refused, and 5 where a device failed.
pub fn status_of(fault: Fault) -> u8
    ensures { result ≡ status_of fault }
{
    match fault {
        Fault::Header
        | Fault::Token { .. }
        | Fault::Unfinished
        | Fault::TooLarge { .. }
        | Fault::Limit
        | Fault::Repeats { .. }
        | Fault::NotATree { .. }
        | Fault::Overlap { .. }
        | Fault::BadLabel { .. }
        | Fault::NoSuchLeaf { .. }
        | Fault::ProofTwice { .. }
        | Fault::NoProblem
        | Fault::Counts { .. } => 3,
        Fault::Memory | Fault::Thread => 4,
        Fault::Device => 5,
    }
}

/// The words after the program's name, or the status where they can't be read, after a line on
/// `errors`. The kit's reader gives the words once: so `main` calls this first, and hands them on.
pub fn own_words<R: Env + AllocGlobal, E: Sink>(rt: &R, errors: &mut E) -> Result<Vec<String>, u8>
    requires errors { E.failures errors.old < 2 ^ 64 - 1 }
    // The lines that it may write.
    requires words { E.allows errors.old (codes "cubeboard: a word is no text\n") }
    requires memory { E.allows errors.old (fault_line Fault.Memory) }
    ensures ok { OnOk result (errors.new ≡ errors.old) }
    ensures err { IfErr result (λ status.
        ((status ≡ 2) × IsLineWritten (E.contents errors.old) (E.contents errors.new)
        (E.failures errors.old) (E.failures errors.new)
        (codes "cubeboard: a word is no text\n"))
        ⊎ ((status ≡ 4) × IsLineWritten (E.contents errors.old) (E.contents errors.new)
        (E.failures errors.old) (E.failures errors.new)
        (fault_line Fault.Memory))) }
{
    words_of_call(
        rt,
        errors,
        b"cubeboard: a word is no text\n",
        b"cubeboard: F6 memory\n",
    )
}

/// The words of a program's call after the first one, which is its name, or the status where they
/// can't be read: 2 after the line `unread`, where one is no text, and 4 after the line `memory`,
/// where a growth was refused.
pub fn words_of_call<R: Env + AllocGlobal, E: Sink>(
    rt: &R,
    errors: &mut E,
    unread: &[u8],
    memory: &[u8],
) -> Result<Vec<String>, u8>
    requires errors { E.failures errors.old < 2 ^ 64 - 1 }
    requires words { E.allows errors.old unread.now }
    requires memory { E.allows errors.old memory.now }
    ensures ok { OnOk result (errors.new ≡ errors.old) }
    ensures err { IfErr result (λ status.
        ((status ≡ 2) × IsLineWritten (E.contents errors.old) (E.contents errors.new)
        (E.failures errors.old) (E.failures errors.new) unread.now)
        ⊎ ((status ≡ 4) × IsLineWritten (E.contents errors.old) (E.contents errors.new)
        (E.failures errors.old) (E.failures errors.new) memory.now)) }
{
    let words = match env::args(rt) {
        Ok(words) => words,
        Err(error) if error.kind() != ErrorKind::OutOfMemory => {
            tell(errors, unread);
            return Err(2);
        }
        Err(_) => {
            tell(errors, memory);
            return Err(4);
        }
    };
    match words.collect(rt.alloc()) {
        Ok(words) => Ok(after_name(words)),
        Err(_) => {
            tell(errors, memory);
            Err(4)
        }
    }
}

/// The words of a call after the first one, which is the program's name.
fn after_name(mut words: Vec<String>) -> Vec<String>
    ensures { result.items ≡ drop 1 words.items }
{
    if !words.is_empty() {
        let _name = words.remove(0);
    }
    words
}

/// The status of words that make no request: 2 after the parser's text, or 4 after the line
/// `memory`, where a growth was refused.
pub fn tell_refused<E: Sink>(alloc: Global, errors: &mut E, error: &WordsError, memory: &[u8]) -> u8
    requires errors { E.failures errors.old < 2 ^ 64 - 1 }
    requires memory { E.allows errors.old memory.now }
    requires words { kind_of error.now ≢ WordsFault.OutOfMemory
        → (text : List ℕ) → E.allows errors.old text }
    ensures either { (result ≡ 2) ⊎ (result ≡ 4) }
    ensures usage { kind_of error.now ≡ WordsFault.OutOfMemory → result ≡ 4 }
    ensures memory { result ≡ 4 →
        IsLineWritten (E.contents errors.old) (E.contents errors.new) (E.failures errors.old)
        (E.failures errors.new) memory.now }
{
    if error.kind() != WordsFault::OutOfMemory {
        if let Ok(text) = format!(in alloc; "{error}") {
            tell(errors, text.as_bytes());
            return 2;
        }
    }
    tell(errors, memory);
    4
}

/// Says that memory was refused, and answers the status.
fn tell_memory<E: Sink>(errors: &mut E) -> u8
    requires errors { E.failures errors.old < 2 ^ 64 - 1 }
    requires memory { E.allows errors.old (fault_line Fault.Memory) }
    ensures status { result ≡ 4 }
    ensures told { IsLineWritten (E.contents errors.old) (E.contents errors.new)
        (E.failures errors.old)
        (E.failures errors.new) (fault_line Fault.Memory) }
{
    tell(errors, b"cubeboard: F6 memory\n");
    4
}
