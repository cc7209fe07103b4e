//! What went wrong, as a line and as a status.

ghost use Rattle.std.specs.Prelude.{◌≡◌, ◌⊎◌, ◌<◌, ◌^◌, ◌-◌, codes, OnOk, IfOk, IfErr};
ghost use Rattle.std.specs.Prelude.{MatchResult};
ghost use Rattle.std.specs.String.{string_bytes};
ghost use Rattle.cube_report.specs.Fault.TheVariants.{Memory};
ghost use Rattle.cube_command.specs.Program.{IsLineWritten, status_of_answer};
ghost use Rattle.join_command.specs.Program.{IsReadingFault, join_fault_line};
ghost use Rattle.join_command.specs.Inner.Telling.{IsFaultWritten, status_of};

use crate::fault::JoinFault;
use cube_command::{tell, words_of_call};
use cube_report::{Fault, Sink};
use std::alloc::{AllocError, Global};
use std::env::Env;

/// The status of a join, after a line that says what went wrong, if anything did.
pub(crate) fn tell_join<E: Sink>(alloc: Global, errors: &mut E, run: Result<bool, JoinFault>) -> u8
    requires errors { E.failures errors.old < 2 ^ 64 - 1 }
    requires fault { IfErr run (λ fault. E.allows errors.old (join_fault_line fault)) }
    requires memory { E.allows errors.old (join_fault_line (JoinFault.Run Memory)) }
    ensures told { MatchResult run
        (λ answer. (result ≡ status_of_answer answer) × (errors.new ≡ errors.old))
        (λ fault. IsFaultWritten fault result (E.contents errors.old) (E.contents errors.new)
        (E.failures errors.old) (E.failures errors.new)) }
{
    match run {
        Ok(true) => 0,
        Ok(false) => 1,
        Err(fault) => tell_fault(alloc, errors, fault),
    }
}

/// Says what went wrong, and answers the status. Where the line of a fault of what was read finds
/// no memory, it is want of memory that is told.
fn tell_fault<E: Sink>(alloc: Global, errors: &mut E, fault: JoinFault) -> u8
    requires errors { E.failures errors.old < 2 ^ 64 - 1 }
    requires fault { E.allows errors.old (join_fault_line fault) }
    requires memory { E.allows errors.old (join_fault_line (JoinFault.Run Memory)) }
    ensures told { IsFaultWritten fault result (E.contents errors.old) (E.contents errors.new)
        (E.failures errors.old) (E.failures errors.new) }
{
    match fault {
        JoinFault::Run(kind) => tell_run(alloc, errors, kind),
        JoinFault::Stranger(number) => tell_read(alloc, errors, JoinFault::Stranger(number)),
    }
}

/// The same of a fault that a run of `cubeboard` may end with, too.
fn tell_run<E: Sink>(alloc: Global, errors: &mut E, kind: Fault) -> u8
    requires errors { E.failures errors.old < 2 ^ 64 - 1 }
    requires fault { E.allows errors.old (join_fault_line (JoinFault.Run kind)) }
    requires memory { E.allows errors.old (join_fault_line (JoinFault.Run Memory)) }
    ensures told { IsFaultWritten (JoinFault.Run kind) result (E.contents errors.old)
        (E.contents errors.new) (E.failures errors.old) (E.failures errors.new) }
{
    match kind {
        Fault::Memory => tell_memory(errors),
        Fault::Thread => {
            tell(errors, b"cubejoin: F14 thread\n");
            4
        }
        Fault::Device => {
            tell(errors, b"cubejoin: F13 device\n");
            5
        }
        read => tell_read(alloc, errors, JoinFault::Run(read)),
    }
}

/// Says which fault there is in what was read.
fn tell_read<E: Sink>(alloc: Global, errors: &mut E, fault: JoinFault) -> u8
    requires errors { E.failures errors.old < 2 ^ 64 - 1 }
    requires read { IsReadingFault fault }
    requires fault { E.allows errors.old (join_fault_line fault) }
    requires memory { E.allows errors.old (join_fault_line (JoinFault.Run Memory)) }
    ensures told { IsFaultWritten fault result (E.contents errors.old) (E.contents errors.new)
        (E.failures errors.old) (E.failures errors.new) }
{
    match join_fault_line(alloc, fault) {
        Ok(line) => {
            tell(errors, line.as_bytes());
            status_of(fault)
        }
        Err(_) => tell_memory(errors),
    }
}

/// The line that tells a fault.
fn join_fault_line(alloc: Global, fault: JoinFault) -> Result<String, AllocError>
    ensures { IfOk result (λ line. string_bytes line ≡ join_fault_line fault) }
{
    match fault {
        JoinFault::Run(fault) => format!(in alloc; "cubejoin: {fault}\n"),
        JoinFault::Stranger(number) => format!(in alloc; "cubejoin: F15 report {number}\n"),
    }
}

/// The status of a fault.
fn status_of(fault: JoinFault) -> u8
    ensures { result ≡ status_of fault }
{
    match fault {
        JoinFault::Run(fault) => cube_command::status_of(fault),
        JoinFault::Stranger(_) => 3,
    }
}

/// The words after the program's name, or the status where they can't be read, after a line on
/// `errors`. The kit's reader gives the words once: so `main` calls this first, and hands them on.
pub fn own_words<R: Env + AllocGlobal, E: Sink>(rt: &R, errors: &mut E) -> Result<Vec<String>, u8>
    requires errors { E.failures errors.old < 2 ^ 64 - 1 }
    // The lines that it may write.
    requires words { E.allows errors.old (codes "cubejoin: a word is no text\n") }
    requires memory { E.allows errors.old (join_fault_line (JoinFault.Run Memory)) }
    ensures ok { OnOk result (errors.new ≡ errors.old) }
    ensures err { IfErr result (λ status.
        ((status ≡ 2) × IsLineWritten (E.contents errors.old) (E.contents errors.new)
        (E.failures errors.old) (E.failures errors.new)
        (codes "cubejoin: a word is no text\n"))
        ⊎ ((status ≡ 4) × IsLineWritten (E.contents errors.old) (E.contents errors.new)
        (E.failures errors.old) (E.failures errors.new)
        (join_fault_line (JoinFault.Run Memory)))) }
{
    words_of_call(
        rt,
        errors,
        b"cubejoin: a word is no text\n",
        b"cubejoin: F6 memory\n",
    )
}

/// Says that memory was refused, and answers the status.
fn tell_memory<E: Sink>(errors: &mut E) -> u8
    requires errors { E.failures errors.old < 2 ^ 64 - 1 }
    requires memory { E.allows errors.old (join_fault_line (JoinFault.Run Memory)) }
    ensures status { result ≡ 4 }
    ensures told { IsLineWritten (E.contents errors.old) (E.contents errors.new)
        (E.failures errors.old)
        (E.failures errors.new) (join_fault_line (JoinFault.Run Memory)) }
{
    tell(errors, b"cubejoin: F6 memory\n");
    4
}
