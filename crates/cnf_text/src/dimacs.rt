//! The reader of DIMACS texts (the satisfiability suggested format of 1993): a problem line, and
//! clauses below it.

ghost use Rattle.std.specs.Prelude.{◌≡◌, ◌≢◌, ◌≤◌, [], ℕ, ◌∷◌, List, true, false};
ghost use Rattle.std.specs.Prelude.{length};
ghost use Rattle.std.specs.Prelude.{OnOk, OnErr, IfOk, IfErr};
ghost use Rattle.std.specs.List.{onto_first};
ghost use Rattle.cnf_text.specs.Literal.{Literal, greatest_variable};
ghost use Rattle.cnf_text.specs.Tokens.{all_tokens, below};
ghost use Rattle.cnf_text.specs.Numbers.{number_of};
ghost use Rattle.cnf_text.specs.Words.{IsToldAs};
ghost use Rattle.cnf_text.specs.Icnf.{Symbol, Signed, EndMark, CubeMark, symbol_of_number};
ghost use Rattle.cnf_text.specs.Dimacs.{clause_symbols, greatest_of, HasClauses};
ghost use Rattle.cnf_text.specs.Dimacs.{IsClausesFault, IsDimacs, IsDimacsFault, KeepsLimits};
ghost use Rattle.cnf_text.specs.Dimacs.{told_problem};
ghost use Rattle.cnf_text.specs.Inner.Icnf.{Means};
ghost use Rattle.cnf_text.specs.Inner.Dimacs.{HasProblem, HasScanned, Scans, BreaksScan};
ghost use Rattle.cnf_text.specs.Inner.Dimacs.{IsMiscount};

use crate::icnf::{Broken, MAX_CLAUSES, MAX_LITERALS, TextFault, Word, number_word};
use crate::literal::Lit;
use crate::numbers::decimal;
use crate::tokens::{Token, Tokens};
use crate::words as told;
use thiserror::Error;

/// What the problem line of a DIMACS text says. One past the greatest `u64` is told as that.
#[derive(Clone, Copy, Debug, PartialEq, Eq)]
pub struct Problem {
    /// No variable is above this one.
    pub variables: u64,
    /// How many clauses there are.
    pub clauses: u64,
}

/// Why a text is no DIMACS text: its first fault.
#[derive(Debug, Drop, Error)]
pub enum DimacsFault {
    /// The first line with a token isn't `p cnf V C` with two decimal numbers without a sign, or
    /// there is none.
    #[error("F16 no DIMACS header")]
    NoProblem,
    /// A fault of the clauses below the problem line: a token that is no number, also an `a`; a
    /// variable above 268,435,455; a clause without its end mark; or more clauses or literals than
    /// the limits of an iCNF text.
    #[error("{0}")]
    Text(TextFault),
    /// The problem line says so many variables and clauses; there are clauses with this greatest
    /// variable, and so many.
    #[error("F17 the header says {variables} variables and {clauses} clauses, \
         there are {greatest} and {found}")]
    Counts {
        variables: u64,
        clauses: u64,
        greatest: u64,
        found: u64,
    },
}

/// What a scan has counted of the clauses so far.
#[derive(Clone, Copy)]
struct Scan {
    /// How many have begun.
    clauses: usize,
    /// How many literals they have together.
    literals: usize,
    /// The greatest variable of these, or 0.
    greatest: u32,
    /// Whether one has begun and not ended.
    inside: bool,
}

impl Scan {
    /// The first literal of a clause.
    fn begin_clause(&mut self, literal: Lit) -> Result<(), Broken>
        requires between { self.old.inside ≡ false }
        requires range { literal.variable ≤ greatest_variable }
        ensures ok { OnOk result (Scans self.old self.new (Signed literal)) }
        ensures err { IfErr result (BreaksScan self.old (Signed literal)) }
    {
        if self.clauses >= MAX_CLAUSES {
            return Err(Broken::Limit);
        }
        if self.literals >= MAX_LITERALS {
            return Err(Broken::Limit);
        }
        self.clauses += 1;
        self.literals += 1;
        self.greatest = self.greatest.max(literal.variable());
        self.inside = true;
        Ok(())
    }

    /// One more literal of the clause that is open.
    fn add_to_clause(&mut self, literal: Lit) -> Result<(), Broken>
        requires inside { self.old.inside ≡ true }
        requires range { literal.variable ≤ greatest_variable }
        ensures ok { OnOk result (Scans self.old self.new (Signed literal)) }
        ensures err { IfErr result (BreaksScan self.old (Signed literal)) }
    {
        if self.literals >= MAX_LITERALS {
            return Err(Broken::Limit);
        }
        self.literals += 1;
        self.greatest = self.greatest.max(literal.variable());
        Ok(())
    }

    /// A literal, wherever it stands.
    fn literal(&mut self, literal: Lit) -> Result<(), Broken>
        requires range { literal.variable ≤ greatest_variable }
        ensures ok { OnOk result (Scans self.old self.new (Signed literal)) }
        ensures err { IfErr result (BreaksScan self.old (Signed literal)) }
    {
        if self.inside {
            self.add_to_clause(literal)
        } else {
            self.begin_clause(literal)
        }
    }

    /// An end mark between two clauses, which is an empty one.
    fn empty_clause(&mut self) -> Result<(), Broken>
        requires between { self.old.inside ≡ false }
        ensures ok { OnOk result (Scans self.old self.new EndMark) }
        ensures err { IfErr result (BreaksScan self.old EndMark) }
    {
        if self.clauses >= MAX_CLAUSES {
            return Err(Broken::Limit);
        }
        self.clauses += 1;
        Ok(())
    }

    /// The end mark of the clause that is open.
    fn end_clause(&mut self)
        requires { self.old.inside ≡ true }
        ensures { Scans self.old self.new EndMark }
    {
        self.inside = false;
    }

    /// An end mark, wherever it stands.
    fn end(&mut self) -> Result<(), Broken>
        ensures ok { OnOk result (Scans self.old self.new EndMark) }
        ensures err { IfErr result (BreaksScan self.old EndMark) }
    {
        if self.inside {
            self.end_clause();
            Ok(())
        } else {
            self.empty_clause()
        }
    }

    /// One token more.
    fn read(&mut self, word: Word) -> Result<(), Broken>
        ensures ok { OnOk result ((symbol : Symbol) → symbol ≢ CubeMark → Means word symbol
            → Scans self.old self.new symbol) }
        ensures err { IfErr result (λ broken. (symbol : Symbol) → symbol ≢ CubeMark
            → Means word symbol → BreaksScan self.old symbol broken) }
    {
        match word {
            Word::Literal(literal) => self.literal(literal),
            Word::End => self.end(),
            Word::TooLarge => Err(Broken::TooLarge),
            Word::Cube | Word::Unknown => Err(Broken::Token),
        }
    }
}

/// What a word below the problem line is to the reader.
#[inline(always)]
fn clause_word(word: told::Word<'_>) -> Word
    ensures { (bytes : List ℕ) → IsToldAs bytes word.entry
        → Means result (symbol_of_number (number_of bytes)) }
{
    match word {
        told::Word::Number(number) => number_word(number),
        told::Word::Other(_) => Word::Unknown,
    }
}

/// The scan of the lines below this one, whose tokens are all those of clauses that have ended.
fn read_clauses(tokens: Tokens) -> Result<Scan, TextFault>
    ensures ok { IfOk result (λ scan. (scan.inside ≡ false)
        × HasScanned scan (clause_symbols (all_tokens (below tokens.entry)))) }
    ensures err { IfErr result (IsClausesFault (all_tokens (below tokens.entry))) }
{
    let mut scan = Scan {
        clauses: 0,
        literals: 0,
        greatest: 0,
        inside: false,
    };
    let mut words = tokens.words_below();
    let mut count = 0;
    while let Some((word, rest)) = words.next() {
        if let Err(broken) = scan.read(clause_word(word)) {
            return Err(broken.on_line(tokens.line_below(count)));
        }
        words = rest;
        count += 1;
    }
    if scan.inside {
        return Err(TextFault::Unfinished);
    }
    Ok(scan)
}

/// What the problem line says whose first token is this one, if it is one.
fn rest_of_header(first: Token<'_>, tokens: &mut Tokens) -> Option<Problem>
    ensures { HasProblem (onto_first first.entry tokens.old) result
        (all_tokens (below tokens.new)) }
{
    let cnf = tokens.next_in_line()?;
    let variables = tokens.next_in_line()?;
    let clauses = tokens.next_in_line()?;
    if tokens.next_in_line().is_some() {
        return None;
    }
    if first.bytes != b"p".as_slice() || cnf.bytes != b"cnf".as_slice() {
        return None;
    }
    Some(Problem {
        variables: decimal(variables.bytes)?,
        clauses: decimal(clauses.bytes)?,
    })
}

/// What the problem line says, if the first line that has a token is one; and goes to it.
fn read_header(tokens: &mut Tokens) -> Option<Problem>
    ensures { HasProblem tokens.old result (all_tokens (below tokens.new)) }
{
    loop {
        if let Some(first) = tokens.next_in_line() {
            return rest_of_header(first, tokens);
        }
        if !tokens.next_line() {
            return None;
        }
    }
}

/// Reads a DIMACS text (1993) and keeps nothing of it but what its problem line says: the first
/// line with a token is `p cnf V C`, and below it are C clauses, each with an end mark `0`, with no
/// variable above V. Lines, comments and numbers are those of an iCNF text, and so are the limits;
/// there are no cubes.
///
/// Answers V and C, or the text's first fault: `NoProblem`, then one of the clauses, in the order
/// of the text, then `Counts`. It needs no memory.
pub fn read_problem(text: &[u8]) -> Result<Problem, DimacsFault>
    // The text is that of a formula, within the limits, and the answer is what it says.
    ensures ok { IfOk result (λ said. (formula : List (List Literal)) × KeepsLimits formula
        × ((is : IsDimacs text.now formula) × (said ≡ told_problem is.problem))) }
    // Each such text is read.
    ensures only { (formula : List (List Literal)) → IsDimacs text.now formula
        → KeepsLimits formula → OnErr result ⊥ }
    // Another is refused for its first fault.
    ensures err { IfErr result (IsDimacsFault text.now) }
{
    read_counted(text)
}

/// The problem of a DIMACS text, or its fault.
fn read_counted(text: &[u8]) -> Result<Problem, DimacsFault>
    ensures ok { IfOk result (λ said. (formula : List (List Literal)) × KeepsLimits formula
        × ((is : IsDimacs text.now formula) × (said ≡ told_problem is.problem))) }
    ensures err { IfErr result (IsDimacsFault text.now) }
{
    let mut tokens = Tokens::new(text);
    let Some(problem) = read_header(&mut tokens) else {
        return Err(DimacsFault::NoProblem);
    };
    match read_clauses(tokens) {
        Ok(scan) => counted(problem, scan),
        Err(fault) => Err(DimacsFault::Text(fault)),
    }
}

/// The problem, if the scan has counted what it says.
fn counted(problem: Problem, scan: Scan) -> Result<Problem, DimacsFault>
    ensures ok { IfOk result (λ said. (said ≡ problem) × (scan.clauses ≡ problem.clauses)
        × (scan.greatest ≤ problem.variables)) }
    ensures err { IfErr result (λ fault. IsMiscount problem scan.clauses scan.greatest fault) }
{
    let greatest = u64::from(scan.greatest);
    let found = scan.clauses as u64;
    if greatest > problem.variables || found != problem.clauses {
        return Err(DimacsFault::Counts {
            variables: problem.variables,
            clauses: problem.clauses,
            greatest,
            found,
        });
    }
    Ok(problem)
}
