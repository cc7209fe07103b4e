//! For each literal the ids of a formula's clauses that hold it.
ghost use Rattle.std.specs.Prelude.{◌≡◌, ℕ, List, ◌^◌, ◌-◌, ◌<◌, ◌≤◌, ◌==◌, ◌++◌, length, true};
ghost use Rattle.std.specs.Prelude.{slice_index_or, IfOk, OnOk};
ghost use Rattle.std.specs.List.{Contains, list_any};
ghost use Rattle.hint_check.specs.Inner.Holders.{holder_of, holders_by, AreInOrder, NamesEach};

use cnf_text::literal::Lit;
use std::alloc::{AllocError, Global};
use std::marker::Model;

/// The literals for which a clause is listed.
#[derive(Drop)]
pub struct Indexed<'c> {
    lits: &'c [Lit],
}

impl<'c> Model for Indexed<'c> {
    ghost use Rattle.std.specs.Prelude.{List};
    ghost use Rattle.cnf_text.specs.Literal.{Literal};

    ghost Value = { List Literal };

    ghost view = { λ indexed. indexed.lits.now };
}

impl<'c> Indexed<'c> {
    /// A clause that is listed for these literals.
    pub fn new(lits: &'c [Lit]) -> Indexed<'c>
        ensures { result ≡ lits.now }
    {
        Indexed { lits }
    }

    /// These literals.
    fn lits(&self) -> &[Lit]
        ensures { result.now ≡ self.now }
    {
        self.lits
    }
}

/// Starts are made for numbers below this, however few holders there are.
const NEAR: usize = 65536;

/// Starts are made for so many numbers for each holder.
const NUMBERS_PER_HOLDER: usize = 2;

/// A clause, by its id, that holds the literal of a number.
#[derive(Clone, Copy, PartialEq, Eq, PartialOrd, Ord)]
pub struct Holder {
    number: u32,
    id: u32,
}

/// The holders of all literals. To a contract they are the list of them, in order.
#[derive(Drop)]
pub struct Holders {
    list: Vec<Holder>,
    /// Where those of each number begin, as far as numbers are near. It is a guess that each
    /// look-up checks: a wrong one costs time, and hides no holder.
    starts: Vec<u32>,
}

impl Model for Holders {
    ghost use Rattle.std.specs.Prelude.{List};
    ghost use Rattle.hint_check.specs.declared.holders.Holder.{Holder};
    ghost use Rattle.hint_check.specs.Inner.Holders.{AreInOrder};

    ghost Value = { List Holder };

    ghost view = { λ holders. holders.list.items };

    ghost invariant = { λ holders. AreInOrder holders.list.items };
}

impl Holders {
    ghost use Rattle.std.specs.Prelude.{◌≡◌, ℕ, ◌==◌, ◌++◌, List, true, IfOk, OnOk};
    ghost use Rattle.std.specs.List.{Contains, list_any};
    ghost use Rattle.cnf_text.specs.Literal.{literal_number};
    ghost use Rattle.hint_check.specs.Inner.Holders.{holder_of, NamesEach};

    /// Those of all literals of clauses, which have the ids from 1 on. An error is a refused
    /// growth, or that four bytes don't count the clauses.
    pub fn of(alloc: Global, clauses: &[Indexed]) -> Result<Holders, AllocError>
        ensures { IfOk result (λ holders. NamesEach holders clauses.now) }
    {
        if clauses.len() > u32::MAX as usize {
            return Err(AllocError);
        }
        let list = list_of(alloc, clauses)?;
        let starts = starts_of(alloc, &list)?;
        Ok(Holders { list, starts })
    }

    /// Puts ids behind those of a list: the ids of the clauses that hold a literal, and maybe
    /// others.
    pub fn list(&self, lit: Lit, ids: &mut Vec<u64>) -> Result<(), AllocError>
        ensures { OnOk result ((more : List ℕ) × (ids.new.items ≡ ids.old.items ++ more)
            × ((id : ℕ) → Contains self.now (holder_of (literal_number lit) id)
            → list_any (λ named. named == id) more ≡ true)) }
    {
        let number = lit.number();
        let begin = begin_of(&self.list, number, self.guess(number));
        push_run(&self.list, begin, number, ids)
    }

    /// Where the holders of a number may begin.
    fn guess(&self, number: u32) -> usize {
        match self.starts.get(number as usize) {
            Some(start) => *start as usize,
            None => self.list.len(),
        }
    }
}

/// A place in a list in order, behind which all holders of a number stand: the guess, unless it is
/// behind a holder of this number or a greater one, and then the place that a search finds.
fn begin_of(list: &[Holder], number: u32, guess: usize) -> usize
    requires { AreInOrder list.now }
    ensures bound { result ≤ length list.now }
    ensures before { (holder : Holder) → 0 < result
        → (slice_index_or list.now (result - 1) holder).number < number }
{
    let begin = guess.min(list.len());
    if begin > 0 && list[begin - 1].number >= number {
        return list.partition_point(|holder| holder.number < number);
    }
    begin
}

/// Puts the ids of the holders in a list in order, from a place up to the last one of a number,
/// behind those of a list.
fn push_run(
    list: &[Holder],
    begin: usize,
    number: u32,
    ids: &mut Vec<u64>,
) -> Result<(), AllocError>
    requires order { AreInOrder list.now }
    requires bound { begin ≤ length list.now }
    requires before { (holder : Holder) → 0 < begin
        → (slice_index_or list.now (begin - 1) holder).number < number }
    ensures { OnOk result ((more : List ℕ) × (ids.new.items ≡ ids.old.items ++ more)
        × ((id : ℕ) → Contains list.now (holder_of number id)
        → list_any (λ named. named == id) more ≡ true)) }
{
    for holder in &list[begin..] {
        if holder.number > number {
            return Ok(());
        }
        if ids.len() == ids.capacity() {
            ids.reserve(1)?;
        }
        ids.push_reserved(u64::from(holder.id));
    }
    Ok(())
}

/// The holders of clauses' literals, in order and each once.
fn list_of(alloc: Global, clauses: &[Indexed]) -> Result<Vec<Holder>, AllocError>
    requires { length clauses.now < 2 ^ 32 }
    ensures order { IfOk result (λ list. AreInOrder list.items) }
    ensures names { IfOk result (λ list. NamesEach list.items clauses.now) }
{
    let mut list: Vec<Holder> = Vec::new(alloc);
    for (place, clause) in clauses.iter().enumerate() {
        push_holders(clause.lits(), place as u32 + 1, &mut list)?;
    }
    list.sort_unstable();
    list.dedup();
    Ok(list)
}

/// Puts a clause, as a holder of each of its literals, behind the holders of a list.
fn push_holders(lits: &[Lit], id: u32, list: &mut Vec<Holder>) -> Result<(), AllocError>
    ensures { OnOk result (list.new.items ≡ list.old.items ++ holders_by id lits.now) }
{
    for lit in lits {
        let number = lit.number();
        list.push(Holder { number, id })?;
    }
    Ok(())
}

/// Where the holders of each near number begin in a list in order, or would. A few great numbers
/// take no memory for all below them.
fn starts_of(alloc: Global, list: &[Holder]) -> Result<Vec<u32>, AllocError> {
    let reach = list.len().saturating_mul(NUMBERS_PER_HOLDER).max(NEAR);
    let mut starts: Vec<u32> = Vec::new(alloc);
    for (place, holder) in list.iter().enumerate() {
        let number = holder.number as usize;
        if number >= reach || place > u32::MAX as usize {
            break;
        }
        if number >= starts.len() {
            starts.resize(number + 1, place as u32)?;
        }
    }
    Ok(starts)
}
