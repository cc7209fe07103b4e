//! Clauses as blocks of the literals that falsify theirs.
ghost use Rattle.std.specs.Prelude.{◌≡◌, ◌≤◌, ◌++◌, Some, IfOk, OnOk, List, drop, length};
ghost use Rattle.std.specs.Prelude.{slice_range};
ghost use Rattle.std.specs.List.{slice_get};
ghost use Rattle.cnf_text.specs.Literal.{Literal};
ghost use Rattle.hint_check.specs.Inner.Blocks.{falsified_by, kept, with_block, clause_of};
ghost use Rattle.hint_check.specs.Inner.Blocks.{BlockWithin, Within, Grows};

use cnf_text::literal::Lit;
use std::alloc::AllocError;
use std::marker::Model;

/// What makes a literal of a clause false: the number of its negation. It is 0 for a blank, which
/// fills up a block.
#[derive(Clone, Copy)]
pub struct Falsifier {
    number: u32,
}

/// A blank.
pub const BLANK: Falsifier = Falsifier { number: 0 };

/// The numbers of literals are below this, and from 2 on.
const NUMBERS: u32 = 536_870_912;

impl Falsifier {
    ghost use Rattle.std.specs.Prelude.{◌≡◌, Some, false};
    ghost use Rattle.hint_check.specs.Inner.Blocks.{falsified_by, AreApart};

    /// That of a literal.
    #[inline(always)]
    fn of(lit: Lit) -> Falsifier
        ensures { falsified_by result ≡ Some lit }
    {
        Falsifier {
            number: lit.variable() * 2 + u32::from(lit.positive()),
        }
    }

    /// Its number.
    #[inline(always)]
    pub fn number(self) -> u32
        ensures { result ≡ self.number }
    {
        self.number
    }

    /// The literal that it falsifies. A blank falsifies none.
    #[inline(always)]
    pub fn literal(self) -> Option<Lit>
        ensures { result ≡ falsified_by self }
    {
        if self.number < 2 || self.number >= NUMBERS {
            return None;
        }
        Some(Lit::from_parts(self.number / 2, self.number % 2 == 1))
    }

    /// Whether another one may falsify the negation of what this one falsifies.
    #[inline(always)]
    fn may_clash(self, other: Falsifier) -> bool
        ensures { result ≡ false → AreApart (falsified_by self) (falsified_by other) }
    {
        self.number ^ 1 == other.number
    }
}

/// Four falsifiers. Those of a clause fill as many blocks as they need, and blanks the last one.
#[derive(Clone, Copy)]
pub struct Block {
    pub first: Falsifier,
    pub second: Falsifier,
    pub third: Falsifier,
    pub fourth: Falsifier,
}

impl Block {
    ghost use Rattle.std.specs.Prelude.{◌≡◌, ◌≤◌, [], false};
    ghost use Rattle.hint_check.specs.Literals.{is_tautology};
    ghost use Rattle.hint_check.specs.Inner.Blocks.{with_block, BlockWithin};

    /// The greatest number of its falsifiers, or this one if it is greater.
    #[inline(always)]
    fn reach(self, reach: u32) -> u32
        ensures within { BlockWithin self result }
        ensures more { reach ≤ result }
    {
        let former = self.first.number.max(self.second.number);
        let latter = self.third.number.max(self.fourth.number);
        former.max(latter).max(reach)
    }

    /// Whether it may have a literal and its negation.
    #[inline(always)]
    fn may_clash(self) -> bool
        ensures { result ≡ false → is_tautology (with_block self []) ≡ false }
    {
        if self.first.may_clash(self.second) {
            return true;
        }
        if self.first.may_clash(self.third) {
            return true;
        }
        if self.first.may_clash(self.fourth) {
            return true;
        }
        if self.second.may_clash(self.third) {
            return true;
        }
        if self.second.may_clash(self.fourth) {
            return true;
        }
        self.third.may_clash(self.fourth)
    }
}

/// The falsifier of the literal at a place, or a blank where there is none.
#[inline(always)]
fn falsifier_at(lits: &[Lit], place: usize) -> Falsifier
    ensures { falsified_by result ≡ slice_get lits.now place }
{
    match lits.get(place) {
        Some(lit) => Falsifier::of(*lit),
        None => BLANK,
    }
}

/// The block of the first four literals, or of all where there are fewer.
#[inline(always)]
fn block_of(lits: &[Lit]) -> Block
    ensures { with_block result (drop 4 lits.now) ≡ lits.now }
{
    Block {
        first: falsifier_at(lits, 0),
        second: falsifier_at(lits, 1),
        third: falsifier_at(lits, 2),
        fourth: falsifier_at(lits, 3),
    }
}

/// The literals behind the first four, or none where there are fewer.
#[inline(always)]
fn behind_block(lits: &[Lit]) -> &[Lit]
    ensures { result.now ≡ drop 4 lits.now }
{
    &lits[lits.len().min(4)..]
}

/// Puts the blocks of another list from a place up to an end behind those of a list, and answers
/// where they begin there.
pub fn push_blocks(
    list: &mut Vec<Block>,
    blocks: &[Block],
    start: usize,
    end: usize,
) -> Result<usize, AllocError>
    requires ordered { start ≤ end }
    requires within { end ≤ length blocks.now }
    ensures grown { OnOk result
        (list.new.items ≡ list.old.items ++ slice_range blocks.now start end) }
    ensures begins { IfOk result (λ begin. begin ≡ length list.old.items) }
{
    let begin = list.len();
    list.extend_from_slice(&blocks[start..end])?;
    Ok(begin)
}

/// Puts the blocks of a clause behind those of a list, in which no falsifier has a number above the
/// reach. After an error some of them may stand there.
#[inline(always)]
pub fn push_clause(blocks: &mut Vec<Block>, reach: &mut u32, lits: &[Lit]) -> Result<(), AllocError>
    ensures grown { Grows blocks.old.items blocks.new.items
        (λ more. OnOk result (clause_of more ≡ lits.now)) }
    ensures within { Within blocks.old.items reach.old → Within blocks.new.items reach.new }
{
    let mut rest = lits;
    while !rest.is_empty() {
        let block = block_of(rest);
        *reach = block.reach(*reach);
        blocks.push(block)?;
        rest = behind_block(rest);
    }
    Ok(())
}

/// Blocks, and a number that no falsifier in them is above. What looks at clauses holds them by
/// value.
#[derive(Clone, Copy)]
pub struct Blocks<'b> {
    pub list: &'b [Block],
    pub reach: u32,
    ghost within: { Within list.now reach },
}

/// A clause in its blocks. To a contract it is the list of its literals.
#[derive(Drop)]
pub struct Run<'r> {
    blocks: Blocks<'r>,
}

impl<'r> Model for Run<'r> {
    ghost use Rattle.std.specs.Prelude.{List};
    ghost use Rattle.cnf_text.specs.Literal.{Literal};
    ghost use Rattle.hint_check.specs.Inner.Blocks.{clause_of};

    ghost Value = { List Literal };

    ghost view = { λ run. clause_of run.blocks.list.now };
}

impl<'r> Run<'r> {
    ghost use Rattle.std.specs.Prelude.{◌≡◌, ◌≤◌, ◌++◌, OnOk, false, length, slice_range};
    ghost use Rattle.hint_check.specs.Literals.{is_tautology};
    ghost use Rattle.hint_check.specs.Inner.Blocks.{clause_of};

    /// The clause in the blocks from a place up to another.
    #[inline(always)]
    pub fn new(blocks: Blocks<'r>, start: usize, end: usize) -> Run<'r>
        requires { (start ≤ end) × (end ≤ length blocks.list.now) }
        ensures { result ≡ clause_of (slice_range blocks.entry.list.now start end) }
    {
        let list = &blocks.list[start..end];
        let reach = blocks.reach;
        Run {
            blocks: Blocks { list, reach },
        }
    }

    /// Its blocks.
    #[inline(always)]
    pub fn blocks(&self) -> Blocks<'r>
        ensures { clause_of result.list.now ≡ self.now }
    {
        self.blocks
    }

    /// Whether it may have a literal and its negation. A clause of more than one block may.
    #[inline(always)]
    pub fn may_clash(&self) -> bool
        ensures { result ≡ false → is_tautology self.now ≡ false }
    {
        match self.blocks.list {
            [block] => block.may_clash(),
            _ => true,
        }
    }

    /// Puts its literals in the place of those of a list.
    pub fn list(&self, lits: &mut Vec<Lit>) -> Result<(), AllocError>
        ensures { OnOk result (lits.new.items ≡ self.now) }
    {
        lits.clear();
        for block in self.blocks.list {
            push_literal(block.first, lits)?;
            push_literal(block.second, lits)?;
            push_literal(block.third, lits)?;
            push_literal(block.fourth, lits)?;
        }
        Ok(())
    }
}

/// Puts the literal of a falsifier behind those of a list, where it is no blank.
#[inline(always)]
fn push_literal(falsifier: Falsifier, lits: &mut Vec<Lit>) -> Result<(), AllocError>
    ensures { OnOk result ((rest : List Literal)
        → lits.new.items ++ rest ≡ lits.old.items ++ kept falsifier rest) }
{
    match falsifier.literal() {
        Some(lit) => Ok(lits.push(lit)?),
        None => Ok(()),
    }
}
