//! Reports that are joined, one after the other.

ghost use Rattle.std.specs.Prelude.{◌≡◌, ◌<◌, ◌≢◌, length, IfOk, IfErr, IsTrue, List, false};
ghost use Rattle.split_tree.specs.SplitTree.{size};
ghost use Rattle.mark_board.specs.declared.mark.Mark.{Mark};
ghost use Rattle.mark_board.specs.Marking.{mark_at, marked, refuted_by};
ghost use Rattle.cube_report.specs.Report.{report_text};
ghost use Rattle.cube_join.specs.Joined.{IsLegible, IsStranger, IsToldBy, joined, joined_mark};
ghost use Rattle.cube_join.specs.Joined.{none_marked};

use crate::reading::marks_in;
use case_core::Tree;
use cube_report::report_of;
use mark_board::{Mark, MarkedTree, Marks};
use std::alloc::{AllocError, Global};
use std::marker::Model;

/// What reports on one tree say together.
#[derive(Drop)]
pub struct Join<'t> {
    tree: &'t Tree,
    marks: Vec<Mark>,
}

/// The report by joined marks.
#[derive(Drop)]
pub struct Joined {
    /// Its text.
    pub text: Vec<u8>,
    /// Whether it says refuted.
    pub refuted: bool,
}

impl<'t> Model for Join<'t> {
    ghost use Rattle.std.specs.Coded.{codes};
    ghost use Rattle.split_tree.specs.TreeCode.{tree_code};
    ghost use Rattle.mark_board.specs.Marks.{MarksOf};
    ghost use Rattle.cube_join.specs.Joined.{HasMarkEach};

    ghost Value = { MarksOf };

    ghost coded = { Prim.hlevel (codes, tree_code) };

    ghost view = { λ j. record { tree = j.tree.now; marks = j.marks.items } };

    ghost invariant = { λ j. HasMarkEach j.tree.now j.marks.items };
}

impl<'t> Join<'t> {
    /// Of no report yet. `AllocError` where a growth was refused.
    pub fn new(alloc: Global, tree: &'t Tree) -> Result<Join<'t>, AllocError>
        ensures tree { IfOk result (λ join. join.tree ≡ tree.now) }
        ensures none { IfOk result (λ join. join.marks ≡ none_marked tree.now) }
    {
        let marks = Vec::from_elem(alloc, Mark::Open, tree.size() as usize)?;
        Ok(Join { tree, marks })
    }

    /// Joins what a report says: false where the text is no report on this tree, and then nothing
    /// changes. How the marks are taken from the text counts for nothing: the report is made of
    /// them again, and has to be the text. `AllocError` where a growth was refused; then nothing
    /// changes, either.
    pub fn add(&mut self, alloc: Global, report: &[u8]) -> Result<bool, AllocError>
        ensures tree { self.new.tree ≡ self.old.tree }
        ensures joined { IfOk result (λ is. IsTrue is → (told : List Mark)
            × IsToldBy self.old.tree report.now told
            × (self.new.marks ≡ joined self.old.marks told)) }
        ensures stranger { IfOk result
            (λ is. is ≡ false → IsLegible self.old.tree → IsStranger self.old.tree report.now) }
        ensures kept { IfOk result (λ is. is ≡ false → self.new.marks ≡ self.old.marks) }
        ensures err { IfErr result (λ _. self.new.marks ≡ self.old.marks) }
    {
        let Some(told) = marks_in(alloc, self.tree, report)? else {
            return Ok(false);
        };
        if !is_report_by(alloc, self.tree, &told, report)? {
            return Ok(false);
        }
        join_marks(&mut self.marks, &told);
        Ok(true)
    }

    /// The report by what was joined, and whether it says refuted. `AllocError` where a growth was
    /// refused.
    pub fn report(&self, alloc: Global) -> Result<Joined, AllocError>
        ensures text { IfOk result
            (λ joined. joined.text.items ≡ report_text self.now.tree self.now.marks) }
        ensures refuted { IfOk result
            (λ joined. joined.refuted ≡ marked (refuted_by self.now.marks) 0 self.now.tree) }
    {
        let told = Marks::of(alloc, self.tree, &self.marks)?;
        let text = report_of(alloc, &told)?;
        let refuted = told.open_under(self.tree.root()) == 0;
        Ok(Joined { text, refuted })
    }
}

/// Whether this text is the report by these marks.
fn is_report_by(
    alloc: Global,
    tree: &Tree,
    told: &[Mark],
    report: &[u8],
) -> Result<bool, AllocError>
    requires { length told.now ≡ size tree.now }
    ensures yes { IfOk result (λ is. IsTrue is → report.now ≡ report_text tree.now told.now) }
    ensures no { IfOk result (λ is. is ≡ false → report.now ≢ report_text tree.now told.now) }
{
    let marks = Marks::of(alloc, tree, told)?;
    let text = report_of(alloc, &marks)?;
    Ok(text.as_slice() == report)
}

/// Joins the marks that a report tells with those so far, node by node.
fn join_marks(so_far: &mut Vec<Mark>, told: &[Mark])
    requires { length so_far.old.items ≡ length told.now }
    ensures { so_far.new.items ≡ joined so_far.old.items told.now }
{
    for node in 0..told.len() {
        let kept = join_mark(mark_in(so_far, node), mark_in(told, node));
        so_far[node] = kept;
    }
}

/// The mark of a node in a list.
fn mark_in(marks: &[Mark], node: usize) -> Mark
    requires { node < length marks.now }
    ensures { result ≡ mark_at marks.now node }
{
    marks[node]
}

/// Of two marks of one node, the one that a join keeps.
fn join_mark(mark: Mark, later: Mark) -> Mark
    ensures { result ≡ joined_mark mark later }
{
    match mark {
        Mark::Open => later,
        Mark::Refuted => Mark::Refuted,
        Mark::Rejected { step, reason } => match later {
            Mark::Refuted => Mark::Refuted,
            _ => Mark::Rejected { step, reason },
        },
    }
}
