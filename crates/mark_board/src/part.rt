//! The verdict of a part, and the mark that a judgement gives.

ghost use Rattle.std.specs.Prelude.{◌≡◌, ◌<◌};
ghost use Rattle.case_core.specs.Formula.{IsRefuted};
ghost use Rattle.split_tree.specs.SplitTree.{path_at};
ghost use Rattle.mark_board.specs.TopPlaces.{part_count, part_root};
ghost use Rattle.mark_board.specs.Findings.{mark_as};

use crate::mark::Mark;
use case_core::{Case, Judged};

/// That a formula has no model together with the path of a part's root. Only a board whose root
/// became marked makes one.
#[derive(Drop)]
pub struct PartVerdict<'c> {
    pub(crate) case: &'c Case,
    pub(crate) cut: u32,
    pub(crate) part: u32,
    pub ghost within: { part < part_count cut case.now.tree },
    pub ghost refuted: { IsRefuted case.now.formula
        (path_at case.now.tree (part_root cut case.now.tree part)) },
}

impl<'c> PartVerdict<'c> {
    /// The part's number, from 0 in tree order.
    pub fn part(&self) -> u32
        ensures { result ≡ self.now.part }
    {
        self.part
    }
}

/// The mark that a judgement gives.
pub fn mark_for(judged: Judged) -> Mark
    ensures { result ≡ mark_as judged }
{
    match judged {
        Judged::Refuted => Mark::Refuted,
        Judged::Rejected { step, reason } => Mark::Rejected { step, reason },
    }
}
