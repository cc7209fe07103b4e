//! A case: a formula, the tree of its cubes, and sections for targets of the tree.

ghost use Rattle.std.specs.Prelude.{◌≡◌};
ghost use Rattle.case_core.specs.Case.{part_in};

use cnf_text::Formula;
use hint_check::Base;
use split_tree::{Target, Tree};
use std::marker::Model;

/// A target, and where the text of its proof stands in the bundle: `Case::proof_at` gives it.
#[derive(Drop)]
pub struct Section {
    /// What the proof is for: a leaf, or an inner node.
    pub target: Target,
    /// Where the proof begins in the case's text.
    pub(crate) start: usize,
    /// The number of the proof's bytes.
    pub(crate) length: usize,
}

/// A formula, the tree of its cubes, and sections in the order of the text, no two of them for one
/// target. It doesn't change.
pub struct Case {
    pub(crate) base: Base<'static>,
    /// The bundle that was read. The proofs are parts of it.
    pub(crate) text: Vec<u8>,
    pub(crate) tree: Tree,
    pub(crate) sections: Vec<Section>,
    /// For each node the place of its section, counted from 1, or 0.
    pub(crate) places: Vec<u32>,
}

// As a derive does, but proved here alone and not in the body of each owner.
impl Drop for Case {
    fn drop(self) {
        let Case {
            base: _,
            text: _,
            tree: _,
            sections: _,
            places: _,
        } = self;
    }
}

impl Model for Case {
    ghost use Rattle.std.specs.Prelude.{map};
    ghost use Rattle.case_core.specs.Case.{CaseOf, section_in};
    ghost use Rattle.case_core.specs.Inner.Case.{IsCaseKept};
    ghost use Rattle.case_core.specs.CaseCode.{case_code};

    ghost Value = { CaseOf };

    ghost coded = { case_code };

    ghost view = { λ c. record {
      formula = c.base;
      tree = c.tree;
      sections = map (section_in c.text.items) c.sections.items;
    } };

    ghost invariant = { λ c.
        IsCaseKept c.tree (map (section_in c.text.items) c.sections.items) c.places.items };
}

impl Case {
    ghost use Rattle.std.specs.Prelude.{◌≡◌, ℕ, ◌<◌, ◌≤◌, ◌^◌, ◌+◌, length, map, MatchOption, None};
    ghost use Rattle.std.specs.Prelude.{Some};
    ghost use Rattle.split_tree.specs.SplitTree.{total};
    ghost use Rattle.split_tree.specs.Leaves.{HasTarget, IsTargetAt};
    ghost use Rattle.case_core.specs.Case.{targets_of, section_at, AreSections, proof_for};

    /// The formula: all clauses of the text.
    pub fn formula(&self) -> &Formula
        ensures { result.now ≡ self.now.formula }
    {
        self.base.formula()
    }

    /// The tree of the cubes.
    pub fn tree(&self) -> &Tree
        ensures tree { result.now ≡ self.now.tree }
        ensures total { total 0 self.now.tree ≤ 2 ^ 60 + 2 ^ 24 }
    {
        &self.tree
    }

    /// What the formula's checkers stand on.
    pub(crate) fn base(&self) -> &Base<'static>
        ensures { result.now ≡ self.now.formula }
    {
        &self.base
    }

    /// The proof of the section for a target, or `None` where it has none. It asks for a target of
    /// the tree.
    pub fn proof_for(&self, target: Target) -> Option<&[u8]>
        requires { HasTarget self.now.tree target }
        ensures found { MatchOption result (proof_for self.now.sections target ≡ None)
            (λ proof. proof_for self.now.sections target ≡ Some proof.now) }
        ensures one_place { (i j : ℕ) → IsTargetAt self.now.tree i target
            → IsTargetAt self.now.tree j target → i ≡ j }
    {
        let node = self.tree.node_of_target(target);
        let place = self.places[node.index()] as usize;
        if place == 0 {
            return None;
        }
        Some(self.proof_at(place - 1))
    }

    /// The proof of the section at a place, from 0, in the order of the text.
    pub fn proof_at(&self, place: usize) -> &[u8]
        requires { place < length self.now.sections }
        ensures { result.now ≡ (section_at self.now.sections place).proof }
    {
        let section = &self.sections[place];
        part_of(&self.text, section.start, section.length)
    }

    /// The sections, in the order of the text.
    pub fn sections(&self) -> &[Section]
        ensures targets_are { map (λ section. section.target) result.now
            ≡ targets_of self.now.sections }
        ensures targets { AreSections self.now.tree self.now.sections }
    {
        &self.sections
    }
}

/// The part of a text that begins at a place and has this length.
fn part_of(text: &[u8], start: usize, length: usize) -> &[u8]
    ensures { result.now ≡ part_in text.now start length }
{
    let behind = &text[start.min(text.len())..];
    &behind[..length.min(behind.len())]
}
