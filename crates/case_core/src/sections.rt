//! The sections of a bundle, read one label line after the other.

ghost use Rattle.std.specs.Prelude.{◌≡◌, ◌<◌, ◌≤◌, ◌+◌, length, OnOk, IfOk, IfErr, map};
ghost use Rattle.cnf_text.specs.Tokens.{words};
ghost use Rattle.case_core.specs.Label.{label_name};
ghost use Rattle.case_core.specs.Inner.Label.{IsLimited};

use crate::case::Section;
use crate::label::{LabelFault, target_of};
use split_tree::{Target, Tree};
use std::alloc::{AllocError, Global};

/// The sections so far, and for each node of the tree the place of its section, counted from 1, or
/// 0.
#[derive(Drop)]
pub(crate) struct Sections {
    pub(crate) sections: Vec<Section>,
    pub(crate) places: Vec<u32>,
}

impl Sections {
    ghost use Rattle.std.specs.Prelude.{◌≡◌, ◌≤◌, ◌+◌, [], length, OnOk, IfOk, IfErr, map};
    ghost use Rattle.case_core.specs.Case.{section_in, part_in};
    ghost use Rattle.case_core.specs.Inner.Bundle.{EndsWith};
    ghost use Rattle.case_core.specs.Inner.Sections.{AreKept, StopsAt, GoesOn};

    /// No section.
    pub(crate) fn new(alloc: Global, tree: &Tree) -> Result<Self, AllocError>
        ensures { IfOk result
            (λ read. (read.sections.items ≡ []) × AreKept tree.now [] read.places.items) }
    {
        let places = vec![in alloc; 0u32; tree.size() as usize]?;
        Ok(Sections {
            sections: Vec::new(alloc),
            places,
        })
    }

    /// One section more, for the target that a label line names. The text is the bundle from that
    /// line on, and the proof stands below the line.
    pub(crate) fn add(
        &mut self,
        alloc: Global,
        tree: &Tree,
        bundle: &[u8],
        text: &[u8],
        line: &[u8],
        proof: &[u8],
    ) -> Result<(), LabelFault>
        requires ends { EndsWith bundle.now text.now }
        requires place { part_in text.now (length line.now + 1) (length proof.now) ≡ proof.now }
        requires within { length line.now ≤ length text.now }
        requires limited { IsLimited tree.now }
        requires kept { AreKept tree.now
            (map (section_in bundle.now) self.old.sections.items) self.old.places.items }
        ensures kept { OnOk result
            (AreKept tree.now
            (map (section_in bundle.now) self.new.sections.items) self.new.places.items) }
        ensures added { OnOk result
            (GoesOn tree.now (map (section_in bundle.now) self.old.sections.items)
            (map (section_in bundle.now) self.new.sections.items)
            (label_name (words line.now)) proof.now) }
        ensures err { IfErr result
            (StopsAt tree.now (map (section_in bundle.now) self.old.sections.items)
            (label_name (words line.now))) }
    {
        let target = match target_of(alloc, tree, line) {
            Ok(target) => target,
            Err(fault) => return Err(fault),
        };
        let placed = target;
        let node = tree.node_of_target(placed).index();
        if self.places[node] != 0 {
            return Err(LabelFault::Twice);
        }
        self.sections.push(Section {
            target,
            start: bundle.len() - text.len() + line.len() + 1,
            length: proof.len(),
        })?;
        // The proof takes from this call that the tree has fewer than 2 to the power 32 nodes.
        let _nodes = tree.size();
        self.places[node] = self.sections.len() as u32;
        Ok(())
    }
}
