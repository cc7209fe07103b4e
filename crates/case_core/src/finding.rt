//! What is found of a target.

ghost use Rattle.std.specs.Prelude.{◌≡◌, ℕ};
ghost use Rattle.split_tree.specs.Leaves.{IsTargetAt};
ghost use Rattle.case_core.specs.Finding.{IsFinding, IsSoundFinding, target_of};
ghost use Rattle.case_core.specs.Inner.Finding.{IsTargetAt-prop};

use crate::case::Case;
use hint_check::Judged;
use split_tree::{Leaf, NodeId, Target};

/// The judgement of a target's section in its case, or of a proof that the case doesn't hold, for a
/// leaf without a section. Only `examine`, and `Examiner` by `examine` and `examine_read`, make
/// one.
///
/// It keeps a leaf or the number of an inner node, and the number of the node at which its target
/// stands: so it is small, can be moved, and a board finds its row without a search.
#[derive(Drop)]
pub struct Finding<'c> {
    pub(crate) case: &'c Case,
    /// The leaf that it is of, or `None` for an inner node.
    pub(crate) leaf: Option<Leaf>,
    /// The number of the node at which the target stands.
    pub(crate) node: u32,
    pub(crate) judged: Judged,
    pub ghost here: { IsTargetAt case.now.tree node
        (target_of leaf node) } by { IsTargetAt-prop _ _ _ },
    pub ghost only: { (i : ℕ) → IsTargetAt case.now.tree i (target_of leaf node) → i ≡ node },
    pub ghost is: { IsFinding case.now (target_of leaf node) judged },
    pub ghost sound: { IsSoundFinding case.now (target_of leaf node) judged },
}

impl<'c> Finding<'c> {
    /// Its case.
    pub fn case(&self) -> &'c Case
        ensures { result.now ≡ self.now.case.now }
    {
        self.case
    }

    /// Its target.
    pub fn target(&self) -> Target
        ensures { result ≡ target_of self.now.leaf self.now.node }
    {
        match self.leaf {
            Some(leaf) => Target::Leaf(leaf),
            None => Target::Node(NodeId::new(self.node)),
        }
    }

    /// The node at which the target stands.
    pub fn node(&self) -> NodeId
        ensures value { result ≡ self.now.node }
        ensures here { IsTargetAt self.now.case.now.tree result
            (target_of self.now.leaf self.now.node) }
    {
        NodeId::new(self.node)
    }

    /// The same finding once more, for other boards.
    pub fn again(&self) -> Finding<'c>
        ensures case { result.case.now ≡ self.now.case.now }
        ensures leaf { result.leaf ≡ self.now.leaf }
        ensures node { result.node ≡ self.now.node }
        ensures judged { result.judged ≡ self.now.judged }
    {
        Finding {
            case: self.case,
            leaf: self.leaf,
            node: self.node,
            judged: self.judged,
        }
    }

    /// What is said of the target's proof.
    pub fn judged(&self) -> Judged
        ensures value { result ≡ self.now.judged }
        ensures is { IsFinding self.now.case.now (target_of self.now.leaf self.now.node) result }
    {
        self.judged
    }
}
