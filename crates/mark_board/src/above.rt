//! Where the nodes of a case's tree stand on a top board.

ghost use Rattle.std.specs.Prelude.{◌≡◌, ◌<◌, ◌↔◌, IsTrue};
ghost use Rattle.split_tree.specs.SplitTree.{size};
ghost use Rattle.mark_board.specs.BoardData.{IsAbove};
ghost use Rattle.mark_board.specs.TopPlaces.{part_count, part_place, IsPlaceOf};
ghost use Rattle.mark_board.specs.Inner.Top.{HasOwnPlace, IsPartOf};

use crate::board::Board;
use case_core::{Leaf, NodeId};
use split_tree::Top;

impl<'c> Board<'c> {
    /// The place of a part, by its number.
    pub(crate) fn place_of_part(&self, above: &Top, part: u32) -> usize
        requires above { IsAbove self.now.cut self.now.case.tree above.now }
        requires part { part < part_count self.now.cut self.now.case.tree }
        ensures place { result ≡ part_place self.now.cut self.now.case.tree part }
    {
        // The proof takes from this call that the parts are fewer than 2 to the power 32.
        let _count = above.tree.missing_count();
        above.tree.node_of_leaf(Leaf::Missing(part + 1)).index()
    }

    /// The place of a node of the tree: its own, where it is an inner node above the cut, and
    /// otherwise that of its part.
    pub(crate) fn place_above(&self, above: &Top, node: NodeId) -> usize
        requires above { IsAbove self.now.cut self.now.case.tree above.now }
        requires node { node < size self.now.case.tree }
        ensures { IsPlaceOf self.now.cut self.now.case.tree node result }
    {
        // The proof takes from this call that the tree has fewer than 2 to the power 32 nodes.
        let _few = above.tree.size();
        let mut place = 0;
        while above.nodes[place].number() != node.number() {
            let here = NodeId::new(place as u32);
            let Some((first, second)) = above.tree.branches(here) else {
                return place;
            };
            place = if node.number() < above.nodes[second.index()].number() {
                first.index()
            } else {
                second.index()
            };
        }
        place
    }

    /// The number of the part in which a node lies, or `None` for an inner node above the cut.
    pub(crate) fn part_of(&self, above: &Top, node: NodeId) -> Option<u32>
        requires above { IsAbove self.now.cut self.now.case.tree above.now }
        requires node { node < size self.now.case.tree }
        ensures { IsPartOf self.now.cut self.now.case.tree node result }
    {
        // The proof takes from this call that the tree has fewer than 2 to the power 32 nodes.
        let _few = above.tree.size();
        let place = self.place_above(above, node);
        match above.tree.leaf_at(NodeId::new(place as u32)) {
            None => None,
            Some(Leaf::Missing(number)) => Some(number - 1),
            Some(Leaf::Cube(_)) => unreachable!(),
        }
    }

    /// Whether a node is an inner node above the cut.
    pub(crate) fn is_above(&self, above: &Top, node: NodeId) -> bool
        requires { IsAbove self.now.cut self.now.case.tree above.now }
        ensures { IsTrue result ↔ HasOwnPlace self.now.cut self.now.case.tree node }
    {
        if node.number() >= self.case().tree().size() {
            return false;
        }
        match self.part_of(above, node) {
            None => true,
            Some(_) => false,
        }
    }
}
