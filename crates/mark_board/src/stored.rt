//! What a board keeps.

ghost use Rattle.std.specs.Prelude.{◌≡◌, ◌≤◌, ◌<◌, ℕ, IfOk, map, length, slice_index, replicate};
ghost use Rattle.split_tree.specs.SplitTree.{size};
ghost use Rattle.mark_board.specs.Board.{board_tree};
ghost use Rattle.mark_board.specs.BoardData.{IsDataOf, place_of_region};
ghost use Rattle.mark_board.specs.TopPlaces.{part_count, part_root, worth_of};
ghost use Rattle.mark_board.specs.declared.mark.Mark.TheVariants.{Open};
ghost use Rattle.mark_board.specs.declared.place.Place.TheVariants.{Part as part_place};
ghost use Rattle.mark_board.specs.declared.place.Place.TheVariants.{Top as at_top};

use crate::rows::Rows;
use case_core::{Case, NodeId, Tree};
use split_tree::Top;
use std::alloc::{AllocError, Global};

/// Which nodes of a case's tree stand on a board.
#[derive(Drop)]
pub(crate) enum Region {
    /// Those of the part of this number, from its root on.
    Part { part: u32, root: u32 },
    /// Those above the cut, with the roots of the parts.
    Top(Top),
}

/// A board without its case: its cut, its nodes, their marks and open weights.
pub struct BoardData {
    pub(crate) cut: u32,
    pub(crate) region: Region,
    pub(crate) rows: Rows,
}

// As a derive does. But who owns a board calls this, where a derived drop stands field by field in
// the body of each owner, and is proved there.
impl Drop for BoardData {
    fn drop(self) {
        let BoardData {
            cut: _,
            region: _,
            rows: _,
        } = self;
    }
}

/// The node at the root of a part, by the part's number from 0 in tree order. `AllocError` where a
/// growth was refused.
fn root_of_part(alloc: Global, case: &Case, cut: u32, part: u32) -> Result<NodeId, AllocError>
    requires cut { cut ≤ 6 }
    requires part { part < part_count cut case.now.tree }
    ensures value { IfOk result (λ root. root ≡ part_root cut case.now.tree part) }
    ensures within { IfOk result (λ root. root < size case.now.tree) }
{
    let parts = case.tree().parts(alloc, cut)?;
    Ok(parts[part as usize])
}

/// What the leaves under these nodes weigh together, for each of them.
fn worths_of(alloc: Global, tree: &Tree, nodes: &[NodeId]) -> Result<Vec<u64>, AllocError>
    requires { (i : ℕ) → i < length nodes.now → slice_index nodes.now i < size tree.now }
    ensures { IfOk result (λ worths. worths.items ≡ map (worth_of tree.now) nodes.now) }
{
    let mut worths = Vec::new(alloc);
    for node in nodes {
        worths.push(tree.weight_under(*node))?;
    }
    Ok(worths)
}

impl BoardData {
    /// That of a part of a case, with nothing marked.
    pub fn of_part(alloc: Global, case: &Case, cut: u32, part: u32) -> Result<BoardData, AllocError>
        requires cut { cut ≤ 6 }
        requires part { part < part_count cut case.now.tree }
        ensures data { IfOk result (IsDataOf case.now) }
        ensures place { IfOk result
            (λ stored. (stored.cut ≡ cut) × (place_of_region stored.region ≡ part_place part)) }
        ensures marks { IfOk result
            (λ stored. stored.rows.marks.items
            ≡ replicate (size (board_tree cut case.now.tree (part_place part))) Open) }
    {
        let root = root_of_part(alloc, case, cut, part)?;
        let tree = case.tree();
        let end = tree.end_of(root) as usize;
        let rows = Rows::new(alloc, &tree.weights()[root.index()..end])?;
        let root = root.number();
        Ok(BoardData {
            cut,
            region: Region::Part { part, root },
            rows,
        })
    }

    /// That of what is above a cut of a case, with nothing marked.
    pub fn of_top(alloc: Global, case: &Case, cut: u32) -> Result<BoardData, AllocError>
        requires { cut ≤ 6 }
        ensures data { IfOk result (IsDataOf case.now) }
        ensures place { IfOk result
            (λ stored. (stored.cut ≡ cut) × (place_of_region stored.region ≡ at_top)) }
        ensures marks { IfOk result
            (λ stored. stored.rows.marks.items
            ≡ replicate (size (board_tree cut case.now.tree at_top)) Open) }
    {
        let above = case.tree().top(alloc, cut)?;
        let worths = worths_of(alloc, case.tree(), &above.nodes)?;
        let rows = Rows::new(alloc, &worths)?;
        Ok(BoardData {
            cut,
            region: Region::Top(above),
            rows,
        })
    }
}
