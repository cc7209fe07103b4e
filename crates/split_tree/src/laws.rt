//! Laws of splitting trees. Each function does nothing: its contract is the law.

ghost use Rattle.split_tree.specs.Laws.{AllFitOrAClash, TreeWhereAllFit, TreeIsOnlyOne};
ghost use Rattle.split_tree.specs.Laws.{CubePathIsCube, PathsAreApart, TotalIsBounded};
ghost use Rattle.split_tree.specs.Laws.{BranchesRefuteTheirNode};
ghost use Rattle.split_tree.specs.Parts.{EachLeafInOnePart, PartTotalsAddUp, PartsAreSubtrees};
ghost use Rattle.split_tree.specs.Parts.{PartsAreFew};

/// All cubes of a list fit, or the list has a clash.
pub fn all_fit_or_a_clash()
    ensures { AllFitOrAClash }
{}

/// Some cubes have a tree exactly where all of them fit.
pub fn tree_where_all_fit()
    ensures { TreeWhereAllFit }
{}

/// Some cubes have at most one tree.
pub fn tree_is_only_one()
    ensures { TreeIsOnlyOne }
{}

/// The path of a cube's leaf is the cube.
pub fn cube_path_is_cube()
    ensures { CubePathIsCube }
{}

/// Two nodes of a tree have two paths.
pub fn paths_are_apart()
    ensures { PathsAreApart }
{}

/// The total is at most 2 to the power 60 and the number of literals of the cubes.
pub fn total_is_bounded()
    ensures { TotalIsBounded }
{}

/// A formula that is refuted on both branches of a path is refuted on the path.
pub fn branches_refute_their_node()
    ensures { BranchesRefuteTheirNode }
{}

/// Each leaf of a tree lies in exactly one part of a cut.
pub fn each_leaf_in_one_part()
    ensures { EachLeafInOnePart }
{}

/// The totals of the parts add up to the total of the tree.
pub fn part_totals_add_up()
    ensures { PartTotalsAddUp }
{}

/// A part's tree is the one below the node of its number.
pub fn parts_are_subtrees()
    ensures { PartsAreSubtrees }
{}

/// A cut has at most 2 to its power parts.
pub fn parts_are_few()
    ensures { PartsAreFew }
{}
