//! A law of the list of open leaves. The function does nothing: its contract is the law.

ghost use Rattle.cube_command.specs.Laws.{ListsOpenLeaves};

/// The list of a report by some marks on a tree has the cubes that they don't call refuted, and
/// then such missing leaves, by their numbers and in order, and nothing else.
pub fn a_list_names_the_open_leaves()
    ensures { ListsOpenLeaves }
{}
