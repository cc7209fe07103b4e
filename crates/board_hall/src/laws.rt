//! What holds of every state of a hall. Each function does nothing: its contract is the law.

ghost use Rattle.std.specs.Prelude.{◌≡◌, ℕ, ◌<◌, slice_index};
ghost use Rattle.board_hall.specs.declared.view.CutCase.{CutCase};
ghost use Rattle.board_hall.specs.Posts.{board_count};
ghost use Rattle.board_hall.specs.Hall.{HallState, HallStep, IsStart, Lawful, Reached, lock_word};
ghost use Rattle.board_hall.specs.Laws.{IsWhole, IsWholeOfLeaves, PostsNoNode, NamesNoNode};

/// A hall's start is lawful, each step leads from a lawful state to a lawful state, and so each
/// state that a hall comes to is lawful.
pub fn stays_lawful()
    ensures start { (k : CutCase) (passes : ℕ) (s : HallState) → IsStart k passes s → Lawful k s }
    ensures step { (k : CutCase) (s t : HallState) → Lawful k s → HallStep k s t → Lawful k t }
    ensures always { (k : CutCase) (passes : ℕ) (s : HallState) → Reached k passes s → Lawful k s }
{}

/// Whenever a board's lock is free, the board of exactly the posts on it is at home. What it marks
/// has no model together with the formula; a leaf is marked exactly where its refutation was
/// posted, and an inner node exactly where its own refutation was posted or both its branches are
/// marked; and its open word is the sum of the weights of its leaves under no marked node.
pub fn free_is_whole()
    ensures { (k : CutCase) (passes : ℕ) (s : HallState) → Reached k passes s → (b : ℕ)
        → b < board_count k → slice_index s.words (lock_word b) ≡ 0 → IsWhole k b s }
{}

/// The same where no pass has posted the finding of an inner node: what is marked has no model
/// together with the formula, an inner node is marked exactly where both its branches are, and the
/// open word is the sum of the weights of the unmarked leaves.
///
/// So it is in each state of a hall for a case whose sections name leaves alone, where the hall
/// takes no finding of an inner node by a proof elsewhere.
pub fn free_is_whole_of_leaves()
    ensures posts { (k : CutCase) (passes : ℕ) (s : HallState) → PostsNoNode k s
        → Reached k passes s → (b : ℕ) → b < board_count k
        → slice_index s.words (lock_word b) ≡ 0 → IsWholeOfLeaves k b s }
    ensures sections { (k : CutCase) (passes : ℕ) (s : HallState) → NamesNoNode k
        → Reached k passes s → (b : ℕ) → b < board_count k
        → slice_index s.words (lock_word b) ≡ 0 → IsWholeOfLeaves k b s }
{}
