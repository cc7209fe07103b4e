//! Laws of the definitions. Each function does nothing: its contract is the law.

ghost use Rattle.std.specs.Prelude.{◌≡◌, ℕ, [], ◌∷◌, List, codes, false};
ghost use Rattle.lrat_text.specs.Grammar.{Add, Delete};
ghost use Rattle.lrat_text.specs.Proof.{Proof, IsProofOf};

/// Each text stands for a proof: among the lists of whole steps with which it begins, one is the
/// longest.
pub fn each_text_has_a_proof()
    ensures { (text : List ℕ) → (proof : Proof) × IsProofOf text proof }
{}

/// No text stands for two proofs.
pub fn one_proof()
    ensures { (text : List ℕ) (first second : Proof)
        → IsProofOf text first → IsProofOf text second → first ≡ second }
{}

/// A proof in full: behind a comment, the unit clause of variable 2 is added under the id 4, by the
/// hints 1 and 3 and with a group for clause 2; then clauses 1 and 3 are deleted; and what follows
/// is no whole step.
pub fn a_short_proof()
    ensures { IsProofOf (codes "c made by hand\n4 -2 0 1 3 -2 1 0\n4 d 1 3 0\n5 0 x\n") (record {
      steps = Add (record {
        id = 4;
        literals = record { variable = 2; positive = false } ∷ [];
        hints = 1 ∷ 3 ∷ [];
        groups = record { candidate = 2; hints = 1 ∷ [] } ∷ [];
      }) ∷ Delete (1 ∷ 3 ∷ []) ∷ [];
      blank = false;
    }) }
{}
