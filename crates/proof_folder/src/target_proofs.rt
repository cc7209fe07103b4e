//! Where the proofs lie that a case has no section of.

ghost use Rattle.std.specs.Prelude.{◌≡◌, ℕ, List, ◌<◌, ◌+◌, ◌^◌, ◌-◌, Option, IfOk, IfErr, IfSome};
ghost use Rattle.std.specs.Prelude.{OnOk, Bool, None, false};
ghost use Rattle.byte_flow.specs.Device.{IsDeviceFault};
ghost use Rattle.case_core.specs.Form.{text_in_form};
ghost use Rattle.case_core.specs.Target.{Target};
ghost use Rattle.proof_folder.specs.TargetProofs.{IsGiven, IsOpenedOf, left_text, text_by};

use byte_flow::{DeviceFault, Source};
use case_core::{ProofForm, Target};

/// What a worker opens proofs by. Each worker of a run has one of its own, and all of a run tell of
/// the same proofs.
pub trait TargetProofs {
    /// A proof that was opened, which is read to its end.
    type Proof: Source + Drop + Send;

    // The proof that lies there for each target, where that is known: none, or this text.
    ghost held: { Self → Target → Option (Option (List ℕ)) };

    // How many calls have failed so far.
    ghost failures: { Self → ℕ };

    // Whether a proof that begins with an `a` or a `d` is binary, and stands for its text.
    ghost takes_binary: { Bool };

    /// In which form a proof is opened: before its first byte, which tells whether it is binary, or
    /// as a text.
    fn form(&self) -> ProofForm
        ensures { (bytes : List ℕ) → text_in_form result bytes ≡ text_by takes_binary bytes };

    /// Whether a proof may lie there for a target; without reading anything.
    fn may_have(&self, target: Target) -> bool
        // Where it says no, none lies there.
        ensures { result ≡ false → IsGiven (held self.now target) None };

    /// Opens the proof of a target, of which no read has failed yet; `None` where there is none.
    ///
    /// `Device` where it is there and can't be opened, `Memory` where a growth was refused. The
    /// count of failed calls, which has to be below its greatest value, rises by one exactly with
    /// `Device`.
    fn open(&mut self, target: Target) -> Result<Option<Self::Proof>, DeviceFault>
        requires { failures self.old < 2 ^ 64 - 1 }
        ensures held { held self.new ≡ held self.old }
        ensures opened { IfOk result (λ found. IsOpenedOf (held self.old target)
            (λ proof. left_text takes_binary (Self.Proof.remaining proof)) found) }
        ensures fresh { IfOk result (λ found. IfSome found
            (λ proof. Self.Proof.failures proof ≡ 0)) }
        ensures ok { OnOk result (failures self.new ≡ failures self.old) }
        ensures err { IfErr result
            (λ fault. IsDeviceFault (failures self.old) (failures self.new) fault) };

    /// Takes a proof back: its failed reads count as failed calls.
    fn close(&mut self, proof: Self::Proof)
        requires { failures self.old + Self.Proof.failures proof < 2 ^ 64 }
        ensures held { held self.new ≡ held self.old }
        ensures failures { failures self.new
            ≡ failures self.old + Self.Proof.failures proof };

    /// How long the proof of a target is, where that can be told without reading it. Nothing rests
    /// on it but the order in which proofs are read and the totals that a person is told.
    fn length(&self, target: Target) -> Option<u64>;
}
