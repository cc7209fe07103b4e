//! No proofs beside those that stand in the case.

use byte_flow::{DeviceFault, Source};
use case_core::{ProofForm, Target};
use proof_folder::TargetProofs;
use std::io;

/// What opens no proof, where all of them stand in the case; as one it has no bytes.
#[derive(Clone, Copy)]
pub(crate) struct NoProofs;

impl TargetProofs for NoProofs {
    type Proof = NoProofs;

    ghost use Rattle.std.specs.Prelude.{None, false};

    ghost held = { λ _ _. None };

    ghost failures = { λ _. 0 };

    ghost takes_binary = { false };

    fn form(&self) -> ProofForm {
        ProofForm::Text
    }

    fn may_have(&self, _target: Target) -> bool {
        false
    }

    fn open(&mut self, _target: Target) -> Result<Option<NoProofs>, DeviceFault> {
        Ok(None)
    }

    fn close(&mut self, _proof: NoProofs) {}

    fn length(&self, _target: Target) -> Option<u64> {
        None
    }
}

impl Source for NoProofs {
    ghost use Rattle.std.specs.Prelude.{None};

    ghost remaining = { λ _. None };

    ghost failures = { λ _. 0 };

    fn read(&mut self, _buffer: &mut [u8]) -> io::Result<usize> {
        Ok(0)
    }
}
