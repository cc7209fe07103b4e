//! What a worker reads the proofs of a folder by.
ghost use Rattle.std.specs.Prelude.{◌≡◌, IfOk, IfSome, IfNone, None, Some};
ghost use Rattle.std.specs.String.{string_bytes};
ghost use Rattle.proof_folder.specs.Given.{name_of};
ghost use Rattle.proof_folder.specs.Added.{proof_path};
ghost use Rattle.file_store.specs.Files.{Held, as_proofs, held_for};

use crate::folder::{leaf_name, proof_path};
use crate::opener::Opener;
use crate::store::FileStore;
use byte_flow::{Counted, DeviceFault};
use case_core::{ProofForm, Target};
use proof_folder::TargetProofs;
use std::alloc::{AllocError, Global};

/// A reader of the proofs in a folder, over an opener of its own: that of a leaf lies at
/// `FOLDER/K.lrat` or `FOLDER/mJ.lrat`, and none of an inner node does.
#[derive(Drop)]
pub struct ProofReader<F> {
    alloc: Global,
    files: FileStore<F>,
    folder: String,
}

impl<F> ProofReader<F> {
    /// A reader of the proofs in the folder at this path by this opener, with no failed read yet.
    pub(crate) fn new(alloc: Global, opener: F, folder: String) -> ProofReader<F>
        ensures opener { result.files.opener ≡ opener }
        ensures none { result.files.failed ≡ 0 }
        ensures folder { result.folder ≡ folder }
    {
        ProofReader {
            alloc,
            files: FileStore::new(opener),
            folder,
        }
    }

    /// How many of its reads have failed so far.
    pub(crate) fn failed(&self) -> u64
        ensures { result ≡ self.now.files.failed }
    {
        self.files.failed()
    }
}

impl<F: Opener + Drop> TargetProofs for ProofReader<F>
where
    F::Opened: Send,
{
    type Proof = Counted<F::Opened>;

    ghost use Rattle.std.specs.Prelude.{true};
    ghost use Rattle.file_store.specs.Files.{held_for, held_if};
    ghost use Rattle.std.specs.String.{string_bytes};

    ghost held = { λ s. held_for
        (λ path. held_if (F.knows s.files.opener) (F.files s.files.opener path))
        (string_bytes s.folder) };

    ghost failures = { λ s. s.files.failed };

    ghost takes_binary = { true };

    fn form(&self) -> ProofForm {
        ProofForm::Unread
    }

    fn may_have(&self, target: Target) -> bool {
        matches!(target, Target::Leaf(_))
    }

    fn open(&mut self, target: Target) -> Result<Option<Counted<F::Opened>>, DeviceFault> {
        let Some(path) = path_of(self.alloc, self.folder.as_str(), target)? else {
            return Ok(None);
        };
        self.files.open_file(path.as_str())
    }

    fn close(&mut self, proof: Counted<F::Opened>) {
        self.files.count(proof.failed());
    }

    fn length(&self, target: Target) -> Option<u64> {
        let path = path_of(self.alloc, self.folder.as_str(), target).ok()??;
        self.files.file_length(path.as_str())
    }
}

/// The path of the proof of a target in a folder; `None` where it has none, since it is no leaf.
fn path_of(alloc: Global, folder: &str, target: Target) -> Result<Option<String>, AllocError>
    ensures some { IfOk result (λ some. IfSome some (λ path. (held : Held)
        → held_for held folder.now target ≡ as_proofs held (string_bytes path))) }
    ensures none { IfOk result (λ some. IfNone some ((held : Held)
        → held_for held folder.now target ≡ Some None)) }
{
    match target {
        Target::Leaf(leaf) => {
            let name = leaf_name(alloc, leaf)?;
            Ok(Some(proof_path(alloc, folder, name.as_str())?))
        }
        Target::Node(_) => Ok(None),
    }
}
