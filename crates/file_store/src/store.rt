//! What can be read and written by its path.
ghost use Rattle.std.specs.Prelude.{◌≡◌, ◌≢◌, ℕ, List, Some, ◌<◌, ◌+◌, ◌^◌, ◌-◌, Option, None};
ghost use Rattle.std.specs.Prelude.{IfOk, IfErr, IfSome, OnOk, OnErr, true, option_map};
ghost use Rattle.case_core.specs.Target.{Target};
ghost use Rattle.byte_flow.specs.Device.{IsDeviceFault};
ghost use Rattle.proof_folder.specs.TargetProofs.{IsOpenedOf};
ghost use Rattle.file_store.specs.Files.{GivesOneOf, IsFound, IsGivenAt, StaysAllowed};
ghost use Rattle.file_store.specs.Files.{StaysAllowedBeside, may_lie_at};
ghost use Rattle.file_store.specs.Files.{AreAdded, as_proofs, held_if, leaf_names};
ghost use Rattle.case_core.specs.Binary.{proof_text};
ghost use Rattle.file_store.specs.Files.{held_for};

use crate::folder::FolderText;
use crate::inputs::{Inputs, Spared, is_clash, is_none_written};
use crate::opener::Opener;
use crate::reader::ProofReader;
use byte_flow::{Counted, DeviceFault, Source, Stream, read_to_end, write_all};
use case_core::{Tree, turn_from};
use proof_folder::TargetProofs;
use std::alloc::{AllocError, Global};
use std::io::ErrorKind;

/// What can be read by its path, FILE and a folder's proofs alike, and what is written by its path.
/// The proofs' paths, the order of the leaves and the label lines are made above it, so they stand
/// in the contracts there.
pub trait Store {
    // What lies at each path, where that is known: no file, or a file with these bytes.
    ghost held: { Self → List ℕ → Option (Option (List ℕ)) };

    // How many calls have failed so far.
    ghost failures: { Self → ℕ };

    // Which bytes may be written at which path.
    ghost allows: { Self → List ℕ → List ℕ → Type 0 };

    // Which texts readings of a path hand over: of a store that isn't known to hold anything, too,
    // and of a path at which another text lies with each reading.
    ghost hands: { List ℕ → List ℕ → Type 0 };

    /// What a worker reads proofs by that lie in files of their own.
    type Reader: TargetProofs + Send + Drop;

    /// What a file is read by that is read once, from its beginning to its end.
    type Opened: Source + Drop;

    /// Opens the file at this path, which has to be there, with no failed read yet. It may be a
    /// pipe.
    ///
    /// `Device` where no file is there, or it can't be opened; `Memory` where memory was refused.
    /// The count of failed calls, which has to be below its greatest value, rises by one exactly
    /// with `Device`.
    fn open(&mut self, path: &str) -> Result<Self::Opened, DeviceFault>
        requires { failures self.old < 2 ^ 64 - 1 }
        ensures held { held self.new ≡ held self.old }
        ensures allowed { StaysAllowed (allows self.old) (allows self.new) }
        ensures lies { IfOk result (λ file.
            GivesOneOf (may_lie_at (held self.old) path.now) (Self.Opened.remaining file)) }
        ensures handed { IfOk result
            (λ file. GivesOneOf (hands path.now) (Self.Opened.remaining file)) }
        ensures none { IfOk result (λ file. Self.Opened.failures file ≡ 0) }
        ensures ok { OnOk result (failures self.new ≡ failures self.old) }
        ensures err { IfErr result
            (λ fault. IsDeviceFault (failures self.old) (failures self.new) fault) };

    /// Takes such a file back: its failed reads count as failed calls of the store's.
    fn close(&mut self, file: Self::Opened)
        requires { failures self.old + Self.Opened.failures file < 2 ^ 64 }
        ensures held { held self.new ≡ held self.old }
        ensures allowed { StaysAllowed (allows self.old) (allows self.new) }
        ensures failures { failures self.new ≡ failures self.old + Self.Opened.failures file };

    /// A bundle with a folder's proofs, as one text that is read once.
    type Folder: Stream + Drop;

    /// The text of this bundle with the proofs that lie in this folder for the leaves of this tree,
    /// with no failed read yet. If a proof's first byte says that it is binary, its text is the one
    /// that it stands for.
    ///
    /// What can be read but once, as a pipe, isn't opened, also if nobody has read it yet: there a
    /// read of the text fails. An error is a refused growth.
    fn folder(
        &self,
        alloc: Global,
        bundle: Vec<u8>,
        folder: &str,
        tree: &Tree,
    ) -> Result<Self::Folder, AllocError>
        ensures gives { IfOk result (λ text. (whole : List ℕ) → Self.Folder.gives text whole
            → AreAdded (as_proofs (held self.now)) folder.now (leaf_names tree.now) bundle.items
            whole) }
        ensures none { IfOk result (λ text. Self.Folder.failures text ≡ 0) };

    /// Takes such a text back: its failed reads count as failed calls of the store's.
    fn settle_folder(&mut self, text: Self::Folder)
        requires { failures self.old + Self.Folder.failures text < 2 ^ 64 }
        ensures held { held self.new ≡ held self.old }
        ensures allowed { StaysAllowed (allows self.old) (allows self.new) }
        ensures failures { failures self.new ≡ failures self.old + Self.Folder.failures text };

    /// The files that a run has to spare which reads these and writes at these paths; none where it
    /// writes nothing. It is called before anything is made. Then nothing changes.
    ///
    /// `Device` where one of the paths names a file to be spared, or two of them one file, however
    /// they are called; `Memory` where a growth was refused. The count of failed calls, which has
    /// to be below its greatest value, rises by one exactly with `Device`. What names a file is
    /// known to no contract.
    fn spare(
        &mut self,
        alloc: Global,
        inputs: &Inputs<'_>,
        written: &[Option<&str>],
    ) -> Result<Spared, DeviceFault>
        requires { failures self.old < 2 ^ 64 - 1 }
        ensures same { OnOk result (self.new ≡ self.old) }
        ensures held { held self.new ≡ held self.old }
        ensures allowed { StaysAllowed (allows self.old) (allows self.new) }
        ensures err { IfErr result
            (λ fault. IsDeviceFault (failures self.old) (failures self.new) fault) };

    /// Makes the file at this path anew, with these bytes, which have to be allowed there; no other
    /// file changes. What was allowed at other paths still is, and nothing is known to be allowed
    /// at this one.
    ///
    /// `Device` where it can't be made or written, and then a beginning of the bytes may lie there;
    /// also where the path names a file to be spared, and then nothing changes. `Memory` where a
    /// growth was refused, and then nothing changes. The count of failed calls, which has to be
    /// below its greatest value, rises by one exactly with `Device`.
    fn write(&mut self, path: &str, bytes: &[u8], spared: &Spared) -> Result<(), DeviceFault>
        requires count { failures self.old < 2 ^ 64 - 1 }
        requires allowed { allows self.old path.now bytes.now }
        ensures written { OnOk result (IsGivenAt (held self.new) path.now (Some bytes.now)) }
        ensures elsewhere { (other : List ℕ) → other ≢ path.now
            → held self.new other ≡ held self.old other }
        ensures beside { OnOk result
            (StaysAllowedBeside path.now (allows self.old) (allows self.new)) }
        ensures nothing { IfErr result
            (λ fault. fault ≢ DeviceFault.Device → held self.new ≡ held self.old) }
        ensures ok { OnOk result (failures self.new ≡ failures self.old) }
        ensures err { IfErr result
            (λ fault. IsDeviceFault (failures self.old) (failures self.new) fault) };

    /// The same for a file that is written when another one may have been: then `Memory` would say
    /// that nothing changed. So a growth that was refused counts as a failed call, too, and each
    /// fault is `Device`.
    fn write_counted(
        &mut self,
        path: &str,
        bytes: &[u8],
        spared: &Spared,
    ) -> Result<(), DeviceFault>
        requires count { failures self.old < 2 ^ 64 - 1 }
        requires allowed { allows self.old path.now bytes.now }
        ensures written { OnOk result (IsGivenAt (held self.new) path.now (Some bytes.now)) }
        ensures elsewhere { (other : List ℕ) → other ≢ path.now
            → held self.new other ≡ held self.old other }
        ensures beside { OnOk result
            (StaysAllowedBeside path.now (allows self.old) (allows self.new)) }
        ensures ok { OnOk result (failures self.new ≡ failures self.old) }
        ensures err { IfErr result (λ fault. fault ≡ DeviceFault.Device) }
        ensures failed { OnErr result (failures self.new ≡ failures self.old + 1) };

    /// A reader of the proofs in the folder at this path, for one worker, with no failed read yet:
    /// what it reads for a target is what lies there for it.
    fn reader(&self, alloc: Global, folder: &str) -> Result<Self::Reader, AllocError>
        ensures held { IfOk result (λ reader. (target : Target) →
            Self.Reader.held reader target ≡ held_for (held self.now) folder.now target) }
        // A proof may be binary there.
        ensures binary { IfOk result (λ _. Self.Reader.takes_binary ≡ true) }
        ensures none { IfOk result (λ reader. Self.Reader.failures reader ≡ 0) };

    /// How long the file at this path is, where that can be told without reading it. No clause ties
    /// the length to the file's bytes.
    fn length(&self, path: &str) -> Option<u64>;

    /// Takes a reader back: its failed reads count as failed calls of the store's.
    fn settle(&mut self, reader: Self::Reader)
        requires { failures self.old + Self.Reader.failures reader < 2 ^ 64 }
        ensures held { held self.new ≡ held self.old }
        ensures allowed { StaysAllowed (allows self.old) (allows self.new) }
        ensures failures { failures self.new ≡ failures self.old + Self.Reader.failures reader };
}

/// Files by their paths, and how many calls on them have failed. It opens them by an opener, and
/// reads them to their ends and writes them itself.
#[derive(Drop)]
pub struct FileStore<F> {
    opener: F,
    failed: u64,
}

impl<F> FileStore<F> {
    /// The files that this opener opens, with no failed call yet.
    pub fn new(opener: F) -> FileStore<F>
        ensures opener { result.opener ≡ opener }
        ensures none { result.failed ≡ 0 }
    {
        FileStore { opener, failed: 0 }
    }

    /// The opener.
    pub fn opener(&self) -> &F
        ensures { result.now ≡ self.now.opener }
    {
        &self.opener
    }

    /// A fault of the device, which is counted.
    pub(crate) fn broken(&mut self) -> DeviceFault
        requires { self.old.failed < 2 ^ 64 - 1 }
        ensures fault { result ≡ DeviceFault.Device }
        ensures opener { self.new.opener ≡ self.old.opener }
        ensures count { self.new.failed ≡ self.old.failed + 1 }
    {
        self.failed += 1;
        DeviceFault::Device
    }

    /// Counts so many failed calls more.
    pub(crate) fn count(&mut self, failed: u64)
        requires { self.old.failed + failed < 2 ^ 64 }
        ensures opener { self.new.opener ≡ self.old.opener }
        ensures count { self.new.failed ≡ self.old.failed + failed }
    {
        self.failed += failed;
    }

    /// How many calls have failed so far.
    pub(crate) fn failed(&self) -> u64
        ensures { result ≡ self.now.failed }
    {
        self.failed
    }
}

impl<F: Opener> FileStore<F> {
    /// Opens the file at this path; `None` where there is none.
    ///
    /// `Device` where it is there and can't be opened, `Memory` where memory was refused.
    pub(crate) fn open_file(
        &mut self,
        path: &str,
    ) -> Result<Option<Counted<F::Opened>>, DeviceFault>
        requires { self.old.failed < 2 ^ 64 - 1 }
        ensures knows { F.knows self.new.opener ≡ F.knows self.old.opener }
        ensures files { F.files self.new.opener ≡ F.files self.old.opener }
        ensures opened { IfOk result (λ found. IsOpenedOf
            (held_if (F.knows self.old.opener) (F.files self.old.opener path.now))
            (λ file. F.Opened.remaining file.inner) found) }
        ensures fresh { IfOk result (λ found. IfSome found (λ file. file.failed ≡ 0)) }
        ensures ok { OnOk result (self.new.failed ≡ self.old.failed) }
        ensures err { IfErr result (λ fault. IsDeviceFault self.old.failed self.new.failed fault) }
    {
        match self.opener.open(path) {
            Ok(file) => Ok(Some(Counted::new(file))),
            Err(error) => match error.kind() {
                ErrorKind::NotFound => Ok(None),
                ErrorKind::OutOfMemory => Err(DeviceFault::Memory),
                _ => Err(self.broken()),
            },
        }
    }

    /// Appends the bytes of the file at this path, and answers whether there is one.
    ///
    /// `Device` where it is there and can't be opened or read, `Memory` where a growth was refused.
    pub(crate) fn read_file(&mut self, path: &str, bytes: &mut Vec<u8>) -> Result<bool, DeviceFault>
        requires { self.old.failed < 2 ^ 64 - 1 }
        ensures knows { F.knows self.new.opener ≡ F.knows self.old.opener }
        ensures files { F.files self.new.opener ≡ F.files self.old.opener }
        ensures found { IfOk result (λ there.
            IsFound (held_if (F.knows self.old.opener) (F.files self.old.opener path.now))
            bytes.old.items bytes.new.items there) }
        ensures ok { OnOk result (self.new.failed ≡ self.old.failed) }
        ensures err { IfErr result (λ fault. IsDeviceFault self.old.failed self.new.failed fault) }
    {
        let Some(mut file) = self.open_file(path)? else {
            return Ok(false);
        };
        match read_to_end(&mut file, bytes) {
            Ok(()) => Ok(true),
            Err(DeviceFault::Memory) => Err(DeviceFault::Memory),
            Err(_) => Err(self.broken()),
        }
    }

    /// Appends the text of the proof at this path, and answers whether there is one. If its first
    /// byte says that a proof is binary, its text is the one that it stands for. What can be read
    /// but once, as a pipe, isn't opened.
    ///
    /// `Device` where it is there and can't be opened or read, or can be read but once; `Memory`
    /// where a growth was refused.
    pub(crate) fn read_proof_file(
        &mut self,
        alloc: Global,
        path: &str,
        text: &mut Vec<u8>,
    ) -> Result<bool, DeviceFault>
        requires { self.old.failed < 2 ^ 64 - 1 }
        ensures knows { F.knows self.new.opener ≡ F.knows self.old.opener }
        ensures files { F.files self.new.opener ≡ F.files self.old.opener }
        ensures found { IfOk result (λ there. IsFound
            (option_map (λ lies. option_map proof_text lies)
            (held_if (F.knows self.old.opener) (F.files self.old.opener path.now)))
            text.old.items text.new.items there) }
        ensures ok { OnOk result (self.new.failed ≡ self.old.failed) }
        ensures err { IfErr result (λ fault. IsDeviceFault self.old.failed self.new.failed fault) }
    {
        if self.opener.is_read_once(path) {
            return Err(self.broken());
        }
        let begin = text.len();
        if !self.read_file(path, text)? {
            return Ok(false);
        }
        turn_from(alloc, text, begin)?;
        Ok(true)
    }

    /// How long the file at this path is, where that can be told.
    pub(crate) fn file_length(&self, path: &str) -> Option<u64> {
        self.opener.length(path)
    }
}

impl<F: Opener + Send + Drop> Store for FileStore<F>
where
    F::Opened: Send,
{
    type Opened = Counted<F::Opened>;

    type Reader = ProofReader<F>;

    type Folder = FolderText<F>;

    ghost held = { λ s path. held_if (F.knows s.opener) (F.files s.opener path) };

    ghost failures = { λ s. s.failed };

    ghost allows = { λ _ _ _. Unit {0} };

    ghost hands = { λ _ _. Unit {0} };

    fn open(&mut self, path: &str) -> Result<Counted<F::Opened>, DeviceFault> {
        match self.open_file(path)? {
            Some(file) => Ok(file),
            None => Err(self.broken()),
        }
    }

    fn close(&mut self, file: Counted<F::Opened>) {
        self.failed += file.failed();
    }

    fn folder(
        &self,
        alloc: Global,
        bundle: Vec<u8>,
        folder: &str,
        tree: &Tree,
    ) -> Result<FolderText<F>, AllocError> {
        let opener = self.opener.another(alloc)?;
        let folder = String::from_str(alloc, folder)?;
        Ok(FolderText::new(alloc, opener, bundle, folder, tree))
    }

    fn settle_folder(&mut self, text: FolderText<F>) {
        self.failed += text.failed();
    }

    fn spare(
        &mut self,
        alloc: Global,
        inputs: &Inputs<'_>,
        written: &[Option<&str>],
    ) -> Result<Spared, DeviceFault> {
        if is_none_written(written) {
            return Ok(Spared::none(alloc));
        }
        let spared = self.opener.files_to_spare(alloc, inputs)?;
        if is_clash(&self.opener, &spared, written) {
            return Err(self.broken());
        }
        Ok(spared)
    }

    fn write(&mut self, path: &str, bytes: &[u8], spared: &Spared) -> Result<(), DeviceFault> {
        match self.opener.create(path, spared) {
            Ok(file) => {
                let mut made = Counted::new(file);
                let result = write_all(&mut made, bytes);
                self.opener.close(path, made.into_inner());
                match result {
                    Ok(()) => Ok(()),
                    Err(_) => Err(self.broken()),
                }
            }
            Err(error) => match error.kind() {
                ErrorKind::OutOfMemory => Err(DeviceFault::Memory),
                _ => Err(self.broken()),
            },
        }
    }

    fn write_counted(
        &mut self,
        path: &str,
        bytes: &[u8],
        spared: &Spared,
    ) -> Result<(), DeviceFault> {
        match self.write(path, bytes, spared) {
            Ok(()) => Ok(()),
            Err(DeviceFault::Memory) => Err(self.broken()),
            Err(fault) => Err(fault),
        }
    }

    fn reader(&self, alloc: Global, folder: &str) -> Result<ProofReader<F>, AllocError> {
        let opener = self.opener.another(alloc)?;
        let folder = String::from_str(alloc, folder)?;
        Ok(ProofReader::new(alloc, opener, folder))
    }

    fn length(&self, path: &str) -> Option<u64> {
        self.file_length(path)
    }

    fn settle(&mut self, reader: ProofReader<F>) {
        self.failed += reader.failed();
    }
}
