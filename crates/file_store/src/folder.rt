//! A bundle with the proofs of a folder, as one text that is read once.
ghost use Rattle.std.specs.Prelude.{◌≡◌, ◌≢◌, ◌<◌, ◌≤◌, ◌+◌, ◌^◌, ◌-◌, ◌++◌, [], ◌∷◌, ℕ, List};
ghost use Rattle.std.specs.Prelude.{IfOk, IfErr, OnOk, OnErr, true, false, codes, drop, take};
ghost use Rattle.std.specs.Prelude.{length, option_map, MatchOption, None};
ghost use Rattle.std.specs.String.{string_bytes};
ghost use Rattle.byte_flow.specs.Device.{IsDeviceFault};
ghost use Rattle.case_core.specs.Binary.{proof_text};
ghost use Rattle.file_store.specs.Files.{AreAdded, IsFound, held_if, leaf_names};
ghost use Rattle.file_store.specs.Folder.{IsAddedSection, folder_gives, names_left};
ghost use Rattle.proof_folder.specs.Added.{proof_path};
ghost use Rattle.proof_folder.specs.Given.{name_of};

use crate::opener::Opener;
use crate::store::FileStore;
use byte_flow::{DeviceFault, Stream};
use case_core::{Leaf, Tree};
use std::alloc::{AllocError, Global};

/// The leaves of a tree in the order of their names 1, 2, .. for the cubes, and m1, m2, .. for the
/// missing leaves: how many of each kind there are, and how many of these were passed.
#[derive(Clone, Copy)]
pub struct LeavesLeft {
    cubes: u32,
    cubes_done: u32,
    missing: u32,
    missing_done: u32,
}

impl LeavesLeft {
    /// All leaves of a tree.
    pub(crate) fn of(tree: &Tree) -> LeavesLeft
        ensures { names_left result ≡ leaf_names tree.now }
    {
        LeavesLeft {
            cubes: tree.cube_count(),
            cubes_done: 0,
            missing: tree.missing_count(),
            missing_done: 0,
        }
    }

    /// The name of the next leaf; `None` where all were passed. An error is a refused growth.
    fn next_name(&self, alloc: Global) -> Result<Option<String>, AllocError>
        ensures { IfOk result (λ some. MatchOption some (names_left self.now ≡ [])
            (λ name. (behind : List (List ℕ))
            × (names_left self.now ≡ string_bytes name ∷ behind))) }
    {
        if self.cubes_done < self.cubes {
            return Ok(Some(leaf_name(alloc, Leaf::Cube(self.cubes_done + 1))?));
        }
        if self.missing_done < self.missing {
            return Ok(Some(leaf_name(alloc, Leaf::Missing(self.missing_done + 1))?));
        }
        Ok(None)
    }

    /// Passes the next leaf.
    fn pass(&mut self)
        requires { names_left self.old ≢ [] }
        ensures { (name : List ℕ) × (names_left self.old ≡ name ∷ names_left self.new) }
    {
        if self.cubes_done < self.cubes {
            self.cubes_done += 1;
        } else if self.missing_done < self.missing {
            self.missing_done += 1;
        }
    }
}

/// The text of a bundle with the proofs of a folder: behind the bundle stands for each leaf of its
/// tree, in the order of their names, a line end, the leaf's label line and the text of its proof,
/// if its file is there. One file's proof at a time is in memory. It reads by an opener of its own.
#[derive(Drop)]
pub struct FolderText<F> {
    alloc: Global,
    files: FileStore<F>,
    folder: String,
    /// The leaves whose files are to be read.
    leaves: LeavesLeft,
    /// The bundle, or what was read last for a leaf.
    part: Vec<u8>,
    /// So many bytes of it were given.
    at: usize,
}

impl<F> FolderText<F> {
    /// The text of this bundle with the proofs that lie in this folder, by this opener, for the
    /// leaves of this tree; with no failed read yet.
    pub(crate) fn new(
        alloc: Global,
        opener: F,
        bundle: Vec<u8>,
        folder: String,
        tree: &Tree,
    ) -> FolderText<F>
        ensures opener { result.files.opener ≡ opener }
        ensures none { result.files.failed ≡ 0 }
        ensures folder { result.folder ≡ folder }
        ensures leaves { names_left result.leaves ≡ leaf_names tree.now }
        ensures left { drop result.at result.part.items ≡ bundle.items }
    {
        FolderText {
            alloc,
            files: FileStore::new(opener),
            folder,
            leaves: LeavesLeft::of(tree),
            part: bundle,
            at: 0,
        }
    }

    /// How many of its reads have failed so far.
    pub(crate) fn failed(&self) -> u64
        ensures { result ≡ self.now.files.failed }
    {
        self.files.failed()
    }

    /// Gives the next bytes of what is in memory, as many as the buffer takes, and answers how
    /// many.
    fn give(&mut self, buffer: &mut [u8]) -> usize
        requires { self.old.at < length self.old.part.items }
        ensures same { self.new ≡ record self.old { at = self.old.at + result } }
        ensures bytes { take result buffer.new
            ≡ take result (drop self.old.at self.old.part.items) }
        ensures some { result ≡ 0 → length buffer.new ≡ 0 }
        ensures few { result ≤ length buffer.new }
        ensures within { self.old.at + result ≤ length self.old.part.items }
    {
        let count = (self.part.len() - self.at).min(buffer.len());
        let end = self.at + count;
        buffer[..count].copy_from_slice(&self.part[self.at..end]);
        self.at = end;
        count
    }
}

impl<F: Opener> FolderText<F> {
    /// Reads what the leaf of this name adds, in the place of what is in memory: nothing, where no
    /// file is there, and after an error.
    fn read_leaf(&mut self, name: &str) -> Result<(), DeviceFault>
        requires { self.old.files.failed < 2 ^ 64 - 1 }
        ensures knows { F.knows self.new.files.opener ≡ F.knows self.old.files.opener }
        ensures files { F.files self.new.files.opener ≡ F.files self.old.files.opener }
        ensures folder { self.new.folder ≡ self.old.folder }
        ensures leaves { self.new.leaves ≡ self.old.leaves }
        ensures start { self.new.at ≡ 0 }
        ensures read { OnOk result (IsAddedSection
            (option_map (λ lies. option_map proof_text lies)
            (held_if (F.knows self.old.files.opener) (F.files self.old.files.opener
            (proof_path (string_bytes self.old.folder) name.now))))
            name.now self.new.part.items) }
        ensures none { OnErr result (self.new.part.items ≡ []) }
        ensures ok { OnOk result (self.new.files.failed ≡ self.old.files.failed) }
        ensures err { IfErr result
            (λ fault. IsDeviceFault self.old.files.failed self.new.files.failed fault) }
    {
        self.part.clear();
        self.at = 0;
        let folder = self.folder.as_str();
        let read = read_section(self.alloc, &mut self.files, folder, name, &mut self.part);
        if !matches!(read, Ok(true)) {
            self.part.clear();
        }
        read?;
        Ok(())
    }

    /// Reads what the next leaf adds, where all that is in memory was given; answers whether there
    /// is such a leaf.
    fn read_next(&mut self) -> Result<bool, DeviceFault>
        requires count { self.old.files.failed < 2 ^ 64 - 1 }
        requires given { drop self.old.at self.old.part.items ≡ [] }
        ensures knows { F.knows self.new.files.opener ≡ F.knows self.old.files.opener }
        ensures files { F.files self.new.files.opener ≡ F.files self.old.files.opener }
        ensures folder { self.new.folder ≡ self.old.folder }
        ensures read { IfOk result (λ more. more ≡ true → (name : List ℕ)
            × (names_left self.old.leaves ≡ name ∷ names_left self.new.leaves)
            × (self.new.at ≡ 0) × IsAddedSection
            (option_map (λ lies. option_map proof_text lies)
            (held_if (F.knows self.old.files.opener) (F.files self.old.files.opener
            (proof_path (string_bytes self.old.folder) name))))
            name self.new.part.items) }
        ensures over { IfOk result (λ more. more ≡ false
            → (names_left self.old.leaves ≡ []) × (self.new ≡ self.old)) }
        ensures kept { OnErr result ((self.new.leaves ≡ self.old.leaves)
            × (drop self.new.at self.new.part.items ≡ [])) }
        ensures ok { OnOk result (self.new.files.failed ≡ self.old.files.failed) }
        ensures err { IfErr result
            (λ fault. IsDeviceFault self.old.files.failed self.new.files.failed fault) }
    {
        let Some(name) = self.leaves.next_name(self.alloc)? else {
            return Ok(false);
        };
        self.read_leaf(name.as_str())?;
        self.leaves.pass();
        Ok(true)
    }
}

impl<F: Opener> Stream for FolderText<F> {
    ghost use Rattle.file_store.specs.Files.{held_if};
    ghost use Rattle.file_store.specs.Folder.{folder_gives};

    ghost gives = { λ s. folder_gives
        (λ path. held_if (F.knows s.files.opener) (F.files s.files.opener path)) s };

    ghost failures = { λ s. s.files.failed };

    fn read(&mut self, buffer: &mut [u8]) -> Result<usize, DeviceFault> {
        while self.at >= self.part.len() {
            if !self.read_next()? {
                return Ok(0);
            }
        }
        Ok(self.give(buffer))
    }

    fn has_text(&self) {}
}

/// Appends a line end, the label line with this name, and the proof of that leaf; answers whether
/// its file is there. Where it isn't, the proof is left out.
fn read_section<F: Opener>(
    alloc: Global,
    files: &mut FileStore<F>,
    folder: &str,
    name: &str,
    bytes: &mut Vec<u8>,
) -> Result<bool, DeviceFault>
    requires { files.old.failed < 2 ^ 64 - 1 }
    ensures knows { F.knows files.new.opener ≡ F.knows files.old.opener }
    ensures files { F.files files.new.opener ≡ F.files files.old.opener }
    ensures found { IfOk result (λ there. IsFound
        (option_map (λ lies. option_map proof_text lies)
        (held_if (F.knows files.old.opener) (F.files files.old.opener
        (proof_path folder.now name.now))))
        (bytes.old.items ++ codes "\nl " ++ name.now ++ codes "\n") bytes.new.items there) }
    ensures ok { OnOk result (files.new.failed ≡ files.old.failed) }
    ensures err { IfErr result (λ fault. IsDeviceFault files.old.failed files.new.failed fault) }
{
    let path = proof_path(alloc, folder, name)?;
    write_label(name, bytes)?;
    files.read_proof_file(alloc, path.as_str(), bytes)
}

/// The name of a leaf: K for cube K, mJ for missing leaf J.
pub(crate) fn leaf_name(alloc: Global, leaf: Leaf) -> Result<String, AllocError>
    ensures { IfOk result (λ name. string_bytes name ≡ name_of leaf) }
{
    match leaf {
        Leaf::Cube(number) => format!(in alloc; "{number}"),
        Leaf::Missing(number) => format!(in alloc; "m{number}"),
    }
}

/// The path of the proof of the leaf of this name.
pub(crate) fn proof_path(alloc: Global, folder: &str, name: &str) -> Result<String, AllocError>
    ensures { IfOk result (λ path. string_bytes path ≡ proof_path folder.now name.now) }
{
    format!(in alloc; "{folder}/{name}.lrat")
}

/// Adds a line end and the label line with this name.
fn write_label(name: &str, bundle: &mut Vec<u8>) -> Result<(), AllocError>
    ensures { OnOk result
        (bundle.new.items ≡ bundle.old.items ++ codes "\nl " ++ name.now ++ codes "\n") }
{
    bundle.extend_from_slice(b"\nl ")?;
    bundle.extend_from_slice(name.as_bytes())?;
    bundle.push(b'\n')?;
    Ok(())
}
