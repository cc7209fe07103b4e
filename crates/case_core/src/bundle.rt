//! The reader of bundles: an iCNF text, and behind it sections, each below a label line.

ghost use Rattle.std.specs.Prelude.{◌≡◌, ◌↔◌, List, [], MatchResult, ◌≤◌, ◌+◌, length, take, map};
ghost use Rattle.std.specs.Prelude.{◌<◌, ◌≢◌, false};
ghost use Rattle.std.specs.Prelude.{OnOk, IfOk, IfErr, IfSome, MatchOption, count_by};
ghost use Rattle.cnf_text.specs.Tokens.{is_line_end};
ghost use Rattle.cnf_text.specs.Icnf.{Item, Within, IsFileOf};
ghost use Rattle.case_core.specs.Bundle.{lines_of, is_label, text_before, labels_of};
ghost use Rattle.case_core.specs.Bundle.{BeginsWithLabel, icnf_text};
ghost use Rattle.case_core.specs.Inner.Bundle.{HasNoLabel, HasNoLetter, AfterPlainLines};
ghost use Rattle.case_core.specs.Inner.Bundle.{FirstLabel, EndsWith, OneLabel};
ghost use Rattle.case_core.specs.Inner.Bundle.{NextLabel, IsCutAtLine};
ghost use Rattle.case_core.specs.Case.{section_in, part_in, CaseOf};
ghost use Rattle.case_core.specs.Inner.Case.{IsCaseKept};
ghost use Rattle.case_core.specs.Inner.Label.{IsLimited};
ghost use Rattle.case_core.specs.Inner.Sections.{AreKept, LabelAt, HasTree, HasClash};
ghost use Rattle.case_core.specs.Sections.{AreSectionsOf, IsLabelFault, IsCaseOf, IsFaultOf};

use crate::case::Case;
use crate::fault::CaseFault;
use crate::sections::Sections;
use cnf_text::tokens::{first_word, split_line};
use cnf_text::{Formula, IcnfFile, read_icnf};
use hint_check::Base;
use memchr::{memchr, memrchr};
use split_tree::{Tree, build};
use std::alloc::Global;

/// In so many bytes at a time line ends are counted: a byte has room for their number, and they are
/// a multiple of what fits into a vector.
const COUNTED: usize = 224;

/// Whether a line is a label line.
#[tactic(auto, unfolding(crate::specs::Bundle::is_label))]
fn is_label(line: &[u8]) -> bool
    ensures { result ≡ is_label line.now }
{
    match first_word(line) {
        Some((word, _)) => word == b"l".as_slice(),
        None => false,
    }
}

/// The text from the line on that holds the first byte `l`, or `None` where no byte is one. Only
/// such a line can be a label line.
fn line_of_letter(text: &[u8]) -> Option<&[u8]>
    ensures found { MatchOption result (HasNoLetter text.now)
        (λ at. AfterPlainLines text.now at.now) }
    ensures within { IfSome result (λ at. length at.now ≤ length text.now) }
{
    let letter = memchr(b'l', text)?;
    let start = match memrchr(b'\n', &text[..letter]) {
        Some(end) => end + 1,
        None => 0,
    };
    Some(&text[start..])
}

/// The text before the first label line, and the text from that line on, if there is one.
pub(crate) fn cut(text: &[u8]) -> (&[u8], Option<&[u8]>)
    ensures front { result.0.now ≡ text_before (lines_of text.now) }
    ensures begins { take (length result.0.now) text.now ≡ result.0.now }
    ensures label { MatchOption result.1 (HasNoLabel text.now) (λ at. FirstLabel text.now at.now) }
    ensures whole { MatchOption result.1 (result.0.now ≡ text.now)
        (λ at. IsCutAtLine text.now result.0.now at.now) }
{
    let mut rest = text;
    'lines: loop {
        let Some(near) = line_of_letter(rest) else {
            return (text, None);
        };
        let (line, below) = split_line(near);
        if is_label(line) {
            return (&text[..text.len() - near.len()], Some(near));
        }
        let Some(next) = below else {
            return (text, None);
        };
        rest = next;
    }
}

/// The iCNF text of a bundle: everything before its first label line.
pub fn icnf_part(bundle: &[u8]) -> &[u8]
    ensures { result.now ≡ icnf_text bundle.now }
{
    let (front, _) = cut(bundle);
    front
}

/// The number of the line, counted from 1, on which the end of a text begins.
pub(crate) fn line_at(text: &[u8], end: &[u8]) -> u64
    requires { EndsWith text.now end.now }
    ensures { result + length (lines_of end.now) ≡ length (lines_of text.now) + 1 }
{
    let before = &text[..text.len() - end.len()];
    line_ends(before) as u64 + 1
}

/// How many lines a text has: one more than end in it. What stands below its last line end is a
/// line, too, and may be empty.
pub fn line_count(text: &[u8]) -> u64
    ensures { result ≡ length (lines_of text.now) }
{
    line_ends(text) as u64 + 1
}

/// How many lines end in a text.
pub fn line_ends(text: &[u8]) -> usize
    ensures value { result ≡ count_by is_line_end text.now }
    // No more than its bytes.
    ensures within { result ≤ length text.now }
{
    let mut rest = text;
    let mut count = 0;
    while !rest.is_empty() {
        let (part, more) = rest.split_at(rest.len().min(COUNTED));
        count += usize::from(few_line_ends(part));
        rest = more;
    }
    count
}

/// How many lines end in so few bytes. (Such a counter is one that the compiler makes vectors of.)
fn few_line_ends(bytes: &[u8]) -> u8
    requires { length bytes.now ≤ 224 }
    ensures { result ≡ count_by is_line_end bytes.now }
{
    let mut count = 0;
    for at in 0..bytes.len() {
        if bytes[at] == b'\n' {
            count += 1;
        }
    }
    count
}

/// A label line, the section below it, and the text from the next label line on, if there is one.
#[derive(Clone, Copy)]
pub(crate) struct Part<'b> {
    pub(crate) line: &'b [u8],
    section: &'b [u8],
    pub(crate) next: Option<&'b [u8]>,
}

/// The first part of a text that begins with a label line.
pub(crate) fn first_part(text: &[u8]) -> Part<'_>
    requires { BeginsWithLabel text.now }
    ensures labels { MatchOption result.next
        (OneLabel text.now result.line.now result.section.now)
        (λ next. NextLabel text.now result.line.now result.section.now next.now) }
    ensures place { part_in text.now (length result.line.now + 1)
        (length result.section.now) ≡ result.section.now }
    ensures within { length result.line.now ≤ length text.now }
    ensures shorter { IfSome result.next (λ next. length next.now < length text.now) }
{
    let (line, below) = split_line(text);
    let Some(below) = below else {
        return Part {
            line,
            section: &[],
            next: None,
        };
    };
    let (section, next) = cut(below);
    Part {
        line,
        section,
        next,
    }
}

/// Reads one label line and the section below it, and answers the text from the next label line on,
/// if there is one.
fn read_section<'b>(
    alloc: Global,
    tree: &Tree,
    sections: &mut Sections,
    bundle: &[u8],
    text: &'b [u8],
) -> Result<Option<&'b [u8]>, CaseFault>
    requires limited { IsLimited tree.now }
    requires kept { AreKept tree.now
        (map (section_in bundle.now) sections.old.sections.items) sections.old.places.items }
    requires label { LabelAt tree.now bundle.now
        (map (section_in bundle.now) sections.old.sections.items) text.now }
    ensures kept { OnOk result
        (AreKept tree.now
        (map (section_in bundle.now) sections.new.sections.items) sections.new.places.items) }
    ensures ok { IfOk result (λ next. MatchOption next
        (AreSectionsOf tree.now (labels_of bundle.now)
        (map (section_in bundle.now) sections.new.sections.items))
        (λ rest. LabelAt tree.now bundle.now
        (map (section_in bundle.now) sections.new.sections.items) rest.now)) }
    ensures shorter { IfOk result
        (λ next. IfSome next (λ rest. length rest.now < length text.now)) }
    ensures err { IfErr result
        (λ fault. fault ≢ CaseFault.Memory → IsLabelFault tree.now (labels_of bundle.now) fault) }
{
    let part = first_part(text);
    match sections.add(alloc, tree, bundle, text, part.line, part.section) {
        Ok(()) => Ok(part.next),
        Err(fault) => Err(fault.on_line(line_at(bundle, text))),
    }
}

/// The sections of a bundle, the first of whose label lines stands where this text begins.
fn read_sections(
    alloc: Global,
    tree: &Tree,
    bundle: &[u8],
    first: Option<&[u8]>,
) -> Result<Sections, CaseFault>
    requires limited { IsLimited tree.now }
    requires first { MatchOption first (HasNoLabel bundle.now)
        (λ text. FirstLabel bundle.now text.now) }
    ensures kept { IfOk result
        (λ read. AreKept tree.now
        (map (section_in bundle.now) read.sections.items) read.places.items) }
    ensures ok { IfOk result
        (λ read. AreSectionsOf tree.now (labels_of bundle.now)
        (map (section_in bundle.now) read.sections.items)) }
    ensures err { IfErr result
        (λ fault. fault ≢ CaseFault.Memory → IsLabelFault tree.now (labels_of bundle.now) fault) }
{
    let mut sections = Sections::new(alloc, tree)?;
    let mut next = first;
    while let Some(text) = next {
        next = read_section(alloc, tree, &mut sections, bundle, text)?;
    }
    Ok(sections)
}

/// The tree of a file's cubes, or why they have none.
fn tree_of(alloc: Global, file: &IcnfFile) -> Result<Tree, CaseFault>
    requires { (items : List Item) × Within items × IsFileOf file.now items }
    ensures ok { IfOk result
        (λ tree. (items : List Item) → Within items → IsFileOf file.now items
        → HasTree tree items) }
    ensures err { IfErr result
        (λ fault. fault ≢ CaseFault.Memory → (items : List Item) → IsFileOf file.now items
        → HasClash items fault) }
{
    Ok(build(alloc, &file.cubes)?)
}

/// Reads a bundle: an iCNF text (HVC 2011), and behind it sections, each below a label line. A
/// label line has the tokens `l` and a name: `K` for cube K, `mJ` for missing leaf J, or `n`,
/// literals and an end mark for the inner node with this path. A section is the text up to the next
/// label line, and is the proof of what its label names.
///
/// Answers the case, with the sections in the order of the text, or the first fault: of the iCNF
/// text, then of the cubes, then of the label lines, from the first on. `Memory` may stand in the
/// place of any other answer.
pub fn read_bundle(alloc: Global, bundle: &[u8]) -> Result<Case, CaseFault>
    // The case is the bundle's.
    ensures ok { IfOk result (IsCaseOf bundle.now) }
    // Each bundle that stands for a case is read, unless memory runs out.
    ensures only { (case : CaseOf) → IsCaseOf bundle.now case
        → MatchResult result (λ read. read ≡ case) (λ fault. fault ≡ CaseFault.Memory) }
    // Another is refused for its first fault, unless memory runs out.
    ensures err { IfErr result (λ fault. fault ≢ CaseFault.Memory → IsFaultOf bundle.now fault) }
{
    take_bundle(alloc, bundle.to_vec(alloc)?)
}

/// `read_bundle` for a bundle that is handed over: the case keeps these bytes, and nothing of them
/// is copied.
pub fn take_bundle(alloc: Global, bundle: Vec<u8>) -> Result<Case, CaseFault>
    // The case is the bundle's.
    ensures ok { IfOk result (IsCaseOf bundle.items) }
    // Each bundle that stands for a case is read, unless memory runs out.
    ensures only { (case : CaseOf) → IsCaseOf bundle.items case
        → MatchResult result (λ read. read ≡ case) (λ fault. fault ≡ CaseFault.Memory) }
    // Another is refused for its first fault, unless memory runs out.
    ensures err { IfErr result (λ fault. fault ≢ CaseFault.Memory → IsFaultOf bundle.items fault) }
{
    read_case(alloc, bundle)
}

/// The tree of a bundle's cubes, for those who need no more of its case: no clause is indexed.
///
/// It answers as `read_bundle` does, with the case's tree in the place of the case.
pub fn read_tree(alloc: Global, bundle: &[u8]) -> Result<Tree, CaseFault>
    // The tree is that of the bundle's case.
    ensures ok { IfOk result
        (λ tree. (case : CaseOf) × IsCaseOf bundle.now case × (case.tree ≡ tree)) }
    // A bundle without a case is refused for its first fault, unless memory runs out.
    ensures err { IfErr result (λ fault. fault ≢ CaseFault.Memory → IsFaultOf bundle.now fault) }
{
    let Parts { tree, .. } = read_parts(alloc, bundle)?;
    Ok(tree)
}

/// The case of a bundle, or its fault.
fn read_case(alloc: Global, bundle: Vec<u8>) -> Result<Case, CaseFault>
    ensures ok { IfOk result (IsCaseOf bundle.items) }
    ensures err { IfErr result (λ fault. fault ≢ CaseFault.Memory → IsFaultOf bundle.items fault) }
{
    let Parts {
        formula,
        tree,
        sections,
    } = read_parts(alloc, &bundle)?;
    let Sections { sections, places } = sections;
    let base = Base::owning(alloc, formula)?;
    Ok(Case {
        base,
        text: bundle,
        tree,
        sections,
        places,
    })
}

/// What a bundle is read into: its clauses, the tree of its cubes and its sections.
#[derive(Drop)]
pub(crate) struct Parts {
    pub(crate) formula: Formula,
    pub(crate) tree: Tree,
    pub(crate) sections: Sections,
}

/// The parts of a bundle's case, or its fault.
pub(crate) fn read_parts(alloc: Global, bundle: &[u8]) -> Result<Parts, CaseFault>
    ensures ok { IfOk result (λ parts. IsCaseOf bundle.now (record {
      formula = parts.formula;
      tree = parts.tree;
      sections = map (section_in bundle.now) parts.sections.sections.items;
    })) }
    ensures kept { IfOk result
        (λ parts. IsCaseKept parts.tree
        (map (section_in bundle.now) parts.sections.sections.items) parts.sections.places.items) }
    ensures err { IfErr result (λ fault. fault ≢ CaseFault.Memory → IsFaultOf bundle.now fault) }
{
    let (icnf, first) = cut(bundle);
    let file = read_icnf(alloc, icnf)?;
    let tree = tree_of(alloc, &file)?;
    let sections = read_sections(alloc, &tree, bundle, first)?;
    let IcnfFile { formula, .. } = file;
    Ok(Parts {
        formula,
        tree,
        sections,
    })
}
