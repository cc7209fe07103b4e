//! What a label line names: a leaf by its number, or an inner node by its path.

ghost use Rattle.std.specs.Prelude.{◌≡◌, map, min, IfOk, IfErr, Vec};
ghost use Rattle.std.specs.Option.{option_map};
ghost use Rattle.cnf_text.specs.Tokens.{words};
ghost use Rattle.cnf_text.specs.Icnf.{symbol_of};
ghost use Rattle.cnf_text.specs.Numbers.{decimal};
ghost use Rattle.case_core.specs.Label.{CubeName, MissingName, PathName, IsTargetOf, leaf_name};
ghost use Rattle.case_core.specs.Label.{label_name, path_of_symbols};
ghost use Rattle.case_core.specs.Inner.Label.{IsLimited, NamesNone, IsPathRead, NoPathRead};

use crate::fault::CaseFault;
use cnf_text::numbers::read_number;
use cnf_text::tokens::first_word;
use cnf_text::{Lit, MAX_VARIABLE};
use split_tree::{Leaf, Target, Tree};
use std::alloc::{AllocError, AllocFailed, Global};

/// Why a label line names no target.
#[derive(Clone, Copy)]
pub(crate) enum LabelFault {
    /// It has none of the forms of a label.
    BadForm,
    /// The tree has no such leaf, or no inner node with this path.
    NoSuchTarget,
    /// An earlier label line has named the target.
    Twice,
    /// A growth was refused.
    Memory,
}

impl LabelFault {
    ghost use Rattle.std.specs.Prelude.{◌≡◌};
    ghost use Rattle.case_core.specs.Inner.Label.{told};

    /// The fault of a bundle that has it on this line.
    pub(crate) fn on_line(self, line: u64) -> CaseFault
        ensures { result ≡ told self line }
    {
        match self {
            LabelFault::BadForm => CaseFault::BadLabel { line },
            LabelFault::NoSuchTarget => CaseFault::NoSuchLeaf { line },
            LabelFault::Twice => CaseFault::ProofTwice { line },
            LabelFault::Memory => CaseFault::Memory,
        }
    }
}

impl From<AllocError> for LabelFault {
    ghost use Rattle.std.specs.Prelude.{◌≡◌};
    ghost use Rattle.case_core.specs.declared.label.LabelFault.TheVariants.{Memory};

    ghost from_gives = { λ _ fault. fault ≡ Memory };

    fn from(_error: AllocError) -> Self {
        LabelFault::Memory
    }
}

impl<T: Drop> From<AllocFailed<T>> for LabelFault {
    ghost use Rattle.std.specs.Prelude.{◌≡◌};
    ghost use Rattle.case_core.specs.declared.label.LabelFault.TheVariants.{Memory};

    ghost from_gives = { λ _ fault. fault ≡ Memory };

    fn from(_error: AllocFailed<T>) -> Self {
        LabelFault::Memory
    }
}

/// The value of decimal digits, at most the greatest `u64`; `None` for anything else.
fn digits_value(word: &[u8]) -> Option<u64>
    ensures { result ≡ option_map (λ value. min value 18446744073709551615) (decimal word.now) }
{
    if !word.is_empty() && word[0] == b'-' {
        return None;
    }
    let Some(number) = read_number(word) else {
        return None;
    };
    Some(number.magnitude)
}

/// The leaf of the cube whose number these digits are.
fn cube_named(tree: &Tree, digits: &[u8]) -> Result<Target, LabelFault>
    requires { IsLimited tree.now }
    ensures ok { IfOk result (IsTargetOf tree.now (option_map CubeName (decimal digits.now))) }
    ensures err { IfErr result (NamesNone tree.now (option_map CubeName (decimal digits.now))) }
{
    let Some(value) = digits_value(digits) else {
        return Err(LabelFault::BadForm);
    };
    let Ok(number) = u32::try_from(value) else {
        return Err(LabelFault::NoSuchTarget);
    };
    if !tree.has_leaf(Leaf::Cube(number)) {
        return Err(LabelFault::NoSuchTarget);
    }
    Ok(Target::Leaf(Leaf::Cube(number)))
}

/// The missing leaf whose number these digits are.
fn missing_named(tree: &Tree, digits: &[u8]) -> Result<Target, LabelFault>
    ensures ok { IfOk result (IsTargetOf tree.now (option_map MissingName (decimal digits.now))) }
    ensures err { IfErr result (NamesNone tree.now (option_map MissingName (decimal digits.now))) }
{
    let Some(value) = digits_value(digits) else {
        return Err(LabelFault::BadForm);
    };
    if value > u64::from(tree.missing_count()) {
        return Err(LabelFault::NoSuchTarget);
    }
    if !tree.has_leaf(Leaf::Missing(value as u32)) {
        return Err(LabelFault::NoSuchTarget);
    }
    Ok(Target::Leaf(Leaf::Missing(value as u32)))
}

/// The leaf that a word names: `K` or `mJ`.
fn leaf_named(tree: &Tree, word: &[u8]) -> Result<Target, LabelFault>
    requires { IsLimited tree.now }
    ensures ok { IfOk result (IsTargetOf tree.now (leaf_name word.now)) }
    ensures err { IfErr result (NamesNone tree.now (leaf_name word.now)) }
{
    if !word.is_empty() && word[0] == b'm' {
        missing_named(tree, &word[1..])
    } else {
        cube_named(tree, word)
    }
}

/// The literals of a path, up to an end mark, with which the text ends; `None` in their place where
/// a variable is above the limit.
fn read_path(alloc: Global, text: &[u8]) -> Result<Option<Vec<Lit>>, LabelFault>
    ensures ok { IfOk result (IsPathRead (path_of_symbols (map symbol_of (words text.now)))) }
    ensures err { IfErr result (NoPathRead (path_of_symbols (map symbol_of (words text.now)))) }
{
    let mut path = Vec::new(alloc);
    let mut fits = true;
    let mut left = text;
    while let Some((word, rest)) = first_word(left) {
        left = rest;
        if word == b"a".as_slice() {
            return Err(LabelFault::BadForm);
        }
        let Some(number) = read_number(word) else {
            return Err(LabelFault::BadForm);
        };
        if number.magnitude == 0 {
            if first_word(rest).is_some() {
                return Err(LabelFault::BadForm);
            }
            return Ok(if fits { Some(path) } else { None });
        }
        if number.magnitude > u64::from(MAX_VARIABLE) {
            fits = false;
        } else {
            path.push(Lit::from_parts(number.magnitude as u32, !number.negative))?;
        }
    }
    Err(LabelFault::BadForm)
}

/// The inner node whose path a text spells: literals and an end mark.
fn node_named(alloc: Global, tree: &Tree, text: &[u8]) -> Result<Target, LabelFault>
    requires { IsLimited tree.now }
    ensures ok { IfOk result (IsTargetOf tree.now
        (option_map PathName (path_of_symbols (map symbol_of (words text.now))))) }
    ensures err { IfErr result (NamesNone tree.now
        (option_map PathName (path_of_symbols (map symbol_of (words text.now))))) }
{
    let Some(path) = read_path(alloc, text)? else {
        return Err(LabelFault::NoSuchTarget);
    };
    let Some(node) = tree.node_of(&path) else {
        return Err(LabelFault::NoSuchTarget);
    };
    Ok(Target::Node(node))
}

/// The target that a label line names in a tree.
pub(crate) fn target_of(alloc: Global, tree: &Tree, line: &[u8]) -> Result<Target, LabelFault>
    requires { IsLimited tree.now }
    ensures ok { IfOk result (IsTargetOf tree.now (label_name (words line.now))) }
    ensures err { IfErr result (NamesNone tree.now (label_name (words line.now))) }
{
    let Some((_, name)) = first_word(line) else {
        return Err(LabelFault::BadForm);
    };
    let Some((word, rest)) = first_word(name) else {
        return Err(LabelFault::BadForm);
    };
    if word == b"n".as_slice() {
        return node_named(alloc, tree, rest);
    }
    if first_word(rest).is_some() {
        return Err(LabelFault::BadForm);
    }
    leaf_named(tree, word)
}
