//! Which proofs are binary, and the text that they stand for.

ghost use Rattle.std.specs.Prelude.{◌≡◌, ◌≢◌, ◌≤◌, [], ◌∷◌, ◌++◌, ℕ, List, IfOk, OnOk, MatchOption};
ghost use Rattle.std.specs.Prelude.{length, take, drop};
ghost use Rattle.lrat_binary.specs.Binary.{proof_text};
ghost use Rattle.lrat_binary.specs.Form.{text_in_form};
ghost use Rattle.lrat_binary.specs.declared.form.ProofForm.TheVariants.{Unread};

use crate::decoder::Decoder;
use std::alloc::{AllocError, Global};

/// In which form the bytes of an LRAT proof (CADE 2017) are. Its first byte decides: an `a` or a
/// `d` begins a binary proof, as CaDiCaL 2 and drat-trim write it, and no text with a step, whose
/// first word is a number.
#[derive(Clone, Copy, Debug, PartialEq, Eq)]
pub enum ProofForm {
    /// No byte of it was read yet.
    Unread,
    /// It is a text.
    Text,
    /// It is binary.
    Binary,
}

impl ProofForm {
    /// The form of a proof whose next bytes are these: where none was read before, the first of
    /// them decides.
    pub fn begin(self, bytes: &[u8]) -> ProofForm
        ensures left { (more : List ℕ)
            → text_in_form result (bytes.now ++ more) ≡ text_in_form self (bytes.now ++ more) }
        ensures none { result ≡ Unread → bytes.now ≡ [] }
        ensures kept { self ≢ Unread → result ≡ self }
    {
        match (self, bytes.first()) {
            (ProofForm::Unread, Some(first)) => form_by(*first),
            _ => self,
        }
    }
}

/// The form of a proof with this first byte.
fn form_by(first: u8) -> ProofForm
    ensures left { (rest : List ℕ)
        → text_in_form result (first ∷ rest) ≡ proof_text (first ∷ rest) }
    ensures read { result ≢ Unread }
{
    match first {
        b'a' | b'd' => ProofForm::Binary,
        _ => ProofForm::Text,
    }
}

/// The text that a binary proof stands for; `None` where the proof is a text. An error is a refused
/// growth.
pub fn binary_text(alloc: Global, proof: &[u8]) -> Result<Option<Vec<u8>>, AllocError>
    ensures { IfOk result (λ found. MatchOption found
        (proof_text proof.now ≡ proof.now)
        (λ text. text.items ≡ proof_text proof.now)) }
{
    let ProofForm::Binary = ProofForm::Unread.begin(proof) else {
        return Ok(None);
    };
    let mut text = Vec::new(alloc);
    let mut decoder = Decoder::new();
    decoder.append(proof, &mut text)?;
    Ok(Some(text))
}

/// Puts in the place of the proof that begins here, whose bytes are all there, the text that it
/// stands for. After an error, which is a refused growth, nothing is said of the text.
pub fn turn_from(alloc: Global, text: &mut Vec<u8>, begin: usize) -> Result<(), AllocError>
    requires { begin ≤ length text.old.items }
    ensures { OnOk result (text.new.items
        ≡ take begin text.old.items ++ proof_text (drop begin text.old.items)) }
{
    if let Some(made) = binary_text(alloc, &text[begin..])? {
        text.truncate(begin);
        text.extend_from_slice(&made)?;
    }
    Ok(())
}
