//! The text that a binary LRAT proof stands for, made block by block: the steps of LRAT (CADE 2017)
//! in the bytes that CaDiCaL 2 and drat-trim write, with the numbers of drat-trim's binary DRAT.

ghost use Rattle.std.specs.Prelude.{◌≡◌, ◌≤◌, ◌<◌, ◌+◌, ◌*◌, ◌++◌, ◌∷◌, ℕ, List, OnOk, take};
ghost use Rattle.std.specs.Prelude.{length};
ghost use Rattle.lrat_binary.specs.Binary.{capped, ends_behind_number, text_for, text_of};
ghost use Rattle.lrat_binary.specs.Decoder.{text_left};

use crate::number::{scale_behind, value_with};
use crate::page::{make_room, put, put_deletion, put_stray, put_word};
use std::alloc::AllocError;
use std::marker::Model;

/// The byte that begins an addition.
const ADDITION: u64 = 97;

/// The byte that begins a deletion.
const DELETION: u64 = 100;

/// Where the reading of a binary proof (as CaDiCaL 2 and drat-trim write it) stands, within a
/// number and within a step. To a contract it is a `Begun`.
#[derive(Drop)]
pub struct Decoder {
    /// How many end marks are still to come in the step that is begun.
    ends: u8,
    /// What the next bits of the number that is begun count.
    scale: u64,
    /// The value of its bits so far.
    value: u64,
}

impl Model for Decoder {
    ghost use Rattle.lrat_binary.specs.Decoder.{Begun};

    ghost Value = { Begun };

    ghost view = { λ d. record { ends = d.ends; scale = d.scale; value = d.value } };
}

/// How many end marks are to come, and how many bytes of a page are used.
#[derive(Clone, Copy)]
struct Written {
    ends: u8,
    used: usize,
}

/// Appends to the page what stands for a number between steps.
#[inline(always)]
fn begin_step(number: u64, page: &mut [u8], used: usize) -> Written
    requires { used + 4 ≤ length page.old }
    ensures text { take result.used page.new ≡ take used page.old ++ text_for 0 number }
    ensures ends { result.ends ≡ ends_behind_number 0 number }
    ensures most { result.used ≤ used + 4 }
{
    match number {
        ADDITION => Written { ends: 2, used },
        DELETION => Written {
            ends: 1,
            used: put_deletion(page, used),
        },
        _ => Written {
            ends: 0,
            used: put_stray(page, used),
        },
    }
}

/// Appends to the page what stands for a number where so many end marks are to come.
#[inline(always)]
fn write_number(ends: u8, number: u64, page: &mut [u8], used: usize) -> Written
    requires { used + 22 ≤ length page.old }
    ensures text { take result.used page.new ≡ take used page.old ++ text_for ends number }
    ensures ends { result.ends ≡ ends_behind_number ends number }
    ensures most { result.used ≤ used + 22 }
{
    if ends == 0 {
        return begin_step(number, page, used);
    }
    let behind = put_word(page, used, number);
    let last = number == 0 && ends == 1;
    let used = put(page, behind, if last { b'\n' } else { b' ' });
    Written {
        ends: if number == 0 { ends - 1 } else { ends },
        used,
    }
}

impl Decoder {
    /// A decoder before the first byte of a binary proof.
    pub fn new() -> Decoder
        // All of the text is left.
        ensures { (bytes : List ℕ) → text_left result bytes ≡ text_of bytes }
    {
        Decoder {
            ends: 0,
            scale: 1,
            value: 0,
        }
    }

    /// Appends to the page what a byte adds to the text; answers how many bytes are used then.
    #[inline(always)]
    fn take(&mut self, byte: u8, page: &mut [u8], used: usize) -> usize
        requires { used + 22 ≤ length page.old }
        ensures left { (more : List ℕ) → take result page.new ++ text_left self.new more
            ≡ take used page.old ++ text_left self.old (byte ∷ more) }
        ensures most { result ≤ used + 22 }
    {
        let value = value_with(self.value, self.scale, u64::from(byte % 128));
        if byte >= 128 {
            self.scale = scale_behind(self.scale);
            self.value = value;
            return used;
        }
        self.scale = 1;
        self.value = 0;
        let written = write_number(self.ends, value, page, used);
        self.ends = written.ends;
        written.used
    }

    /// Appends what further bytes of the proof (LRAT, CADE 2017, in binary form) add to its text:
    /// with what is left for bytes behind them, that is all that was left. After an error, which is
    /// a refused growth, nothing is said of the text.
    pub fn append(&mut self, bytes: &[u8], text: &mut Vec<u8>) -> Result<(), AllocError>
        ensures { OnOk result ((more : List ℕ) → text.new.items ++ text_left self.new more
            ≡ text.old.items ++ text_left self.old (bytes.now ++ more)) }
    {
        let mut page = [0u8; 4096];
        let mut used = 0usize;
        for byte in bytes {
            used = make_room(&page, used, text)?;
            used = self.take(*byte, &mut page, used);
        }
        text.extend_from_slice(&page[..used])?;
        Ok(())
    }
}
