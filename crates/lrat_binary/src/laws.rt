//! Laws of the definitions. Each function does nothing: its contract is the law.

ghost use Rattle.std.specs.Prelude.{◌≡◌, [], ◌∷◌, codes};
ghost use Rattle.lrat_binary.specs.Binary.{text_of};

/// Texts of short binary LRAT proofs (as CaDiCaL 2 and drat-trim write them), worked out by hand.
pub fn short_texts()
    ensures nothing { text_of [] ≡ [] }
    ensures empty_clause { text_of (97 ∷ 12 ∷ 0 ∷ 2 ∷ 4 ∷ 0 ∷ []) ≡ codes "6 0 1 2 0\n" }
    ensures two_literals { text_of (97 ∷ 12 ∷ 2 ∷ 5 ∷ 0 ∷ 6 ∷ 8 ∷ 0 ∷ [])
        ≡ codes "6 1 -2 0 3 4 0\n" }
    ensures deletion { text_of (100 ∷ 6 ∷ 10 ∷ 0 ∷ []) ≡ codes "0 d 3 5 0\n" }
    ensures no_deletion { text_of (100 ∷ 0 ∷ []) ≡ codes "0 d 0\n" }
    ensures two_steps { text_of (97 ∷ 12 ∷ 0 ∷ 2 ∷ 4 ∷ 0 ∷ 100 ∷ 6 ∷ 0 ∷ [])
        ≡ codes "6 0 1 2 0\n0 d 3 0\n" }
    ensures group { text_of (97 ∷ 16 ∷ 5 ∷ 0 ∷ 2 ∷ 6 ∷ 5 ∷ 2 ∷ 0 ∷ [])
        ≡ codes "8 -2 0 1 3 -2 1 0\n" }
    ensures two_bytes { text_of (97 ∷ 164 ∷ 3 ∷ 2 ∷ 0 ∷ 4 ∷ 0 ∷ []) ≡ codes "210 1 0 2 0\n" }
    ensures padded { text_of (97 ∷ 140 ∷ 0 ∷ 0 ∷ 2 ∷ 4 ∷ 128 ∷ 0 ∷ []) ≡ codes "6 0 1 2 0\n" }
    ensures padded_mark { text_of (225 ∷ 0 ∷ 12 ∷ 0 ∷ 2 ∷ 0 ∷ []) ≡ codes "6 0 1 0\n" }
    ensures mark_alone { text_of (97 ∷ []) ≡ [] }
    ensures begun_alone { text_of (128 ∷ []) ≡ [] }
    ensures cut_step { text_of (97 ∷ 12 ∷ []) ≡ codes "6 " }
    ensures cut_number { text_of (97 ∷ 12 ∷ 0 ∷ 2 ∷ 128 ∷ []) ≡ codes "6 0 1 " }
    ensures negative_id { text_of (97 ∷ 13 ∷ 0 ∷ 2 ∷ 0 ∷ []) ≡ codes "-6 0 1 0\n" }
    ensures negative_zero { text_of (97 ∷ 12 ∷ 1 ∷ 0 ∷ 2 ∷ 0 ∷ []) ≡ codes "6 -0 0 1 0\n" }
    ensures negative_deletion { text_of (100 ∷ 5 ∷ 0 ∷ []) ≡ codes "0 d -2 0\n" }
    ensures greatest_variable { text_of (97 ∷ 12 ∷ 254 ∷ 255 ∷ 255 ∷ 255 ∷ 1 ∷ 0 ∷ 2 ∷ 0 ∷ [])
        ≡ codes "6 268435455 0 1 0\n" }
    ensures variable_above { text_of (97 ∷ 12 ∷ 128 ∷ 128 ∷ 128 ∷ 128 ∷ 2 ∷ 0 ∷ 2 ∷ 0 ∷ [])
        ≡ codes "6 268435456 0 1 0\n" }
    ensures greatest_id { text_of
        (97 ∷ 128 ∷ 128 ∷ 128 ∷ 128 ∷ 128 ∷ 128 ∷ 128 ∷ 128 ∷ 128 ∷ 1 ∷ 0 ∷ 2 ∷ 0 ∷ [])
        ≡ codes "4611686018427387904 0 1 0\n" }
    ensures id_above { text_of
        (97 ∷ 130 ∷ 128 ∷ 128 ∷ 128 ∷ 128 ∷ 128 ∷ 128 ∷ 128 ∷ 128 ∷ 1 ∷ 0 ∷ 2 ∷ 0 ∷ [])
        ≡ codes "4611686018427387905 0 1 0\n" }
    ensures past_64_bits { text_of
        (97 ∷ 255 ∷ 255 ∷ 255 ∷ 255 ∷ 255 ∷ 255 ∷ 255 ∷ 255 ∷ 255 ∷ 127 ∷ 0 ∷ 2 ∷ 0 ∷ [])
        ≡ codes "-9223372036854775807 0 1 0\n" }
    ensures id_zero { text_of (97 ∷ 0 ∷ 0 ∷ 2 ∷ 0 ∷ []) ≡ codes "0 0\n? ? " }
    ensures text { text_of (49 ∷ 32 ∷ 48 ∷ []) ≡ codes "? ? ? " }
    ensures stray_then_deletion { text_of (112 ∷ 32 ∷ 100 ∷ 0 ∷ []) ≡ codes "? ? 0 d 0\n" }
{}
