//! Laws of what binary LRAT proofs stand for.

ghost use Rattle.lrat_binary_words.specs.Encoding.{RoundTrip};
ghost use Rattle.lrat_binary_words.specs.Symbols.{SymbolsOfText};

/// The symbols of the text of a binary proof are those of its numbers.
pub fn symbols_of_text()
    ensures { SymbolsOfText }
{}

/// The proof of bytes that spell the numbers of steps has exactly these steps.
pub fn round_trip()
    ensures { RoundTrip }
{}
