//! What the reason of a rejection says, and what to look for.

/// What is told of a reason, by its word in the report: what it says, and what to look for, as
/// docs/USING.md has it.
pub(crate) fn advice_on(reason: &[u8]) -> &'static str {
    match reason {
        b"unreadable" => {
            "what stands there is no whole step: an id, literals, 0, hints, 0; or ID d IDS 0; \
             look for a file that was cut off, or is no text LRAT; a variable above 268435455"
        }
        b"id" => {
            "the step's id belongs to a live clause; look for fewer than m+k clauses in the \
             solver's input: a clause, or a unit clause of the cube, was left out"
        }
        b"hint" => {
            "a hint names a clause that isn't live; look for more clauses than m+k in the \
             solver's input; a step that is missing; a clause that was deleted before"
        }
        b"unit" => {
            "a clause that a hint names still has two or more literals that aren't falsified; \
             look for the proof of another leaf; clauses, or the units of the cube, in another \
             order; hints out of order"
        }
        b"empty" => {
            "the empty clause was added, but its hints lead to no conflict; look for hints left \
             out, for example by a tool that trims proofs"
        }
        b"candidate" => {
            "the hints lead to no conflict, and a live clause with the negation of the first \
             literal has no group of hints; look for hints left out; or, in a RAT step, a pivot \
             that isn't first, or groups left out, also for the units of the path"
        }
        b"group" => {
            "the group of a candidate leads to no conflict; look for hints of that group left out \
             or out of order"
        }
        _ => {
            "the proof ended before the empty clause; look for a solver that was stopped, or one \
             that found a model"
        }
    }
}
