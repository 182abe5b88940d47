// The cut of a whole problem: preconditions of its writers, contents of its outputs, and demand 3 stated on the written outputs.
// There are no functions in this crate; the cut itself is `chordal_cut` in crate door.
#![tactic(auto)]
