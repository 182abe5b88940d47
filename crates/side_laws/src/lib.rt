// The cuts with several right sides: preconditions of their writers and contents of their outputs, where nothing is refused.
// There are no functions in this crate; the cuts are `cut_between` in crate cut_with_limits and `cut_many` in crate cut_with_sides.
#![tactic(auto)]
