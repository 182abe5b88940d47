// Check 5: the pattern words are complete, name their PSD cones in increasing order, and have permutations as orderings.
#![tactic(auto)]

ghost use Rattle.std.specs.Prelude.{◌≡◌, true, drop};
ghost use Rattle.layout.specs.General.Lists.{all};
ghost use Rattle.layout.specs.Problems.Patterns.{read_pattern, read_patterns, patterns, ends_right};
ghost use Rattle.supernode_tree.specs.Reads.{is_whole, pattern_at};
ghost use Rattle.sparsity_pattern.specs.Sparsity.{pattern_right, origins_rise_from, patterns_read_from};

use supernode_tree::Pattern;

// Returns whether each pattern's `orig_index` is above the one before it, and that of the first is not below `first`. The last pattern's end is not
// looked for.
fn origins_rise(first: u64, count: u32, words: &[u32]) -> bool
    requires { ends_right (read_patterns count words.now) ≡ true }
    ensures { result ≡ origins_rise_from first (patterns count words.now) }
{
    let mut least = first;
    let mut at = 0;
    for i in 0..count {
        let origin = Pattern::here(words, at).orig_index as u64;
        if origin < least {
            return false;
        }
        if i + 1 == count {
            return true;
        }
        least = origin + 1;
        at = supernode_tree::pattern_next(words, at);
    }
    true
}

// Returns whether the pattern at word `at` names a PSD cone of its dimension and its ordering is a permutation, which is short, since check 1
// bounds the dimension by 256.
fn pattern_right(cones: &[u32], words: &[u32], at: usize) -> bool
    requires { is_whole (read_pattern (drop at words.now)) ≡ true }
    ensures { result ≡ pattern_right cones.now (pattern_at words.now at) }
{
    let p = Pattern::here(words, at);
    supportedcone::is_psd_of(cones, p.orig_index as usize, p.vertex_count)
        && utils::is_short_permutation(&words[p.ordering..p.cliques])
}

// Returns whether each pattern names a PSD cone of its dimension and its ordering is a permutation. The last pattern's end is not looked for.
fn patterns_right(cones: &[u32], count: u32, words: &[u32]) -> bool
    requires { ends_right (read_patterns count words.now) ≡ true }
    ensures { result ≡ all (pattern_right cones.now) (patterns count words.now) }
{
    let mut at = 0;
    for i in 0..count {
        if !pattern_right(cones, words, at) {
            return false;
        }
        if i + 1 == count {
            return true;
        }
        at = supernode_tree::pattern_next(words, at);
    }
    true
}

// Returns whether check 5 passes and no pattern names a cone before `least`. Words that end early are found before any of their counts is used.
pub fn check_patterns(cones: &[u32], least: u64, count: u32, words: &[u32]) -> bool
    ensures { result ≡ patterns_read_from cones.now least count words.now }
{
    supernode_tree::patterns_end(count, words)
        && origins_rise(least, count, words)
        && patterns_right(cones, count, words)
}
