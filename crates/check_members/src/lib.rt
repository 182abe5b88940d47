// Sets of vertices as slices of words, in place of clarabel's `VertexSet`: tests for duplicates and for membership.
#![tactic(auto)]

ghost use Rattle.std.specs.Prelude.{◌≡◌, ◌<◌, true, length, drop, ltb};
ghost use Rattle.layout.specs.General.Lists.{all, distinct, has};
ghost use Rattle.utils.specs.Windows.{Marked};
ghost use Rattle.check_members.specs.OnceIn.{once_in, rises_below, once_below, once_below_in, Unmarks};

// ---- by searching

// Checks that `a` is duplicate-free.
pub fn is_distinct(a: &[u32]) -> bool
    ensures { result ≡ distinct a.now }
{
    for (i, x) in a.iter().enumerate() {
        if a[i + 1..].contains(x) {
            return false;
        }
    }
    true
}

// Checks that `us` is strictly increasing with all numbers below `n`, as the members of a clique usually are.
pub fn rises_below(us: &[u32], n: usize) -> bool
    ensures { result ≡ rises_below 0 n us.now }
{
    let mut least = 0;
    for &u in us {
        let v = u as usize;
        if v < least || n <= v {
            return false;
        }
        least = v + 1;
    }
    true
}

// Checks that `us` is duplicate-free with all numbers below `n`.
fn once_below(us: &[u32], n: usize) -> bool
    ensures { result ≡ once_below n us.now }
{
    rises_below(us, n) || (utils::all_below(us, n) && is_distinct(us))
}

// Checks that each member of `us` is in `ms`. Each search starts after the last match and wraps around once, so members in the same order
// in both lists take a single pass over `ms`.
pub fn held(us: &[u32], ms: &[u32]) -> bool
    ensures { result ≡ all (λ u. has u ms.now) us.now }
{
    let mut ok = true;
    let mut j = 0;
    'walk: for &x in us {
        let mut around = false;
        loop {
            if ms.len() <= j {
                if around {
                    ok = false;
                    break 'walk;
                }
                around = true;
                j = 0;
                continue;
            }
            if x == ms[j] {
                break;
            }
            j += 1;
        }
        j += 1;
    }
    ok
}

// Checks that `us` is duplicate-free, with all numbers below `n` and in `ms`, by searching.
fn once_in_walk(us: &[u32], ms: &[u32], n: usize) -> bool
    ensures { result ≡ once_below_in n ms.now us.now }
{
    once_below(us, n) && held(us, ms)
}

// ---- with marks

// Marks the numbers of `words` that are in the window of `marks.len()` numbers from `low` on; clears all other marks.
fn mark_only(words: &[u32], low: usize, marks: &mut [bool])
    ensures { Marked low marks.new words.now }
{
    utils::clear(&mut *marks);
    for &word in words {
        let x = word as usize;
        if low <= x && x - low < marks.len() {
            marks[x - low] = true;
        }
    }
}

// Checks that each number of `words` in the window is marked, and clears its mark, so that a duplicate fails.
fn unmark(words: &[u32], low: usize, marks: &mut [bool]) -> bool
    ensures { Unmarks low marks.old words.now result }
{
    for &word in words {
        let x = word as usize;
        if low <= x && x - low < marks.len() {
            if !marks[x - low] {
                return false;
            }
            marks[x - low] = false;
        }
    }
    true
}

// Checks that `us`, whose numbers are below `n`, is duplicate-free with all numbers in `ms`. Works in windows of `marks.len()` numbers;
// `marks` is overwritten.
fn once_in_by(us: &[u32], ms: &[u32], n: usize, marks: &mut [bool]) -> bool
    requires us_value { all (λ x. ltb x n) us.now ≡ true }
    requires marks_nonzero { 0 < length marks.old }
    ensures { result ≡ once_in ms.now us.now }
{
    let mut low = 0;
    loop {
        mark_only(ms, low, &mut *marks);
        if !unmark(us, low, &mut *marks) {
            return false;
        }
        if n - low <= marks.len() {
            return true;
        }
        low += marks.len();
    }
}

// Lists of up to this length are searched rather than marked; the cliques of a valid pattern are no longer.
const FEW: usize = constants::scratch::VERTICES;

// Checks that `us` is duplicate-free, with all numbers below `n` and in `ms`: by searching if both are short, otherwise with `marks`.
pub fn once_in(us: &[u32], ms: &[u32], n: usize, marks: &mut [bool]) -> bool
    requires { 0 < length marks.old }
    ensures { result ≡ once_below_in n ms.now us.now }
{
    if us.len() <= FEW && ms.len() <= FEW {
        return once_in_walk(us, ms, n);
    }
    utils::all_below(us, n) && once_in_by(us, ms, n, marks)
}
